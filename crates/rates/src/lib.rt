// Rate books: the guarantee that one uncovered written lot asks for.
#![tactic(auto)]

mod bands;
pub mod laws;
pub mod list;
pub mod percentages;
pub mod rate_book;
mod rounding;
pub mod scale;
pub mod surcharge;
