// One client's book: what it lists, the lots traded in each row, and the calls of its days.
#![tactic(auto)]

mod checks;
mod days;
mod ended;
pub mod ledger;
mod listing;
mod quoting;
mod rows;
mod securities;
pub mod slips;
mod trading;
