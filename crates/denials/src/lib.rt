// Why a call on a book, or the posting of a sheet, was denied.
#![tactic(auto)]

pub mod book;
pub mod sheet;
