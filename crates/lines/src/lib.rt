// The standing strategy lines: which lots they group, and which of them are broken.
#![tactic(auto)]

pub mod lots;
pub mod row_set;
pub mod table;
pub mod tally;
