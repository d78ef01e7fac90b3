// The guarantees of strategy lines.
#![tactic(auto)]

pub mod figures;
pub mod kinds;
