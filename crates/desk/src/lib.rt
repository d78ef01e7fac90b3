// The desk: what a journal's commands act on, and their answers.
#![tactic(auto)]

pub mod desk;
pub mod present;
mod sheets;
