// The journal: its lines, read as commands, and its answers, written as text.
#![tactic(auto)]

pub mod answer;
pub mod command;
pub mod fault;
pub mod words;
