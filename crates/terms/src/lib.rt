// What a book is made of, in the words of the options market, and the limits of its figures.
#![tactic(auto)]

pub mod denial;
pub mod holdings;
pub mod limits;
pub mod listings;
pub mod stage;
pub mod strategy;

/// Whether an option gives the right to buy or to sell.
#[derive(Clone, Copy, PartialEq, Eq, Debug)]
pub enum OptionType {
    Call,
    Put,
}
