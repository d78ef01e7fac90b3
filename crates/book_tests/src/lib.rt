// What another crate can prove of any book; and tests of a book's calls by hand: slips of another book, day or stage, and slips
// handed back.
#![tactic(auto)]

pub mod bounds;
#[cfg(test)]
mod tests;
