// A strategy sheet as text: the day and its strategy lines, one record after another.
//
// A record has 38 bytes, the last a line feed. A number is decimal, right-justified after spaces in its columns, without
// leading zeros. First comes the head: `H`, the day in 8 columns, 28 spaces. Then come the strategies: the letter of the
// kind and four legs, each a row in 3 columns and lots from 1 in 6, or nine spaces where the leg is unused. Last comes the
// trailer: `T`, the number of strategies in 8 columns, 28 spaces.
#![tactic(auto)]

pub mod fault;
mod fields;
mod letters;
pub mod reader;
mod records;
pub mod writer;
