// The book of one client.
ghost use Rattle.std.specs.Prelude.{◌≤◌, length};

use crate::rows::Rows;
use crate::securities::Securities;
use lines::table::Lines;
use terms::stage::Stage;

/// A client's book: its number, its day, the stage of the day, and what it lists. One that was never opened has no stage.
#[derive(Drop)]
pub struct Book {
    pub(crate) number: u32,
    pub(crate) day: u32,
    pub(crate) stage: Option<Stage>,
    pub(crate) securities: Securities,
    pub(crate) rows: Rows,
    pub(crate) lines: Lines,
    ghost few: { length lines ≤ 64 },
}

/// Under which numbers a security and its deposit were listed.
#[derive(Clone, Copy)]
pub struct Listed {
    pub security: u64,
    pub row: u64,
}
