// What another crate can prove of any book.
ghost use Rattle.std.specs.Prelude.{◌≤◌, length};
ghost use Rattle.book.specs.View.{view};

use book::ledger::Book;

/// A book lists at most 16 securities and 64 rows, and has at most 64 lines.
pub fn tables_are_bounded(book: &Book)
    ensures securities { length (view book.now).securities ≤ 16 }
    ensures rows { length (view book.now).rows ≤ 64 }
    ensures lines { length (view book.now).lines ≤ 64 }
{}
