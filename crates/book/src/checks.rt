// The tests that calls on a book share.
ghost use Rattle.std.specs.Prelude.{◌≡◌};
ghost use Rattle.book.specs.Calls.{admits};
ghost use Rattle.book.specs.View.{view};

use crate::ledger::Book;
use crate::slips::{InStage, Slip};
use denials::book::{BookFault, Figure};

/// An argument, by its position, that is outside its limits.
pub(crate) fn outside(position: u64, figure: Figure) -> BookFault
    ensures { result ≡ BookFault.OutOfLimits position figure }
{
    BookFault::OutOfLimits { position, figure }
}

impl Book {
    /// Denies a slip that is not the book's of today, or of another stage.
    pub(crate) fn admits<S: InStage>(&self, slip: &Slip<S>) -> Result<(), BookFault>
        ensures { result ≡ admits S.STAGE (view self.now) slip.now.book slip.now.day }
    {
        let current = self.stage == Some(S::STAGE)
            && slip.book == self.number
            && slip.day == self.day;
        current.then_some(()).ok_or(BookFault::Stale)
    }
}
