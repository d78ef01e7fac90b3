// Carries out the commands of a journal.
ghost use Rattle.std.specs.Prelude.{◌≡◌};
ghost use Rattle.journal.specs.Commands.{ordered};
ghost use Rattle.rates.specs.Scale.{scale_rate};
ghost use Rattle.desk.specs.Present.{present_rate};
ghost use Rattle.desk.specs.Answers.{contents, Surcharges, CarriesOut, Answers};

use crate::present::{Base, PresentRates};
use crate::sheets;
use journal::answer::{Answer, Refusal, Reply};
use journal::command::{Command, ReadError};
use rates::percentages::Percentages;
use rates::rate_book::RateBook;
use rates::scale::Scale;
use std::alloc::Global;
use terms::limits::SECURITIES;

/// What the commands act on.
#[derive(Drop)]
pub struct Desk {
    rates: PresentRates,
}

impl Desk {
    /// A desk that asks the scale.
    pub fn new(heap: Global) -> Desk
        ensures { present_rate result.rates ≡ scale_rate }
    {
        Desk {
            rates: PresentRates::new(heap),
        }
    }

    /// Answers what a line of a journal says; nothing where the line is skipped. `file` is what the file holds that the
    /// line names, and none where it names none or the file cannot be opened.
    pub fn answer(
        &mut self,
        heap: Global,
        line: Result<Option<Command>, ReadError>,
        file: Option<Vec<u8>>,
    ) -> Result<Option<Reply>, Refusal>
        ensures { Answers line (contents file) (present_rate self.old.rates) result (present_rate self.new.rates) }
    {
        let Some(command) = line? else {
            return Ok(None);
        };
        self.carry_out(heap, command, file).map(Some)
    }

    fn carry_out(
        &mut self,
        heap: Global,
        command: Command,
        file: Option<Vec<u8>>,
    ) -> Result<Reply, Refusal>
        ensures { CarriesOut (ordered command) (contents file) (present_rate self.old.rates) result (present_rate self.new.rates) }
    {
        match command {
            Command::RatesScale => {
                self.rates.replace(Base::Scale(Scale));
                Ok(Reply::Line(Answer::Done))
            }
            Command::RatesList(amounts) => {
                self.rates.replace(Base::List(amounts));
                Ok(Reply::Line(Answer::Done))
            }
            Command::Surcharge(each) => self.surcharge(each),
            Command::Rate(quote) => Ok(Reply::Line(Answer::Rate(self.rates.rate(&quote)))),
            Command::Check(sheet) => sheets::check(sheet.day, file),
            Command::Copy(sheet) => sheets::copy(heap, sheet.day, file),
        }
    }

    fn surcharge(&mut self, each: [u64; SECURITIES]) -> Result<Reply, Refusal>
        ensures { Surcharges each (present_rate self.old.rates) result (present_rate self.new.rates) }
    {
        let percentages = Percentages::new(each)?;
        self.rates.add(percentages)?;
        Ok(Reply::Line(Answer::Done))
    }
}
