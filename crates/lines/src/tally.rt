// The lots of every row that lines group, added up in one pass.
ghost use Rattle.std.specs.Prelude.{◌≡◌, ◌*◌, ◌^◌, length, not};
ghost use Rattle.lines.specs.Lots.{held_leg, written_leg, holds, writes, fits};
ghost use Rattle.lines.specs.Tally.{Below, Gains, Tallies, first_overdrawn};

use crate::lots::Lots;
use std::marker::Model;
use terms::holdings::Row;
use terms::limits::ROWS;
use terms::strategy::{Kind, Leg, Line};

/// The lots of the rows 0 to 63 that lines hold and write.
#[derive(Clone, Copy, Default)]
pub struct Tally {
    rows: [Lots; ROWS],
}

impl Model for Tally {
    ghost use Rattle.std.specs.Prelude.{List};
    ghost use Rattle.lines.specs.declared.lots.Lots.{Lots};

    ghost Value = { List Lots };

    ghost view = { λ tally. tally.rows };

    ghost inverse = { λ rows. record { rows = rows } };
}

impl Tally {
    /// The lots of each row that lines group.
    pub fn of(lines: &[Line]) -> Tally
        ensures tallies { Tallies lines.now result }
        ensures rows { length result ≡ 64 }
    {
        let mut tally = Tally::default();
        for line in lines {
            tally.add_line(line);
        }
        tally
    }

    fn add_line(&mut self, line: &Line)
        requires { Below (2 ^ 99) self.old }
        ensures { Gains self.old self.new (λ r. holds r line.now) (λ r. writes r line.now) (4 * 2 ^ 32) }
    {
        // a slice, whose length the loop's proof knows
        let legs: &[Leg] = &line.legs;
        for (i, leg) in legs.iter().enumerate() {
            self.add_leg(line.kind, i, *leg);
        }
    }

    /// Adds the lots of a leg to those of its row; a row from 64 on has none.
    fn add_leg(&mut self, kind: Kind, i: usize, leg: Leg)
        requires { Below (2 ^ 100) self.old }
        ensures { Gains self.old self.new (λ r. held_leg kind r i leg) (λ r. written_leg kind r i leg) (2 ^ 32) }
    {
        let row = leg.row as usize;
        if row < ROWS {
            self.rows[row].add(Lots::of_leg(kind, i, leg));
        }
    }

    /// The first of the rows whose lots do not fit its net; a row from 64 on has no lots here.
    pub fn first_overdrawn(&self, rows: &[Row]) -> Option<usize>
        ensures { result ≡ first_overdrawn self.now 0 rows.now }
    {
        rows.iter()
            .zip(&self.rows)
            .position(|(row, lots)| is_overdrawn(row, *lots))
    }
}

fn is_overdrawn(row: &Row, lots: Lots) -> bool
    ensures { result ≡ not (fits row.now.net lots.held lots.written) }
{
    !lots.fit(row.net)
}
