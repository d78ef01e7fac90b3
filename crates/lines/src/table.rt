// The table of standing lines: at most 64, in memory of its own.
ghost use Rattle.std.specs.Prelude.{◌≡◌, ◌≤◌, ◌↔◌, ℕ, Bool, [], length, slice_get, IsOk, OnOk, OnErr, OnSome, IfNone};
ghost use Rattle.std.specs.List.{remove};
ghost use Rattle.lines.specs.Broken.{Broken, Front, sparing, sparing_from};
ghost use Rattle.lines.specs.Lots.{Computes};

use crate::lots::{Lots, lots_in};
use crate::row_set::{RowSet, touches_any};
use arrayvec::ArrayVec;
use std::marker::Model;
use terms::limits::MAX_LINES;
use terms::strategy::Line;

/// A sheet has more lines than can stand at once.
#[derive(Clone, Copy, PartialEq, Eq, Debug)]
pub struct TooManyLines;

/// The standing lines, by number.
#[derive(Drop)]
pub struct Lines {
    items: ArrayVec<Line, MAX_LINES>,
}

impl Model for Lines {
    ghost use Rattle.std.specs.Prelude.{◌≤◌, List};
    ghost use Rattle.arrayvec.specs.ArrayVec.{array_vec_len};
    ghost use Rattle.terms.specs.declared.strategy.Line.{Line};

    ghost Value = { List Line };

    ghost view = { λ lines. lines.items.items };

    ghost invariant = { λ lines. array_vec_len lines.items ≤ 64 };
}

impl Lines {
    /// No lines.
    pub fn new() -> Lines
        ensures { result ≡ [] }
    {
        Lines {
            items: ArrayVec::new(),
        }
    }

    /// The lines that stand.
    pub fn as_slice(&self) -> &[Line]
        ensures lines { result.now ≡ self.now }
        ensures few { length result.now ≤ 64 }
    {
        self.items.as_slice()
    }

    /// Removes all lines.
    pub fn clear(&mut self)
        ensures { self.new ≡ [] }
    {
        self.items.clear();
    }

    /// Takes up the lines of a sheet in the place of its own, where there are at most 64.
    pub fn refill(&mut self, sheet: &[Line]) -> Result<(), TooManyLines>
        ensures test { IsOk result ↔ (length sheet.now ≤ 64) }
        ensures lines { OnOk result (self.new ≡ sheet.now) }
        ensures same { OnErr result (self.new ≡ self.old) }
    {
        if sheet.len() > MAX_LINES {
            return Err(TooManyLines);
        }
        self.items.clear();
        self.items
            .try_extend_from_slice(sheet)
            .map_err(|_| TooManyLines)
    }

    /// Breaks one line, where it stands, and answers it; the higher ones move down.
    pub fn remove(&mut self, line: usize) -> Option<Line>
        ensures broken { result ≡ slice_get self.old line }
        ensures lines { OnSome result (self.new ≡ remove self.old line) }
        ensures same { IfNone result (self.new ≡ self.old) }
        ensures few { length self.new ≤ 64 }
    {
        self.items.pop_at(line)
    }

    /// Breaks lines until the lots of a row fit its net, the highest-numbered users of the row first, and answers how many.
    pub fn fit(&mut self, row: usize, net: i32) -> usize
        ensures broken { Broken row net self.old result self.new }
        ensures few { length self.new ≤ 64 }
    {
        let before = self.items.len();
        let front = fitting_front(self.items.as_slice(), row, net);
        self.spare_from(front, &|used: u32| used as usize == row);
        before - self.items.len()
    }

    /// Breaks every line that uses a row of the set.
    pub fn break_users<S: RowSet>(&mut self, set: &S)
        ensures spared { self.new ≡ sparing (S.RowSet.has set.now) self.old }
        ensures few { length self.new ≤ 64 }
    {
        self.spare_from(0, &|row: u32| set.contains(row as usize));
    }

    /// Removes, from the line `from` on, every line that uses a row of the set.
    fn spare_from<F: Fn(u32) -> bool>(&mut self, from: usize, in_set: &F)
        requires { F.IsAlwaysCallable in_set.now }
        ensures spared { (has : ℕ → Bool) → Computes (F.post in_set.now) has → self.new ≡ sparing_from from has self.old }
        ensures fewer { length self.new ≤ length self.old }
        ensures few { length self.new ≤ 64 }
    {
        let mut ahead = from;
        self.items.retain(
            move |line|
                requires { F.IsAlwaysCallable in_set.now }
            {
                let is_ahead = ahead > 0;
                ahead = ahead.saturating_sub(1);
                is_ahead || !touches_any(&line.legs, in_set)
            },
        );
    }
}

/// How many lines the longest front has whose lots of the row fit the net.
fn fitting_front(lines: &[Line], row: usize, net: i32) -> usize
    ensures { Front row net lines.now result }
{
    let mut lots = Lots::default();
    // Stays: a loop, since the sums so far are kept from line to line; in a closure for `position` they would change unseen.
    for (i, line) in lines.iter().enumerate() {
        lots.add(lots_in(line, row));
        if !lots.fit(net) {
            return i;
        }
    }
    lines.len()
}
