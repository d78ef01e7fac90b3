// Which lots of a row a line groups.
ghost use Rattle.std.specs.Prelude.{◌≡◌, ◌+◌, ◌*◌, ◌^◌, ◌<◌, cond};
ghost use Rattle.terms.specs.Sides.{writes as writes_leg};
ghost use Rattle.lines.specs.Lots.{held_leg, written_leg, holds, writes, fits, AtMost};

use terms::strategy::{Kind, Leg, Line};

/// Lots of a row, held and written.
#[derive(Clone, Copy, Default)]
pub struct Lots {
    pub held: u128,
    pub written: u128,
}

impl Lots {
    /// The lots of a leg, on their side.
    pub fn of_leg(kind: Kind, i: usize, leg: Leg) -> Lots
        ensures held { result.held ≡ cond (writes_leg kind i) 0 leg.lots }
        ensures written { result.written ≡ cond (writes_leg kind i) leg.lots 0 }
        ensures bound { AtMost (2 ^ 32) result }
    {
        let lots = u128::from(leg.lots);
        if kind.writes(i) {
            Lots {
                held: 0,
                written: lots,
            }
        } else {
            Lots {
                held: lots,
                written: 0,
            }
        }
    }

    /// Adds lots, each to those of its side.
    pub(crate) fn add(&mut self, more: Lots)
        requires held { self.old.held + more.held < 2 ^ 128 }
        requires written { self.old.written + more.written < 2 ^ 128 }
        ensures held { self.new.held ≡ self.old.held + more.held }
        ensures written { self.new.written ≡ self.old.written + more.written }
    {
        self.held += more.held;
        self.written += more.written;
    }

    /// Whether the lots lie within a net, on its side.
    pub fn fit(self, net: i32) -> bool
        ensures { result ≡ fits net self.held self.written }
    {
        let most = u128::from(net.unsigned_abs());
        if net >= 0 {
            self.held <= most && self.written == 0
        } else {
            self.held == 0 && self.written <= most
        }
    }
}

/// The lots of a row that a line groups.
pub fn lots_in(line: &Line, row: usize) -> Lots
    ensures held { result.held ≡ holds row line.now }
    ensures written { result.written ≡ writes row line.now }
    ensures bound { AtMost (4 * 2 ^ 32) result }
{
    // a slice, whose length the loop's proof knows
    let legs: &[Leg] = &line.legs;
    let mut lots = Lots::default();
    // Stays: a loop, since adding asks that the sums fit, and of a closure for `fold` that stayed open.
    for (i, leg) in legs.iter().enumerate() {
        lots.add(leg_lots_in(line.kind, i, *leg, row));
    }
    lots
}

fn leg_lots_in(kind: Kind, i: usize, leg: Leg, row: usize) -> Lots
    ensures held { result.held ≡ held_leg kind row i leg }
    ensures written { result.written ≡ written_leg kind row i leg }
    ensures bound { AtMost (2 ^ 32) result }
{
    if leg.row as usize == row {
        Lots::of_leg(kind, i, leg)
    } else {
        Lots::default()
    }
}
