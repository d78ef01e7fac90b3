// Sets of rows, and the lines that use one of their rows.
ghost use Rattle.std.specs.Prelude.{◌≡◌, ℕ, Bool, ◌==◌};
ghost use Rattle.lines.specs.Lots.{Computes, takes, touches};

use terms::strategy::Leg;

/// A set of rows.
// Stays: a closure would have to be required callable, and no public function requires anything of its caller.
pub trait RowSet {
    // which rows are in it
    ghost has: { Self → ℕ → Bool };

    fn contains(&self, row: usize) -> bool
        ensures { result ≡ has self.now row };
}

/// One row alone.
#[derive(Clone, Copy)]
pub struct OneRow {
    pub row: usize,
}

impl RowSet for OneRow {
    ghost has = { λ set row. (row == set.row) };

    fn contains(&self, row: usize) -> bool {
        row == self.row
    }
}

/// Whether one of the legs is used and has a row of the set.
pub(crate) fn touches_any<F: Fn(u32) -> bool>(legs: &[Leg], in_set: &F) -> bool
    requires { F.IsAlwaysCallable in_set.now }
    ensures { (has : ℕ → Bool) → Computes (F.post in_set.now) has → result ≡ touches has legs.now }
{
    legs.iter().any(|leg| is_touched(*leg, in_set))
}

fn is_touched<F: Fn(u32) -> bool>(leg: Leg, in_set: &F) -> bool
    requires { F.IsAlwaysCallable in_set.now }
    ensures { (has : ℕ → Bool) → Computes (F.post in_set.now) has → result ≡ takes has leg }
{
    leg.lots > 0 && in_set(leg.row)
}
