// Strategies: the lines of a sheet, in which lots of several rows stand together.
ghost use Rattle.std.specs.Prelude.{◌≡◌};
ghost use Rattle.terms.specs.Sides.{writes};

/// What a strategy is.
#[derive(Clone, Copy, PartialEq, Eq, Debug, Default)]
pub enum Kind {
    #[default]
    Opposed,
    BoughtButterfly,
    SoldButterfly,
    SoldCone,
    Covered,
    TermPurchase,
    TermSale,
}

impl Kind {
    /// Whether the lots of a leg are written ones; those of every other leg are held.
    pub fn writes(self, leg: usize) -> bool
        ensures { result ≡ writes self leg }
    {
        match self {
            Kind::Opposed | Kind::Covered | Kind::TermPurchase => leg == 0,
            Kind::BoughtButterfly | Kind::TermSale => leg == 1,
            Kind::SoldButterfly => leg == 0 || leg == 2,
            Kind::SoldCone => leg == 0 || leg == 1,
        }
    }
}

/// So many lots of a row; 0 lots say that the leg is not used.
// Stays: 0 and no Option, since a sheet can have a row in a leg without lots, which is denied where it is written.
#[derive(Clone, Copy, PartialEq, Eq, Debug, Default)]
pub struct Leg {
    pub row: u32,
    pub lots: u32,
}

/// A strategy line: its kind and its four legs; the default one, of unused legs, stands where a list has no line yet.
#[derive(Clone, Copy, PartialEq, Eq, Debug, Default)]
pub struct Line {
    pub kind: Kind,
    pub legs: [Leg; 4],
}
