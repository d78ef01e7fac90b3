// What every denial tells: its layer, its number and its place.
ghost use Rattle.std.specs.Prelude.{◌≡◌, ℕ, Some};
ghost use Rattle.terms.specs.declared.denial.Layer.{Layer};
ghost use Rattle.terms.specs.declared.denial.Place.{Place};
ghost use Rattle.terms.specs.Texts.{layer_text, place_text};

use std::fmt;

/// Which part of the engine denied a call.
#[derive(Clone, Copy, PartialEq, Eq, Debug)]
pub enum Layer {
    Text,
    Sheet,
    Book,
}

/// What a denial points at.
#[derive(Clone, Copy, PartialEq, Eq, Debug)]
pub enum Place {
    Nowhere,
    Number(u64),
    Leg { line: u64, leg: u64 },
}

impl fmt::Display for Layer {
    ghost output = { λ layer. Some (layer_text layer) };

    fn fmt<W: fmt::Write>(&self, f: &mut fmt::Formatter<W>) -> fmt::Result {
        match self {
            Layer::Text => write!(f, "text"),
            Layer::Sheet => write!(f, "sheet"),
            Layer::Book => write!(f, "book"),
        }
    }
}

impl fmt::Display for Place {
    ghost output = { λ place. Some (place_text place) };

    fn fmt<W: fmt::Write>(&self, f: &mut fmt::Formatter<W>) -> fmt::Result {
        match self {
            Place::Nowhere => Ok(()),
            Place::Number(number) => write!(f, " at {number}"),
            Place::Leg { line, leg } => write!(f, " at {line} {leg}"),
        }
    }
}

/// Why a call was denied.
pub trait Denial {
    ghost layer_of: { Self → Layer };

    ghost number_of: { Self → ℕ };

    ghost place_of: { Self → Place };

    fn layer(&self) -> Layer
        ensures { result ≡ layer_of self.now };

    // Stays: a number, since the product numbers its denials.
    fn number(&self) -> u64
        ensures { result ≡ number_of self.now };

    fn place(&self) -> Place
        ensures { result ≡ place_of self.now };
}
