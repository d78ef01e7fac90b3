// The denials of every layer, as the answers of a journal tell them.
ghost use Rattle.std.specs.Prelude.{Some};
ghost use Rattle.journal.specs.Faults.{fault_layer, fault_number, fault_place, fault_text};

use rates::surcharge::PercentageAbove100;
use sheet_text::fault::TextFault;
use std::fmt;
use terms::denial::{Denial, Layer, Place};

/// A fault of the layer below, handed on whole.
#[derive(Clone, Copy, PartialEq, Eq, Debug)]
pub enum Fault {
    Surcharge(PercentageAbove100),
    Text(TextFault),
}

impl Denial for Fault {
    ghost layer_of = { fault_layer };

    ghost number_of = { fault_number };

    ghost place_of = { fault_place };

    fn layer(&self) -> Layer {
        match self {
            Fault::Surcharge(fault) => fault.layer(),
            Fault::Text(fault) => fault.layer(),
        }
    }

    // Stays: the product numbers its denials.
    fn number(&self) -> u64 {
        match self {
            Fault::Surcharge(fault) => fault.number(),
            Fault::Text(fault) => fault.number(),
        }
    }

    fn place(&self) -> Place {
        match self {
            Fault::Surcharge(fault) => fault.place(),
            Fault::Text(fault) => fault.place(),
        }
    }
}

impl fmt::Display for Fault {
    ghost output = { λ fault. Some (fault_text fault) };

    fn fmt<W: fmt::Write>(&self, f: &mut fmt::Formatter<W>) -> fmt::Result {
        match self {
            Fault::Surcharge(fault) => write!(f, "{fault}"),
            Fault::Text(fault) => write!(f, "{fault}"),
        }
    }
}
