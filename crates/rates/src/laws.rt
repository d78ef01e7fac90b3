// What follows from the definitions of the rates, whatever the figures are.
ghost use Rattle.rates.specs.Laws.{Laws};

/// Rounding, the floors of calls and puts, and two laws of the surcharge: a proof, and nothing to run.
pub fn laws_stand()
    ensures { Laws }
{}
