// Slips: what admits a caller to the calls of a stage. A slip is moved, never copied; a call that changes the stage takes the
// slip and gives the one of the next stage, or hands it back where it is denied.
ghost use Rattle.terms.specs.declared.stage.Stage.{Stage};
ghost use Rattle.terms.specs.declared.stage.Stage.TheVariants as stages;

use denials::book::BookFault;
use std::marker::PhantomData;
use terms::stage::Stage;

/// A stage of a book's day, as a type.
pub(crate) trait InStage {
    ghost STAGE: { Stage };

    const STAGE: Stage;
}

/// A book's day in trading.
pub struct InTrading;

/// A book's day in valuing.
pub struct InValuing;

impl InStage for InTrading {
    ghost STAGE = { stages.Trading };

    const STAGE: Stage = Stage::Trading;
}

impl InStage for InValuing {
    ghost STAGE = { stages.Valuing };

    const STAGE: Stage = Stage::Valuing;
}

/// Admits its holder to the calls of a stage.
#[derive(Drop)]
pub struct Slip<S> {
    pub(crate) book: u32,
    pub(crate) day: u32,
    pub(crate) stage: PhantomData<S>,
}

/// Admits listing, quoting, trading and ending the session.
pub type TradingSlip = Slip<InTrading>;

/// Admits the next day.
pub type ValuingSlip = Slip<InValuing>;

/// A change of stage that was denied: why, and the slip that it was to take.
#[derive(Drop)]
pub struct Denied<S> {
    pub slip: S,
    pub fault: BookFault,
}
