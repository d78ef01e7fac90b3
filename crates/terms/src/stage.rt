// The stages of a book's day.

/// What a book's day has come to: in trading, lots are bought and sold; in valuing, they are grouped and the guarantee is told.
#[derive(Clone, Copy, PartialEq, Eq, Debug)]
pub enum Stage {
    Trading,
    Valuing,
}
