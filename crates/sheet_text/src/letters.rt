// The letter that a record begins with.
ghost use Rattle.std.specs.Prelude.{◌≡◌};
ghost use Rattle.sheet_text.specs.Letters.{kind_letter, sort_of};

use terms::strategy::Kind;

/// What a record is, by its letter.
#[derive(Clone, Copy)]
pub(super) enum Sort {
    Head,
    Strategy(Kind),
    Trailer,
}

/// What the letter stands for, if it is a record's.
// Stays: the product prescribes one function of a character, with a case for each letter as it is written.
pub(super) fn sort_of(letter: char) -> Option<Sort>
    ensures { result ≡ sort_of letter }
{
    match letter {
        'H' => Some(Sort::Head),
        'T' => Some(Sort::Trailer),
        'O' => Some(Sort::Strategy(Kind::Opposed)),
        'M' => Some(Sort::Strategy(Kind::BoughtButterfly)),
        'V' => Some(Sort::Strategy(Kind::SoldButterfly)),
        'C' => Some(Sort::Strategy(Kind::SoldCone)),
        'K' => Some(Sort::Strategy(Kind::Covered)),
        'F' => Some(Sort::Strategy(Kind::TermPurchase)),
        'G' => Some(Sort::Strategy(Kind::TermSale)),
        _ => None,
    }
}

/// The letter of a strategy.
// Stays: a function, since `From` can join no two types of other crates.
pub(super) fn letter_of(kind: Kind) -> u8
    ensures { result ≡ kind_letter kind }
{
    match kind {
        Kind::Opposed => b'O',
        Kind::BoughtButterfly => b'M',
        Kind::SoldButterfly => b'V',
        Kind::SoldCone => b'C',
        Kind::Covered => b'K',
        Kind::TermPurchase => b'F',
        Kind::TermSale => b'G',
    }
}
