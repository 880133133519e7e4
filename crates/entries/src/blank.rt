//! What stands in the places of a short list that are not used.
ghost use Rattle.std.specs.Prelude.{◌≡◌, false};
ghost use Rattle.entries.specs.declared.entry.Sort.TheVariants.{Bool};

use crate::entry::{Literal, Sort};

/// What a short list may hold: a `blank` stands in each place that is not used.
pub trait Blank: Copy {
    ghost blank: { Self };

    fn blank() -> Self
        ensures { result ≡ blank };
}

impl Blank for u8 {
    ghost blank = { 0 };

    fn blank() -> u8 {
        0
    }
}

impl Blank for u16 {
    ghost blank = { 0 };

    fn blank() -> u16 {
        0
    }
}

impl Blank for Sort {
    ghost blank = { Bool };

    fn blank() -> Sort {
        Sort::Bool
    }
}

impl Blank for Literal {
    ghost blank = { record { negative = false; term = 0 } };

    fn blank() -> Literal {
        Literal {
            negative: false,
            term: 0,
        }
    }
}
