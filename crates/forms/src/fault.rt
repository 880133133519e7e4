//! What can be wrong with a command's form, and where.
ghost use Rattle.std.specs.Prelude.{◌≡◌, Some};
ghost use Rattle.forms.specs.Faults.{number_of, place_of, message_of};

use std::fmt;

#[derive(Clone, Copy, Debug, PartialEq)]
pub enum FormFault {
    /// This bracket opens a level below the deepest that is allowed.
    TooDeep { at: usize },
    /// No form of this part.
    NoForm,
}

// Each layer has faults of its own, with numbers and words that no other has.
impl FormFault {
    /// The refusal's number, by which people are told of it.
    pub fn number(self) -> u8
        ensures { result ≡ number_of self }
    {
        match self {
            FormFault::TooDeep { .. } => 21,
            FormFault::NoForm => 20,
        }
    }

    /// The place of the byte that is at fault.
    pub fn place(self) -> usize
        ensures { result ≡ place_of self }
    {
        match self {
            FormFault::TooDeep { at } => at,
            FormFault::NoForm => 0,
        }
    }
}

/// The words that people see.
impl fmt::Display for FormFault {
    ghost output = { λ fault. Some (message_of fault) };

    fn fmt<W: fmt::Write>(&self, f: &mut fmt::Formatter<W>) -> fmt::Result {
        match *self {
            FormFault::TooDeep { .. } => f.write_str("more than 32 brackets open at once"),
            FormFault::NoForm => f.write_str("not a command of this part"),
        }
    }
}
