//! What can be wrong with a command's declarations and terms, and where.
ghost use Rattle.std.specs.Prelude.{◌≡◌, Some};
ghost use Rattle.declarations.specs.Faults.{number_of, place_of, message_of};

use std::fmt;

#[derive(Clone, Copy, Debug, PartialEq)]
pub enum TermFault {
    /// This word is no name, or no sort where a sort is due.
    Unknown { at: usize },
    /// This word has a meaning already.
    Taken { at: usize },
    /// This term's arguments are too few, too many or of other sorts, or the term is of another sort
    /// than is due.
    Misfit { at: usize },
    /// The list has no room for the entry that this would make.
    Full { at: usize },
}

// Each layer has faults of its own, with numbers and words that no other has.
impl TermFault {
    /// The refusal's number, by which people are told of it.
    pub fn number(self) -> u8
        ensures { result ≡ number_of self }
    {
        match self {
            TermFault::Unknown { .. } => 30,
            TermFault::Taken { .. } => 31,
            TermFault::Misfit { .. } => 32,
            TermFault::Full { .. } => 33,
        }
    }

    /// The place of the first byte of what is at fault.
    pub fn place(self) -> usize
        ensures { result ≡ place_of self }
    {
        match self {
            TermFault::Unknown { at }
            | TermFault::Taken { at }
            | TermFault::Misfit { at }
            | TermFault::Full { at } => at,
        }
    }
}

/// The words that people see.
impl fmt::Display for TermFault {
    ghost output = { λ fault. Some (message_of fault) };

    fn fmt<W: fmt::Write>(&self, f: &mut fmt::Formatter<W>) -> fmt::Result {
        match *self {
            TermFault::Unknown { .. } => f.write_str("a word that is not declared"),
            TermFault::Taken { .. } => f.write_str("a word that has a meaning already"),
            TermFault::Misfit { .. } => f.write_str(
                "a term with arguments or a sort that do not fit",
            ),
            TermFault::Full { .. } => f.write_str("no room for one more in the list"),
        }
    }
}
