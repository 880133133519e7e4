//! What a referee answers.
ghost use Rattle.std.specs.Prelude.{◌≡◌, Some};
ghost use Rattle.referee.specs.Rulings.{number_of, message_of};

use std::fmt;

/// The answer of a referee: the step keeps its rule, or why not.
// No `Result`, which is no plainer: a yes has words of its own, and no `?` hands a ruling on.
#[derive(Clone, Copy, Debug, PartialEq, Eq)]
pub enum Ruling {
    Yes,
    /// The rule is not met.
    Unmet,
    /// The arguments are not those that the rule takes.
    Arguments,
    /// A linear form has a factor or a constant beyond what is reckoned with.
    Overflow,
}

impl Ruling {
    /// The number of the refusal; a yes is none.
    pub fn number(self) -> Option<u8>
        ensures { result ≡ number_of self }
    {
        match self {
            Ruling::Yes => None,
            Ruling::Unmet => Some(50),
            Ruling::Arguments => Some(51),
            Ruling::Overflow => Some(52),
        }
    }
}

/// The words that people see.
impl fmt::Display for Ruling {
    ghost output = { λ ruling. Some (message_of ruling) };

    fn fmt<W: fmt::Write>(&self, f: &mut fmt::Formatter<W>) -> fmt::Result {
        match *self {
            Ruling::Yes => f.write_str("the step keeps its rule"),
            Ruling::Unmet => f.write_str("the step does not keep its rule"),
            Ruling::Arguments => f.write_str("arguments that the rule does not take"),
            Ruling::Overflow => f.write_str("a number beyond 1,000,000,000 in a linear form"),
        }
    }
}
