//! What can be wrong with a command, in each of the layers.
ghost use Rattle.std.specs.Prelude.{◌≡◌, Some};
ghost use Rattle.commands.specs.Faults.{number_of, place_of, layer_of, message_of, name_of};
ghost use Rattle.commands.specs.declared.fault.Fault.TheVariants.{Token, Form};

use forms::FormFault;
use std::fmt;
use text::TokenFault;

/// The layers, each of which looks at the whole command.
#[derive(Clone, Copy, Debug, PartialEq)]
pub enum Layer {
    Tokens,
    Form,
}

impl fmt::Display for Layer {
    ghost output = { λ l. Some (name_of l) };

    fn fmt<W: fmt::Write>(&self, f: &mut fmt::Formatter<W>) -> fmt::Result {
        match *self {
            Layer::Tokens => f.write_str("tokens"),
            Layer::Form => f.write_str("form"),
        }
    }
}

/// A fault of one of the layers.
#[derive(Clone, Copy)]
pub enum Fault {
    Token(TokenFault),
    Form(FormFault),
}

impl From<TokenFault> for Fault {
    ghost from_gives = { λ fault r. r ≡ Token fault };

    fn from(fault: TokenFault) -> Fault {
        Fault::Token(fault)
    }
}

impl From<FormFault> for Fault {
    ghost from_gives = { λ fault r. r ≡ Form fault };

    fn from(fault: FormFault) -> Fault {
        Fault::Form(fault)
    }
}

// Each case hands on to its layer, whose fault it is.
impl Fault {
    /// The refusal's number, by which people are told of it.
    pub fn number(self) -> u8
        ensures { result ≡ number_of self }
    {
        match self {
            Fault::Token(fault) => fault.number(),
            Fault::Form(fault) => fault.number(),
        }
    }

    /// The place of the first byte that is at fault.
    pub fn place(self) -> usize
        ensures { result ≡ place_of self }
    {
        match self {
            Fault::Token(fault) => fault.place(),
            Fault::Form(fault) => fault.place(),
        }
    }

    /// The layer that refuses.
    pub fn layer(self) -> Layer
        ensures { result ≡ layer_of self }
    {
        match self {
            Fault::Token(_) => Layer::Tokens,
            Fault::Form(_) => Layer::Form,
        }
    }
}

/// The words that people see.
impl fmt::Display for Fault {
    ghost output = { λ fault. Some (message_of fault) };

    fn fmt<W: fmt::Write>(&self, f: &mut fmt::Formatter<W>) -> fmt::Result {
        match *self {
            Fault::Token(fault) => write!(f, "{fault}"),
            Fault::Form(fault) => write!(f, "{fault}"),
        }
    }
}
