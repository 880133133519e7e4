//! Why the program ends with status 1.
use std::io;

/// What went wrong; a line on it is printed before.
#[derive(Debug, Drop)]
pub enum Failure {
    /// The arguments are not two files.
    Usage,
    /// A file could not be read.
    Unreadable,
    /// Some command was refused.
    Refused,
    /// The answer could not be written.
    Output(io::Error),
}

impl From<io::Error> for Failure {
    fn from(error: io::Error) -> Failure {
        Failure::Output(error)
    }
}
