//! A symbol that a command names.

/// A symbol's place in the command's text, and its bytes.
#[derive(Clone, Copy)]
pub struct Word<'a> {
    pub at: usize,
    pub text: &'a [u8],
}
