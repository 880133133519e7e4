//! What the items of a list are.

#[derive(Clone, Copy)]
pub enum Item {
    Term,
    Symbol,
    /// A numeral, or a minus sign and a numeral in brackets.
    Argument,
}
