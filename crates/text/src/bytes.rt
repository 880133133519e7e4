//! The classes of bytes.
ghost use Rattle.std.specs.Prelude.{◌≡◌};
ghost use Rattle.text.specs.Bytes.{is_name, kind};

/// What a byte outside comments can begin.
#[derive(Clone, Copy, Debug, PartialEq)]
pub enum Kind {
    /// Space, tab, line feed or carriage return.
    Blank,
    /// A semicolon, which begins a comment.
    Comment,
    Open,
    Close,
    /// A colon, which begins a keyword.
    Colon,
    /// A digit, which begins a numeral.
    Digit,
    /// A name byte other than a digit, which begins a symbol.
    Initial,
    /// A byte of no token.
    Other,
}

/// Whether `b` is a name byte.
pub fn is_name(b: u8) -> bool
    ensures { result ≡ is_name b }
{
    matches!(
        b as char,
        'a'..='z' | 'A'..='Z' | '0'..='9'
            | '~' | '!' | '@' | '$' | '%' | '^' | '&' | '*' | '_'
            | '-' | '+' | '=' | '<' | '>' | '.' | '?' | '/'
    )
}

pub fn kind_of(b: u8) -> Kind
    ensures { result ≡ kind b }
{
    match b as char {
        ' ' | '\t' | '\n' | '\r' => Kind::Blank,
        ';' => Kind::Comment,
        '(' => Kind::Open,
        ')' => Kind::Close,
        ':' => Kind::Colon,
        '0'..='9' => Kind::Digit,
        _ => {
            if is_name(b) {
                Kind::Initial
            } else {
                Kind::Other
            }
        }
    }
}
