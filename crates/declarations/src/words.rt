//! The words that have a meaning before anything is declared.
ghost use Rattle.std.specs.Prelude.{◌≡◌};
ghost use Rattle.declarations.specs.Words.{operator_of, built_in, is_reserved};

use entries::{Head, Sort};

/// The operator that a word is, if any.
#[tactic(auto, unfolding(crate::specs::Words::operators))]
pub fn operator(word: &[u8]) -> Option<Head>
    ensures { result ≡ operator_of word.now }
{
    match word {
        b"true" => Some(Head::True),
        b"false" => Some(Head::False),
        b"not" => Some(Head::Not),
        b"and" => Some(Head::And),
        b"or" => Some(Head::Or),
        b"=>" => Some(Head::Implies),
        b"=" => Some(Head::Equal),
        b"<=" => Some(Head::Le),
        b"<" => Some(Head::Lt),
        b">=" => Some(Head::Ge),
        b">" => Some(Head::Gt),
        b"+" => Some(Head::Plus),
        b"-" => Some(Head::Minus),
        b"*" => Some(Head::Times),
        _ => None,
    }
}

/// The sort that a word is with no declaration, if any.
pub fn built_in(word: &[u8]) -> Option<Sort>
    ensures { result ≡ built_in word.now }
{
    match word {
        b"Bool" => Some(Sort::Bool),
        b"Int" => Some(Sort::Int),
        _ => None,
    }
}

/// Whether a word cannot be declared.
pub fn is_reserved(word: &[u8]) -> bool
    ensures { result ≡ is_reserved word.now }
{
    operator(word).is_some() || built_in(word).is_some()
}
