//! How deep a command's brackets nest.
ghost use Rattle.std.specs.Prelude.{◌≡◌, ◌≤◌};
ghost use Rattle.text.specs.Tokens.{seen, tokens};
ghost use Rattle.forms.specs.Faults.{depth_after, Shallow};

use crate::fault::FormFault;
use crate::takes::next;
use text::{Reader, Token};

/// The most brackets that may be open at once.
const DEEPEST: usize = 32;

/// How many brackets are open after `token`, where `depth` were before it.
fn depth_after(depth: usize, token: Token<'_>) -> usize
    requires { depth ≤ 32 }
    ensures { result ≡ depth_after depth (seen token.entry) }
{
    match token {
        Token::Open { .. } => depth + 1,
        Token::Close { .. } => depth.saturating_sub(1),
        _ => depth,
    }
}

/// Whether at most 32 brackets are ever open, or else the fault of the first that makes more.
pub fn shallow(text: &[u8]) -> Result<(), FormFault>
    ensures { Shallow (tokens text.now) result }
{
    let mut reader = Reader::new(text);
    let mut depth = 0;
    while let Some((token, after)) = next(reader) {
        match token {
            Token::Open { at } if depth >= DEEPEST => return Err(FormFault::TooDeep { at }),
            _ => depth = depth_after(depth, token),
        }
        reader = after;
    }
    Ok(())
}
