//! Terms are kept once each.
ghost use Rattle.std.specs.Prelude.{◌≤◌, take};
ghost use Rattle.entries.specs.Filing.{room, Files, Filed};

use crate::entry::Term;
use crate::limits::MOST_TERMS;
use crate::search::position;

/// The place of `term` among the first `count` of `terms`: where an equal one stands, or else at the
/// end, which then is one further. `None` where it would go to the end and the list is full.
// A count beside the memory: both are the caller's, who lends them for the call.
pub fn intern(terms: &mut [Term], count: &mut usize, term: Term) -> Option<u16>
    requires { count.old ≤ room 4096 terms.old }
    ensures filed { Files terms.old count.old term result terms.new count.new }
    ensures stands { Filed (room 4096 terms.old) term result (take count.new terms.new) }
    ensures fits { count.new ≤ room 4096 terms.new }
{
    let end = *count;
    match position(terms, end, &term) {
        Some(place) => Some(place as u16),
        None => {
            if end >= MOST_TERMS.min(terms.len()) {
                return None;
            }
            terms[end] = term;
            *count = end + 1;
            Some(end as u16)
        }
    }
}
