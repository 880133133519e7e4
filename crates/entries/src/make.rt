//! How entries are made, and how what they hold is read.
ghost use Rattle.std.specs.Prelude.{◌≡◌, ◌≤◌, length, take};

use crate::entry::{Head, Name, Sort, Symbol, Term};
use crate::few::Few;

impl Name {
    /// The name `word`, which takes the first 64 of `takes` and gives `gives`.
    pub fn new(word: Symbol, takes: &[Sort], gives: Sort) -> Name
        ensures { result ≡ record { word = word; takes = take 64 takes.now; gives = gives } }
    {
        Name {
            word,
            takes: Few::new(takes),
            gives,
        }
    }

    /// The sorts that the name takes.
    pub fn takes(&self) -> &[Sort]
        ensures sorts { result.now ≡ self.now.takes }
        ensures few { length self.now.takes ≤ 64 }
    {
        self.takes.as_slice()
    }
}

impl Term {
    /// A term over the first 64 of `args`.
    pub fn new(head: Head, sort: Sort, args: &[u16]) -> Term
        ensures { result ≡ record { head = head; sort = sort; args = take 64 args.now } }
    {
        Term {
            head,
            sort,
            args: Few::new(args),
        }
    }

    /// The arguments, by their numbers.
    pub fn args(&self) -> &[u16]
        ensures numbers { result.now ≡ self.now.args }
        ensures few { length self.now.args ≤ 64 }
    {
        self.args.as_slice()
    }
}
