//! One search for every kind of entry that has an equality.
ghost use Rattle.std.specs.Prelude.{◌≡◌, take, Decides};
ghost use Rattle.entries.specs.First.{First};
ghost use Rattle.std.proofs.Common.{refl, sym, ◌∙◌};

use crate::entry::{Literal, Name, Symbol, Term};

/// A kind of entry with an equality, by which it is looked for.
// No `PartialEq`, since names are looked for by their words alone.
pub trait Entry {
    ghost alike: { Self → Self → Type 0 };

    fn same(&self, other: &Self) -> bool
        ensures { Decides result (alike self.now other.now) };

    ghost reflexive: { (x : Self) → alike x x };

    ghost symmetric: { (x y : Self) → alike x y → alike y x };

    ghost transitive: { (x y z : Self) → alike x y → alike y z → alike x z };
}

/// Words are equal where their bytes are.
impl Entry for Symbol {
    ghost alike = { λ x y. x ≡ y };

    ghost reflexive = { λ x. refl };

    ghost symmetric = { λ x y e. sym e };

    ghost transitive = { λ x y z d e. d ∙ e };

    fn same(&self, other: &Symbol) -> bool {
        self == other
    }
}

/// Names are looked for by their words.
impl Entry for Name {
    ghost alike = { λ x y. x.word ≡ y.word };

    ghost reflexive = { λ x. refl };

    ghost symmetric = { λ x y e. sym e };

    ghost transitive = { λ x y z d e. d ∙ e };

    fn same(&self, other: &Name) -> bool {
        self.word.same(&other.word)
    }
}

/// Terms are equal where their heads, sorts and arguments are.
impl Entry for Term {
    ghost alike = { λ x y. x ≡ y };

    ghost reflexive = { λ x. refl };

    ghost symmetric = { λ x y e. sym e };

    ghost transitive = { λ x y z d e. d ∙ e };

    fn same(&self, other: &Term) -> bool {
        self == other
    }
}

/// Literals are equal where their signs and terms are.
impl Entry for Literal {
    ghost alike = { λ x y. x ≡ y };

    ghost reflexive = { λ x. refl };

    ghost symmetric = { λ x y e. sym e };

    ghost transitive = { λ x y z d e. d ∙ e };

    fn same(&self, other: &Literal) -> bool {
        self == other
    }
}

/// The place of the first of the first `count` entries that is equal to `sought`.
// A count beside the list: memory and count are the caller's, who lends them for the call.
pub fn position<E: Entry>(list: &[E], count: usize, sought: &E) -> Option<usize>
    ensures { First (λ x. E.alike x sought.now) (take count list.now) result }
{
    list.iter().take(count).position(|entry| entry.same(sought))
}
