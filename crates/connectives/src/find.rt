//! The table of rules, and the search for a rule by its name.
ghost use Rattle.std.specs.Prelude.{◌≡◌, map};
ghost use Rattle.std.specs.Option.{option_map};
ghost use Rattle.connectives.specs.Table.{rule_named, table as the_table};
ghost use Rattle.connectives.specs.Search.{seen};

use crate::table::{Connective, Part, Piece, Rule};
use referee::same_name;

const T: Piece = Piece {
    negative: false,
    part: Part::Whole,
};

const NOT_T: Piece = Piece {
    negative: true,
    part: Part::Whole,
};

const PHI_I: Piece = Piece {
    negative: false,
    part: Part::Picked,
};

const NOT_PHI_I: Piece = Piece {
    negative: true,
    part: Part::Picked,
};

const PHIS: Piece = Piece {
    negative: false,
    part: Part::All,
};

const NOT_PHIS: Piece = Piece {
    negative: true,
    part: Part::All,
};

const A: Piece = Piece {
    negative: false,
    part: Part::First,
};

const NOT_A: Piece = Piece {
    negative: true,
    part: Part::First,
};

const B: Piece = Piece {
    negative: false,
    part: Part::Second,
};

const NOT_B: Piece = Piece {
    negative: true,
    part: Part::Second,
};

static TABLE: [Rule; 25] = [
    Rule {
        name: b"true",
        connective: Connective::True,
        premise: None,
        clause: &[T],
    },
    Rule {
        name: b"false",
        connective: Connective::False,
        premise: None,
        clause: &[NOT_T],
    },
    Rule {
        name: b"not_not",
        connective: Connective::Any,
        premise: None,
        clause: &[NOT_T, T],
    },
    Rule {
        name: b"and_pos",
        connective: Connective::And,
        premise: None,
        clause: &[NOT_T, PHI_I],
    },
    Rule {
        name: b"and_neg",
        connective: Connective::And,
        premise: None,
        clause: &[T, NOT_PHIS],
    },
    Rule {
        name: b"or_pos",
        connective: Connective::Or,
        premise: None,
        clause: &[NOT_T, PHIS],
    },
    Rule {
        name: b"or_neg",
        connective: Connective::Or,
        premise: None,
        clause: &[T, NOT_PHI_I],
    },
    Rule {
        name: b"implies_pos",
        connective: Connective::Implies,
        premise: None,
        clause: &[NOT_T, NOT_A, B],
    },
    Rule {
        name: b"implies_neg1",
        connective: Connective::Implies,
        premise: None,
        clause: &[T, A],
    },
    Rule {
        name: b"implies_neg2",
        connective: Connective::Implies,
        premise: None,
        clause: &[T, NOT_B],
    },
    Rule {
        name: b"equiv_pos1",
        connective: Connective::Equiv,
        premise: None,
        clause: &[NOT_T, A, NOT_B],
    },
    Rule {
        name: b"equiv_pos2",
        connective: Connective::Equiv,
        premise: None,
        clause: &[NOT_T, NOT_A, B],
    },
    Rule {
        name: b"equiv_neg1",
        connective: Connective::Equiv,
        premise: None,
        clause: &[T, NOT_A, NOT_B],
    },
    Rule {
        name: b"equiv_neg2",
        connective: Connective::Equiv,
        premise: None,
        clause: &[T, A, B],
    },
    Rule {
        name: b"and",
        connective: Connective::And,
        premise: Some(T),
        clause: &[PHI_I],
    },
    Rule {
        name: b"or",
        connective: Connective::Or,
        premise: Some(T),
        clause: &[PHIS],
    },
    Rule {
        name: b"implies",
        connective: Connective::Implies,
        premise: Some(T),
        clause: &[NOT_A, B],
    },
    Rule {
        name: b"equiv1",
        connective: Connective::Equiv,
        premise: Some(T),
        clause: &[NOT_A, B],
    },
    Rule {
        name: b"equiv2",
        connective: Connective::Equiv,
        premise: Some(T),
        clause: &[A, NOT_B],
    },
    Rule {
        name: b"not_or",
        connective: Connective::Or,
        premise: Some(NOT_T),
        clause: &[NOT_PHI_I],
    },
    Rule {
        name: b"not_and",
        connective: Connective::And,
        premise: Some(NOT_T),
        clause: &[NOT_PHIS],
    },
    Rule {
        name: b"not_implies1",
        connective: Connective::Implies,
        premise: Some(NOT_T),
        clause: &[A],
    },
    Rule {
        name: b"not_implies2",
        connective: Connective::Implies,
        premise: Some(NOT_T),
        clause: &[NOT_B],
    },
    Rule {
        name: b"not_equiv1",
        connective: Connective::Equiv,
        premise: Some(NOT_T),
        clause: &[A, B],
    },
    Rule {
        name: b"not_equiv2",
        connective: Connective::Equiv,
        premise: Some(NOT_T),
        clause: &[NOT_A, NOT_B],
    },
];

fn rules() -> &'static [Rule]
    ensures { map seen result.now ≡ the_table }
{
    &TABLE
}

/// The rule with a name.
pub(crate) fn find(name: &[u8]) -> Option<Rule>
    ensures { option_map seen result ≡ rule_named name.now }
{
    rules()
        .iter()
        .find(|rule| same_name(name, rule.name))
        .copied()
}
