//! The rules of equality by their names.
ghost use Rattle.std.specs.Prelude.{◌≡◌};
ghost use Rattle.equality.specs.Names.{rule_named};

/// A rule of equality.
#[derive(Clone, Copy)]
pub enum Rule {
    /// `eq_reflexive` and `refl`.
    Reflexive,
    /// `eq_transitive`.
    Transitive,
    /// `eq_congruent`.
    Congruent,
    /// `trans`.
    Trans,
    /// `cong`.
    Cong,
}

/// The rules by their names.
static NAMED: [(&'static [u8], Rule); 6] = [
    (b"eq_reflexive", Rule::Reflexive),
    (b"refl", Rule::Reflexive),
    (b"eq_transitive", Rule::Transitive),
    (b"eq_congruent", Rule::Congruent),
    (b"trans", Rule::Trans),
    (b"cong", Rule::Cong),
];

/// The rule with the name `name`.
pub(crate) fn rule_named(name: &[u8]) -> Option<Rule>
    ensures { result ≡ rule_named name.now }
{
    NAMED
        .iter()
        .find(|(known, _)| name == *known)
        .map(|(_, rule)| *rule)
}
