//! The literals of leading `not`s.
use crate::Terms;
use entries::{Head, Literal, Sort, Term};
use std::test::Fail;

#[test]
fn two_nots_cancel(rt: HostRuntime) -> Result<(), Fail> {
    let plain = Term::new(Head::True, Sort::Bool, &[]);
    let once = Term::new(Head::Not, Sort::Bool, &[0]);
    let twice = Term::new(Head::Not, Sort::Bool, &[1]);
    let list = [plain, once, twice];
    let terms = Terms::new(&list);
    let odd = terms.literal(1);
    let even = terms.literal(2);
    assert!(rt; odd.negative && odd.term == 0);
    assert!(rt; !even.negative && even.term == 0);
    let clause = terms.clause(&[2, 1, 0]);
    assert_eq!(rt; clause.literals().len(), 2);
    Ok(())
}
