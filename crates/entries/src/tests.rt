//! Small lists at their limits.
use crate::{Clause, Head, Literal, Name, Sort, Symbol, Term, intern, position};

#[test]
fn the_first_equal_word_is_found(rt: HostRuntime) {
    let a = Symbol::new(b"a");
    let b = Symbol::new(b"b");
    let list = [b, a, a, b];
    assert_eq!(rt; position(&list, 4, &a), Some(1));
    assert_eq!(rt; position(&list, 1, &a), None);
    assert_eq!(rt; position(&list, 9, &Symbol::new(b"aa")), None);
}

#[test]
fn words_are_cut_after_64_bytes(rt: HostRuntime) {
    let list = [Symbol::new(&[b'x'; 64])];
    assert_eq!(rt; position(&list, 1, &Symbol::new(&[b'x'; 65])), Some(0));
    assert_eq!(rt; position(&list, 1, &Symbol::new(&[b'x'; 63])), None);
}

#[test]
fn a_list_of_two_takes_two_terms(rt: HostRuntime) {
    let p = Term::new(Head::Declared(0), Sort::Bool, &[]);
    let q = Term::new(Head::Not, Sort::Bool, &[0]);
    let r = Term::new(Head::Not, Sort::Bool, &[1]);
    let again = p;
    let mut memory = [r; 2];
    let mut count = 0;
    assert_eq!(rt; intern(&mut memory, &mut count, p), Some(0));
    assert_eq!(rt; intern(&mut memory, &mut count, q), Some(1));
    assert_eq!(rt; intern(&mut memory, &mut count, r), None);
    assert_eq!(rt; intern(&mut memory, &mut count, again), Some(0));
    assert_eq!(rt; count, 2);
}

#[test]
fn a_repeat_is_dropped(rt: HostRuntime) {
    let p = Literal {
        negative: false,
        term: 7,
    };
    let mut clause = Clause::new();
    clause.push(p);
    clause.push(p.complement());
    clause.push(p);
    assert_eq!(rt; clause.literals().len(), 2);
}

// That a byte holds each of these numbers has to be proved here, as by any caller.

fn arity(term: &Term) -> u8 {
    term.args().len() as u8
}

fn sorts_taken(name: &Name) -> u8 {
    name.takes().len() as u8
}

fn size(clause: &Clause) -> u8 {
    clause.literals().len() as u8
}

#[test]
fn lists_are_known_to_be_short(rt: HostRuntime) {
    let term = Term::new(Head::And, Sort::Bool, &[0; 65]);
    let name = Name::new(Symbol::new(b"f"), &[Sort::Int; 65], Sort::Bool);
    let mut clause = Clause::new();
    clause.push(Literal {
        negative: false,
        term: 7,
    });
    assert_eq!(rt; arity(&term), 64);
    assert_eq!(rt; sorts_taken(&name), 64);
    assert_eq!(rt; size(&clause), 1);
}
