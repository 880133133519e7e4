//! The edge cases of cutting, and of lines and columns.
use crate::cutter::Cutter;
use crate::lines::Lines;
use crate::position::Position;

/// Whether the next piece of `cutter` is `text` at `at`.
fn gives(cutter: &mut Cutter<'_>, at: usize, text: &[u8]) -> bool {
    match cutter.next() {
        Some(piece) => piece.at == at && piece.text == text,
        None => false,
    }
}

#[test]
fn commands_and_words(rt: HostRuntime) {
    let mut cutter = Cutter::new(b" unsat ; (no\n(a (b) ; ) (\n)\r(c)");
    assert!(rt; gives(&mut cutter, 1, b"unsat"));
    assert!(rt; gives(&mut cutter, 13, b"(a (b) ; ) (\n)"));
    assert!(rt; gives(&mut cutter, 28, b"(c)"));
    assert!(rt; cutter.next().is_none());
}

#[test]
fn strays(rt: HostRuntime) {
    let mut cutter = Cutter::new(b")x\xff:1(a;)\n");
    assert!(rt; gives(&mut cutter, 0, b")"));
    assert!(rt; gives(&mut cutter, 1, b"x\xff:1"));
    assert!(rt; gives(&mut cutter, 5, b"(a;)\n"));
    assert!(rt; cutter.next().is_none());
}

#[test]
fn empty(rt: HostRuntime) {
    let mut cutter = Cutter::new(b"");
    assert!(rt; cutter.next().is_none());
}

/// Whether the place `at` of `text` has this line and column, counted from the start.
fn stands(text: &[u8], at: usize, line: usize, column: usize) -> bool {
    let place = Lines::new(text).position(at);
    place.line == line && place.column == column
}

#[test]
fn places(rt: HostRuntime) {
    assert!(rt; stands(b"ab\ncd", 4, 2, 2));
    assert!(rt; stands(b"ab\ncd", 2, 1, 3));
    assert!(rt; stands(b"ab\n", 9, 2, 1));
    assert!(rt; stands(b"", 0, 1, 1));
}

#[test]
fn places_from_others(rt: HostRuntime) {
    let mut lines = Lines::new(b"ab\ncd\ne");
    assert_eq!(rt;
        lines.position(6),
        Position {
            at: 6,
            line: 3,
            column: 1,
        }
    );
    assert_eq!(rt;
        lines.position(1),
        Position {
            at: 1,
            line: 1,
            column: 2,
        }
    );
    assert!(rt; lines.position(4).line == 2);
}
