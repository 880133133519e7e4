//! The token layer at its edges.
use crate::{Reader, Token, scan};
use std::process::Abort;
use std::test::Fail;

fn counts(rt: &impl Abort, text: &[u8], tokens: usize) -> Result<(), Fail> {
    match scan(text) {
        Ok(count) => {
            assert_eq!(rt; count, tokens);
            Ok(())
        },
        Err(fault) => panic!(rt; "a fault: {fault}"),
    }
}

fn refuses(rt: &impl Abort, text: &[u8], number: u8, place: usize) -> Result<(), Fail> {
    match scan(text) {
        Ok(_) => Err(Fail::new("no fault")),
        Err(fault) => {
            assert_eq!(rt; fault.number(), number);
            assert_eq!(rt; fault.place(), place);
            Ok(())
        }
    }
}

#[test]
fn numerals(rt: HostRuntime) -> Result<(), Fail> {
    counts(&rt, b"0", 1)?;
    counts(&rt, b"1000000", 1)?;
    refuses(&rt, b" 1000001", 11, 1)?;
    refuses(&rt, b"(007)", 11, 1)?;
    refuses(&rt, b"a 1a :\xFF", 11, 2)
}

#[test]
fn lengths(rt: HostRuntime) -> Result<(), Fail> {
    let symbol = [b'x'; 65];
    counts(&rt, &symbol[0..64], 1)?;
    refuses(&rt, &symbol, 10, 0)?;
    let mut keyword = [b'x'; 65];
    keyword[0] = b':';
    counts(&rt, &keyword[0..64], 1)?;
    refuses(&rt, &keyword, 10, 0)?;
    refuses(&rt, &[b'7'; 65], 10, 0)
}

#[test]
fn separators(rt: HostRuntime) -> Result<(), Fail> {
    counts(&rt, b"", 0)?;
    counts(&rt, b" \t\r\n; (a b", 0)?;
    counts(&rt, b"a;b\rc;d\ne", 3)?;
    counts(&rt, b"a:b", 2)
}

#[test]
fn strays(rt: HostRuntime) -> Result<(), Fail> {
    refuses(&rt, b":", 10, 0)?;
    refuses(&rt, b"a : b", 10, 2)?;
    refuses(&rt, b"(a \xFF 007)", 10, 3)
}

#[test]
fn reads(rt: HostRuntime) -> Result<(), Fail> {
    let mut reader = Reader::new(b" :rule");
    match reader.next() {
        Ok(Some(Token::Keyword { at, text })) => {
            assert_eq!(rt; at, 1);
            assert!(rt; text == b"rule".as_slice());
        }
        _ => return Err(Fail::new("no keyword")),
    }
    match reader.next() {
        Ok(None) => Ok(()),
        _ => Err(Fail::new("more tokens")),
    }
}
