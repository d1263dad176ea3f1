use crate::decimal::number;
use crate::hex::decode;
use crate::input::{Input, Line};
use crate::output::Output;
use crate::words::split;
use std::test::Fail;

#[test]
fn numbers(rt: HostRuntime) {
    assert_eq!(rt; number(b"0"), Some(0));
    assert_eq!(rt; number(b"007"), Some(7));
    assert_eq!(rt; number(b"18446744073709551615"), Some(u64::MAX));
    assert_eq!(rt; number(b"18446744073709551616"), None);
    assert_eq!(rt; number(b""), None);
    assert_eq!(rt; number(b"+1"), None);
    assert_eq!(rt; number(b"1 "), None);
}

#[test]
fn hexadecimal(rt: HostRuntime) {
    let mut bytes = [9; 3];
    assert_eq!(rt; decode(b"0aFf", &mut bytes), Some(2));
    assert!(rt; bytes[0] == 10 && bytes[1] == 255 && bytes[2] == 9);
    assert_eq!(rt;
        decode(b"0102030405", &mut bytes),
        Some(5),
        "more than there is room for"
    );
    assert!(rt; bytes[0] == 1 && bytes[2] == 3);
    assert_eq!(rt; decode(b"070", &mut bytes), None);
    assert_eq!(rt; decode(b"070g", &mut bytes), None);
    assert_eq!(rt; decode(b"", &mut bytes), None);
    assert!(rt;
        bytes[0] == 1,
        "what is refused leaves the bytes as they were"
    );
}

#[test]
fn words(rt: HostRuntime) -> Result<(), Fail> {
    let (word, rest) = split(b"a  b");
    assert!(rt; word == b"a".as_slice());
    let (word, rest) = split(rest.ok_or("a space")?);
    assert!(rt; word.is_empty());
    let (word, rest) = split(rest.ok_or("a space")?);
    assert!(rt; word == b"b".as_slice());
    assert!(rt; rest.is_none());
    Ok(())
}

#[test]
fn printing(rt: HostRuntime) -> Result<(), Fail> {
    let mut out = Output::new(rt.alloc());
    out.text("sent ")?;
    out.number(0)?;
    out.bytes(b" ")?;
    out.number(u64::MAX)?;
    out.text(" ")?;
    out.hex(&[0, 171])?;
    out.text(" ")?;
    out.trimmed(&[0, 171, 0, 0])?;
    out.text(" ")?;
    out.trimmed(&[0, 0])?;
    out.end_line()?;
    assert!(rt; out.as_slice() == b"sent 0 18446744073709551615 00ab 00ab -\n".as_slice());
    out.clear();
    assert!(rt; out.as_slice().is_empty());
    Ok(())
}

#[test]
fn reading(rt: HostRuntime) -> Result<(), Fail> {
    let mut text: &[u8] = b"ab\n\ncd";
    let mut input = Input::new(rt.alloc())?;
    assert_eq!(rt; input.next_line(&mut text)?, Some(Line::Whole));
    assert!(rt; input.line() == b"ab".as_slice());
    assert_eq!(rt; input.next_line(&mut text)?, Some(Line::Whole));
    assert!(rt; input.line().is_empty());
    assert_eq!(rt; input.next_line(&mut text)?, Some(Line::Cut));
    assert!(rt; input.line() == b"cd".as_slice());
    assert_eq!(rt; input.next_line(&mut text)?, None);
    Ok(())
}
