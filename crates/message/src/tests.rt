// A damaged message of every kind is refused: cut at each byte, one byte too long, and with each field out of range.
use crate::buffer::Buffer;
use crate::decode::{carried_part, decode};
use crate::encode::encode;
use crate::form::{Ask, Malformed, Message};
use crate::kind::Kind;
use crate::refusal::Refusal;
use crate::to_borrower::ToBorrower;
use crate::to_keeper::ToKeeper;
use part::files::PART_SIZE;
use part::head::Head;
use part::place::Place;
use part::who::Who;
use std::test::Fail;

fn head() -> Option<Head> {
    Some(Head {
        who: Who::new(31)?,
        place: Place::new(63, 255)?,
        number: 0xfedc_ba98,
    })
}

// One message of each kind, with the greatest numbers that its fields take.
fn samples(head: Head) -> [Message; 7] {
    [
        Message::Ask(Ask {
            head,
            kind: Kind::Writing,
            written: 4294967295,
        }),
        Message::Loan {
            head,
            kind: Kind::Reading,
        },
        Message::Write(head),
        Message::In(head),
        Message::Void(head),
        Message::Recall {
            who: head.who,
            place: head.place,
        },
        Message::Back(head),
    ]
}

// Whether the bytes are refused, and by 1.
fn refused(bytes: &[u8]) -> bool {
    decode(bytes) == Err(Malformed) && Refusal::Malformed.number() == 1
}

// Whether a byte that is changed to this one makes the message none.
fn refused_with(out: &[u8; 1033], size: usize, at: usize, byte: u8) -> bool {
    let mut damaged = *out;
    if at >= size || size > 1033 {
        return false;
    }
    damaged[at] = byte;
    refused(&damaged[0..size])
}

fn cut_everywhere(out: &[u8; 1033], size: usize) -> bool {
    (0..size.min(1033)).all(|n| refused(&out[0..n]))
}

#[test]
fn damaged_messages_are_refused(rt: HostRuntime) -> Result<(), Fail> {
    let head = head().ok_or("no head")?;
    let part = [7u8; 1024];
    for message in samples(head) {
        let mut out = [0u8; 1033];
        let size = encode(&message, &part, &mut out).ok_or("no room")?;
        assert!(rt; size == message.size());
        assert!(rt; cut_everywhere(&out, size), "cut");
        assert!(rt; size == 1033 || refused_longer(&out, size), "one byte more");
        assert!(rt; refused_with(&out, size, 0, 0), "first byte 0");
        assert!(rt; refused_with(&out, size, 0, 8), "first byte 8");
        assert!(rt; refused_with(&out, size, 0, 255), "first byte 255");
        assert!(rt; refused_with(&out, size, 1, 32), "borrower 32");
        assert!(rt; refused_with(&out, size, 2, 64), "file 64");
    }
    Ok(())
}

fn refused_longer(out: &[u8; 1033], size: usize) -> bool {
    size < 1033 && refused(&out[0..size + 1])
}

#[test]
fn a_kind_is_0_or_1(rt: HostRuntime) -> Result<(), Fail> {
    let head = head().ok_or("no head")?;
    let part = [7u8; 1024];
    for message in [
        Message::Ask(Ask {
            head,
            kind: Kind::Writing,
            written: 0,
        }),
        Message::Loan {
            head,
            kind: Kind::Reading,
        },
    ] {
        let mut out = [0u8; 1033];
        let size = encode(&message, &part, &mut out).ok_or("no room")?;
        assert!(rt; !refused_with(&out, size, 8, 0), "0");
        assert!(rt; !refused_with(&out, size, 8, 1), "1");
        assert!(rt; refused_with(&out, size, 8, 2), "2");
        assert!(rt; refused_with(&out, size, 8, 255), "255");
    }
    Ok(())
}

#[test]
fn the_bytes_of_an_ask(rt: HostRuntime) -> Result<(), Fail> {
    let head = head().ok_or("no head")?;
    let mut out = [0u8; 14];
    let ask = Message::Ask(Ask {
        head,
        kind: Kind::Writing,
        written: 258,
    });
    assert_eq!(rt; encode(&ask, &[0; 1024], &mut out), Some(13));
    assert_eq!(rt;
        out,
        [1, 31, 63, 255, 0xfe, 0xdc, 0xba, 0x98, 1, 0, 0, 1, 2, 0]
    );
    assert_eq!(rt; encode(&ask, &[0; 1024], &mut [0; 12]), None);
    Ok(())
}

#[test]
fn a_write_carries_its_part(rt: HostRuntime) -> Result<(), Fail> {
    let head = head().ok_or("no head")?;
    let mut part = [0u8; 1024];
    part[0] = 1;
    part[1023] = 2;
    let mut out = [9u8; 1033];
    assert_eq!(rt; encode(&Message::Write(head), &part, &mut out), Some(1032));
    let carried = carried_part(&out[0..1032]).ok_or("no part")?;
    assert_eq!(rt; *carried, part);
    assert!(rt; out[8] == 1 && out[1031] == 2 && out[1032] == 9);
    Ok(())
}

// One message of each kind to the keeper, with the greatest numbers that its fields take.
fn ups<'a>(head: Head, part: &'a [u8; PART_SIZE]) -> [ToKeeper<'a>; 3] {
    [
        ToKeeper::Ask {
            head,
            kind: Kind::Writing,
            written: u32::MAX,
        },
        ToKeeper::Write { head, part },
        ToKeeper::Back(head),
    ]
}

// The same of those to a borrower.
fn downs<'a>(head: Head, part: &'a [u8; PART_SIZE]) -> [ToBorrower<'a>; 4] {
    [
        ToBorrower::Loan {
            head,
            kind: Kind::Reading,
            part,
        },
        ToBorrower::In(head),
        ToBorrower::Void(head),
        ToBorrower::Recall {
            who: head.who,
            place: head.place,
        },
    ]
}

// Whether the bytes are no message, in either direction.
fn is_none(bytes: &[u8]) -> bool {
    ToKeeper::read(bytes).is_none() && ToBorrower::read(bytes).is_none()
}

// Whether the bytes are no message once a byte is changed to this one.
fn is_none_with(bytes: &mut Vec<u8>, at: usize, byte: u8) -> bool {
    if at >= bytes.len() {
        return false;
    }
    let was = bytes[at];
    bytes[at] = byte;
    let none = is_none(bytes);
    bytes[at] = was;
    none
}

// Whether it is no message, cut at each byte, one byte too long, and with fields out of range.
fn is_none_damaged(buffer: &mut Buffer) -> bool {
    let cut = (0..buffer.bytes.len()).all(|n| is_none(&buffer.bytes[0..n]));
    let bytes = &mut buffer.bytes;
    let first = is_none_with(bytes, 0, 0)
        && is_none_with(bytes, 0, 8)
        && is_none_with(bytes, 0, 255);
    let named = is_none_with(bytes, 1, 32) && is_none_with(bytes, 2, 64);
    buffer.put(&[0]);
    cut && first && named && is_none(&buffer.bytes)
}

#[test]
fn damage_is_refused_in_each_direction(rt: HostRuntime) -> Result<(), Fail> {
    let head = head().ok_or("no head")?;
    let part = [7u8; PART_SIZE];
    let mut buffer = Buffer::new(rt.alloc());
    for message in ups(head, &part) {
        buffer.clear();
        message.put(&mut buffer);
        assert_eq!(rt; ToKeeper::read(&buffer.bytes), Some(message));
        assert!(rt; ToBorrower::read(&buffer.bytes).is_none());
        assert!(rt; is_none_damaged(&mut buffer));
    }
    for message in downs(head, &part) {
        buffer.clear();
        message.put(&mut buffer);
        assert_eq!(rt; ToBorrower::read(&buffer.bytes), Some(message));
        assert!(rt; ToKeeper::read(&buffer.bytes).is_none());
        assert!(rt; is_none_damaged(&mut buffer));
    }
    Ok(())
}

// Whether a message's kind may be 0 or 1, and no other.
fn takes_two_kinds(bytes: &mut Vec<u8>) -> bool {
    let first = !is_none_with(bytes, 8, 0) && !is_none_with(bytes, 8, 1);
    first && is_none_with(bytes, 8, 2) && is_none_with(bytes, 8, 255)
}

#[test]
fn a_kind_is_0_or_1_in_each_direction(rt: HostRuntime) -> Result<(), Fail> {
    let head = head().ok_or("no head")?;
    let part = [7u8; PART_SIZE];
    let mut buffer = Buffer::new(rt.alloc());
    ups(head, &part)[0].put(&mut buffer);
    assert!(rt; takes_two_kinds(&mut buffer.bytes), "ask");
    buffer.clear();
    downs(head, &part)[0].put(&mut buffer);
    assert!(rt; takes_two_kinds(&mut buffer.bytes), "loan");
    Ok(())
}

#[test]
fn the_bytes_of_an_ask_and_a_write(rt: HostRuntime) -> Result<(), Fail> {
    let head = head().ok_or("no head")?;
    let mut buffer = Buffer::new(rt.alloc());
    let ask = ToKeeper::Ask {
        head,
        kind: Kind::Writing,
        written: 258,
    };
    ask.put(&mut buffer);
    assert!(rt; buffer.bytes[..] == [1, 31, 63, 255, 0xfe, 0xdc, 0xba, 0x98, 1, 0, 0, 1, 2]);
    let mut part = [0u8; PART_SIZE];
    part[0] = 1;
    part[PART_SIZE - 1] = 2;
    buffer.clear();
    ToKeeper::Write { head, part: &part }.put(&mut buffer);
    assert!(rt; buffer.bytes.len() == 1032 && buffer.bytes[8] == 1 && buffer.bytes[1031] == 2);
    Ok(())
}
