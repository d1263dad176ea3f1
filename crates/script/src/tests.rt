use crate::step::{Act, Step, parse};
use message::kind::Kind;
use part::place::Place;
use site::event::{Borrower, Node};
use std::test::Fail;

#[test]
fn clocks(rt: HostRuntime) {
    assert_eq!(rt; parse(b""), Some(Step::Blank));
    assert_eq!(rt; parse(b"# set"), Some(Step::Blank));
    assert_eq!(rt; parse(b"anew"), Some(Step::Anew));
    assert_eq!(rt; parse(b"anew "), None);
    assert_eq!(rt; parse(b"set"), None);
    assert_eq!(rt; parse(b"set 1 2 3 4 5 6"), None);
    let set = Step::Set {
        keeper: 5,
        borrowers: [6, 0, 0, 0],
    };
    assert_eq!(rt; parse(b"set 5 06"), Some(set));
    let tick = Step::Tick {
        time: 9,
        by: [8, 9, 9, 9, 9],
    };
    assert_eq!(rt; parse(b"tick 9 8"), Some(tick));
}

#[test]
fn asks(rt: HostRuntime) -> Result<(), Fail> {
    let ask = Step::Call {
        who: Borrower::Three,
        place: Place::new(63, 255).ok_or("no part")?,
        act: Act::Ask(Kind::Writing),
        torn: Some(12),
    };
    assert_eq!(rt; parse(b"3 ask 63 255 1 stop 12"), Some(ask));
    assert_eq!(rt; u8::from(Borrower::Three), 3);
    Ok(())
}

#[test]
fn writes(rt: HostRuntime) -> Result<(), Fail> {
    let mut bytes = [0; 1024];
    bytes[0] = 10;
    bytes[1] = 11;
    let write = Step::Call {
        who: Borrower::Zero,
        place: Place::new(0, 1).ok_or("no part")?,
        act: Act::Write(bytes),
        torn: None,
    };
    assert!(rt; parse(b"0 write 0 1 0a0B") == Some(write));
    Ok(())
}

#[test]
fn no_calls(rt: HostRuntime) {
    assert_eq!(rt; parse(b"4 show 0 0"), None);
    assert_eq!(rt; parse(b"0 show 64 0"), None);
    assert_eq!(rt; parse(b"0 show 0 256"), None);
    assert_eq!(rt; parse(b"0 ask 0 0 2"), None);
    assert_eq!(rt; parse(b"0 forget 0 0 stop"), None);
    assert_eq!(rt; parse(b"0  forget 0 0"), None);
}

#[test]
fn deliveries(rt: HostRuntime) {
    let cut = Step::Deliver {
        message: 7,
        cut: Some(3),
        to: Some(Node::Keeper),
        torn: Some(0),
    };
    assert_eq!(rt; parse(b"deliver 7 cut 3 to keeper stop 0"), Some(cut));
    let to = Step::Deliver {
        message: 7,
        cut: None,
        to: Some(Node::Borrower(Borrower::Two)),
        torn: None,
    };
    assert_eq!(rt; parse(b"deliver 7 to 2"), Some(to));
    assert_eq!(rt; parse(b"deliver 7 to 2 cut 3"), None);
    assert_eq!(rt; parse(b"deliver"), None);
    assert_eq!(rt; parse(b"up keeper"), Some(Step::Up(Node::Keeper)));
    let stop = Step::Stop(Node::Borrower(Borrower::One));
    assert_eq!(rt; parse(b"stop 1"), Some(stop));
    assert_eq!(rt; parse(b"up keeper 1"), None);
}
