// The life of a part at the edges of its numbers and of its clock.
use crate::hold::{Held, OnFile, Part, Timing};
use crate::outcome::{Call, Outcome};
use crate::tablet::Tablet;
use journal::source::memory::MemorySource;
use journal::store::Store;
use journal::store::failing::FailingStore;
use journal::store::memory::MemoryStore;
use message::form::Message;
use message::kind::Kind;
use message::refusal::Refusal;
use part::place::Place;
use part::who::Who;
use std::test::Fail;

const LAST: u32 = 4294967295;

fn part(ask: u32, write: u32, hold: Option<Held>) -> Part {
    Part {
        ask,
        write,
        asked: 1000,
        hold,
    }
}

// What the clock reads, where a copy is valid for 100.
fn at(clock: u64) -> Timing {
    Timing { clock, short: 100 }
}

#[test]
fn numbers_at_their_end(rt: HostRuntime) {
    let writing = Some(Held {
        kind: Kind::Writing,
        asked: 1000,
    });
    // an ask number, why an ask is refused, and the ask number afterwards
    for (ask, refusal, after) in [
        (LAST - 2, None, LAST - 1),
        (LAST - 1, Some(Refusal::Exhausted), LAST - 1),
        (LAST, Some(Refusal::Exhausted), LAST),
    ] {
        let (next, result) = part(ask, 0, None).ask(at(1000));
        assert_eq!(rt; result.err(), refusal);
        assert_eq!(rt; next.ask, after);
    }
    assert_eq!(rt; part(LAST, 0, writing).release().ask, LAST);
    // a write number, and why a write is refused
    for (write, refusal) in [(LAST - 1, None), (LAST, Some(Refusal::Exhausted))] {
        let (next, result) = part(5, write, writing).write(at(1000));
        assert_eq!(rt; result.err(), refusal);
        assert_eq!(rt; next.write, LAST);
    }
    // on file: the ask number after coming up
    for (file, up) in [(0, 0), (64, 65), (LAST, LAST)] {
        assert_eq!(rt;
            Part::come_up(OnFile {
                ask: file,
                write: 3,
            })
            .ask,
            up
        );
    }
}

#[test]
fn clocks_at_their_edges(rt: HostRuntime) {
    let copy = Some(Held {
        kind: Kind::Reading,
        asked: 1000,
    });
    for (clock, answer) in [
        (1000, Ok(())),
        (1099, Ok(())),
        (1100, Err(Refusal::NoCopy)),
        (u64::MAX, Err(Refusal::NoCopy)),
    ] {
        let result = part(1, 0, copy).settle(at(clock)).show();
        assert_eq!(rt; result, answer);
    }
    let (_, result) = part(1, 0, None).ask(at(u64::MAX - 100));
    assert_eq!(rt; result.err(), None);
    let (_, result) = part(1, 0, None).ask(at(u64::MAX - 99));
    assert_eq!(rt; result.err(), Some(Refusal::Exhausted));
}

#[test]
fn rounding(rt: HostRuntime) {
    for (ask, raised) in [
        (1, 64),
        (63, 64),
        (64, 64),
        (65, 128),
        (LAST - 63, LAST - 63),
        (LAST - 62, LAST),
        (LAST, LAST),
    ] {
        let numbers = OnFile { ask: 0, write: 7 }.raised(part(ask, 0, None));
        assert_eq!(rt; numbers.ask, raised);
        assert_eq!(rt; numbers.write, 7);
    }
}

// The number of an ask that is sent.
fn asked(outcome: Outcome) -> Option<u32> {
    match outcome.send {
        Some(Message::Ask(ask)) => Some(ask.head.number),
        _ => None,
    }
}

// Comes up again and again from its journal: each ask has a number above all before.
#[test]
fn numbers_only_rise(rt: HostRuntime) -> Result<(), Fail> {
    let who = Who::new(5).ok_or("no borrower")?;
    let place = Place::new(3, 7).ok_or("no part")?;
    let mut store = MemoryStore::new(rt.alloc());
    let mut last = 0;
    // The ranges count how often: five times up, and 70 asks each.
    for _ in 0..5 {
        let mut journal = MemorySource::of(store.content());
        let (mut tablet, size) = Tablet::open(rt.alloc(), who, 100, &mut journal)?;
        assert_eq!(rt; size, store.content().len());
        for _ in 0..70 {
            let outcome = tablet.call(&mut store, 1000, place, Call::Ask(Kind::Reading))?;
            let number = asked(outcome).ok_or("no ask is sent")?;
            assert!(rt; number > last);
            last = number;
        }
    }
    assert_eq!(rt; last, 583);
    Ok(())
}

// Where the store fails nothing is answered.
#[test]
fn a_store_that_fails(rt: HostRuntime) -> Result<(), Fail> {
    let who = Who::new(5).ok_or("no borrower")?;
    let place = Place::new(3, 7).ok_or("no part")?;
    let mut tablet = Tablet::new(rt.alloc(), who, 100)?;
    let mut store = FailingStore::new(rt.alloc(), 1);
    assert!(rt;
        tablet
            .call(&mut store, 1000, place, Call::Ask(Kind::Reading))
            .is_err()
    );
    Ok(())
}
