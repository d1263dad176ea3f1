// What no contract says: that a borrower runs as it is proved to, at the edges of its numbers and of
// its clock.
use crate::hold::{Held, Part, Timing};
use crate::on_file::OnFile;
use crate::setting::Setting;
use crate::tablet::Tablet;
use journal::entry::Entry;
use journal::record::Owner;
use machine::effects::Effects;
use machine::input::{Call, Input};
use machine::machine::Machine;
use message::buffer::Buffer;
use message::kind::Kind;
use message::refusal::Refusal;
use message::to_borrower::ToBorrower;
use message::to_keeper::ToKeeper;
use part::files::PART_SIZE;
use part::head::Head;
use part::place::Place;
use part::who::Who;
use std::alloc::Global;
use std::test::Fail;

const LAST: u32 = 4294967295;

fn part(ask: u32, write: u32, hold: Option<Held>) -> Part {
    Part {
        ask,
        write,
        asked: 1000,
        hold,
    }
}

// What the clock reads, where a copy is valid for 100.
fn at(clock: u64) -> Timing {
    Timing { clock, short: 100 }
}

#[test]
fn numbers_at_their_end(rt: HostRuntime) {
    let writing = Some(Held {
        kind: Kind::Writing,
        asked: 1000,
    });
    // an ask number, why an ask is refused, and the ask number afterwards
    for (ask, refusal, after) in [
        (LAST - 2, None, LAST - 1),
        (LAST - 1, Some(Refusal::Exhausted), LAST - 1),
        (LAST, Some(Refusal::Exhausted), LAST),
    ] {
        let (next, result) = part(ask, 0, None).ask(at(1000));
        assert_eq!(rt; result.err(), refusal);
        assert_eq!(rt; next.ask, after);
    }
    assert_eq!(rt; part(LAST, 0, writing).release().ask, LAST);
    // a write number, and why a write is refused
    for (write, refusal) in [(LAST - 1, None), (LAST, Some(Refusal::Exhausted))] {
        let (next, result) = part(5, write, writing).write();
        assert_eq!(rt; result.err(), refusal);
        assert_eq!(rt; next.write, LAST);
    }
    // an ask number, and the one on file for it
    for (ask, raised) in [
        (1, 64),
        (64, 64),
        (65, 128),
        (LAST - 63, LAST - 63),
        (LAST - 62, LAST),
        (LAST, LAST),
    ] {
        let numbers = OnFile { ask: 0, write: 7 }.raised(part(ask, 0, None));
        assert_eq!(rt;
            numbers,
            OnFile {
                ask: raised,
                write: 7
            }
        );
    }
}

#[test]
fn clocks_at_their_edges(rt: HostRuntime) {
    let copy = Some(Held {
        kind: Kind::Reading,
        asked: 1000,
    });
    for (clock, answer) in [
        (1000, Ok(())),
        (1099, Ok(())),
        (1100, Err(Refusal::NoCopy)),
        (u64::MAX, Err(Refusal::NoCopy)),
    ] {
        let result = part(1, 0, copy).settle(at(clock)).show();
        assert_eq!(rt; result, answer);
    }
    let (_, result) = part(1, 0, None).ask(at(u64::MAX - 100));
    assert_eq!(rt; result.err(), None);
    let (_, result) = part(1, 0, None).ask(at(u64::MAX - 99));
    assert_eq!(rt; result.err(), Some(Refusal::Exhausted));
}

fn setting() -> Result<Setting, Fail> {
    let who = Who::new(5).ok_or("no borrower")?;
    Ok(Setting { who, short: 100 })
}

// The number of the ask that was sent last.
fn asked(out: &Effects) -> Option<u32> {
    let bytes: &[u8; 13] = out.sends.buffer.bytes.last_chunk()?;
    match ToKeeper::read(bytes)? {
        ToKeeper::Ask { head, .. } => Some(head.number),
        _ => None,
    }
}

// Comes up again and again from its last record: each ask has a number above all before.
#[test]
fn numbers_only_rise(rt: HostRuntime) -> Result<(), Fail> {
    let heap = rt.alloc();
    let place = Place::new(3, 7).ok_or("no part")?;
    let kind = Kind::Reading;
    let ask = Input::Called(Call::Ask { place, kind });
    let mut out = Effects::new(heap);
    let mut last = 0;
    // The ranges count how often: five times up, and 70 asks each.
    for _ in 0..5 {
        let mut tablet = Tablet::new(heap, setting()?)?;
        if let Some(bytes) = out.records.bytes.last_chunk::<11>() {
            let read = Entry::read(Owner::Borrower, bytes).ok();
            let (entry, _) = read.flatten().ok_or("no record")?;
            tablet.apply(&entry);
        }
        assert_eq!(rt; tablet.wake(1000, &mut out), Ok(()));
        for _ in 0..70 {
            assert_eq!(rt; tablet.step(1000, &ask, &mut out), Ok(()));
            let number = asked(&out).ok_or("no ask is sent")?;
            assert!(rt; number > last);
            last = number;
        }
    }
    assert_eq!(rt; last, 583);
    Ok(())
}

// A message comes.
fn hear(
    heap: Global,
    tablet: &mut Tablet,
    message: &ToBorrower<'_>,
    out: &mut Effects,
) -> Result<(), Refusal> {
    let mut bytes = Buffer::new(heap);
    message.put(&mut bytes);
    tablet.step(1000, &Input::Came(&bytes.bytes), out)
}

#[test]
fn from_an_ask_to_a_recall(rt: HostRuntime) -> Result<(), Fail> {
    let heap = rt.alloc();
    let setting = setting()?;
    let who = setting.who;
    let place = Place::new(3, 7).ok_or("no part")?;
    let kind = Kind::Reading;
    let mut out = Effects::new(heap);
    let mut tablet = Tablet::new(heap, setting)?;
    let ask = Input::Called(Call::Ask { place, kind });
    assert_eq!(rt; tablet.step(1000, &ask, &mut out), Err(Refusal::Malformed));
    assert_eq!(rt; tablet.wake(1000, &mut out), Ok(()));
    assert_eq!(rt; tablet.step(1000, &ask, &mut out), Ok(()));
    let number = asked(&out).ok_or("no ask is sent")?;
    let head = Head { who, place, number };
    let part = &[9; PART_SIZE];
    let loan = ToBorrower::Loan { head, kind, part };
    assert_eq!(rt; hear(heap, &mut tablet, &loan, &mut out), Ok(()));
    let show = Input::Called(Call::Show(place));
    assert_eq!(rt; tablet.step(1099, &show, &mut out), Ok(()));
    assert_eq!(rt; tablet.copy(place), part);
    let recall = ToBorrower::Recall { who, place };
    assert_eq!(rt; hear(heap, &mut tablet, &recall, &mut out), Ok(()));
    assert_eq!(rt; tablet.step(1099, &show, &mut out), Err(Refusal::NoCopy));
    let back: Option<&[u8; 8]> = out.sends.buffer.bytes.last_chunk();
    assert_eq!(rt; back, Some(&[7, 5, 3, 7, 0, 0, 0, 1]));
    Ok(())
}
