// What no contract says: that the keeper runs as it is proved to, at the edges of its table and on a long journal.
use crate::keeper::Keeper;
use journal::record::Record;
use journal::source::memory::MemorySource;
use journal::store::memory::MemoryStore;
use message::encode::encode;
use message::form::{Ask, Message};
use message::kind::Kind;
use message::refusal::Refusal;
use part::head::Head;
use part::place::Place;
use part::who::Who;
use std::test::Fail;

fn head(id: u8, at: u16, number: u32) -> Option<Head> {
    Some(Head {
        who: Who::new(id)?,
        place: Place::new((at / 256 % 64) as u8, (at % 256) as u8)?,
        number,
    })
}

// The answer to a message.
fn served(
    keeper: &mut Keeper,
    store: &mut MemoryStore,
    clock: u64,
    message: Message,
) -> Result<Result<(), Refusal>, Fail> {
    let mut bytes = [0; 1033];
    let size = encode(&message, &[7; 1024], &mut bytes).ok_or("no room")?;
    Ok(
        keeper
            .serve(store, clock, &bytes[0..size.min(1033)])?
            .answer,
    )
}

fn asked(
    keeper: &mut Keeper,
    store: &mut MemoryStore,
    clock: u64,
    id: u8,
    at: u16,
    kind: Kind,
) -> Result<Result<(), Refusal>, Fail> {
    let head = head(id, at, 1).ok_or("no head")?;
    let ask = Ask {
        head,
        kind,
        written: 0,
    };
    served(keeper, store, clock, Message::Ask(ask))
}

#[test]
fn at_most_4096_leases_run(rt: HostRuntime) -> Result<(), Fail> {
    let mut keeper = Keeper::new(rt.alloc(), 110)?;
    let mut store = MemoryStore::new(rt.alloc());
    assert!(rt; keeper.come_up(0).is_ok());
    // The range is of the parts that are lent, and below of the numbers of writes.
    for at in 0u16..4096 {
        assert_eq!(rt;
            asked(&mut keeper, &mut store, 110, 0, at, Kind::Reading)?,
            Ok(())
        );
    }
    assert_eq!(rt;
        asked(&mut keeper, &mut store, 219, 0, 5000, Kind::Reading)?,
        Err(Refusal::Exhausted)
    );
    assert_eq!(rt;
        asked(&mut keeper, &mut store, 219, 1, 0, Kind::Writing)?,
        Err(Refusal::Barred),
        "barred before full"
    );
    assert_eq!(rt;
        asked(&mut keeper, &mut store, 220, 0, 5000, Kind::Reading)?,
        Ok(()),
        "all have ended"
    );
    Ok(())
}

#[test]
fn a_long_journal_is_replayed(rt: HostRuntime) -> Result<(), Fail> {
    let mut bytes = Vec::new(rt.alloc());
    for n in 1u32..=10000 {
        let head = head((n % 32) as u8, 7, n).ok_or("no head")?;
        let mut record = [0; 8];
        let size = journal::record::encode(&Record::VoidUpTo(head), &[0; 1024], &mut record);
        assert_eq!(rt; size, Some(8));
        bytes.extend_from_slice(&record)?;
    }
    bytes.extend_from_slice(&[8, 0, 0])?;
    let mut store = MemoryStore::holding(bytes);
    let mut journal = MemorySource::of(store.content());
    let (mut keeper, size) = Keeper::open(rt.alloc(), 110, &mut journal)?;
    assert_eq!(rt; size, 80000, "the torn record is to be cut");
    store.cut(size);
    assert!(rt; keeper.come_up(5).is_ok());
    let last = head(16, 7, 10000).ok_or("no head")?;
    assert_eq!(rt;
        served(&mut keeper, &mut store, 114, Message::Write(last))?,
        Err(Refusal::Quiet),
        "grace period"
    );
    assert_eq!(rt;
        served(&mut keeper, &mut store, 115, Message::Write(last))?,
        Err(Refusal::NotApplied),
        "void"
    );
    assert_eq!(rt; store.content().len(), 80000);
    Ok(())
}

#[test]
fn near_the_end_of_the_clock(rt: HostRuntime) -> Result<(), Fail> {
    let mut keeper = Keeper::new(rt.alloc(), 110)?;
    let mut store = MemoryStore::new(rt.alloc());
    assert!(rt; keeper.come_up(u64::MAX - 109).is_err());
    assert!(rt; keeper.come_up(u64::MAX - 110).is_ok());
    assert_eq!(rt;
        asked(&mut keeper, &mut store, u64::MAX, 0, 0, Kind::Reading)?,
        Err(Refusal::Exhausted)
    );
    Ok(())
}
