// What no contract says: that the keeper runs as it is proved to, at the edges of its table and of
// its clock.
use crate::keeper::Keeper;
use machine::effects::Effects;
use machine::input::Input;
use machine::machine::Machine;
use message::buffer::Buffer;
use message::kind::Kind;
use message::refusal::Refusal;
use message::to_keeper::ToKeeper;
use part::head::Head;
use part::place::Place;
use part::who::Who;
use std::alloc::Global;
use std::test::Fail;

const LONG: u64 = 110;

// The answer to the borrower's first ask for a part.
fn asked(
    heap: Global,
    keeper: &mut Keeper,
    clock: u64,
    id: u8,
    at: u16,
    kind: Kind,
) -> Result<Result<(), Refusal>, Fail> {
    let head = Head {
        who: Who::new(id).ok_or("no borrower")?,
        place: Place::new((at / 256 % 64) as u8, (at % 256) as u8).ok_or("no part")?,
        number: 1,
    };
    let ask = ToKeeper::Ask {
        head,
        kind,
        written: 0,
    };
    let mut bytes = Buffer::new(heap);
    ask.put(&mut bytes);
    let mut out = Effects::new(heap);
    let answer = keeper.step(clock, &Input::Came(&bytes.bytes), &mut out);
    if out.has_failed() {
        return Err(Fail::from("no memory"));
    }
    Ok(answer)
}

#[test]
fn at_most_4096_leases_run(rt: HostRuntime) -> Result<(), Fail> {
    let heap = rt.alloc();
    let mut keeper = Keeper::new(heap, LONG)?;
    assert_eq!(rt;
        asked(heap, &mut keeper, 0, 0, 0, Kind::Reading)?,
        Err(Refusal::Malformed),
        "it has not come up"
    );
    assert!(rt; keeper.wake(0, &mut Effects::new(heap)).is_ok());
    // The range is of the parts that are lent.
    for at in 0u16..4096 {
        assert_eq!(rt;
            asked(heap, &mut keeper, LONG, 0, at, Kind::Reading)?,
            Ok(())
        );
    }
    assert_eq!(rt;
        asked(heap, &mut keeper, 219, 0, 5000, Kind::Reading)?,
        Err(Refusal::Exhausted)
    );
    assert_eq!(rt;
        asked(heap, &mut keeper, 219, 1, 0, Kind::Writing)?,
        Err(Refusal::Barred),
        "barred before full"
    );
    assert_eq!(rt;
        asked(heap, &mut keeper, 220, 0, 5000, Kind::Reading)?,
        Ok(()),
        "all have ended"
    );
    Ok(())
}

#[test]
fn near_the_end_of_the_clock(rt: HostRuntime) -> Result<(), Fail> {
    let heap = rt.alloc();
    let mut keeper = Keeper::new(heap, LONG)?;
    let mut out = Effects::new(heap);
    assert_eq!(rt;
        keeper.wake(u64::MAX - LONG + 1, &mut out),
        Err(Refusal::Exhausted)
    );
    assert!(rt; keeper.wake(u64::MAX - LONG, &mut out).is_ok());
    assert_eq!(rt;
        asked(heap, &mut keeper, u64::MAX, 0, 0, Kind::Reading)?,
        Err(Refusal::Exhausted)
    );
    Ok(())
}
