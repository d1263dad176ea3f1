// Journals that a stop cut short at each byte, with each kind of bad record, long ones, and stores that fail.
ghost use Rattle.std.specs.Prelude.{◌≡◌, Some, length};
ghost use Rattle.journal.specs.Memory.{read_of};

use crate::read::whole;
use crate::record::{Owner, Record, encode};
use crate::replay::{Journaled, OpenError, read_through, replay};
use crate::source::Source;
use crate::source::file::FileSource;
use crate::source::memory::MemorySource;
use crate::store::failing::FailingStore;
use crate::store::memory::MemoryStore;
use crate::store::told::Told;
use crate::store::{Store, StoreError, commit_record};
use part::head::Head;
use part::place::Place;
use part::who::Who;
use std::alloc::{AllocError, Global};
use std::fs;
use std::test::Fail;

mod reading;

fn head(number: u32) -> Option<Head> {
    Some(Head {
        who: Who::new(31)?,
        place: Place::new(63, 255)?,
        number,
    })
}

// A borrower's record with the greatest numbers that its fields take.
fn numbers(head: Head) -> Record {
    Record::Numbers {
        place: head.place,
        ask: 4294967295,
        write: 0x0102_0304,
    }
}

// Appends bytes and syncs.
fn commit<S: Store>(store: &mut S, bytes: &[u8]) -> Result<(), StoreError> {
    store.append(bytes)?;
    store.sync()
}

// Where a journal is cut; none where it is refused.
fn end(owner: Owner, bytes: &[u8]) -> Option<usize> {
    whole(owner, bytes).ok()
}

#[test]
fn the_bytes_of_each_record(rt: HostRuntime) -> Result<(), Fail> {
    let head = head(0xfedc_ba98).ok_or("no head")?;
    let mut part = [0u8; 1024];
    part[0] = 1;
    part[1023] = 2;
    let mut out = [9u8; 1033];
    assert_eq!(rt; encode(&Record::Applied(head), &part, &mut out), Some(1032));
    assert!(rt; out[0] == 8 && out[1] == 31 && out[2] == 63 && out[3] == 255);
    assert!(rt; out[4] == 0xfe && out[5] == 0xdc && out[6] == 0xba && out[7] == 0x98);
    assert!(rt; out[8] == 1 && out[9] == 0 && out[1031] == 2 && out[1032] == 9);
    let mut out = [0u8; 9];
    assert_eq!(rt; encode(&Record::VoidUpTo(head), &part, &mut out), Some(8));
    assert_eq!(rt; out, [9, 31, 63, 255, 0xfe, 0xdc, 0xba, 0x98, 0]);
    let mut out = [0u8; 12];
    assert_eq!(rt; encode(&numbers(head), &part, &mut out), Some(11));
    assert_eq!(rt; out, [10, 63, 255, 255, 255, 255, 255, 1, 2, 3, 4, 0]);
    assert_eq!(rt; encode(&numbers(head), &part, &mut [0; 10]), None);
    Ok(())
}

// Whether a journal that begins with the records of this store, and was stopped while this record was appended, is cut
// after those, at whichever byte the stop came.
fn cut_everywhere(
    owner: Owner,
    store: &mut MemoryStore,
    record: &Record,
) -> Result<bool, StoreError> {
    let before = store.content().len();
    commit_record(store, record, &[7; 1024])?;
    let bytes = store.content();
    let is_cut = (before..bytes.len()).all(|n| end(owner, &bytes[0..n]) == Some(before));
    Ok(is_cut && end(owner, bytes) == Some(bytes.len()))
}

#[test]
fn a_torn_record_is_cut(rt: HostRuntime) -> Result<(), Fail> {
    let head = head(1).ok_or("no head")?;
    let applied = Record::Applied(head);
    let void = Record::VoidUpTo(head);
    let numbers = numbers(head);
    let mut keeper = MemoryStore::new(rt.alloc());
    assert!(rt;
        cut_everywhere(Owner::Keeper, &mut keeper, &applied)?,
        "a part, first"
    );
    assert!(rt;
        cut_everywhere(Owner::Keeper, &mut keeper, &void)?,
        "void, behind a part"
    );
    assert!(rt;
        cut_everywhere(Owner::Keeper, &mut keeper, &applied)?,
        "a part, behind void"
    );
    let mut borrower = MemoryStore::new(rt.alloc());
    assert!(rt;
        cut_everywhere(Owner::Borrower, &mut borrower, &numbers)?,
        "numbers, first"
    );
    assert!(rt;
        cut_everywhere(Owner::Borrower, &mut borrower, &numbers)?,
        "numbers, behind numbers"
    );
    Ok(())
}

#[test]
fn fields_of_a_torn_record_are_not_judged(rt: HostRuntime) {
    assert_eq!(rt; end(Owner::Keeper, &[9, 255, 255, 255, 0, 0, 0]), Some(0));
    assert_eq!(rt; end(Owner::Keeper, &[8, 255, 255]), Some(0));
    assert_eq!(rt; end(Owner::Borrower, &[10, 255]), Some(0));
}

// Whether a journal is refused with each of these bytes in place of the one that stands there.
fn refused_with(
    heap: Global,
    owner: Owner,
    store: &MemoryStore,
    changes: &[(usize, u8)],
) -> Result<bool, AllocError> {
    for (at, byte) in changes {
        let mut bytes = store.content().to_vec(heap)?;
        if *at >= bytes.len() {
            return Ok(false);
        }
        bytes[*at] = *byte;
        if end(owner, bytes.as_slice()).is_some() {
            return Ok(false);
        }
    }
    Ok(true)
}

#[test]
fn a_bad_record_of_the_keepers_is_refused(rt: HostRuntime) -> Result<(), Fail> {
    let head = head(1).ok_or("no head")?;
    let mut store = MemoryStore::new(rt.alloc());
    commit_record(&mut store, &Record::VoidUpTo(head), &[0; 1024])?;
    commit_record(&mut store, &Record::VoidUpTo(head), &[0; 1024])?;
    assert_eq!(rt; end(Owner::Keeper, store.content()), Some(16));
    let first = [(8, 0), (8, 7), (8, 10), (8, 11), (8, 255)];
    assert!(rt;
        refused_with(rt.alloc(), Owner::Keeper, &store, &first)?,
        "no kind of the keeper's"
    );
    let fields = [(9, 32), (10, 64), (1, 32), (2, 64)];
    assert!(rt;
        refused_with(rt.alloc(), Owner::Keeper, &store, &fields)?,
        "borrower 32, file 64"
    );
    assert_eq!(rt;
        end(Owner::Keeper, &[10]),
        None,
        "no kind of the keeper's, cut short"
    );
    Ok(())
}

#[test]
fn a_bad_record_of_a_borrowers_is_refused(rt: HostRuntime) -> Result<(), Fail> {
    let head = head(1).ok_or("no head")?;
    let mut store = MemoryStore::new(rt.alloc());
    commit_record(&mut store, &numbers(head), &[0; 1024])?;
    commit_record(&mut store, &numbers(head), &[0; 1024])?;
    assert_eq!(rt; end(Owner::Borrower, store.content()), Some(22));
    let first = [(11, 0), (11, 7), (11, 8), (11, 9), (11, 11), (11, 255)];
    assert!(rt;
        refused_with(rt.alloc(), Owner::Borrower, &store, &first)?,
        "no kind of a borrower's"
    );
    assert!(rt;
        refused_with(rt.alloc(), Owner::Borrower, &store, &[(12, 64), (1, 64)])?,
        "file 64"
    );
    assert_eq!(rt;
        end(Owner::Borrower, &[8]),
        None,
        "no kind of a borrower's, cut short"
    );
    Ok(())
}

// Records as they come: each number one above the one before, and the bytes of a part all the same.
#[derive(Clone, Copy, Debug, PartialEq, Eq)]
struct Seen {
    next: u32,
    parts: u32,
    in_order: bool,
}

impl Journaled for Seen {
    ghost becomes = { λ s r t. Unit {0} };

    fn apply(&mut self, record: Record, part: &[u8; 1024]) {
        let number = match record {
            Record::Applied(head) => {
                let byte = (head.number % 256) as u8;
                self.parts = self.parts.saturating_add(1);
                self.in_order = self.in_order && part[0] == byte && part[1023] == byte;
                head.number
            }
            Record::VoidUpTo(head) => head.number,
            Record::Numbers { ask, .. } => ask,
        };
        self.in_order = self.in_order && number == self.next;
        self.next = self.next.saturating_add(1);
    }
}

const NONE: Seen = Seen {
    next: 0,
    parts: 0,
    in_order: true,
};

// Appends records with the numbers from 0 on, every other one a part.
fn fill(store: &mut MemoryStore, count: u32) -> Result<(), Fail> {
    // The range is of the numbers that the records have.
    for number in 0..count {
        let head = head(number).ok_or("no head")?;
        let record = if number % 2 == 0 {
            Record::Applied(head)
        } else {
            Record::VoidUpTo(head)
        };
        commit_record(store, &record, &[(number % 256) as u8; 1024])?;
    }
    Ok(())
}

#[test]
fn a_thousand_records_are_replayed(rt: HostRuntime) -> Result<(), Fail> {
    let mut store = MemoryStore::new(rt.alloc());
    fill(&mut store, 1000)?;
    assert_eq!(rt; store.content().len(), 500 * 1032 + 500 * 8);
    let mut seen = NONE;
    assert!(rt; replay(Owner::Keeper, store.content(), &mut seen).is_ok());
    assert!(rt; seen.in_order && seen.next == 1000 && seen.parts == 500);
    Ok(())
}

#[test]
fn a_journal_is_read_in_blocks(rt: HostRuntime) -> Result<(), Fail> {
    let mut store = MemoryStore::new(rt.alloc());
    fill(&mut store, 1000)?;
    let size = store.content().len();
    store.append(&[8, 0, 0])?;
    let mut from = MemorySource::of(store.content());
    let mut seen = NONE;
    assert_eq!(rt; read_through(Owner::Keeper, &mut from, &mut seen), Ok(size));
    assert!(rt; seen.in_order && seen.next == 1000 && seen.parts == 500);
    store.cut(size);
    assert_eq!(rt; whole(Owner::Keeper, store.content()), Ok(size));
    Ok(())
}

#[test]
fn a_bad_record_far_on_is_refused(rt: HostRuntime) -> Result<(), Fail> {
    let mut store = MemoryStore::new(rt.alloc());
    fill(&mut store, 200)?;
    store.append(&[7])?;
    let mut from = MemorySource::of(store.content());
    let mut seen = NONE;
    assert_eq!(rt;
        read_through(Owner::Keeper, &mut from, &mut seen),
        Err(OpenError::Malformed(Owner::Keeper))
    );
    Ok(())
}

// A file that can be read so many times.
#[derive(Drop)]
struct FailingSource<'a> {
    from: MemorySource<'a>,
    left: usize,
    told: Told,
}

impl<'a> Source for FailingSource<'a> {
    ghost had = { λ s. read_of s.from };

    ghost ended = { λ s. s.from.at ≡ length s.from.bytes.now };

    ghost all = { λ s. Some s.from.bytes.now };

    ghost faults = { λ s. s.told.faults };

    fn read(&mut self, block: &mut [u8]) -> Result<usize, StoreError> {
        if self.left == 0 {
            self.told.fail();
            return Err(StoreError::Failed);
        }
        self.left -= 1;
        self.from.read(block)
    }
}

#[test]
fn a_file_that_cannot_be_read_on(rt: HostRuntime) -> Result<(), Fail> {
    let mut store = MemoryStore::new(rt.alloc());
    fill(&mut store, 200)?;
    let mut from = FailingSource {
        from: MemorySource::of(store.content()),
        left: 1,
        told: Told::nothing(),
    };
    let mut seen = NONE;
    assert_eq!(rt;
        read_through(Owner::Keeper, &mut from, &mut seen),
        Err(OpenError::Store(StoreError::Failed))
    );
    Ok(())
}

#[test]
fn a_store_fails(rt: HostRuntime) {
    let mut store = FailingStore::new(rt.alloc(), 3);
    assert_eq!(rt; commit(&mut store, &[9, 1]), Ok(()));
    assert_eq!(rt;
        commit(&mut store, &[2]),
        Err(StoreError::Failed),
        "the sync"
    );
    assert!(rt; store.content().len() == 3);
    assert_eq!(rt;
        commit(&mut store, &[3]),
        Err(StoreError::Failed),
        "the append"
    );
    assert!(rt; store.content().len() == 3);
}

// What a file has, and what a keeper's journal in it says.
fn opened(rt: &HostRuntime, path: &str) -> Result<(FileSource, Seen, usize), Fail> {
    let mut from = FileSource::open(rt, path)?;
    let mut seen = NONE;
    let size = read_through(Owner::Keeper, &mut from, &mut seen)?;
    Ok((from, seen, size))
}

#[test]
fn a_file_is_read_back(rt: HostRuntime) -> Result<(), Fail> {
    let path = "journal_of_a_test";
    let _ = fs::remove_file(&rt, path);
    let (made, _, size) = opened(&rt, path)?;
    assert!(rt; size == 0, "made");
    let mut store = made.cut(size).map_err(|_| "not cut")?;
    commit(&mut store, &[9, 31, 63, 255, 0, 0, 0, 0])?;
    commit(&mut store, &[9, 31, 63])?;
    assert!(rt; FileSource::open(&rt, path).is_err(), "it is in use");
    drop(store);
    let (again, seen, size) = opened(&rt, path)?;
    assert!(rt; seen.in_order && seen.next == 1 && size == 8, "read back");
    let mut cut = again.cut(size).map_err(|_| "not cut again")?;
    commit(&mut cut, &[9])?;
    drop(cut);
    assert!(rt;
        fs::read(&rt, path)?.as_slice() == [9, 31, 63, 255, 0, 0, 0, 0, 9].as_slice(),
        "cut and grown"
    );
    assert!(rt;
        FileSource::open(&rt, path)?.cut(0).is_err(),
        "not read through"
    );
    assert!(rt; fs::read(&rt, path)?.len() == 9, "and left as it is");
    Ok(fs::remove_file(&rt, path)?)
}
