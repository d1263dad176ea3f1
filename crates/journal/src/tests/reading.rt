// Records with their bytes: read one by one, and from journals in blocks whose ends fall inside records.
use crate::entry::Entry;
use crate::journaled::{Journaled, read_by, read_through, replay, whole};
use crate::record::Owner;
use crate::replay::OpenError;
use crate::source::memory::MemorySource;
use crate::window::Window;
use message::buffer::Buffer;
use message::form::Malformed;
use part::head::Head;
use part::place::Place;
use part::who::Who;
use std::alloc::Global;
use std::test::Fail;

fn head(number: u32) -> Option<Head> {
    Some(Head {
        who: Who::new(31)?,
        place: Place::new(63, 255)?,
        number,
    })
}

// Whether a record that stands twice is read with its size, of each proper first part of it nothing, and no such record in a
// journal of the other owner's.
fn is_read_back(heap: Global, owner: Owner, other: Owner, entry: &Entry<'_>, size: usize) -> bool {
    let mut out = Buffer::new(heap);
    entry.put(&mut out);
    entry.put(&mut out);
    let Some(one) = out.bytes.get(..size) else {
        return false;
    };
    let torn = (0..one.len()).all(|n| Entry::read(owner, &one[0..n]) == Ok(None));
    let refused = Entry::read(other, one) == Err(Malformed);
    torn && refused && Entry::read(owner, &out.bytes) == Ok(Some((*entry, size)))
}

#[test]
fn a_record_is_read_back(rt: HostRuntime) -> Result<(), Fail> {
    let heap = rt.alloc();
    let head = head(0xfedc_ba98).ok_or("no head")?;
    let mut part = [7u8; 1024];
    part[0] = 1;
    part[1023] = 2;
    let applied = Entry::Applied { head, part: &part };
    let void = Entry::VoidUpTo(head);
    let numbers = Entry::Numbers {
        place: head.place,
        ask: 4294967295,
        write: 0x0102_0304,
    };
    assert!(rt; is_read_back(heap, Owner::Keeper, Owner::Borrower, &applied, 1032));
    assert!(rt; is_read_back(heap, Owner::Keeper, Owner::Borrower, &void, 8));
    assert!(rt; is_read_back(heap, Owner::Borrower, Owner::Keeper, &numbers, 11));
    Ok(())
}

// Records as they come: each number one above the one before, and the bytes of a part all the same.
#[derive(Clone, Copy, Debug, PartialEq, Eq)]
struct Seen {
    next: u32,
    parts: u32,
    in_order: bool,
}

impl Journaled for Seen {
    ghost State = { Unit {0} };

    ghost Fixed = { Unit {0} };

    ghost state = { λ s. tt };

    ghost fixed = { λ s. tt };

    ghost redo = { λ s r. s };

    fn apply(&mut self, entry: &Entry<'_>) {
        let number = match entry {
            Entry::Applied { head, part } => {
                let byte = (head.number % 256) as u8;
                self.parts = self.parts.saturating_add(1);
                self.in_order = self.in_order && part[0] == byte && part[1023] == byte;
                head.number
            }
            Entry::VoidUpTo(head) => head.number,
            Entry::Numbers { ask, .. } => *ask,
        };
        self.in_order = self.in_order && number == self.next;
        self.next = self.next.saturating_add(1);
    }
}

const NONE: Seen = Seen {
    next: 0,
    parts: 0,
    in_order: true,
};

// A journal of records with the numbers from 0 on, every other one a part, with these bytes at its end.
fn journal(heap: Global, count: u32, end: &[u8]) -> Result<Buffer, Fail> {
    let mut out = Buffer::new(heap);
    // The range is of the numbers that the records have.
    for number in 0..count {
        let head = head(number).ok_or("no head")?;
        let part = [(number % 256) as u8; 1024];
        if number % 2 == 0 {
            Entry::Applied { head, part: &part }.put(&mut out);
        } else {
            Entry::VoidUpTo(head).put(&mut out);
        }
    }
    out.put(end);
    Ok(out)
}

#[test]
fn a_journal_is_read_in_blocks(rt: HostRuntime) -> Result<(), Fail> {
    let file = journal(rt.alloc(), 1000, &[8, 0, 0])?;
    let size = 500 * 1032 + 500 * 8;
    let mut from = MemorySource::of(&file.bytes);
    let mut seen = NONE;
    let read = read_through(Owner::Keeper, &mut from, rt.alloc(), &mut seen);
    assert_eq!(rt; read, Ok(size));
    assert!(rt; seen.in_order && seen.next == 1000 && seen.parts == 500);
    assert_eq!(rt; whole(Owner::Keeper, &file.bytes), Ok(size));
    let mut again = NONE;
    assert_eq!(rt; replay(Owner::Keeper, &file.bytes, &mut again), Ok(size));
    assert_eq!(rt; again, seen);
    Ok(())
}

#[test]
fn a_window_grows_to_a_record(rt: HostRuntime) -> Result<(), Fail> {
    let file = journal(rt.alloc(), 20, &[9, 1])?;
    let mut from = MemorySource::of(&file.bytes);
    let mut seen = NONE;
    let window = Window::new(rt.alloc(), 0)?;
    let read = read_by(window, Owner::Keeper, &mut from, &mut seen);
    assert_eq!(rt; read, Ok(10 * 1032 + 10 * 8));
    assert!(rt; seen.in_order && seen.next == 20 && seen.parts == 10);
    Ok(())
}

#[test]
fn a_bad_record_is_refused_behind_those_that_are_applied(rt: HostRuntime) -> Result<(), Fail> {
    let file = journal(rt.alloc(), 200, &[7])?;
    let mut from = MemorySource::of(&file.bytes);
    let mut seen = NONE;
    let read = read_through(Owner::Keeper, &mut from, rt.alloc(), &mut seen);
    assert_eq!(rt; read, Err(OpenError::Malformed(Owner::Keeper)));
    assert!(rt; seen.in_order && seen.next == 200);
    let mut none = NONE;
    assert_eq!(rt;
        replay(Owner::Keeper, &file.bytes, &mut none),
        Err(Malformed)
    );
    assert_eq!(rt; none, NONE);
    Ok(())
}
