ghost use Rattle.std.specs.Prelude.{◌∷◌};
ghost use Rattle.journal.specs.declared.record.Owner.TheVariants.{Keeper as TheKeeper, Borrower as TheBorrower};
ghost use Rattle.journal.specs.Reading.{Stands, Judged};

use crate::record::{Owner, Record};
use message::form::Malformed;
use part::head::Head;
use part::number::number_at;
use part::place::Place;

/// A whole record of a journal, and where the next one begins.
#[derive(Clone, Copy, Debug, PartialEq, Eq)]
pub struct Entry {
    pub record: Record,
    pub end: usize,
}

// What begins with a first byte 8, by the bytes after it.
fn applied(body: &[u8]) -> Result<Option<Entry>, Malformed>
    ensures { Stands TheKeeper 0 (8 ∷ body.now) result }
{
    if body.len() < 1031 {
        return Ok(None);
    }
    let head = Head::read(body).ok_or(Malformed)?;
    Ok(Some(Entry {
        record: Record::Applied(head),
        end: 1032,
    }))
}

// What begins with a first byte 9.
// It and `applied` stay two: what they share, a head where so many bytes are there, would need a definition of its own.
fn void_up_to(body: &[u8]) -> Result<Option<Entry>, Malformed>
    ensures { Stands TheKeeper 0 (9 ∷ body.now) result }
{
    if body.len() < 7 {
        return Ok(None);
    }
    let head = Head::read(body).ok_or(Malformed)?;
    Ok(Some(Entry {
        record: Record::VoidUpTo(head),
        end: 8,
    }))
}

// What begins with a first byte 10.
fn numbers(body: &[u8]) -> Result<Option<Entry>, Malformed>
    ensures { Stands TheBorrower 0 (10 ∷ body.now) result }
{
    if body.len() < 10 {
        return Ok(None);
    }
    let place = Place::new(body[0], body[1]).ok_or(Malformed)?;
    let ask = number_at(body, 2).unwrap();
    let write = number_at(body, 6).unwrap();
    Ok(Some(Entry {
        record: Record::Numbers { place, ask, write },
        end: 11,
    }))
}

// What the bytes begin with.
fn first(owner: Owner, bytes: &[u8]) -> Result<Option<Entry>, Malformed>
    ensures { Stands owner 0 bytes.now result }
{
    let [kind, body @ ..] = bytes else {
        return Ok(None);
    };
    match (owner, *kind) {
        (Owner::Keeper, 8) => applied(body),
        (Owner::Keeper, 9) => void_up_to(body),
        (Owner::Keeper, 0..=7 | 10..=255) => Err(Malformed),
        (Owner::Borrower, 10) => numbers(body),
        (Owner::Borrower, 0..=9 | 11..=255) => Err(Malformed),
    }
}

/// What stands at a place of a journal, and where the next record begins. None where nothing stands there, or less than
/// the record that the first byte announces, as a stop may leave it; an error where no record of this owner's begins so.
pub fn next_record(owner: Owner, bytes: &[u8], at: usize) -> Result<Option<Entry>, Malformed>
    ensures { Stands owner at bytes.now result }
{
    if bytes.len() <= at {
        return Ok(None);
    }
    let Some(entry) = first(owner, &bytes[at..])? else {
        return Ok(None);
    };
    Ok(Some(Entry {
        end: at + entry.end,
        ..entry
    }))
}

/// How many bytes the whole records have: there a journal is cut when it is opened. One in which something follows that
/// is neither torn nor a record is refused whole.
pub fn whole(owner: Owner, bytes: &[u8]) -> Result<usize, Malformed>
    ensures { Judged owner bytes.now result }
{
    // The place stays: an iterator of the records would have to say of each what is left, and that is a place.
    let mut at = 0;
    while let Some(entry) = next_record(owner, bytes, at)? {
        at = entry.end;
    }
    Ok(at)
}
