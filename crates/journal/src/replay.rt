ghost use Rattle.std.specs.Prelude.{◌≡◌, ◌≤◌, length, OnOk};
ghost use Rattle.journal.specs.Records.{Rec, recorded, WellFormed};
ghost use Rattle.journal.specs.Reading.{ending};
ghost use Rattle.journal.specs.Replays.{Replayed, ReadThrough};
ghost use Rattle.journal.specs.declared.replay.OpenError.TheVariants.{NoMemory, Store as NoStore};
ghost use Rattle.journal.specs.declared.store.StoreError.TheVariants.{Failed};

use crate::block::Block;
use crate::read::{next_record, whole};
use crate::record::{Owner, Record};
use crate::source::Source;
use crate::source::file::CutError;
use crate::store::StoreError;
use message::decode::carried_part;
use message::form::Malformed;
use std::alloc::AllocError;
use std::error::Error;
use std::fmt;

/// Why a journal was not opened, or nothing made of it.
#[derive(Clone, Copy, PartialEq, Eq, Debug)]
pub enum OpenError {
    /// there is no memory for what it says
    NoMemory,
    /// something in it is neither torn nor a record of this owner's
    Malformed(Owner),
    /// it could not be read, cut or synced
    Store(StoreError),
}

// As whoever started a program reads it, who calls the journal's file FILE.
impl fmt::Display for OpenError {
    ghost use Rattle.std.specs.Prelude.{Some};
    ghost use Rattle.journal.specs.Replays.{unopened_text};

    ghost output = { λ why. Some (unopened_text why) };

    fn fmt<W: fmt::Write>(&self, f: &mut fmt::Formatter<W>) -> fmt::Result {
        f.write_str(match self {
            OpenError::NoMemory => "there is no memory for the parts",
            OpenError::Malformed(Owner::Keeper) => {
                "FILE is no journal of a keeper; it is left as it is"
            }
            OpenError::Malformed(Owner::Borrower) => {
                "FILE is no journal of a borrower; it is left as it is"
            }
            OpenError::Store(_) => "FILE could not be read, cut or synced",
        })
    }
}

impl Error for OpenError {}

impl From<AllocError> for OpenError {
    ghost from_gives = { λ _ e. e ≡ NoMemory };

    fn from(_: AllocError) -> Self {
        Self::NoMemory
    }
}

// One that was not read to its end is not cut either; who opens a journal has read it.
impl From<CutError> for OpenError {
    ghost from_gives = { λ _ e. e ≡ NoStore Failed };

    fn from(_: CutError) -> Self {
        Self::Store(StoreError::Failed)
    }
}

impl From<StoreError> for OpenError {
    ghost from_gives = { λ s e. e ≡ NoStore s };

    fn from(why: StoreError) -> Self {
        Self::Store(why)
    }
}

/// A state that the records of a journal make.
pub trait Journaled {
    // what a record makes of a state
    ghost becomes: { Self → Rec → Self → Type 0 };

    /// Applies a record; where it says that a part was applied, `part` has the part's bytes.
    fn apply(&mut self, record: Record, part: &[u8; 1024])
        ensures { becomes self.old (recorded part.now «record») self.new };
}

// Applies the record that ends at a place of the bytes.
fn apply_ending<R: Journaled>(into: &mut R, record: Record, bytes: &[u8], end: usize)
    requires within { end ≤ length bytes.now }
    requires formed { WellFormed (ending bytes.now end «record») }
    ensures { R.becomes into.old (ending bytes.now end «record») into.new }
{
    match carried_part(&bytes[0..end]) {
        Some(part) => into.apply(record, part),
        None => into.apply(record, &[0; 1024]),
    }
}

/// Applies the whole records of a journal one after another, and says where they end. The journal is judged first: where
/// it is refused nothing is applied.
pub fn replay<R: Journaled>(owner: Owner, bytes: &[u8], into: &mut R) -> Result<usize, Malformed>
    ensures { Replayed R.becomes owner bytes.now into.old into.new result }
{
    let size = whole(owner, bytes)?;
    let mut at = 0;
    // It goes by the place, as `whole` does. It was judged: what follows its whole records is torn, and no error is left to come.
    while let Some(entry) = next_record(owner, bytes, at).unwrap_or(None) {
        apply_ending(into, entry.record, bytes, entry.end);
        at = entry.end;
    }
    Ok(size)
}

/// Reads a journal to its end, and applies its whole records as they come: how many bytes they have. There the journal is to be cut
/// before anything is appended. Where it is refused, the records before are applied all the same: the state is of no use then.
pub fn read_through<S: Source, R: Journaled>(
    owner: Owner,
    from: &mut S,
    into: &mut R,
) -> Result<usize, OpenError>
    ensures all { S.all from.new ≡ S.all from.old }
    ensures through { ReadThrough R.becomes owner (S.had from.old) (S.had from.new) into.old into.new result }
    ensures ended { OnOk result (S.ended from.new) }
{
    let mut block = Block::new();
    let mut size: usize = 0;
    // A count stays: a loop without one would ask for a handle that may wait.
    for _ in 0..u64::MAX {
        if block.fill(from)? == 0 {
            return Ok(size);
        }
        let Ok(done) = replay(owner, block.left(), into) else {
            return Err(OpenError::Malformed(owner));
        };
        block.pass(done);
        let Some(end) = size.checked_add(done) else {
            break;
        };
        size = end;
    }
    Err(OpenError::Store(StoreError::Failed))
}
