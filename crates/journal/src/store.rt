ghost use Rattle.std.specs.Prelude.{◌≡◌, ℕ, Some, IsErrOf, codes};
ghost use Rattle.journal.specs.declared.store.StoreError.TheVariants.{NoMemory};
ghost use Rattle.journal.specs.Records.{recorded, layout};
ghost use Rattle.journal.specs.Stores.{Disk, Grown, Saved, Committed};
ghost use Rattle.journal.specs.Causes.{HasCause};

use crate::record::{Record, encode};
use std::alloc::AllocError;
use std::error::Error;
use std::fmt;

pub mod failing;
pub mod file;
pub mod memory;
pub mod told;

/// Why a store did not do what it was asked.
#[derive(Clone, Copy, PartialEq, Eq, Debug)]
pub enum StoreError {
    /// there is no memory for the bytes
    NoMemory,
    /// the system could not write, cut or sync the file
    Failed,
}

// Whoever started a program is told the same of both: its journal has not what it should have.
impl fmt::Display for StoreError {
    ghost output = { λ _. Some (codes "the journal could not be written and synced") };

    fn fmt<W: fmt::Write>(&self, f: &mut fmt::Formatter<W>) -> fmt::Result {
        f.write_str("the journal could not be written and synced")
    }
}

impl Error for StoreError {}

impl From<AllocError> for StoreError {
    ghost from_gives = { λ _ e. e ≡ NoMemory };

    fn from(_: AllocError) -> Self {
        Self::NoMemory
    }
}

/// A file that a journal is kept in: it grows at its end, and is safe from a stop as far as it is synced.
pub trait Store {
    // what the file holds, and what is known to be on disk
    ghost disk: { Self → Disk };

    // how often the disk has failed
    ghost faults: { Self → ℕ };

    // the file is in memory, which may run out
    ghost in_memory: { Type 0 };

    /// Appends bytes to the file. Where it fails, some first part of them may be there.
    fn append(&mut self, bytes: &[u8]) -> Result<(), StoreError>
        ensures grown { Grown (disk self.old) bytes.now (disk self.new) result }
        ensures cause { HasCause (faults self.old) (faults self.new) result }
        ensures memory { IsErrOf result NoMemory → in_memory };

    /// Brings all that the file holds to the disk.
    fn sync(&mut self) -> Result<(), StoreError>
        ensures saved { Saved (disk self.old) (disk self.new) result }
        ensures cause { HasCause (faults self.old) (faults self.new) result }
        ensures memory { IsErrOf result NoMemory → ⊥ };
}

/// Appends a record, with the bytes of `part` where a part is applied. It is not synced: nothing that depends on it may leave yet.
pub fn append_record<S: Store>(
    store: &mut S,
    record: &Record,
    part: &[u8; 1024],
) -> Result<(), StoreError>
    ensures grown { Grown (S.disk store.old) (layout (recorded part.now «record».now)) (S.disk store.new) result }
    ensures cause { HasCause (S.faults store.old) (S.faults store.new) result }
{
    let mut out = [0; 1032];
    let size = encode(record, part, &mut out).unwrap();
    store.append(&out[0..size])
}

/// Appends a record and syncs: once it is done it is on the disk, behind what was there. What depends on it may leave only
/// then.
pub fn commit_record<S: Store>(
    store: &mut S,
    record: &Record,
    part: &[u8; 1024],
) -> Result<(), StoreError>
    ensures committed { Committed (S.disk store.old) (layout (recorded part.now «record».now)) (S.disk store.new) result }
    ensures cause { HasCause (S.faults store.old) (S.faults store.new) result }
{
    append_record(store, record, part)?;
    store.sync()
}
