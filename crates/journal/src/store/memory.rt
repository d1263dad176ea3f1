ghost use Rattle.std.specs.Prelude.{◌≤◌, vec_len};

use crate::store::{Store, StoreError};
use std::alloc::Global;

/// A file in memory, for rehearsals and tests.
#[derive(Drop)]
pub struct MemoryStore {
    bytes: Vec<u8>,
    synced: usize,
    ghost within: { synced ≤ vec_len bytes },
}

impl MemoryStore {
    ghost use Rattle.std.specs.Prelude.{◌≡◌, true, [], ◌++◌, length, take, is_ok, IsErrOf};
    ghost use Rattle.journal.specs.declared.store.StoreError.TheVariants.{Failed};
    ghost use Rattle.journal.specs.Memory.{disk_of, room_of};

    /// An empty file.
    pub fn new(heap: Global) -> MemoryStore
        ensures { (disk_of result).appended ≡ [] }
    {
        MemoryStore {
            bytes: Vec::new(heap),
            synced: 0,
        }
    }

    /// A file that holds these bytes, synced.
    pub fn holding(bytes: Vec<u8>) -> MemoryStore
        ensures file { (disk_of result).appended ≡ bytes.items }
        ensures disk { (disk_of result).synced ≡ bytes.items }
    {
        let synced = bytes.len();
        MemoryStore { bytes, synced }
    }

    /// What it holds.
    pub fn content(&self) -> &[u8]
        ensures { result.now ≡ (disk_of self.now).appended }
    {
        self.bytes.as_slice()
    }

    /// Makes room for so many bytes more.
    pub fn reserve(&mut self, more: usize) -> Result<(), StoreError>
        ensures room { is_ok result ≡ true → more ≤ room_of self.new }
        ensures disk { disk_of self.new ≡ disk_of self.old }
        ensures cause { IsErrOf result Failed → ⊥ }
    {
        self.bytes.reserve(more)?;
        Ok(())
    }

    // Appends bytes that there is room for.
    pub(crate) fn extend(&mut self, bytes: &[u8])
        requires { length bytes.now ≤ room_of self.old }
        ensures file { (disk_of self.new).appended ≡ (disk_of self.old).appended ++ bytes.now }
        ensures disk { (disk_of self.new).synced ≡ (disk_of self.old).synced }
    {
        self.bytes.extend_from_slice(bytes).unwrap();
    }

    /// Keeps so many of the file's first bytes.
    pub fn cut(&mut self, size: usize)
        ensures file { (disk_of self.new).appended ≡ take size (disk_of self.old).appended }
        ensures disk { (disk_of self.new).synced ≡ take size (disk_of self.old).synced }
    {
        self.bytes.truncate(size);
        self.synced = self.synced.min(size);
    }
}

impl Store for MemoryStore {
    ghost use Rattle.journal.specs.Memory.{disk_of};

    ghost disk = { disk_of };

    ghost faults = { λ _. 0 };

    ghost in_memory = { Unit {0} };

    fn append(&mut self, bytes: &[u8]) -> Result<(), StoreError> {
        self.reserve(bytes.len())?;
        self.extend(bytes);
        Ok(())
    }

    fn sync(&mut self) -> Result<(), StoreError> {
        self.synced = self.bytes.len();
        Ok(())
    }
}
