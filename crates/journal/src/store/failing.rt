ghost use Rattle.std.specs.Prelude.{◌≡◌, [], IsErrOf};
ghost use Rattle.journal.specs.declared.store.StoreError.TheVariants.{NoMemory};
ghost use Rattle.journal.specs.Memory.{disk_of};
ghost use Rattle.journal.specs.Causes.{HasCause};

use crate::store::memory::MemoryStore;
use crate::store::told::Told;
use crate::store::{Store, StoreError};
use std::alloc::Global;

/// A file in memory on which calls fail after a number of them, for tests.
#[derive(Drop)]
pub struct FailingStore {
    file: MemoryStore,
    left: usize,
    // how often it has failed
    told: Told,
}

impl FailingStore {
    /// An empty file on which so many calls are done, and every later one fails.
    pub fn new(heap: Global, left: usize) -> FailingStore
        ensures empty { (disk_of result.file).appended ≡ [] }
        ensures calls { result.left ≡ left }
    {
        FailingStore {
            file: MemoryStore::new(heap),
            left,
            told: Told::nothing(),
        }
    }

    /// What it holds.
    pub fn content(&self) -> &[u8]
        ensures { result.now ≡ (disk_of self.now.file).appended }
    {
        self.file.content()
    }

    // Counts a call, which fails where none is left.
    fn count(&mut self) -> Result<(), StoreError>
        ensures file { self.new.file ≡ self.old.file }
        ensures cause { HasCause self.old.told.faults self.new.told.faults result }
        ensures memory { IsErrOf result NoMemory → ⊥ }
    {
        if self.left == 0 {
            self.told.fail();
            return Err(StoreError::Failed);
        }
        self.left -= 1;
        Ok(())
    }
}

impl Store for FailingStore {
    ghost disk = { λ s. disk_of s.file };

    ghost faults = { λ s. s.told.faults };

    ghost in_memory = { Unit {0} };

    fn append(&mut self, bytes: &[u8]) -> Result<(), StoreError> {
        self.count()?;
        self.file.append(bytes)
    }

    fn sync(&mut self) -> Result<(), StoreError> {
        self.count()?;
        self.file.sync()
    }
}
