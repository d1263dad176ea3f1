ghost use Rattle.std.specs.Prelude.{◌≡◌, ℕ, List, Option, length, IsErrOf};
ghost use Rattle.journal.specs.declared.store.StoreError.TheVariants.{NoMemory};
ghost use Rattle.journal.specs.Causes.{HasCause};
ghost use Rattle.journal.specs.Sources.{Fetched};

use crate::store::StoreError;

pub mod file;
pub mod memory;

/// A file that is read from its beginning on, before anything is written to it.
pub trait Source {
    // what was read of it so far
    ghost had: { Self → List ℕ };

    // that is all there is
    ghost ended: { Self → Type 0 };

    // all that it has, where that is known before it is read
    ghost all: { Self → Option (List ℕ) };

    // how often the disk has failed
    ghost faults: { Self → ℕ };

    /// Reads on, into the first bytes of the block, and says how many bytes came: none only at the end of the file.
    fn read(&mut self, block: &mut [u8]) -> Result<usize, StoreError>
        ensures all { all self.new ≡ all self.old }
        ensures bytes { Fetched (had self.old) (had self.new) (ended self.new) (length block.old) block.new result }
        ensures cause { HasCause (faults self.old) (faults self.new) result }
        ensures memory { IsErrOf result NoMemory → ⊥ };
}
