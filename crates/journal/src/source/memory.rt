ghost use Rattle.std.specs.Prelude.{◌≤◌, length};

use crate::source::Source;
use crate::store::StoreError;

/// A file in memory that is read, for rehearsals and tests.
#[derive(Drop)]
pub struct MemorySource<'a> {
    bytes: &'a [u8],
    at: usize,
    ghost within: { at ≤ length bytes.now },
}

impl<'a> MemorySource<'a> {
    ghost use Rattle.std.specs.Prelude.{◌≡◌, drop};

    /// A file that has these bytes, of which none was read.
    pub fn of(bytes: &'a [u8]) -> MemorySource<'a>
        ensures { (result.bytes.now ≡ bytes.now) × (result.at ≡ 0) }
    {
        MemorySource { bytes, at: 0 }
    }

    // What was not read yet.
    fn left(&self) -> &[u8]
        ensures { result.now ≡ drop self.now.at self.now.bytes.now }
    {
        &self.bytes[self.at..]
    }
}

impl<'a> Source for MemorySource<'a> {
    ghost use Rattle.std.specs.Prelude.{◌≡◌, Some};
    ghost use Rattle.journal.specs.Memory.{read_of};

    ghost had = { read_of };

    ghost ended = { λ s. s.at ≡ length s.bytes.now };

    ghost all = { λ s. Some s.bytes.now };

    ghost faults = { λ _. 0 };

    fn read(&mut self, block: &mut [u8]) -> Result<usize, StoreError> {
        let left = self.left();
        let count = left.len().min(block.len());
        block[..count].copy_from_slice(&left[..count]);
        self.at += count;
        Ok(count)
    }
}
