ghost use Rattle.std.specs.Prelude.{◌≤◌};

use crate::source::Source;
use crate::store::StoreError;

/// So many bytes of a file are held at a time: many records, and few enough for the caches near the processor.
pub const BLOCK: usize = 65536;

/// What was read of a file and not yet let go of.
#[derive(Drop)]
pub struct Block {
    bytes: [u8; BLOCK],
    held: usize,
    ghost within: { held ≤ 65536 },
}

impl Block {
    ghost use Rattle.std.specs.Prelude.{◌≡◌, [], length, drop};
    ghost use Rattle.journal.specs.Blocks.{left, Filled};

    /// It holds nothing.
    pub fn new() -> Block
        ensures { left result ≡ [] }
    {
        Block {
            bytes: [0; BLOCK],
            held: 0,
        }
    }

    /// What it holds.
    pub fn left(&self) -> &[u8]
        ensures { result.now ≡ left self.now }
    {
        &self.bytes[..self.held]
    }

    /// Reads on, behind what it holds, and says how many bytes came.
    pub fn fill<S: Source>(&mut self, from: &mut S) -> Result<usize, StoreError>
        ensures all { S.all from.new ≡ S.all from.old }
        ensures bytes { Filled (S.had from.old) (S.had from.new) (S.ended from.new) (left self.old) (left self.new) result }
    {
        let count = from.read(&mut self.bytes[self.held..])?;
        self.held += count;
        Ok(count)
    }

    /// Lets go of so many first bytes.
    pub fn pass(&mut self, size: usize)
        requires { size ≤ length (left self.old) }
        ensures { left self.new ≡ drop size (left self.old) }
    {
        self.bytes.copy_within(size..self.held, 0);
        self.held -= size;
    }
}
