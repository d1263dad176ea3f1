ghost use Rattle.std.specs.Prelude.{◌≤◌, vec_len};

use crate::replay::OpenError;
use crate::source::Source;
use std::alloc::{AllocError, Global};

/// So many bytes of a file are held at a time at first: many records, and few enough for the caches near the
/// processor.
pub const BLOCK: usize = 65536;

/// What was read of a file and not yet let go of. It grows where a record is longer than it.
#[derive(Drop)]
pub struct Window {
    bytes: Vec<u8>,
    held: usize,
    ghost within: { held ≤ vec_len bytes },
}

impl Window {
    ghost use Rattle.std.specs.Prelude.{◌≡◌, ◌<◌, [], length, drop, IfOk, OnOk};
    ghost use Rattle.journal.specs.Windows.{left, Filled};

    /// It holds nothing, and has room for so many bytes before it grows.
    pub fn new(heap: Global, size: usize) -> Result<Window, AllocError>
        ensures { IfOk result (λ w. left w ≡ []) }
    {
        let mut bytes = Vec::new(heap);
        bytes.resize(size, 0)?;
        Ok(Window { bytes, held: 0 })
    }

    /// What it holds.
    pub fn left(&self) -> &[u8]
        ensures { result.now ≡ left self.now }
    {
        &self.bytes[..self.held]
    }

    // Grows to twice its size where it is full.
    fn make_room(&mut self) -> Result<(), AllocError>
        ensures room { OnOk result (self.new.held < vec_len self.new.bytes) }
        ensures left { left self.new ≡ left self.old }
    {
        let size = self.bytes.len();
        if self.held < size {
            return Ok(());
        }
        self.bytes.resize(size + size.max(1), 0)
    }

    /// Reads on, behind what it holds, and says how many bytes came. Where it is full it grows first.
    pub fn fill<S: Source>(&mut self, from: &mut S) -> Result<usize, OpenError>
        ensures all { S.all from.new ≡ S.all from.old }
        ensures bytes { Filled (S.had from.old) (S.had from.new) (S.ended from.new) (left self.old) (left self.new) result }
    {
        self.make_room()?;
        let count = from.read(&mut self.bytes[self.held..])?;
        self.held += count;
        Ok(count)
    }

    /// Lets go of so many first bytes.
    pub fn pass(&mut self, size: usize)
        requires { size ≤ length (left self.old) }
        ensures { left self.new ≡ drop size (left self.old) }
    {
        self.bytes.copy_within(size..self.held, 0);
        self.held -= size;
    }
}
