ghost use Rattle.std.specs.Prelude.{◌≡◌, vec_len};

use crate::place::Place;
use std::alloc::{AllocError, Global};

/// How many bytes a part has.
pub const PART_SIZE: usize = 1024;

/// How many parts there are, in all files.
pub const PARTS: usize = 16384;

/// The bytes of all parts of all files, one part after another.
#[derive(Drop)]
pub struct Files {
    parts: Vec<[u8; PART_SIZE]>,
    ghost size: { vec_len parts ≡ 16384 },
}

impl Files {
    ghost use Rattle.std.specs.Prelude.{IfOk};
    ghost use Rattle.part.specs.Parts.{parts, at_1, blank};

    /// Files that nobody has written: zeros.
    pub fn new(heap: Global) -> Result<Files, AllocError>
        ensures { IfOk result (λ f. parts f ≡ blank) }
    {
        Ok(Files {
            parts: Vec::from_elem(heap, [0; PART_SIZE], PARTS)?,
        })
    }

    /// The bytes of one part.
    pub fn part(&self, place: Place) -> &[u8; PART_SIZE]
        ensures { result.now ≡ parts self.now place.at }
    {
        &self.parts[usize::from(place.at)]
    }

    /// Writes one part; every other is as it was.
    pub fn write(&mut self, place: Place, bytes: &[u8; PART_SIZE])
        ensures { parts self.new ≡ at_1 place.at bytes.now (parts self.old) }
    {
        self.parts[usize::from(place.at)] = *bytes;
    }
}
