ghost use Rattle.std.specs.Prelude.{◌≡◌, vec_len};

use crate::durable::{Durable, PARTS};
use crate::hold::Part;
use part::files::{Files, PART_SIZE};
use part::place::Place;
use std::alloc::{AllocError, Global};

/// What a stop takes away: what is kept of each part, and the bytes of the copies.
#[derive(Drop)]
pub struct Volatile {
    parts: Vec<Part>,
    copies: Files,
    ghost all: { vec_len parts ≡ 16384 },
}

impl Volatile {
    ghost use Rattle.std.specs.Prelude.{IfOk, length};
    ghost use Rattle.part.specs.Parts.{blank};
    ghost use Rattle.borrowing.specs.Durables.{durable_of};
    ghost use Rattle.borrowing.specs.Volatiles.{volatile_of, with_part, with_copy, with_all_up};

    /// There are no copies.
    pub fn new(heap: Global) -> Result<Volatile, AllocError>
        ensures { IfOk result (λ v. (volatile_of v).copies ≡ blank) }
    {
        let parts = Vec::from_elem(heap, Part::default(), PARTS)?;
        let copies = Files::new(heap)?;
        Ok(Volatile { parts, copies })
    }

    /// Comes up: of each part it has what its numbers on file say, and nothing is held.
    pub fn come_up(&mut self, durable: &Durable)
        ensures { volatile_of self.new ≡ with_all_up (durable_of durable.now) (volatile_of self.old) }
    {
        for at in 0u16..16384 {
            let part = Part::come_up(durable.numbers(Place { at }));
            self.parts[usize::from(at)] = part;
        }
    }

    /// What is kept of a part.
    pub fn part(&self, place: Place) -> Part
        ensures { result ≡ (volatile_of self.now).parts place.at }
    {
        self.parts[usize::from(place.at)]
    }

    /// A part becomes this.
    pub fn set_part(&mut self, place: Place, next: Part)
        ensures { volatile_of self.new ≡ with_part place.at next (volatile_of self.old) }
    {
        self.parts[usize::from(place.at)] = next;
    }

    /// The bytes of a copy.
    pub fn copy(&self, place: Place) -> &[u8; PART_SIZE]
        ensures bytes { result.now ≡ (volatile_of self.now).copies place.at }
        ensures size { length result.now ≡ 1024 }
    {
        let copy = self.copies.part(place);
        // taken as a slice, it is known to have its size
        let _bytes: &[u8] = copy;
        copy
    }

    /// The copy of a part becomes these bytes.
    pub fn set_copy(&mut self, place: Place, bytes: &[u8; PART_SIZE])
        ensures { volatile_of self.new ≡ with_copy place.at bytes.now (volatile_of self.old) }
    {
        self.copies.write(place, bytes);
    }
}
