use crate::kind::Kind;
use part::head::Head;
use std::alloc::Global;

/// Bytes that come one after another; or that there was no memory for some of them. So who writes them needn't ask at each step.
#[derive(Drop)]
pub struct Buffer {
    pub bytes: Vec<u8>,
    pub failed: bool,
}

impl Buffer {
    ghost use Rattle.std.specs.Prelude.{◌≡◌, [], ◌∷◌, false};
    ghost use Rattle.part.specs.Bytes.{four, headed, Named};
    ghost use Rattle.message.specs.Buffers.{Grown};
    ghost use Rattle.message.specs.Kinds.{kind_byte};

    /// No bytes yet.
    pub fn new(heap: Global) -> Buffer
        ensures bytes { result.bytes.items ≡ [] }
        ensures failed { result.failed ≡ false }
    {
        Buffer {
            bytes: Vec::new(heap),
            failed: false,
        }
    }

    /// Lets go of all bytes, and keeps their memory for the next.
    pub fn clear(&mut self)
        ensures bytes { self.new.bytes.items ≡ [] }
        ensures failed { self.new.failed ≡ false }
    {
        self.bytes.clear();
        self.failed = false;
    }

    /// Appends bytes.
    pub fn put(&mut self, bytes: &[u8])
        ensures { Grown self.old self.new bytes.now }
    {
        if self.bytes.extend_from_slice(bytes).is_err() {
            self.failed = true;
        }
    }

    /// Appends the four bytes of a number, high byte first.
    pub fn put_number(&mut self, number: u32)
        ensures { Grown self.old self.new (four number) }
    {
        self.put(&number.to_be_bytes());
    }

    /// Appends a kind and the four bytes of a number.
    pub fn put_kind(&mut self, kind: Kind, number: u32)
        ensures { Grown self.old self.new (kind_byte kind ∷ four number) }
    {
        let [a, b, c, d] = number.to_be_bytes();
        self.put(&[u8::from(kind), a, b, c, d]);
    }

    /// Appends a first byte and a head.
    pub fn put_head(&mut self, first: u8, head: &Head)
        ensures named { Named head.now.who.id head.now.place.at head.now.number }
        ensures bytes { Grown self.old self.new (first ∷ headed head.now.who.id head.now.place.at head.now.number []) }
    {
        let [a, b, c, d] = head.number.to_be_bytes();
        self.put(&[
            first,
            head.who.id,
            head.place.file(),
            head.place.part(),
            a,
            b,
            c,
            d,
        ]);
    }
}
