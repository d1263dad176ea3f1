ghost use Rattle.std.specs.Prelude.{◌≡◌, ◌≤◌, [], ◌∷◌, length, take, decimal};
ghost use Rattle.lines.specs.Hex.{hex_text};
ghost use Rattle.lines.specs.Outputs.{printed, appended_to, trimmed, trimmed_text};

use crate::hex::push_hex;
use itoa::Buffer;
use std::alloc::{AllocError, Global};

/// What is to be printed, gathered so that it goes out at once.
#[derive(Drop)]
pub struct Output {
    bytes: Vec<u8>,
}

// The bytes without the zeros at their end.
fn trim(bytes: &[u8]) -> &[u8]
    ensures { result.now ≡ trimmed bytes.now }
{
    let mut rest = bytes;
    // A pattern stays: a search from the end and a cut there would take two steps and two facts.
    while let [front @ .., 0] = rest {
        rest = front;
    }
    rest
}

impl Output {
    /// Nothing to be printed yet.
    pub fn new(heap: Global) -> Output
        ensures { printed result ≡ [] }
    {
        Output {
            bytes: Vec::new(heap),
        }
    }

    /// Appends bytes as they are; nothing where there is no memory for all.
    pub fn bytes(&mut self, bytes: &[u8]) -> Result<(), AllocError>
        ensures { printed self.new ≡ appended_to (printed self.old) bytes.now result }
    {
        self.bytes.extend_from_slice(bytes)
    }

    /// Appends text; nothing where there is no memory for all.
    pub fn text(&mut self, text: &str) -> Result<(), AllocError>
        ensures { printed self.new ≡ appended_to (printed self.old) text.now result }
    {
        self.bytes.extend_from_slice(text.as_bytes())
    }

    /// Appends a number in decimal, without zeros in front; nothing where there is no memory for all.
    pub fn number(&mut self, number: u64) -> Result<(), AllocError>
        ensures { printed self.new ≡ appended_to (printed self.old) (decimal number) result }
    {
        self.bytes
            .extend_from_slice(Buffer::new().format(number).as_bytes())
    }

    /// Appends bytes in hexadecimal; nothing where there is no memory for all.
    pub fn hex(&mut self, bytes: &[u8]) -> Result<(), AllocError>
        ensures { printed self.new ≡ appended_to (printed self.old) (hex_text bytes.now) result }
    {
        push_hex(&mut self.bytes, bytes)
    }

    /// Appends bytes in hexadecimal without the zeros at their end, or a dash where all are zero;
    /// nothing where there is no memory for all.
    pub fn trimmed(&mut self, bytes: &[u8]) -> Result<(), AllocError>
        ensures { printed self.new ≡ appended_to (printed self.old) (trimmed_text bytes.now) result }
    {
        let front = trim(bytes);
        if front.is_empty() {
            self.bytes(b"-")
        } else {
            self.hex(front)
        }
    }

    /// Ends the line; nothing is appended where there is no memory.
    pub fn end_line(&mut self) -> Result<(), AllocError>
        ensures { printed self.new ≡ appended_to (printed self.old) (10 ∷ []) result }
    {
        self.bytes(b"\n")
    }

    /// The bytes to be printed.
    pub fn as_slice(&self) -> &[u8]
        ensures { result.now ≡ printed self.now }
    {
        self.bytes.as_slice()
    }

    /// How many bytes are to be printed.
    pub fn len(&self) -> usize
        ensures { result ≡ length (printed self.now) }
    {
        self.bytes.len()
    }

    /// Keeps so many of the first bytes.
    pub fn truncate(&mut self, size: usize)
        ensures { printed self.new ≡ take size (printed self.old) }
    {
        self.bytes.truncate(size);
    }

    /// Lets go of what was to be printed.
    pub fn clear(&mut self)
        ensures { printed self.new ≡ [] }
    {
        self.bytes.clear();
    }
}
