ghost use Rattle.std.specs.Prelude.{◌≡◌, ◌<◌, ◌≤◌, length, take, drop, MatchOption, None, vec_len};
ghost use Rattle.lines.specs.Words.{before, behind};

use crate::words::find;
use std::alloc::{AllocError, Global};
use std::io;
use std::io::Read;

const NEWLINE: u8 = b'\n';

const BLOCK: usize = 65536;

/// How a line came: ended by a newline, or cut short by the end of the input.
#[derive(Clone, Copy, Debug, PartialEq, Eq)]
pub enum Line {
    Whole,
    Cut,
}

/// What was read and not yet handed out, and the line that was handed out last.
/// Bytes are read in blocks, and a line is handed out in place.
// It stays: `BufRead::read_until` copies each line, and does not say of a reader like standard input
// that the next line goes on where the last ended.
#[derive(Drop)]
pub struct Input {
    block: Vec<u8>,
    held: Vec<u8>,
    first: usize,
    last: usize,
    next: usize,
    ghost room: { 0 < vec_len block },
    ghost line: { first ≤ last },
    ghost behind: { last ≤ next },
    ghost within: { next ≤ vec_len held },
}

// Where the first line of a text ends, of which the first bytes are known to hold no newline.
fn line_end(text: &[u8], seen: usize) -> Option<usize>
    requires within { seen ≤ length text.now }
    requires clean { behind 10 (take seen text.now) ≡ None }
    ensures { MatchOption result (behind 10 text.now ≡ None) (λ i. (i ≡ length (before 10 text.now)) × (i < length text.now)) }
{
    Some(seen + find(&text[seen..], NEWLINE)?)
}

// Lets go of the bytes before a place.
fn compact(held: &mut Vec<u8>, start: usize)
    requires { start ≤ vec_len held.old }
    ensures { held.new.items ≡ drop start held.old.items }
{
    let left = held.len() - start;
    held.copy_within(start.., 0);
    held.truncate(left);
}

impl Input {
    ghost use Rattle.std.specs.Prelude.{ℕ, List, [], ◌++◌, is_some, IfOk, if◌then◌else◌};
    ghost use Rattle.std.specs.Option.{unwrap_or};
    ghost use Rattle.std.specs.Io.KnownBytes.{Consumes, IsAtEnd};
    ghost use Rattle.lines.specs.Inputs.{rest, line_of, Handed, HandedOut};

    /// Nothing was read yet.
    pub fn new(heap: Global) -> Result<Input, AllocError>
        ensures { IfOk result (λ i. rest i ≡ []) }
    {
        let block = Vec::from_elem(heap, 0, BLOCK)?;
        Ok(Input {
            block,
            held: Vec::new(heap),
            first: 0,
            last: 0,
            next: 0,
        })
    }

    /// The line that was handed out last, without its newline.
    pub fn line(&self) -> &[u8]
        ensures { result.now ≡ line_of self.now }
    {
        &self.held[self.first..self.last]
    }

    /// Whether the next line is here already, with its end: then nothing has to be read for it.
    pub fn has_line(&self) -> bool
        ensures { result ≡ is_some (behind 10 (rest self.now)) }
    {
        line_end(self.left(), 0).is_some()
    }

    // What was read and not yet handed out.
    fn left(&self) -> &[u8]
        ensures { result.now ≡ rest self.now }
    {
        &self.held[self.next..]
    }

    // Hands out the next line, where its end was read already. The first bytes are known to hold no newline.
    // A `bool` stays: there is a line or none, and `line` gives it.
    fn take_line(&mut self, seen: usize) -> bool
        requires within { seen ≤ length (rest self.old) }
        requires clean { behind 10 (take seen (rest self.old)) ≡ None }
        ensures found { result ≡ is_some (behind 10 (rest self.old)) }
        ensures line { line_of self.new ≡ (if result then before 10 (rest self.old) else line_of self.old) }
        ensures after { rest self.new ≡ unwrap_or (behind 10 (rest self.old)) (rest self.old) }
    {
        let Some(size) = line_end(self.left(), seen) else {
            return false;
        };
        self.first = self.next;
        self.last = self.next + size;
        self.next = self.last + 1;
        true
    }

    // Hands out all that is left.
    fn take_rest(&mut self)
        ensures line { line_of self.new ≡ rest self.old }
        ensures after { rest self.new ≡ [] }
    {
        self.first = self.next;
        self.last = self.held.len();
        self.next = self.held.len();
    }

    // Reads a block behind what is left, and says how many bytes came: none at the end of the input.
    fn fill<R: Read>(&mut self, from: &mut R) -> io::Result<usize>
        ensures { IfOk result (λ n. (got : List ℕ) × (length got ≡ n) × (rest self.new ≡ rest self.old ++ got) × Consumes (R.remaining from.old) (R.remaining from.new) got × (n ≡ 0 → IsAtEnd (R.remaining from.new))) }
    {
        // Where nothing was handed out since the last block, as within a long line, nothing moves.
        if self.next > 0 {
            compact(&mut self.held, self.next);
            self.first = 0;
            self.last = 0;
            self.next = 0;
        }
        let count = from.read(self.block.as_mut_slice())?;
        self.held.extend_from_slice(&self.block[..count])?;
        Ok(count)
    }

    // Hands out what is left at the end of the input.
    fn finish(&mut self) -> Option<Line>
        requires { None ≡ behind 10 (rest self.old) }
        ensures { Handed result (rest self.old) (line_of self.new) (rest self.new) }
    {
        if self.left().is_empty() {
            return None;
        }
        self.take_rest();
        Some(Line::Cut)
    }

    /// Hands out the next line, reading on as needed, and says how it came; `line` then gives it.
    /// None where the input is over.
    pub fn next_line<R: Read>(&mut self, from: &mut R) -> io::Result<Option<Line>>
        ensures { IfOk result (λ l. HandedOut l (rest self.old) (R.remaining from.old) (R.remaining from.new) (line_of self.new) (rest self.new)) }
    {
        let mut seen = 0;
        // A count stays: a loop without one would ask for a handle that may wait.
        for _ in 0..u64::MAX {
            if self.take_line(seen) {
                return Ok(Some(Line::Whole));
            }
            seen = self.left().len();
            if self.fill(from)? == 0 {
                return Ok(self.finish());
            }
        }
        Err(io::Error::from(io::ErrorKind::Other))
    }
}
