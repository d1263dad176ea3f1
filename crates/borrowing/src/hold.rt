ghost use Rattle.std.specs.Prelude.{◌≡◌, ◌+◌, ◌^◌, Some, nat_lt};
ghost use Rattle.borrowing.specs.Parts.{stale, released, settled, ask_of, AsksBy, showing, write_of, WritesBy};
ghost use Rattle.borrowing.specs.Parts.{loan_of, come_up};

use crate::on_file::OnFile;
use message::kind::Kind;
use message::refusal::Refusal;

/// The largest number of an ask or a write.
const LAST: u32 = u32::MAX;

/// What tells whether a copy is valid: what the borrower's clock reads, and for how long from its
/// ask on a copy is.
#[derive(Clone, Copy, Debug, PartialEq, Eq)]
pub struct Timing {
    pub clock: u64,
    pub short: u64,
}

impl Timing {
    // Whether a copy asked for now is valid until a reading that the clock can show.
    fn has_room(self) -> bool
        ensures { result ≡ nat_lt (self.clock + self.short) (2 ^ 64) }
    {
        self.clock.checked_add(self.short).is_some()
    }
}

/// A copy of a part that a borrower holds: what it was lent for, and what the borrower's clock read
/// at the ask.
#[derive(Clone, Copy, Debug, PartialEq, Eq)]
pub struct Held {
    pub kind: Kind,
    pub asked: u64,
}

impl Held {
    /// Whether the copy is no longer valid.
    pub fn is_stale(self, time: Timing) -> bool
        ensures { result ≡ stale time.clock time.short (Some self) }
    {
        time.clock >= self.asked && time.clock - self.asked >= time.short
    }
}

/// An ask that is to be sent: its number, and the number of the last write.
#[derive(Clone, Copy, Debug, PartialEq, Eq)]
pub struct Asked {
    pub number: u32,
    pub written: u32,
}

/// What a borrower keeps of a part: the numbers of its last ask and of its last write, when it last
/// asked, and the copy that it holds, if any.
#[derive(Clone, Copy, Debug, Default, PartialEq, Eq)]
pub struct Part {
    pub ask: u32,
    pub write: u32,
    pub asked: u64,
    pub hold: Option<Held>,
}

impl Part {
    /// What a part is after coming up.
    pub fn come_up(file: OnFile) -> Part
        ensures { result ≡ come_up file }
    {
        let ask = if file.ask == 0 {
            0
        } else {
            file.ask.saturating_add(1)
        };
        Part {
            ask,
            write: file.write,
            ..Part::default()
        }
    }

    /// Lets the copy go, if there is one; the ask number goes up, so that no loan for an earlier ask
    /// is taken.
    pub fn release(self) -> Part
        ensures { result ≡ released self }
    {
        Part {
            ask: self.ask.saturating_add(1),
            hold: None,
            ..self
        }
    }

    /// Whether a copy is held that is no longer valid.
    pub fn is_stale(self, time: Timing) -> bool
        ensures { result ≡ stale time.clock time.short self.hold }
    {
        self.hold.is_some_and(|copy| copy.is_stale(time))
    }

    /// Releases a copy that is no longer valid.
    pub fn settle(self, time: Timing) -> Part
        ensures { result ≡ settled time.clock time.short self }
    {
        if self.is_stale(time) {
            self.release()
        } else {
            self
        }
    }

    // The number of an ask of the part, which is settled, or why it may not ask.
    fn next_ask(self, time: Timing) -> Result<u32, Refusal>
        ensures { AsksBy time.clock time.short self result }
    {
        if self.hold.is_some() {
            return Err(Refusal::HoldsCopy);
        }
        if self.ask >= LAST - 1 || !time.has_room() {
            return Err(Refusal::Exhausted);
        }
        Ok(self.ask + 1)
    }

    /// Asks for the part, which is settled. It is taken and handed back by value, also where it is
    /// refused.
    pub fn ask(self, time: Timing) -> (Part, Result<Asked, Refusal>)
        ensures { result ≡ ask_of time.clock time.short self }
    {
        match self.next_ask(time) {
            Ok(number) => {
                let written = self.write;
                let next = Part {
                    ask: number,
                    asked: time.clock,
                    ..self
                };
                (next, Ok(Asked { number, written }))
            }
            Err(e) => (self, Err(e)),
        }
    }

    /// Whether the copy of the part, which is settled, may be shown.
    pub fn show(self) -> Result<(), Refusal>
        ensures { result ≡ showing self.hold }
    {
        self.hold.ok_or(Refusal::NoCopy).map(|_| ())
    }

    // The number of a write of the part, which is settled, or why it may not write.
    fn next_write(self) -> Result<u32, Refusal>
        ensures { WritesBy self result }
    {
        let copy = self.hold.ok_or(Refusal::NoCopy)?;
        if copy.kind == Kind::Reading {
            return Err(Refusal::ReadOnly);
        }
        self.write.checked_add(1).ok_or(Refusal::Exhausted)
    }

    /// Writes the part, which is settled: the number of the write.
    pub fn write(self) -> (Part, Result<u32, Refusal>)
        ensures { result ≡ write_of self }
    {
        match self.next_write() {
            Ok(number) => {
                let next = Part {
                    write: number,
                    ..self
                };
                (next.release(), Ok(number))
            }
            Err(e) => (self, Err(e)),
        }
    }

    /// A loan comes.
    pub fn on_loan(self, number: u32, kind: Kind) -> (Part, Result<(), Refusal>)
        ensures { result ≡ loan_of number kind self }
    {
        if self.hold.is_some() {
            return (self, Err(Refusal::HoldsCopy));
        }
        if number != self.ask {
            return (self, Err(Refusal::OtherAsk));
        }
        let asked = self.asked;
        let hold = Some(Held { kind, asked });
        (Part { hold, ..self }, Ok(()))
    }
}
