ghost use Rattle.std.specs.Prelude.{◌≡◌, ℕ, ◌+◌, ◌^◌, if◌then◌else◌, Some, MatchResult, nat_le, nat_lt};
ghost use Rattle.borrower.specs.Steps.{stale, released, settled, asking, ask_of, showing, wrote, write_of, loan_of, recall_of, rounded, kept_of, passes, risen};

use crate::hold::{Asked, Held, OnFile, Part, Timing};
use message::kind::Kind;
use message::refusal::Refusal;

/// The largest number of an ask or a write.
const LAST: u32 = u32::MAX;

impl Timing {
    // Whether a copy asked for now is valid until a reading that the clock can show.
    fn has_room(self) -> bool
        ensures { result ≡ nat_lt (self.clock + self.short) (2 ^ 64) }
    {
        self.clock.checked_add(self.short).is_some()
    }
}

impl Held {
    /// Whether the copy is no longer valid.
    pub fn is_stale(self, time: Timing) -> bool
        ensures { result ≡ stale time.clock time.short (Some self) }
    {
        time.clock >= self.asked && time.clock - self.asked >= time.short
    }
}

impl Part {
    /// Lets the copy go, if there is one; the ask number goes up, so that no loan for an earlier ask is taken.
    pub fn release(self) -> Part
        ensures { result ≡ released self }
    {
        Part {
            ask: self.ask.saturating_add(1),
            hold: None,
            ..self
        }
    }

    /// Whether a copy is held that is no longer valid.
    pub fn is_stale(self, time: Timing) -> bool
        ensures { result ≡ stale time.clock time.short self.hold }
    {
        self.hold.is_some_and(|copy| copy.is_stale(time))
    }

    /// Releases a copy that is no longer valid.
    pub fn settle(self, time: Timing) -> Part
        ensures { result ≡ settled time.clock time.short self }
    {
        if self.is_stale(time) {
            self.release()
        } else {
            self
        }
    }

    // The number of an ask of the part, which is settled, or why it may not ask.
    fn next_ask(self, time: Timing) -> Result<u32, Refusal>
        ensures { MatchResult result (λ n. ask_of time.clock time.short self ≡ (asking time.clock self, Ok (record { number = n; written = self.write }))) (λ e. ask_of time.clock time.short self ≡ (self, Err e)) }
    {
        if self.hold.is_some() {
            return Err(Refusal::HoldsCopy);
        }
        if self.ask >= LAST - 1 || !time.has_room() {
            return Err(Refusal::Exhausted);
        }
        Ok(self.ask + 1)
    }

    /// Asks for the part.
    // A pair stays, here and below: a part is taken and handed back by value, also where it is refused.
    pub fn ask(self, time: Timing) -> (Part, Result<Asked, Refusal>)
        ensures { result ≡ ask_of time.clock time.short (settled time.clock time.short self) }
    {
        let part = self.settle(time);
        match part.next_ask(time) {
            Ok(number) => {
                let written = part.write;
                let next = Part {
                    ask: number,
                    asked: time.clock,
                    ..part
                };
                (next, Ok(Asked { number, written }))
            }
            Err(e) => (part, Err(e)),
        }
    }

    /// Whether the copy of the part, which is settled, may be shown.
    pub fn show(self) -> Result<(), Refusal>
        ensures { result ≡ showing self.hold }
    {
        self.hold.ok_or(Refusal::NoCopy).map(|_| ())
    }

    // The number of a write of the part, which is settled, or why it may not write.
    fn next_write(self) -> Result<u32, Refusal>
        ensures { MatchResult result (λ n. write_of self ≡ (wrote self, Ok n)) (λ e. write_of self ≡ (self, Err e)) }
    {
        let copy = self.hold.ok_or(Refusal::NoCopy)?;
        if copy.kind == Kind::Reading {
            return Err(Refusal::ReadOnly);
        }
        self.write.checked_add(1).ok_or(Refusal::Exhausted)
    }

    /// Writes the part: the number of the write.
    pub fn write(self, time: Timing) -> (Part, Result<u32, Refusal>)
        ensures { result ≡ write_of (settled time.clock time.short self) }
    {
        let part = self.settle(time);
        match part.next_write() {
            Ok(number) => {
                let next = Part {
                    write: number,
                    ..part
                };
                (next.release(), Ok(number))
            }
            Err(e) => (part, Err(e)),
        }
    }

    /// A loan comes.
    pub fn on_loan(self, number: u32, kind: Kind) -> (Part, Result<(), Refusal>)
        ensures { result ≡ loan_of number kind self }
    {
        if self.hold.is_some() {
            return (self, Err(Refusal::HoldsCopy));
        }
        if number != self.ask {
            return (self, Err(Refusal::OtherAsk));
        }
        let asked = self.asked;
        let hold = Some(Held { kind, asked });
        (Part { hold, ..self }, Ok(()))
    }

    /// A recall comes: the number that is said back.
    pub fn on_recall(self) -> (Part, u32)
        ensures { result ≡ recall_of self }
    {
        (self.release(), self.ask)
    }

    /// What a part is after coming up.
    pub fn come_up(file: OnFile) -> Part
        ensures { result ≡ risen file }
    {
        let ask = if file.ask == 0 {
            0
        } else {
            file.ask.saturating_add(1)
        };
        Part {
            ask,
            write: file.write,
            ..Part::default()
        }
    }
}

// The number rounded up to a multiple of 64, at most the largest.
fn round_up(x: u32) -> u32
    ensures { result ≡ rounded x }
{
    x.div_ceil(64).saturating_mul(64)
}

// A number on file, raised where the part's passes it.
fn raise(filed: u32, number: u32) -> u32
    ensures { result ≡ if nat_le number filed then filed else rounded number }
{
    if number <= filed {
        filed
    } else {
        round_up(number)
    }
}

impl OnFile {
    /// Whether the part's numbers pass those on file.
    pub fn is_passed(self, part: Part) -> bool
        ensures { result ≡ passes self part }
    {
        self.ask < part.ask || self.write < part.write
    }

    /// The numbers to have on file for the part.
    pub fn raised(self, part: Part) -> OnFile
        ensures { result ≡ kept_of self part }
    {
        OnFile {
            ask: raise(self.ask, part.ask),
            write: raise(self.write, part.write),
        }
    }
}
