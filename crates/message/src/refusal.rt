ghost use Rattle.std.specs.Prelude.{◌≡◌};
ghost use Rattle.message.specs.Refusals.{refusal_number};

/// Why a message, a call or a line is refused, with the number that is printed. A refusal changes nothing.
#[derive(Clone, Copy, Debug, PartialEq, Eq)]
pub enum Refusal {
    /// no message or line of any form, or one that is not for this receiver
    Malformed = 1,
    /// no copy that is valid
    NoCopy = 2,
    /// the copy is for reading
    ReadOnly = 3,
    /// a copy is held already
    HoldsCopy = 4,
    /// the loan answers another ask than the last
    OtherAsk = 5,
    /// the keeper is in its grace period
    Quiet = 6,
    /// a lease of another borrower bars it
    Barred = 7,
    /// no lease for writing runs, or the write's number is applied or void already
    NotApplied = 8,
    /// the table of leases is full, or a number or a clock would pass its bytes
    Exhausted = 9,
}

impl Refusal {
    /// The number that is printed.
    pub fn number(self) -> u8
        ensures { result ≡ refusal_number self }
    {
        self as u8
    }
}
