ghost use Rattle.std.specs.Prelude.{◌≡◌};
ghost use Rattle.site.specs.Nodes.{borrower_number, borrower_at};

use borrower::outcome::Call;
use part::place::Place;
use part::who::Who;

/// One of the borrowers 0 to 3.
#[derive(Clone, Copy, Debug, PartialEq, Eq)]
pub enum Borrower {
    Zero = 0,
    One = 1,
    Two = 2,
    Three = 3,
}

impl Borrower {
    /// The borrower of this number, where there is one.
    // A `match` stays: `TryFrom` would be the same one, with an error beside it that nothing reads.
    pub fn new(number: u64) -> Option<Borrower>
        ensures { result ≡ borrower_at number }
    {
        match number {
            0 => Some(Borrower::Zero),
            1 => Some(Borrower::One),
            2 => Some(Borrower::Two),
            3 => Some(Borrower::Three),
            _ => None,
        }
    }
}

impl From<Borrower> for u8 {
    ghost from_gives = { λ b n. n ≡ borrower_number b };

    fn from(borrower: Borrower) -> u8 {
        borrower as u8
    }
}

/// Who may be up or down, and where a message may arrive.
#[derive(Clone, Copy, Debug, PartialEq, Eq)]
pub enum Node {
    Keeper,
    Borrower(Borrower),
}

/// What may happen, but for time that goes on. `torn` says that whoever does it stops in its midst, and how many first bytes of
/// what it was appending to its journal are left.
#[derive(Clone, Copy, Debug, PartialEq, Eq)]
pub enum Event {
    /// A borrower is called; the bytes are those that a write writes.
    Call {
        who: Borrower,
        place: Place,
        call: Call,
        bytes: [u8; 1024],
        torn: Option<u64>,
    },
    /// Of a message, counted from 0, so many first bytes arrive.
    Deliver {
        message: usize,
        size: usize,
        to: Node,
        torn: Option<u64>,
    },
    /// Somebody stops.
    Stop(Node),
    /// Somebody comes up.
    Up(Node),
}
