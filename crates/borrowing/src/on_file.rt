ghost use Rattle.std.specs.Prelude.{◌≡◌};
ghost use Rattle.borrowing.specs.Parts.{rounded, raise, raised, passes};

use crate::hold::Part;

/// Numbers on file are multiples of this, so that not every ask and write makes a record.
const STEP: u32 = 64;

/// The numbers of a part in the borrower's journal: at least those that it has used.
#[derive(Clone, Copy, Debug, Default, PartialEq, Eq)]
pub struct OnFile {
    pub ask: u32,
    pub write: u32,
}

// The number rounded up to a multiple of 64, at most the largest.
fn round_up(x: u32) -> u32
    ensures { result ≡ rounded x }
{
    x.div_ceil(STEP).saturating_mul(STEP)
}

// A number on file, raised where the part's passes it.
fn raise(filed: u32, number: u32) -> u32
    ensures { result ≡ raise filed number }
{
    if number <= filed {
        filed
    } else {
        round_up(number)
    }
}

impl OnFile {
    /// Whether the part's numbers pass those on file.
    pub fn is_passed(self, part: Part) -> bool
        ensures { result ≡ passes self part }
    {
        self.ask < part.ask || self.write < part.write
    }

    /// The numbers to have on file for the part.
    pub fn raised(self, part: Part) -> OnFile
        ensures { result ≡ raised self part }
    {
        OnFile {
            ask: raise(self.ask, part.ask),
            write: raise(self.write, part.write),
        }
    }
}
