ghost use Rattle.std.specs.Prelude.{◌≡◌};
ghost use Rattle.keeping.specs.Numbering.{no_numbers, counts_at};

use part::who::{BORROWERS, Who};

/// Of one part and one borrower: the number of the last write applied, and the number up to which
/// writes are void.
#[derive(Clone, Copy, Debug, PartialEq, Eq)]
pub struct Counts {
    pub done: u32,
    pub voided: u32,
}

/// The numbers of one part, by borrower.
#[derive(Clone, Copy, Debug, PartialEq, Eq)]
pub struct Numbers {
    pub counts: [Counts; BORROWERS],
}

impl Numbers {
    /// No write is applied, and none is void.
    pub fn none() -> Numbers
        ensures { result ≡ no_numbers }
    {
        Numbers {
            counts: [Counts { done: 0, voided: 0 }; BORROWERS],
        }
    }

    /// The numbers of a borrower.
    pub fn counts_of(&self, who: Who) -> Counts
        ensures { result ≡ counts_at self.now who.id }
    {
        let w = usize::from(who.id);
        self.counts[w]
    }
}
