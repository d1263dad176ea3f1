ghost use Rattle.std.specs.Prelude.{◌≡◌};
ghost use Rattle.capi.specs.Numbers.{misuse_number};
ghost use Rattle.capi.specs.declared.misuse.Misuse.TheVariants.{NoMemory, NoJournal};

use message::form::Malformed;
use std::alloc::AllocError;

/// Why a call of the host was not made. Nothing has changed then: no handle, no buffer, and not the reply; but where there was no
/// memory for what came of a step, the handle is empty.
#[derive(Clone, Copy, Debug, PartialEq, Eq)]
pub enum Misuse {
    /// the handle holds no keeper that is up, or no tablet; or, where it is to be filled, it holds something already
    Handle = 10,
    /// a number is out of range, a call is unknown, a slice is of the wrong length, or a buffer too short
    Argument = 11,
    /// there is no memory
    NoMemory = 12,
    /// the bytes are no journal of this owner's
    NoJournal = 13,
}

impl Misuse {
    /// The number that the host is told.
    pub fn number(self) -> u8
        ensures { result ≡ misuse_number self }
    {
        self as u8
    }
}

impl From<AllocError> for Misuse {
    ghost from_gives = { λ _ e. e ≡ NoMemory };

    fn from(_: AllocError) -> Self {
        Self::NoMemory
    }
}

// Only a journal is read whole.
impl From<Malformed> for Misuse {
    ghost from_gives = { λ _ e. e ≡ NoJournal };

    fn from(_: Malformed) -> Self {
        Self::NoJournal
    }
}
