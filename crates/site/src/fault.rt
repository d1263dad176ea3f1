ghost use Rattle.std.specs.Prelude.{Some, codes};

use journal::replay::OpenError;
use journal::store::StoreError;
use message::form::Malformed;
use std::alloc::AllocError;
use std::error::Error;
use std::fmt;

/// There was no memory, or a journal in memory could not be read back: nothing can be played any more.
#[derive(Clone, Copy, Debug, PartialEq, Eq)]
pub struct Fault;

impl fmt::Display for Fault {
    ghost output = { λ _. Some (codes "there is no memory for the rehearsal") };

    fn fmt<W: fmt::Write>(&self, f: &mut fmt::Formatter<W>) -> fmt::Result {
        f.write_str("there is no memory for the rehearsal")
    }
}

impl Error for Fault {}

impl From<AllocError> for Fault {
    fn from(_: AllocError) -> Self {
        Self
    }
}

impl From<StoreError> for Fault {
    fn from(_: StoreError) -> Self {
        Self
    }
}

impl From<OpenError> for Fault {
    fn from(_: OpenError) -> Self {
        Self
    }
}

impl From<Malformed> for Fault {
    fn from(_: Malformed) -> Self {
        Self
    }
}
