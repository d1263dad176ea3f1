ghost use Rattle.std.specs.Prelude.{◌≡◌, vec_len};

use crate::hold::{OnFile, Part};
use part::files::Files;
use part::who::Who;

pub mod calls;
pub mod logged;
pub mod messages;
pub mod open;
pub mod store;

/// What is kept of a part, and the numbers that the journal has of it.
#[derive(Clone, Copy, Debug, Default, PartialEq, Eq)]
pub struct Kept {
    pub part: Part,
    pub filed: OnFile,
}

/// A borrower with all its parts: what it keeps of each, and the bytes of its copies.
#[derive(Drop)]
pub struct Tablet {
    who: Who,
    short: u64,
    kept: Vec<Kept>,
    copies: Files,
    ghost all: { vec_len kept ≡ 16384 },
}
