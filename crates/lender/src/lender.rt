ghost use Rattle.std.specs.Prelude.{◌≡◌, vec_len};

use crate::numbers::Numbers;
use lease::table::Table;

pub mod judge;
pub mod new;
pub mod receive;
pub mod steps;

/// The keeper's memory but for the bytes of the parts, which are lent to each step.
#[derive(Drop)]
pub struct Lender {
    numbers: Vec<Numbers>,
    table: Table,
    quiet: u64,
    long: u64,
    ghost all: { vec_len numbers ≡ 16384 },
}
