use crate::lender::Lender;
use part::files::Files;

pub mod open;
pub mod serve;

/// The keeper: its book and leases, and the bytes of the parts, which it lends to each step.
#[derive(Drop)]
pub struct Keeper {
    lender: Lender,
    files: Files,
}
