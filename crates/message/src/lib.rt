// The messages between the keeper and the borrowers, as bytes, and the numbers by which a message or a call is refused.
#![tactic(auto)]

pub mod buffer;
pub mod decode;
pub mod encode;
pub mod form;
pub mod kind;
pub mod laws;
pub mod refusal;
#[cfg(test)]
mod tests;
pub mod to_borrower;
pub mod to_keeper;

use part::files::PART_SIZE;
use part::head::HEAD_SIZE;

/// How many bytes the longest message has: a loan's first byte, its head, its kind and its part.
pub const LONGEST: usize = 1 + HEAD_SIZE + 1 + PART_SIZE;
