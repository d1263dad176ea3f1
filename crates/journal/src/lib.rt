// The journals of the keeper and of the borrowers: their records as bytes, what a journal that a stop cut short still
// says, and the stores that journals are kept in.
#![tactic(auto)]

mod block;
pub mod entry;
pub mod journaled;
pub mod laws;
pub mod log;
pub mod read;
pub mod record;
pub mod replay;
pub mod source;
pub mod store;
#[cfg(test)]
mod tests;
mod window;
