// A borrower: what it keeps of each part, what each call and each message does to it, and a tablet of all parts.
#![tactic(auto)]

pub mod hold;
pub mod laws;
pub mod outcome;
pub mod steps;
pub mod tablet;
#[cfg(test)]
mod tests;
