// The text layer of the programs: what their lines say, and the bytes that they print.
#![tactic(auto)]

pub mod decimal;
pub mod hex;
pub mod input;
pub mod names;
pub mod output;
#[cfg(test)]
mod tests;
pub mod words;
