// The keeper: its rules, what outlasts a stop of it and what doesn't, and what comes of messages.
#![tactic(auto)]

pub mod durable;
pub mod keeper;
pub mod laws;
pub mod numbers;
#[cfg(test)]
mod tests;
pub mod volatile;
