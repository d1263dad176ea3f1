// A borrower: its rules, what it keeps of each part, and what comes of each call and each message.
#![tactic(auto)]

pub mod durable;
pub mod hold;
pub mod laws;
pub mod on_file;
pub mod setting;
pub mod tablet;
#[cfg(test)]
mod tests;
pub mod volatile;
