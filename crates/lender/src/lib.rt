// The keeper: the numbers of each part, the leases, the grace period, and what each message does to them and to the lent bytes of the parts.
#![tactic(auto)]

pub mod answer;
pub mod keeper;
pub mod laws;
pub mod lender;
pub mod numbers;
#[cfg(test)]
mod tests;
