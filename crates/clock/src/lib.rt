// Clocks that run a little off, the terms of leases that are safe with them, and whether clocks have kept within their error.
#![tactic(auto)]

pub mod clocks;
pub mod envelope;
pub mod hand;
pub mod terms;
