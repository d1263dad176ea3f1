// The keeper's table of leases: who has which part, for what, and until when.
#![tactic(auto)]

pub mod laws;
pub mod lease;
pub mod table;
