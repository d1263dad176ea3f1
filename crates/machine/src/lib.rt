// A machine goes by steps: the keeper and a borrower are such. What comes of a step, and a node that keeps a machine with its journal.
#![tactic(auto)]

pub mod effects;
pub mod input;
pub mod items;
pub mod machine;
pub mod node;
pub mod notice;
pub mod opening;
pub mod outbox;
