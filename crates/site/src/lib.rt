// One keeper, four borrowers, the network between them, their journals and their clocks, all in memory: what a rehearsal plays on.
#![tactic(auto)]

pub mod borrower_node;
pub mod borrowers;
pub mod event;
pub mod fault;
pub mod keeper_node;
pub mod network;
pub mod seen;
pub mod site;
pub mod torn;
pub mod written;
