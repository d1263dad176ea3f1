// The library that C and plain Rust programs link: keepers and tablets behind handles, and every call on numbers and bytes.
// The host keeps the journal: it appends and syncs the record of a call before anything of the call leaves.
#![tactic(auto)]

mod content;
mod exports;
mod handle;
mod laws;
mod loose;
mod misuse;
mod put;
mod reply;
mod run;
mod slot;
mod tell;
