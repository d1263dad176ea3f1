// The lines of a rehearsal's script: the forms that they have, and the step that each asks for.
#![tactic(auto)]

pub mod step;
#[cfg(test)]
mod tests;
