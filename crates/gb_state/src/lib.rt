//! What a script has built, what is kept of it before each command, so that the command can be taken back, and the verdict.
#![tactic(auto)]

pub mod kept;
pub mod state;
pub mod verdict;
