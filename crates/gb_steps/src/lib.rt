//! Proof steps with typed arguments, the open goals on which they work, and comparisons of probabilities as steps see them.
#![tactic(auto)]

pub mod chances;
pub mod first;
pub mod goals;
pub mod step;
