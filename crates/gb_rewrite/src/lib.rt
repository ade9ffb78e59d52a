//! Rules that put equals for equals.
#![tactic(auto)]

pub mod bodies;
pub mod equations;
pub mod events;
pub mod goals;
pub mod laws;
pub mod rewritten;
pub mod unfolded;
