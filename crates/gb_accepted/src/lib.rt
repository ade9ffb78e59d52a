//! What an accepted script promises. Which loops goals reach, and that rules lead to no others.
#![tactic(auto)]

pub mod end_laws;
pub mod examples;
pub mod laws;
