//! Which procedures have loops that aren't proved to end.
#![tactic(auto)]

pub mod ended;
pub mod loops;
pub mod named;
