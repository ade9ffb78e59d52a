//! `sim`: the same statements on both sides of an equivalence.
#![tactic(auto)]

pub mod event_laws;
pub mod laws;
pub mod need;
pub mod reads;
mod sim;

pub use sim::apply;
