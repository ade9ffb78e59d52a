//! The rules on probabilities of events: from them to judgments of procedures, and by laws of events. The rules on judgments with a
//! probability.
#![tactic(auto)]

pub mod apply;
pub mod apply_chance;
pub mod by_equiv;
pub mod by_events;
pub mod by_phoare;
pub mod chance_laws;
pub mod hoare;
pub mod laws;
pub mod rnd;
pub mod started;
