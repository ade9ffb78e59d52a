//! Typing of the statements of lemmas, and of proof steps.
#![tactic(auto)]

mod between;
pub mod binders;
pub mod conclusions;
pub mod conseq;
pub mod contract;
pub mod couplings;
pub mod cut;
pub mod equals;
mod events;
mod forms;
pub mod kept;
pub mod lemma;
pub mod multiples;
pub mod occurring;
pub mod other_locals;
mod probabilities;
pub mod step;
mod transforming;
pub mod uses;
pub mod witness;
