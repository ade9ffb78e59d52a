//! Distributions of stated weights.
#![tactic(auto)]

pub mod weights;
