//! Where programs may lose weight, in themselves and in all that they call.
#![tactic(auto)]

pub mod laws;
pub mod loss;
pub mod lossless;
