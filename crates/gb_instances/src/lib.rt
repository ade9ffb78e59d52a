//! Modules that are given for those that a lemma binds: when they fit, and what the lemma says of them.
#![tactic(auto)]

pub mod fits;
pub mod footprint;
pub mod instance;
pub mod lossless;
pub mod put;
