//! Typing: from the forms of a script to typed trees.
#![tactic(auto)]

pub mod contract;
pub mod equalities;
pub mod form;
pub mod globs;
pub mod laws;
pub mod probability;
