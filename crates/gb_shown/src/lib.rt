//! What a session shows reads back: typed goals whose names are names can be written, and each step leads to such goals.
#![tactic(auto)]

pub mod goal_laws;
pub mod laws;
pub mod name_laws;
