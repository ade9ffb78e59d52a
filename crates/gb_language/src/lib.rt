//! The language: its grammar as a table, and which tree each text spells.
#![tactic(auto)]

pub mod bodies;
pub mod laws;
pub mod reading;
pub mod rows;
