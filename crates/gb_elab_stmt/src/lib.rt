//! Typing of the statements of programs.
#![tactic(auto)]

pub mod calls;
pub mod places;
pub mod statement;
pub mod targets;
