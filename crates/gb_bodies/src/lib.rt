//! Rules on the bodies of programs, for judgments of all kinds.
#![tactic(auto)]

pub mod apply;
pub mod branch;
pub mod case;
pub mod conseq;
pub mod goals;
pub mod laws;
pub mod proc;
pub mod seq;
pub mod skip;
pub mod wp;
