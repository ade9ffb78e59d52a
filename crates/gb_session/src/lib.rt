//! Commands one after another: an interactive session, in which each can be taken back, and a script.
#![tactic(auto)]

mod enumerations;
pub mod laws;
pub mod screen;
pub mod script;
pub mod session;
