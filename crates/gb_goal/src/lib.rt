//! Sequents, goals as rules see them, and the scope of a script.
#![tactic(auto)]

pub mod binders;
pub mod goal;
pub mod instance;
pub mod interface;
pub mod module_type;
pub mod scope;
pub mod sequent;
