//! Substitution in typed trees.
#![tactic(auto)]

pub mod binders;
pub mod change;
pub mod clash;
pub mod raise;
mod rebuild;
pub mod sides;
pub mod walk;
