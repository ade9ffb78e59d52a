//! The rule `smt`: a goal closes when each of its leaves is true under every assignment of values.
#![tactic(auto)]

pub mod apply;
mod assign;
mod atoms;
mod by_equality;
mod claims;
mod equations;
pub mod laws;
mod leaves;
mod width;
