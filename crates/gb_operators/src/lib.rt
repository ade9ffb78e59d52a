//! The operators of forms, and what they ask of types.
#![tactic(auto)]

pub mod asked;
pub mod constants;
pub mod domain;
pub mod drawn;
pub mod kinds;
pub mod literals;
pub mod made;
pub mod open;
pub mod operators;
pub mod rules;
