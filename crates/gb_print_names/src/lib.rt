//! Names, types and modules as text: what is printed of what a form names, in its place, and how forms stand among others.
#![tactic(auto)]

pub mod bound_names;
pub mod laws;
pub mod modules;
pub mod occurring;
pub mod open;
pub mod place;
pub mod shape;
pub mod text;
pub mod types;
