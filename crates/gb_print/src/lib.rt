//! Goals and forms as text: what is printed says exactly what a goal is, and is read as that.
#![tactic(auto)]

mod binders;
pub mod form;
pub mod goal;
pub mod laws;
mod layout;
mod literals;
pub mod text_laws;
