//! What a script comes to, as a definition, and that this is one thing; and its commands: each is read and run, or refused.
#![tactic(auto)]

mod combinators;
pub mod examples;
pub mod fold;
pub mod laws;
mod limits;
mod names;
pub mod outcome_laws;
mod tactics;
pub mod verdict;
