//! Equality: whether a leaf holds whatever its terms mean, since equal things can stand for one another; and the variables of forms,
//! which hypotheses they join, and how many values they have together.
#![tactic(auto)]

mod closing;
pub mod components;
mod connectives;
pub mod equality;
pub mod laws;
mod parts;
mod rules;
mod search;
pub mod sizes;
mod table;
pub mod variables;
