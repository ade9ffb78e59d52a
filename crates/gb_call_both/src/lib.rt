//! Rules on calls of procedures: on both sides, on one of two, and by a judgment of the called procedures that is known.
#![tactic(auto)]

pub mod apply;
pub mod both;
pub mod call;
pub mod known;
pub mod known_laws;
pub mod laws;
pub mod one_side;
