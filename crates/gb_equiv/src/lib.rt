//! The rules on equivalences of two programs: `rnd` on both sides and on one, `symmetry` and `transitivity`.
#![tactic(auto)]

mod drawn;
pub mod laws;
pub mod one_side;
pub mod relational_laws;
pub mod rnd;
pub mod rule;
pub mod symmetry;
pub mod transitivity;
