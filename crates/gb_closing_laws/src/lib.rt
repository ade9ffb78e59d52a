//! What the rules `smt` and `linear` close holds: for `smt` each leaf by its claims, or by equality. Labels are enough for claims: what
//! is true of them is true of all values of modules' globals.
#![tactic(auto)]

pub mod examples;
pub mod label_laws;
pub mod linear_laws;
pub mod setting_laws;
pub mod smt_laws;
