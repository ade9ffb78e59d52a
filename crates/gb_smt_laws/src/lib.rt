//! What the rule `smt` closes holds: claims, and what is valid by equality.
#![tactic(auto)]

pub mod equality_laws;
pub mod leaf_laws;
pub mod rule_laws;
pub mod smt_laws;
