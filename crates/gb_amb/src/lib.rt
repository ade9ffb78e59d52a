//! Rules on conclusions of every kind and the hypotheses around them; `apply` and `have` with a hypothesis or a lemma.
#![tactic(auto)]

pub mod apply;
pub mod assumed;
pub mod closed;
pub mod goals;
pub mod introduced;
pub mod laws;
pub mod parts;
pub mod quantified;
pub mod using;
pub mod using_laws;
pub mod witness;
