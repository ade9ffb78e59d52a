//! Rules on calls of procedures.
#![tactic(auto)]

pub mod call;
pub mod last_call;
pub mod outcomes;
pub mod reads;
pub mod written;
