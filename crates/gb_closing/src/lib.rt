//! What decides whether a rule closes: which labels are equal, which lists of variables are linked, which multipliers may stand, and
//! what a sum has besides; and which values of a type are tried, and how many.
#![tactic(auto)]

pub mod counted;
pub mod labels;
pub mod linked;
pub mod members;
pub mod numbers;
pub mod summands;
