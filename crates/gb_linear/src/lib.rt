//! The rule `linear`: stated multiples of hypotheses, in sums of terms with exact coefficients.
#![tactic(auto)]

pub mod apply;
pub mod forms;
pub mod linear;
pub mod numbers;
