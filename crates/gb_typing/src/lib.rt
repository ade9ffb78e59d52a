//! Well-typed terms, forms, programs and declarations of the whole language; what is declared later changes nothing of what stood before;
//! and the ground on which the proof rules stand: goals, their types, what they say, and how the law of a rule on goals is one on sequents.
#![tactic(auto)]

pub mod added_laws;
pub mod alike_laws;
pub mod binder_laws;
pub mod call_laws;
pub mod change_laws;
pub mod clash_laws;
pub mod examples;
pub mod form_laws;
pub mod goal_laws;
pub mod later_examples;
pub mod linked_laws;
pub mod name_laws;
pub mod procedure_laws;
pub mod program_laws;
pub mod rule_laws;
pub mod run_laws;
pub mod samplings;
pub mod scope_laws;
pub mod setting_laws;
pub mod supports;
pub mod term_laws;
pub mod typed_laws;
pub mod whole_laws;
