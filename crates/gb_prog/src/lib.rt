//! What the rules on programs share: about runs, and the forms and goals that they make of bodies. What the procedures of abstract modules
//! do: each is one of a program that is chosen for its module, an open program that is linked with oracles.
#![tactic(auto)]

pub mod abstract_laws;
pub mod adversary_laws;
pub mod all_laws;
pub mod assigned;
pub mod call_laws;
pub mod chance_form_laws;
pub mod chance_laws;
pub mod compared;
pub mod coupled_laws;
pub mod coupling_laws;
pub mod forms;
pub mod judged;
pub mod judged_laws;
pub mod kept_laws;
pub mod loop_laws;
pub mod one_body;
pub mod straight_laws;
pub mod subgoals;
pub mod until_laws;
pub mod write_laws;
