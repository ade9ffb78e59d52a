//! Modules as arguments of lemmas: the open programs of module expressions, which may be chosen for the modules that a lemma binds.
#![tactic(auto)]

pub mod asked_laws;
pub mod chosen_laws;
pub mod fact_laws;
pub mod fit_laws;
pub mod full_laws;
pub mod given_laws;
pub mod instance_laws;
pub mod led_laws;
pub mod lemma_laws;
pub mod name_laws;
pub mod opened_laws;
pub mod put_laws;
pub mod typed_laws;
