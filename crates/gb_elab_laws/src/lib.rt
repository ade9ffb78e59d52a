//! What typing gives is typed and has models, and footprints and links are those of the meaning.
#![tactic(auto)]

pub mod declaration_laws;
pub mod footprint_laws;
pub mod form_laws;
pub mod idle_laws;
pub mod lemma_laws;
pub mod loop_laws;
pub mod promise_laws;
pub mod stay_laws;
pub mod step_laws;
pub mod variant_laws;
