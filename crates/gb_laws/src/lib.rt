//! Laws of meanings. Runs depend on nothing but what programs read, and change nothing but what they write. There is a fair judge, and one
//! meaning under all of them. Well-typed terms and programs have meanings and memories of their types. What a changed tree means is what
//! the tree means in the changed state.
#![tactic(auto)]

pub mod agree_laws;
pub mod change_laws;
pub mod lead_laws;
pub mod locality_laws;
pub mod program_laws;
pub mod raise_laws;
pub mod shape_laws;
pub mod truth_examples;
pub mod truth_laws;
pub mod type_examples;
pub mod type_laws;
