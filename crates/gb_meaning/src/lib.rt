//! What scripts mean: values, memories, terms, runs and judgments, linking and adversaries, and when a lemma holds; and laws of values and
//! memories, trees, and runs.
#![tactic(auto)]

pub mod counting_laws;
pub mod equality_laws;
pub mod examples;
pub mod holding_examples;
pub mod linking_laws;
pub mod memory_laws;
pub mod module_laws;
pub mod run_laws;
pub mod tree_laws;
pub mod truth_laws;
