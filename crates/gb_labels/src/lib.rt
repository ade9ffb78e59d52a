//! What terms read of memories that are bound; entries of maps and their keys; and labels: how many stand for the values of all
//! globals of an abstract module, and terms in which they do.
#![tactic(auto)]

pub mod entries;
pub mod held;
pub mod keys;
pub mod labelled;
pub mod labels;
pub mod laws;
pub mod reads;
pub mod things;
pub mod types;
