//! The tree that a text spells, whatever the grammar: reading by a grammar that is data, nodes, and what the steps of a derivation build
//! of them.
#![tactic(auto)]

pub mod action;
pub mod build;
pub mod derivation_laws;
pub mod error;
pub mod head;
pub mod laws;
pub mod machine;
pub mod origin;
pub mod parsing;
pub mod reading;
pub mod table;
pub mod terminal;
pub mod text;
pub mod tree;
pub mod value;
