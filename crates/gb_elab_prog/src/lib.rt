//! Typing of types and operators, of the binders of lemmas, of module types, and of modules with their procedures and statements.
#![tactic(auto)]

pub mod bound;
pub mod context;
pub mod entries;
pub mod fresh;
pub mod members;
pub mod module;
pub mod module_types;
pub mod operators;
pub mod parameters;
pub mod procedure;
pub mod sizes;
pub mod stated;
pub mod types;
pub mod unbuilt;
