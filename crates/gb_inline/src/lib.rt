//! The rule `inline`, and the rules that put other statements into a program as one family.
#![tactic(auto)]

pub mod apply;
pub mod expanded;
pub mod fresh;
pub mod inline;
pub mod inlined;
pub mod laws;
pub mod renamed;
