//! Rules on procedures of abstract modules, by what their oracles keep.
#![tactic(auto)]

pub mod abstract_call;
pub mod apply;
pub mod call;
pub mod equations;
pub mod laws;
pub mod oracles;
pub mod procedures;
pub mod returns;
pub mod until;
