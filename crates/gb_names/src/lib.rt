//! What names and types mean where they stand.
#![tactic(auto)]

pub mod allowed;
pub mod binders;
pub mod bindings;
pub mod ended;
pub mod globals;
pub mod judgment;
pub mod locals;
pub mod memories;
pub mod modules;
pub mod names;
pub mod refusals;
pub mod setting;
pub mod types;
