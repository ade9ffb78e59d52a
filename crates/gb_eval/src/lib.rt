//! Evaluation of closed terms: values of finite types, whole numbers, exact fractions and distributions.
#![tactic(auto)]

pub mod answer;
pub mod env;
pub mod eval;
pub mod known;
pub mod laws;
mod making;
mod maps;
mod numbers;
mod operators;
pub mod script;
mod total;
