//! From tokens to commands and forms, and from the text of a goal to its tree.
#![tactic(auto)]

pub mod goal;
pub mod goal_lines;
pub mod goal_tree;
pub mod laws;
pub mod line;
pub mod reading;
