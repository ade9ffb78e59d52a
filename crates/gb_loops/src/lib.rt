//! Rules on loops, and the goals that show that each of them ends.
#![tactic(auto)]

pub mod both_loops;
pub mod last_loop;
pub mod operand;
pub mod read;
pub mod variants;
pub mod while_loop;
