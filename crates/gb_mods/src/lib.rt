//! What procedures and modules read and write, through all procedures that they call, and what a procedure is linked to.
#![tactic(auto)]

pub mod asked;
pub mod called;
pub mod exclusions;
pub mod footprint;
pub mod meant;
pub mod meets;
pub mod order;
pub mod procedures;
pub mod reach;
pub mod read;
pub mod touched;
pub mod written;
