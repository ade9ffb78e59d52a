//! Texts as the grammar sees them: from tokens to terminals and their kinds; which words are left out, how deep texts
//! are nested, how long their chains are, and which numbers are out of range.
#![tactic(auto)]

pub mod checks;
pub mod kind;
pub mod laws;
pub mod left_out;
pub mod level;
pub mod lexeme;
pub mod limits;
pub mod numbers;
pub mod spelling;
