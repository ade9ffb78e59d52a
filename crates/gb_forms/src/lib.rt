//! Forms and goals that rules make, parts of bodies, and what rules ask before they apply.
#![tactic(auto)]

pub mod arguments;
pub mod between;
pub mod branches;
pub mod calls;
pub mod cases;
pub mod coupled;
pub mod cuts;
pub mod decided;
pub mod drawn;
pub mod effects;
pub mod firsts;
pub mod hypotheses;
pub mod loops;
pub mod ordered;
pub mod surely;
pub mod turned;
pub mod turns;
pub mod variants;
