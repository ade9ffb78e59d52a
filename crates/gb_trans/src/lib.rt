//! Rules that put another body in the place of one that runs alike: `swap`, `kill`, `rcondt`, `rcondf` and `unroll`.
#![tactic(auto)]

pub mod apply;
pub mod apply_guard;
pub mod apply_kill;
pub mod beside;
pub mod beside_laws;
pub mod decided;
pub mod effects;
pub mod event_laws;
pub mod guard_event_laws;
pub mod guard_laws;
pub mod kill;
pub mod kill_laws;
pub mod laws;
pub mod names;
pub mod places;
pub mod reads;
pub mod swap;
pub mod transformed;
pub mod unrolled;
