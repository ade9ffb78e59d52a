// Loops at the end of bodies.

ghost use Rattle.std.specs.Prelude.{◌≡◌};
ghost use Rattle.std.specs.Option.{option_map};
ghost use Rattle.gb_terms.specs.declared.term.Instr.{out-Instr};
ghost use Rattle.gb_loops.specs.LastLoop.{last_loop, loop_at, loop_seen};

use gb_terms::term::{Cmd, Instr, Term};

/// The loop that a body ends with, and what stands before it.
#[derive(Clone, Copy)]
pub struct Last<'a> {
    pub before: &'a [Instr],
    pub guard: &'a Term,
    pub variant: &'a Term,
    pub body: &'a Cmd,
}

/// The loop that a statement is, behind these statements.
fn loop_of<'a>(before: &'a [Instr], last: &'a Instr) -> Option<Last<'a>>
    ensures { option_map loop_seen result ≡ loop_at (out-Instr last.now) before.now }
{
    match last {
        Instr::While(guard, variant, body) => Some(Last {
            before,
            guard,
            variant,
            body,
        }),
        _ => None,
    }
}

/// The loop that a body ends with.
#[tactic(auto, using(crate::proofs::LastLoops::last_statement, crate::proofs::LastLoops::no_statement))]
pub fn last_loop(body: &[Instr]) -> Option<Last<'_>>
    ensures { option_map loop_seen result ≡ last_loop body.now }
{
    match body.split_last() {
        Some((last, before)) => loop_of(before, last),
        None => None,
    }
}
