// The rule `unroll`.

ghost use Rattle.std.specs.Prelude.{◌≡◌, ◌++◌, ◌∷◌, IfOk};
ghost use Rattle.gb_goal.specs.Answers.{Answers};
ghost use Rattle.gb_goal.specs.Rows.{answered};
ghost use Rattle.gb_trans.specs.Places.{placed_seen};
ghost use Rattle.gb_trans.specs.Unrolled.{unrolled, unroll_row};

use crate::places::{Placed, statement_at};
use crate::swap::with_statements;
use crate::transformed::with_body;
use gb_core::refusal::{Refused, Why};
use gb_forms::turns::turn;
use gb_goal::goal::goal_of;
use gb_goal::sequent::{Sequent, Sequents};
use gb_prog::one_body::one_body;
use gb_prog::subgoals::{no_shape, refusal};
use gb_steps::step::Acts;
use gb_terms::term::{Instr, Instrs};
use sqlite_items::Items;
use std::alloc::{AllocError, Global};
use std::slice::from_ref;

/// The body in which a statement stands in front of the one at a place.
fn in_front(alloc: Global, at: &Placed<'_>, first: &Instr) -> Result<Instrs, AllocError>
    ensures { IfOk result (λ made. made ≡ (let k = placed_seen at.now in k.before ++ first.now ∷ k.statement ∷ k.rest)) }
{
    let list = with_statements(alloc, Items::new(alloc), at.before)?;
    let list = with_statements(alloc, list, from_ref(first))?;
    let list = with_statements(alloc, list, from_ref(at.statement))?;
    with_statements(alloc, list, at.rest)
}

/// The body in which a turn of the loop at a place stands in front of it.
fn unrolled(alloc: Global, at: u128, list: &[Instr]) -> Result<Instrs, Refused>
    ensures { Answers (unrolled at list.now) result }
{
    let Some(found) = statement_at(at, list) else {
        return Err(refusal(Why::Argument));
    };
    match found.statement {
        Instr::While(guard, _, body) => {
            let first = turn(alloc, guard, body)?;
            Ok(in_front(alloc, &found, &first)?)
        }
        _ => Err(no_shape()),
    }
}

/// The subgoal of `unroll`: one turn of a loop, where its guard is true, stands in front of it. Refused with `Shape` where the goal has no
/// such body, or where the statement is no loop, and with `Argument` where it isn't there.
pub fn unroll(alloc: Global, goal: &Sequent, acts: Acts, at: u128) -> Result<Sequents, Refused>
    ensures { Answers (answered (unroll_row at acts) goal.now) result }
{
    let Some(one) = one_body(acts, goal_of(&goal.conclusion)) else {
        return Err(no_shape());
    };
    let list = unrolled(alloc, at, one.list)?;
    with_body(alloc, goal, &one, list)
}
