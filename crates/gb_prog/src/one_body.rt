//! Goals as steps on one body see them.

ghost use Rattle.std.specs.Prelude.{◌≡◌, IfOk};
ghost use Rattle.std.specs.Option.{option_map};
ghost use Rattle.gb_goal.specs.Goal.{form_of};
ghost use Rattle.gb_goal.specs.Views.{goal_seen};
ghost use Rattle.gb_prog.specs.OneBody.{filled, one_body, one_seen, side_of};

use crate::subgoals::shared_body;
use gb_core::SharedItems;
use gb_goal::goal::{Code, Goal, equiv, hoare, phoare};
use gb_steps::step::Acts;
use gb_terms::op::{Rel, Side};
use gb_terms::term::{Form, Instr, Term};
use std::alloc::{AllocError, Global};

/// What stands around a body in its goal, but for the conditions.
#[derive(Clone, Copy)]
pub enum Around<'a> {
    Alone,
    /// How likely the postcondition is.
    Bounded(Rel, &'a Term),
    /// The body stands on the left, and this one on the right.
    Left(&'a [Instr]),
    /// The body stands on the right, and this one on the left.
    Right(&'a [Instr]),
}

/// A body on which a step works, and its conditions.
#[derive(Clone, Copy)]
pub struct OneBody<'a> {
    pub around: Around<'a>,
    pub list: &'a [Instr],
    pub pre: &'a Form,
    pub post: &'a Form,
}

/// The body of a judgment of one, or a body of an equivalence of two.
pub fn one_body<'a>(acts: Acts, goal: Goal<'a>) -> Option<OneBody<'a>>
    ensures { option_map one_seen result ≡ one_body acts (goal_seen goal.entry) }
{
    match (acts, goal) {
        (Acts::All, Goal::Hoare(Code::Body(list), pre, post)) => Some(OneBody {
            around: Around::Alone,
            list,
            pre,
            post,
        }),
        (Acts::All, Goal::Phoare(Code::Body(list), rel, pre, post, bound)) => Some(OneBody {
            around: Around::Bounded(rel, bound),
            list,
            pre,
            post,
        }),
        (Acts::Left, Goal::Equiv(Code::Body(list), Code::Body(right), pre, post)) => Some(
            OneBody {
                around: Around::Left(right),
                list,
                pre,
                post,
            },
        ),
        (Acts::Right, Goal::Equiv(Code::Body(left), Code::Body(list), pre, post)) => Some(
            OneBody {
                around: Around::Right(left),
                list,
                pre,
                post,
            },
        ),
        _ => None,
    }
}

/// The memory in which the body runs.
pub fn side_of(around: Around<'_>) -> Side
    ensures { result ≡ side_of around.entry }
{
    match around {
        Around::Left(_) => Side::Left,
        Around::Right(_) => Side::Right,
        _ => Side::Own,
    }
}

/// The goal with this body and these conditions.
pub fn filled(
    alloc: Global,
    around: Around<'_>,
    list: SharedItems<Instr>,
    pre: Form,
    post: Form,
) -> Result<Form, AllocError>
    ensures { IfOk result (λ made. made ≡ form_of (filled around.entry list pre post)) }
{
    match around {
        Around::Alone => hoare(alloc, list, pre, post),
        Around::Bounded(rel, bound) => {
            let bound = bound.share()?;
            phoare(alloc, list, rel, pre, post, bound)
        }
        Around::Left(right) => {
            let right = shared_body(alloc, right)?;
            equiv(alloc, list, right, pre, post)
        }
        Around::Right(left) => {
            let left = shared_body(alloc, left)?;
            equiv(alloc, left, list, pre, post)
        }
    }
}
