// What rules ask where weight may be lost.

ghost use Rattle.std.specs.Prelude.{◌≡◌};
ghost use Rattle.gb_goal.specs.Answers.{Answers};
ghost use Rattle.gb_goal.specs.Goal.{Goal as TypedGoal, form_of};
ghost use Rattle.gb_goal.specs.Rows.{each_concluding};
ghost use Rattle.gb_full.specs.Loss.{loss_seen};
ghost use Rattle.gb_full.specs.Lossless.{full, of_rest};

use crate::loss::Loss;
use gb_core::copy::copy_var;
use gb_core::refusal::{Refused, Why};
use gb_goal::sequent::{Sequent, Sequents};
use gb_prog::compared::number_compared;
use gb_prog::subgoals::{no_shape, one_goal, refusal, two_goals};
use gb_terms::op::Rel;
use gb_terms::term::{Form, RealTerm};
use std::alloc::Global;

/// Why a judgment of what loses weight is refused: `NotLossless` at a variable, and `Shape` at a call of a
/// procedure of which nothing is known.
pub fn full(alloc: Global, lost: Loss) -> Result<(), Refused>
    ensures { Answers (full (loss_seen lost)) result }
{
    match &lost {
        Loss::Nowhere => Ok(()),
        Loss::Sampled(var) => {
            let var = copy_var(alloc, var)?;
            Err(refusal(Why::NotLossless(var)))
        }
        Loss::Called => Err(no_shape()),
    }
}

/// A judgment with a probability, of a body.
#[derive(Clone, Copy)]
pub struct Judged<'a> {
    pub rel: Rel,
    pub pre: &'a Form,
    pub post: &'a Form,
    pub bound: &'a RealTerm,
}

/// The goals of a judgment of what stands before a statement. Weight that is lost there makes a probability less: the bound isn't
/// below 0 then, or the rule is refused, with `NotLossless` at a variable, and with `Shape` at a call of a procedure of
/// which nothing is known.
pub fn of_rest(
    alloc: Global,
    goal: &Sequent,
    lost: Loss,
    judged: &Judged<'_>,
    conclusion: Form,
) -> Result<Sequents, Refused>
    ensures { (G : TypedGoal) → conclusion ≡ form_of G → Answers (each_concluding goal.now (of_rest (loss_seen lost) judged.now.rel judged.now.bound.now G)) result }
{
    match (&lost, judged.rel) {
        (Loss::Nowhere, _) => Ok(one_goal(alloc, goal, conclusion)?),
        (_, Rel::AtMost) => {
            let least = number_compared(alloc, Rel::AtMost, 0, judged.bound)?;
            Ok(two_goals(alloc, goal, conclusion, least)?)
        }
        (Loss::Sampled(var), _) => {
            let var = copy_var(alloc, var)?;
            Err(refusal(Why::NotLossless(var)))
        }
        (Loss::Called, _) => Err(no_shape()),
    }
}
