//! The rule `symmetry`.

ghost use Rattle.gb_goal.specs.Answers.{Answers, placed_at};
ghost use Rattle.gb_goal.specs.Rows.{answered, stepped};
ghost use Rattle.gb_typing.specs.Context.{Context};
ghost use Rattle.gb_typing.specs.Rules.{IsSoundRule, no_arguments};
ghost use Rattle.gb_equiv.specs.Symmetry.{symmetry_row};

use crate::drawn::{alone, no_such_shape};
use gb_core::place::Place;
use gb_core::refusal::Refused;
use gb_forms::turned::turned;
use gb_goal::sequent::{Sequent, Sequents};
use gb_terms::term::Head;
use std::alloc::Global;

/// The subgoal of `symmetry`: the equivalence with its programs in the other order. Refused with `Shape` at any other goal.
pub fn symmetry(alloc: Global, goal: &Sequent, place: Place) -> Result<Sequents, Refused>
    ensures { Answers (stepped symmetry_row place goal.now) result }
{
    match (goal.conclusion.head.get(), goal.conclusion.args.as_slice()) {
        (Head::Equiv(left, right), [pre, post]) => {
            let conclusion = turned(alloc, left, right, pre, post)?;
            Ok(alone(alloc, goal, conclusion)?)
        }
        _ => Err(no_such_shape(place)),
    }
}

/// `symmetry` is sound.
pub fn symmetry_is_sound()
    ensures { (c : Context) → IsSoundRule c symmetry_row no_arguments }
{}
