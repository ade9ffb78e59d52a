// A thing that is said to exist, in place of the one that is bound.

ghost use Rattle.gb_goal.specs.Answers.{Answers};
ghost use Rattle.gb_amb.specs.Witness.{memory_witnessed, witnessed};

use crate::goals::{no_shape, one};
use crate::introduced::changed_once;
use gb_core::place::Place;
use gb_core::refusal::Refused;
use gb_goal::sequent::{Sequent, Sequents};
use gb_terms::op::Side;
use gb_terms::term::{Head, Term};
use gb_walk::change::Change;
use std::alloc::Global;

/// The goal of the body of an `exists` about a term. Refused with `Shape` where none stands there.
pub fn witnessed(
    alloc: Global,
    witness: &Term,
    place: Place,
    goal: &Sequent,
) -> Result<Sequents, Refused>
    ensures { Answers (witnessed witness.now place goal.now) result }
{
    match (goal.conclusion.head.get(), goal.conclusion.args.as_slice()) {
        (Head::Some(_), [body]) => {
            let change = Change::OfBound(0, witness.share()?);
            let conclusion = changed_once(alloc, body, change)?;
            Ok(one(alloc, goal, conclusion)?)
        }
        _ => Err(no_shape(place)),
    }
}

/// The goal of the body of an `exists` over memories about a memory of the context. Refused with `Shape` where none stands there.
pub fn memory_witnessed(
    alloc: Global,
    memory: u32,
    place: Place,
    goal: &Sequent,
) -> Result<Sequents, Refused>
    ensures { Answers (memory_witnessed memory place goal.now) result }
{
    match (goal.conclusion.head.get(), goal.conclusion.args.as_slice()) {
        (Head::SomeMemory, [body]) => {
            let change = Change::ToSide(Side::Bound(0), Side::Memory(memory));
            let conclusion = changed_once(alloc, body, change)?;
            Ok(one(alloc, goal, conclusion)?)
        }
        _ => Err(no_shape(place)),
    }
}
