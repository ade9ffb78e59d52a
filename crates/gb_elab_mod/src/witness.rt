// The typing of what a step takes for something that is said to exist.

ghost use Rattle.std.specs.Prelude.{◌≡◌, IfOk};
ghost use Rattle.std.specs.Option.{option_copied};
ghost use Rattle.gb_terms.specs.declared.term.Term.{out-Term};
ghost use Rattle.gb_goal.specs.Answers.{Answers, ◌>>=◌ as ◌and_then◌};
ghost use Rattle.gb_goal.specs.Answers.Answer.{given};
ghost use Rattle.gb_elab_mod.specs.Steps.{asked_of, asks_for_locals, memory_witness, witness_rule};

use crate::other_locals::reads_other_locals;
use crate::uses::{about_named, is_memory, memory_of};
use gb_core::place::Place;
use gb_core::refusal::Refused;
use gb_core::ty::Ty;
use gb_elab::form::term;
use gb_goal::scope::Scope;
use gb_goal::sequent::Sequent;
use gb_names::refusals::not_built;
use gb_script::tree::Node;
use gb_steps::step::{AmbientRule, Rule};
use gb_terms::op::Side;
use gb_terms::term::Head;
use std::alloc::{AllocError, Global};

/// The type of a value that is said to exist.
fn asked_of(head: &Head) -> Option<&Ty>
    ensures { option_copied result ≡ asked_of head.now }
{
    match head {
        Head::Some(ty) => Some(ty.get()),
        _ => None,
    }
}

/// Whether the memory that a conclusion says to exist has locals that the goal reads in this one at another type.
fn asks_for_locals(alloc: Global, goal: &Sequent, memory: Side) -> Result<bool, AllocError>
    ensures { IfOk result (λ other. other ≡ asks_for_locals goal.now memory (out-Term goal.now.conclusion).head (out-Term goal.now.conclusion).args) }
{
    let form = &goal.conclusion;
    match (form.head.get(), form.args.as_slice()) {
        (Head::SomeMemory, [body]) => {
            let said = about_named(alloc, body, memory)?;
            reads_other_locals(&said, alloc, true, goal, memory)
        }
        _ => Ok(false),
    }
}

/// The rule that takes a memory of the context for one that is said to exist.
fn memory_witness(
    alloc: Global,
    goal: &Sequent,
    memory: Side,
    place: Place,
) -> Result<Rule, Refused>
    ensures { Answers (memory_witness goal.now memory place and_then λ r. given (Rule.Ambient r)) result }
{
    match memory {
        Side::Memory(number) => {
            if asks_for_locals(alloc, goal, memory)? {
                return Err(not_built(place));
            }
            Ok(Rule::Ambient(AmbientRule::WitnessMemory(number)))
        }
        _ => Err(not_built(place)),
    }
}

/// The rule that takes a memory or a term for what is said to exist.
pub fn witness_rule(
    alloc: Global,
    scope: &Scope,
    goal: &Sequent,
    witness: &Node,
) -> Result<Rule, Refused>
    ensures { Answers (witness_rule scope.now goal.now witness.now and_then λ r. given (Rule.Ambient r)) result }
{
    if is_memory(witness.head) {
        let memory = memory_of(alloc, scope, goal, witness)?;
        return memory_witness(alloc, goal, memory, witness.place);
    }
    let wanted = asked_of(goal.conclusion.head.get());
    let witness = term(alloc, scope, goal, witness, wanted)?;
    Ok(Rule::Ambient(AmbientRule::Witness(witness)))
}
