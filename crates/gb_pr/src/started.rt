// What is said before procedures, of the arguments and the memories from which they start.

ghost use Rattle.std.specs.Prelude.{◌≡◌, ◌++◌, IfOk};
ghost use Rattle.gb_steps.specs.Views.{chance_seen};
ghost use Rattle.gb_pr.specs.Started.{given_for, started};

use gb_core::var::Var;
use gb_steps::chances::Chance;
use gb_terms::decl::TypedName;
use gb_terms::op::{Read, Side};
use gb_terms::term::Term;
use gb_walk::change::{Change, Changes};
use std::alloc::{AllocError, Global};

/// Terms in the places of parameters that are read in this memory, behind other changes.
fn given_for(
    alloc: Global,
    before: Changes,
    side: Side,
    params: &[TypedName],
    arguments: &[Term],
) -> Result<Changes, AllocError>
    ensures { IfOk result (λ made. made ≡ before ++ given_for side params.now arguments.now) }
{
    let mut changes = before;
    for i in 0..params.len().min(arguments.len()) {
        let name = params[i].name.copy(alloc)?;
        let var = Var::Local { name };
        let value = arguments[i].share()?;
        changes.push(Change::ToTerm(Read::Program { var, side }, value))?;
    }
    Ok(changes)
}

/// The arguments of a probability in the places of the parameters, and its memory in place of this one, behind other changes.
pub fn started(
    alloc: Global,
    before: Changes,
    side: Side,
    params: &[TypedName],
    chance: &Chance<'_>,
) -> Result<Changes, AllocError>
    ensures { IfOk result (λ made. made ≡ before ++ started side params.now (chance_seen chance.now)) }
{
    let mut changes = given_for(alloc, before, side, params, chance.arguments)?;
    changes.push(Change::ToSide(side, chance.memory))?;
    Ok(changes)
}
