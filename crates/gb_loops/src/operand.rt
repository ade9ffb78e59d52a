//! The procedure whose loops `termination` is about.

ghost use Rattle.gb_goal.specs.Answers.{Answers, Gives};
ghost use Rattle.gb_loops.specs.Operand.{ended_at, operand, operand_by, procedure_at};

use gb_core::name::Name;
use gb_core::place::Place;
use gb_core::refusal::Refused;
use gb_ended::ended::first_unproved_in;
use gb_goal::scope::{ProcName, Scope, procedure_named};
use gb_names::ended::unless_unproved;
use gb_names::globals::{no_declared, no_procedure};
use gb_names::judgment::{declared_module, procedure_path};
use gb_names::refusals::not_built;
use gb_script::head::Head;
use gb_script::tree::Node;
use gb_terms::decl::Proc;
use std::alloc::Global;

/// A procedure by its name, and what it is.
#[derive(Drop)]
pub struct Found<'a> {
    pub name: ProcName,
    pub procedure: &'a Proc,
}

/// The procedure that the operand of `termination` names.
///
/// # Errors
///
/// `UnknownName` of a module or a procedure of it, `Argument` of another thing, and `UnprovedLoop` where a module that the
/// procedure names, other than its own one, isn't ended.
pub fn operand<'a>(alloc: Global, scope: &'a Scope, tree: &Node) -> Result<Found<'a>, Refused>
    ensures { Gives (λ f. (f.name, f.procedure.now)) (operand scope.now tree.now) result }
{
    operand_by(
        alloc,
        scope,
        tree.head,
        &tree.text,
        tree.parts.as_slice(),
        tree.place,
    )
}

/// The same of a tree, by its head, its text, its parts and its place. A word alone names no procedure.
fn operand_by<'a>(
    alloc: Global,
    scope: &'a Scope,
    head: Head,
    text: &Name,
    parts: &[Node],
    place: Place,
) -> Result<Found<'a>, Refused>
    ensures { Gives (λ f. (f.name, f.procedure.now)) (operand_by scope.now head text.now parts.now place) result }
{
    match head {
        Head::Path => match parts {
            [first, second, more @ ..] => {
                let (module, name) = procedure_path(alloc, &first.text, second, more)?;
                procedure_at(alloc, scope, module, name, place)
            }
            _ => Err(not_built(place)),
        },
        Head::Name => Err(no_declared(alloc, None, scope, text, place)),
        _ => Err(not_built(place)),
    }
}

/// The procedure of this module and this word. Its own module may have loops that aren't proved yet, but no other module that its
/// body names.
#[tactic(auto, unfolding(crate::specs::Operand::procedure_at))]
fn procedure_at<'a>(
    alloc: Global,
    scope: &'a Scope,
    module: Name,
    word: &Node,
    place: Place,
) -> Result<Found<'a>, Refused>
    ensures { Gives (λ f. (f.name, f.procedure.now)) (procedure_at scope.now («module», word.now) place) result }
{
    let found = declared_module(alloc, None, scope, &module, place)?;
    let Some(procedure) = procedure_named(found.procs.as_slice(), &word.text) else {
        return Err(no_procedure(alloc, found, &word.text, word.place));
    };
    let name = ended(alloc, scope, module, &word.text, place)?;
    let procedure = procedure.get();
    Ok(Found { name, procedure })
}

/// The name of a procedure that names no other module than its own one but those that are ended.
fn ended(
    alloc: Global,
    scope: &Scope,
    module: Name,
    word: &Name,
    place: Place,
) -> Result<ProcName, Refused>
    ensures { Answers (ended_at scope.now (record { «module» = «module»; name = word.now }) place) result }
{
    let name = ProcName {
        module,
        name: word.copy(alloc)?,
    };
    let unproved = first_unproved_in(alloc, scope, &name)?;
    unless_unproved(alloc, unproved, place)?;
    Ok(name)
}
