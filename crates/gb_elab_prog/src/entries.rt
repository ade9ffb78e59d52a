// What commands `type`, `op` and `module type` declare.

ghost use Rattle.std.specs.Prelude.{◌≡◌, IfOk};
ghost use Rattle.gb_script.specs.Tree.{head_of, parts_of};
ghost use Rattle.gb_goal.specs.Scope.{AreNew};
ghost use Rattle.gb_goal.specs.Answers.{Answers};
ghost use Rattle.gb_elab_prog.specs.Entries.{entries_by, entries_given, operator_entries};

use crate::fresh::refuse_declared;
use crate::module_types::module_type_entries;
use crate::operators::operator_entry;
use crate::types::{only, type_entries};
use gb_core::place::Place;
use gb_core::refusal::Refused;
use gb_goal::scope::{Entries, Scope};
use gb_names::refusals::not_built;
use gb_script::head::Head;
use gb_script::tree::Node;
use std::alloc::Global;

/// What a command `type`, `op` or `module type` declares: a type, with the constants of an enumeration behind it, an operator, or a module
/// type.
///
/// # Errors
///
/// `DoubleName` at a name that is declared; those of types, of operators and of `module_type_entries`.
#[tactic(auto, using(crate::proofs::New::new_if_given))]
pub fn entries(alloc: Global, scope: &Scope, tree: &Node) -> Result<Entries, Refused>
    ensures answer { Answers (entries_given scope.now tree.now) result }
    ensures new { IfOk result (AreNew scope.now) }
{
    entries_by(alloc, scope, tree.head, tree.parts.as_slice(), tree.place)
}

/// The same of a tree, by its head and its parts.
fn entries_by(
    alloc: Global,
    scope: &Scope,
    head: Head,
    parts: &[Node],
    place: Place,
) -> Result<Entries, Refused>
    ensures { Answers (entries_by scope.now head parts.now place) result }
{
    match head {
        Head::TypeDeclaration => match parts {
            [name, body] => {
                refuse_declared(alloc, scope, name)?;
                type_entries(
                    alloc,
                    scope,
                    name,
                    body.head,
                    body.parts.as_slice(),
                    body.place,
                )
            }
            _ => Err(not_built(place)),
        },
        Head::OperatorDeclaration => match parts {
            [name, body] => operator(alloc, scope, name, body),
            _ => Err(not_built(place)),
        },
        Head::ModuleType => match parts {
            [name, parameters, signatures] => {
                let (parameters, signatures) = (
                    parameters.parts.as_slice(),
                    signatures.parts.as_slice(),
                );
                module_type_entries(alloc, scope, name, parameters, signatures)
            }
            _ => Err(not_built(place)),
        },
        _ => Err(not_built(place)),
    }
}

fn operator(alloc: Global, scope: &Scope, name: &Node, body: &Node) -> Result<Entries, Refused>
    ensures { Answers (operator_entries scope.now name.now body.now) result }
{
    refuse_declared(alloc, scope, name)?;
    let entry = operator_entry(alloc, scope, body.head, body.parts.as_slice(), body.place)?;
    Ok(only(alloc, name, entry)?)
}
