// Calls of procedures.

ghost use Rattle.std.specs.Prelude.{◌≡◌};
ghost use Rattle.gb_goal.specs.Answers.{Answers, ◌>>=◌ as ◌and_then◌};
ghost use Rattle.gb_goal.specs.Seen.{typed};
ghost use Rattle.gb_names.specs.Environment.{environment};
ghost use Rattle.gb_names.specs.Judgments.{named_seen};
ghost use Rattle.gb_elab_stmt.specs.Calls.{arguments, call, call_of, enough, in_last, takes};
ghost use Rattle.gb_elab_stmt.specs.Targets.{pairs};

use crate::targets::{type_of_all, variables_of};
use gb_core::SharedItems;
use gb_core::place::Place;
use gb_core::refusal::Refused;
use gb_core::same::same_types;
use gb_core::ty::Ty;
use gb_elab::form::typed;
use gb_goal::interface::ProcedureType;
use gb_names::globals::Target;
use gb_names::judgment::{Named, procedure_called};
use gb_names::refusals::mismatch;
use gb_names::setting::Setting;
use gb_script::head::Head;
use gb_script::tree::Node;
use gb_terms::decl::TypedName;
use gb_terms::term::{Instr, Terms};
use sqlite_items::Items;
use std::alloc::Global;

/// Refuses a result of another type than that of what is written, if anything is.
fn takes(alloc: Global, targets: &[Target], ty: &Ty, place: Place) -> Result<(), Refused>
    ensures { Answers (takes (pairs targets.now) ty.now place) result }
{
    match targets {
        [] => Ok(()),
        [_, ..] => {
            let taken = type_of_all(alloc, targets)?;
            if same_types(ty, taken.get()) {
                Ok(())
            } else {
                Err(mismatch(place))
            }
        }
    }
}

/// Arguments of the types of parameters.
#[tactic(auto, unfolding(crate::specs::Calls::arguments))]
fn arguments(
    alloc: Global,
    at: &Setting<'_>,
    params: &[TypedName],
    args: &[Node],
) -> Result<Terms, Refused>
    ensures { Answers (arguments (environment at.now) params.now args.now) result }
{
    let mut made = Items::new(alloc);
    let mut rest = params;
    for arg in args {
        let [param, more @ ..] = rest else {
            return Err(mismatch(arg.place));
        };
        let arg = typed(alloc, at, &[], arg, Some(param.ty.get()))?;
        made.push(arg)?;
        rest = more;
    }
    Ok(made)
}

/// The arguments of a call of a procedure of this type: as many as it has parameters at least. What takes its result is of its type.
fn fitting(
    alloc: Global,
    at: &Setting<'_>,
    targets: &[Target],
    ty: ProcedureType<'_>,
    args: &[Node],
    place: Place,
) -> Result<Terms, Refused>
    ensures { Answers (enough (typed ty.entry).params args.now place and_then λ _. takes (pairs targets.now) (typed ty.entry).result place and_then λ _. arguments (environment at.now) (typed ty.entry).params args.now) result }
{
    if args.len() < ty.params.len() {
        return Err(mismatch(place));
    }
    takes(alloc, targets, ty.result.get(), place)?;
    arguments(alloc, at, ty.params, args)
}

/// A call of a procedure, whose result these variables take.
#[tactic(auto, unfolding(crate::specs::Calls::call_of))]
fn call_of(
    alloc: Global,
    at: &Setting<'_>,
    targets: &[Target],
    named: Named<'_>,
    args: &[Node],
    place: Place,
) -> Result<Instr, Refused>
    ensures { Answers (call_of (environment at.now) (pairs targets.now) (named_seen named.entry) args.now place) result }
{
    let Named { reference, ty } = named;
    let args = fitting(alloc, at, targets, ty, args, place)?;
    let args = SharedItems::new(alloc, args)?;
    let vars = variables_of(alloc, targets)?;
    Ok(Instr::Call(vars, reference, args))
}

/// The arguments of a call, which stand in its last part.
fn in_last(parts: &[Node]) -> &[Node]
    ensures { result.now ≡ in_last parts.now }
{
    match parts {
        [arguments] => arguments.parts.as_slice(),
        _ => &[],
    }
}

/// A call, by its head, its first word and the other parts.
///
/// # Errors
///
/// Those of `procedure_called`, `TypeMismatch` of a call with too few arguments, or whose result isn't of the type of what is written, and
/// of the first argument too many, and those of the arguments.
pub fn call(
    alloc: Global,
    at: &Setting<'_>,
    targets: &[Target],
    head: Head,
    first: &Node,
    parts: &[Node],
    place: Place,
) -> Result<Instr, Refused>
    ensures { Answers (call (environment at.now) (pairs targets.now) head first.now parts.now place) result }
{
    let named = procedure_called(alloc, at, &[], head, first, parts, place)?;
    let arguments = in_last(&parts[parts.len().saturating_sub(1)..]);
    call_of(alloc, at, targets, named, arguments, place)
}
