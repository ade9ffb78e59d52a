// The locals that a goal reads in the memories of its context.

ghost use Rattle.std.specs.Prelude.{◌≡◌, map, IfOk};
ghost use Rattle.std.specs.Option.{option_copied};
ghost use Rattle.gb_names.specs.Locals.{first_some, goal_read_type, hyps_read_type, local_if, read_type, locals_in, reads_local};

use crate::binders::variable;
use gb_core::Shared;
use gb_core::name::Name;
use gb_core::ty::Ty;
use gb_core::var::Var;
use gb_goal::sequent::{Hyp, Sequent};
use gb_terms::decl::Typed;
use gb_terms::op::{Read, Side};
use gb_terms::same::same_side;
use gb_terms::term::{Head, Term};
use sqlite_items::Items;
use std::alloc::{AllocError, Global};

/// Whether a head reads the local of this name in a memory.
fn reads_local(head: &Head, side: Side, name: &Name) -> bool
    ensures { result ≡ reads_local side name.now head.now }
{
    match head {
        Head::Read(read) => match read {
            Read::Program {
                var: Var::Local { name: local },
                side: through,
            } => same_side(through, &side) && *local == *name,
            _ => false,
        },
        _ => false,
    }
}

/// The type at which a term reads a local in a named memory, where it first does.
#[cycle(read_type)]
#[tactic(auto, using(crate::proofs::ReadTypes::read_type_out))]
fn read_type<'a>(term: &'a Term, side: Side, name: &Name) -> Option<&'a Shared<Ty>>
    ensures { option_copied result ≡ read_type side name.now term.now }
{
    if reads_local(term.head.get(), side, name) {
        Some(&term.ty)
    } else {
        read_type_among(term.args.as_slice(), side, name)
    }
}

/// The same of the first of these terms that reads it.
#[cycle(read_type)]
fn read_type_among<'a>(list: &'a [Term], side: Side, name: &Name) -> Option<&'a Shared<Ty>>
    ensures { option_copied result ≡ first_some (map (read_type side name.now) list.now) }
{
    for term in list {
        let found = read_type(term, side, name);
        if found.is_some() {
            return found;
        }
    }
    None
}

/// The same of the first of these hypotheses that reads it.
fn hyps_read_type<'a>(list: &'a [Hyp], side: Side, name: &Name) -> Option<&'a Shared<Ty>>
    ensures { option_copied result ≡ hyps_read_type side name.now list.now }
{
    for hyp in list {
        let found = read_type(&hyp.form, side, name);
        if found.is_some() {
            return found;
        }
    }
    None
}

/// The type at which a goal reads a local in a memory of its context.
fn goal_read_type<'a>(goal: &'a Sequent, side: Side, name: &Name) -> Option<&'a Shared<Ty>>
    ensures { option_copied result ≡ goal_read_type side name.now goal.now }
{
    let found = hyps_read_type(goal.hyps.as_slice(), side, name);
    if found.is_some() {
        found
    } else {
        read_type(&goal.conclusion, side, name)
    }
}

/// A local of this name, where it has a type.
fn local_if(alloc: Global, name: &Name, ty: Option<&Shared<Ty>>) -> Result<Typed, AllocError>
    ensures { IfOk result (λ made. made ≡ local_if name.now (option_copied ty.entry)) }
{
    let mut all = Items::new(alloc);
    if let Some(ty) = ty {
        let local = variable(alloc, name, ty)?;
        all.push(local)?;
    }
    Ok(all)
}

/// The local of this name that is in scope in a memory.
pub fn locals_in(
    alloc: Global,
    goal: &Sequent,
    side: Side,
    name: &Name,
) -> Result<Typed, AllocError>
    ensures { IfOk result (λ made. made ≡ locals_in goal.now side name.now) }
{
    match side {
        Side::Memory(_) => local_if(alloc, name, goal_read_type(goal, side, name)),
        _ => Ok(Items::new(alloc)),
    }
}
