// Locals that a term reads in a memory of the context, and the goal doesn't.

ghost use Rattle.std.specs.Prelude.{◌≡◌, map, IfOk};
ghost use Rattle.std.specs.List.{list_any};
ghost use Rattle.gb_elab_mod.specs.OtherLocals.{head_reads, is_local, reads_other_locals};

use gb_core::name::Name;
use gb_core::same::same_types;
use gb_core::ty::Ty;
use gb_core::var::Var;
use gb_goal::sequent::Sequent;
use gb_names::locals::locals_in;
use gb_terms::op::{Read, Side};
use gb_terms::same::same_side;
use gb_terms::term::{Head, Term};
use std::alloc::{AllocError, Global};

/// Whether the goal reads the local of this name in a memory of its context, at this type. Where it is told, one that the goal doesn't
/// read there counts too.
fn is_local(
    alloc: Global,
    with_unread: bool,
    goal: &Sequent,
    side: Side,
    name: &Name,
    ty: &Ty,
) -> Result<bool, AllocError>
    ensures { IfOk result (λ known. known ≡ is_local with_unread goal.now side name.now ty.now) }
{
    let locals = locals_in(alloc, goal, side, name)?;
    match locals.as_slice() {
        [local, ..] => Ok(same_types(local.ty.get(), ty)),
        _ => Ok(with_unread),
    }
}

/// Whether a head of this type reads a local in the memory that the goal doesn't.
fn head_reads(
    alloc: Global,
    with_unread: bool,
    goal: &Sequent,
    side: Side,
    head: &Head,
    ty: &Ty,
) -> Result<bool, AllocError>
    ensures { IfOk result (λ other. other ≡ head_reads with_unread goal.now side head.now ty.now) }
{
    match head {
        Head::Read(read) => match read {
            Read::Program {
                var: Var::Local { name },
                side: through,
            } => Ok(
                same_side(through, &side) && !is_local(alloc, with_unread, goal, side, name, ty)?,
            ),
            _ => Ok(false),
        },
        _ => Ok(false),
    }
}

/// Whether a term reads a local in a memory of the context that the goal doesn't read there at this type.
#[cycle(reads)]
#[tactic(auto, using(crate::proofs::OtherLocals::reads_out))]
pub fn reads_other_locals(
    term: &Term,
    alloc: Global,
    with_unread: bool,
    goal: &Sequent,
    side: Side,
) -> Result<bool, AllocError>
    ensures { IfOk result (λ other. other ≡ reads_other_locals with_unread goal.now side term.now) }
{
    if head_reads(
        alloc,
        with_unread,
        goal,
        side,
        term.head.get(),
        term.ty.get(),
    )? {
        return Ok(true);
    }
    one_reads(term.args.as_slice(), alloc, with_unread, goal, side)
}

/// The same of one of these terms.
#[cycle(reads)]
fn one_reads(
    list: &[Term],
    alloc: Global,
    with_unread: bool,
    goal: &Sequent,
    side: Side,
) -> Result<bool, AllocError>
    ensures { IfOk result (λ other. other ≡ list_any (λ b. b) (map (reads_other_locals with_unread goal.now side) list.now)) }
{
    for term in list {
        if reads_other_locals(term, alloc, with_unread, goal, side)? {
            return Ok(true);
        }
    }
    Ok(false)
}
