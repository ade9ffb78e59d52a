// The locals of the bodies of a goal: those that occur in it, each with the type that it has there.

ghost use Rattle.std.specs.Prelude.{◌≡◌, [], ◌∷◌, None, flat_map, if◌then◌else◌, IfOk, OnOk};
ghost use Rattle.gb_goal.specs.Interfaces.{procedure_type};
ghost use Rattle.gb_elab_mod.specs.Occurring.{added, each_local, local, occurring, read_locals, returned, sampled, statement_locals, taking, with_all};

use gb_core::Shared;
use gb_core::copy::copy_ty;
use gb_core::name::Name;
use gb_core::ty::Ty;
use gb_core::var::Var;
use gb_elab_prog::procedure::is_local;
use gb_goal::interface::procedure_type;
use gb_goal::scope::Scope;
use gb_names::binders::variable;
use gb_terms::decl::Typed;
use gb_terms::module::ProcRef;
use gb_terms::op::{Read, Side};
use gb_terms::same::same_side;
use gb_terms::term::{Head, Instr, Term};
use sqlite_items::Items;
use std::alloc::{AllocError, Global};

/// The locals that a judgment's conditions read through the memory of a side and that the body of this side reads or
/// writes.
#[tactic(auto, using(crate::proofs::Found::with_append))]
pub fn occurring(
    alloc: Global,
    scope: &Scope,
    conditions: &[Term],
    side: Side,
    body: &[Instr],
) -> Result<Typed, AllocError>
    ensures { IfOk result (λ found. found ≡ occurring scope.now conditions.now side body.now) }
{
    let mut found = Items::new(alloc);
    in_terms(alloc, &mut found, conditions, side)?;
    in_body(alloc, scope, &mut found, body)?;
    Ok(found)
}

/// The same of a precondition and a postcondition.
#[tactic(auto, using(crate::proofs::Found::with_append))]
pub fn occurring_between(
    alloc: Global,
    scope: &Scope,
    pre: &Term,
    post: &Term,
    side: Side,
    body: &[Instr],
) -> Result<Typed, AllocError>
    ensures { IfOk result (λ found. found ≡ occurring scope.now (pre.now ∷ post.now ∷ []) side body.now) }
{
    let mut found = Items::new(alloc);
    in_term(alloc, &mut found, pre, side)?;
    in_term(alloc, &mut found, post, side)?;
    in_body(alloc, scope, &mut found, body)?;
    Ok(found)
}

/// Adds a local that isn't there.
fn add(alloc: Global, found: &mut Typed, name: &Name, ty: &Shared<Ty>) -> Result<(), AllocError>
    ensures { OnOk result (found.new ≡ added found.old (record { name = name.now; ty = ty.now })) }
{
    if is_local(found.as_slice(), name) {
        return Ok(());
    }
    found.push(variable(alloc, name, ty)?)
}

/// Adds the local that a variable of this type is.
fn add_variable(
    alloc: Global,
    found: &mut Typed,
    var: &Var,
    ty: &Shared<Ty>,
) -> Result<(), AllocError>
    ensures { OnOk result (found.new ≡ with_all found.old (local var.now ty.now)) }
{
    match var {
        Var::Local { name } => add(alloc, found, name, ty),
        _ => Ok(()),
    }
}

/// Adds the local that a variable of this type is, where it is read through the memory that is looked at.
fn in_read(
    alloc: Global,
    found: &mut Typed,
    var: &Var,
    ty: &Shared<Ty>,
    here: bool,
) -> Result<(), AllocError>
    ensures { OnOk result (found.new ≡ with_all found.old (if here then local var.now ty.now else [])) }
{
    if here {
        add_variable(alloc, found, var, ty)
    } else {
        Ok(())
    }
}

/// Adds the locals that a term reads through a memory. A judgment or a probability in it has memories of its own.
#[cycle(occurring)]
#[tactic(auto, using(crate::proofs::Found::read_locals_out))]
fn in_term(alloc: Global, found: &mut Typed, t: &Term, side: Side) -> Result<(), AllocError>
    ensures { OnOk result (found.new ≡ with_all found.old (read_locals t.now side)) }
{
    match t.head.get() {
        Head::Read(read) => match read {
            Read::Program { var, side: through } => {
                in_read(alloc, found, var, &t.ty, same_side(through, &side))
            }
            Read::Logical(_) => in_terms(alloc, found, t.args.as_slice(), side),
        },
        Head::Pr(..) | Head::Hoare(_) | Head::Phoare(..) | Head::Equiv(..) => Ok(()),
        _ => in_terms(alloc, found, t.args.as_slice(), side),
    }
}

#[cycle(occurring)]
fn in_terms(alloc: Global, found: &mut Typed, list: &[Term], side: Side) -> Result<(), AllocError>
    ensures { OnOk result (found.new ≡ with_all found.old (flat_map (λ t. read_locals t side) list.now)) }
{
    for t in list {
        in_term(alloc, found, t, side)?;
    }
    Ok(())
}

/// Adds the local that a sampling writes.
fn in_target(alloc: Global, found: &mut Typed, var: &Var, from: &Term) -> Result<(), AllocError>
    ensures { OnOk result (found.new ≡ with_all found.old (sampled var.now from.now)) }
{
    match from.ty.get() {
        Ty::Distr(outcomes) => add_variable(alloc, found, var, outcomes),
        _ => Ok(()),
    }
}

/// Adds the local that a variable is which takes a part of this type.
fn in_part(alloc: Global, found: &mut Typed, var: &Var, ty: &Ty) -> Result<(), AllocError>
    ensures { OnOk result (found.new ≡ with_all found.old (local var.now ty.now)) }
{
    let ty = Shared::new(alloc, copy_ty(alloc, ty)?)?;
    add_variable(alloc, found, var, &ty)
}

/// Adds the locals that variables of these types are.
#[tactic(auto, using(crate::proofs::Found::with_append))]
fn in_parts(alloc: Global, found: &mut Typed, vars: &[Var], types: &[Ty]) -> Result<(), AllocError>
    ensures { OnOk result (found.new ≡ with_all found.old (each_local vars.now types.now)) }
{
    match vars {
        [] => Ok(()),
        [var, others @ ..] => match types {
            [] => Ok(()),
            [ty, rest @ ..] => {
                in_part(alloc, found, var, ty)?;
                in_parts(alloc, found, others, rest)
            }
        },
    }
}

/// Adds the locals that take a value of a type: one alone takes all of it, several its parts.
fn in_targets(
    alloc: Global,
    found: &mut Typed,
    vars: &[Var],
    ty: &Shared<Ty>,
) -> Result<(), AllocError>
    ensures { OnOk result (found.new ≡ with_all found.old (taking vars.now ty.now)) }
{
    match vars {
        [var] => add_variable(alloc, found, var, ty),
        _ => match ty.get() {
            Ty::Tuple(parts) => in_parts(alloc, found, vars, parts.as_slice()),
            _ => Ok(()),
        },
    }
}

/// Adds the locals that take the result of a procedure.
fn in_result(
    alloc: Global,
    scope: &Scope,
    found: &mut Typed,
    vars: &[Var],
    called: &ProcRef,
) -> Result<(), AllocError>
    ensures { OnOk result (found.new ≡ with_all found.old (returned vars.now (procedure_type scope.now None called.now))) }
{
    match procedure_type(scope, None, called) {
        Some(ty) => in_targets(alloc, found, vars, ty.result),
        None => Ok(()),
    }
}

/// Adds the locals that a statement writes and reads, with those of the statements in it.
#[cycle(statements)]
#[tactic(auto, using(crate::proofs::Found::with_append, crate::proofs::Found::call_locals, crate::proofs::Found::if_locals, crate::proofs::Found::while_locals))]
fn in_statement(
    alloc: Global,
    scope: &Scope,
    found: &mut Typed,
    i: &Instr,
) -> Result<(), AllocError>
    ensures { OnOk result (found.new ≡ with_all found.old (statement_locals scope.now i.now)) }
{
    match i {
        Instr::Assign(vars, value) => {
            in_targets(alloc, found, vars.as_slice(), &value.ty)?;
            in_term(alloc, found, value, Side::Own)
        }
        Instr::Sample(var, from) => {
            in_target(alloc, found, var, from)?;
            in_term(alloc, found, from, Side::Own)
        }
        Instr::Call(vars, called, args) => {
            in_result(alloc, scope, found, vars.as_slice(), called.get())?;
            in_terms(alloc, found, args.as_slice(), Side::Own)
        }
        Instr::If(test, yes, no) => {
            in_term(alloc, found, test, Side::Own)?;
            in_body(alloc, scope, found, yes.list.as_slice())?;
            in_body(alloc, scope, found, no.list.as_slice())
        }
        Instr::While(guard, variant, body) => {
            in_term(alloc, found, guard, Side::Own)?;
            in_term(alloc, found, variant, Side::Own)?;
            in_body(alloc, scope, found, body.list.as_slice())
        }
    }
}

/// Adds the locals of a body.
#[cycle(statements)]
fn in_body(
    alloc: Global,
    scope: &Scope,
    found: &mut Typed,
    body: &[Instr],
) -> Result<(), AllocError>
    ensures { OnOk result (found.new ≡ with_all found.old (flat_map (statement_locals scope.now) body.now)) }
{
    for i in body {
        in_statement(alloc, scope, found, i)?;
    }
    Ok(())
}
