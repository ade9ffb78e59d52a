//! Equations of two memories.

ghost use Rattle.std.specs.Prelude.{◌≡◌, ◌++◌, IfOk};
ghost use Rattle.gb_core.specs.declared.var.Var.TheVariants.{Glob, Local};
ghost use Rattle.gb_typing.specs.Forms.{equal_form, located};
ghost use Rattle.gb_adv.specs.Equations.{and_each, followed_by, led_by, reading, same_arguments, same_in_both, same_owner, same_params, same_result};

use gb_call::outcomes::result_variable;
use gb_core::Shared;
use gb_core::copy::copy_var;
use gb_core::name::Name;
use gb_core::ty::Ty;
use gb_core::var::Var;
use gb_prog::forms::located;
use gb_terms::decl::TypedName;
use gb_terms::make::{conjunction, equality, program, variable};
use gb_terms::op::Side;
use gb_terms::term::{Form, Term, Terms};
use std::alloc::{AllocError, Global};

/// A variable, read in a memory.
fn reading(alloc: Global, side: Side, var: &Var, ty: &Shared<Ty>) -> Result<Term, AllocError>
    ensures { IfOk result (λ made. made ≡ reading side var.now ty.now) }
{
    let var = copy_var(alloc, var)?;
    variable(alloc, var, side, ty.share()?)
}

/// A variable is the same in both memories.
fn same_in_both(alloc: Global, var: &Var, ty: &Shared<Ty>) -> Result<Form, AllocError>
    ensures { IfOk result (λ made. made ≡ same_in_both var.now ty.now) }
{
    let left = reading(alloc, Side::Left, var, ty)?;
    let right = reading(alloc, Side::Right, var, ty)?;
    equality(alloc, left, right)
}

/// The type of all that is a module's own.
pub fn owner_ty(alloc: Global, module: &Name) -> Result<Shared<Ty>, AllocError>
    ensures { IfOk result (λ made. made ≡ Ty.Glob «module».now) }
{
    let name = module.copy(alloc)?;
    Shared::new(alloc, Ty::Glob(name))
}

/// All that is a module's own.
pub fn owner_variable(alloc: Global, module: &Name) -> Result<Var, AllocError>
    ensures { IfOk result (λ made. made ≡ Glob «module».now) }
{
    let module = module.copy(alloc)?;
    Ok(Var::Glob { module })
}

/// All that is a module's own is the same.
pub fn same_owner(alloc: Global, module: &Name) -> Result<Form, AllocError>
    ensures { IfOk result (λ made. made ≡ same_owner «module».now) }
{
    let var = owner_variable(alloc, module)?;
    let ty = owner_ty(alloc, module)?;
    same_in_both(alloc, &var, &ty)
}

/// The results of procedures are the same.
pub fn same_result(alloc: Global, ty: &Shared<Ty>) -> Result<Form, AllocError>
    ensures { IfOk result (λ made. made ≡ same_result ty.now) }
{
    let var = result_variable(alloc)?;
    same_in_both(alloc, &var, ty)
}

/// A parameter of a procedure on the left is the same as one of a procedure on the right.
fn same_param(alloc: Global, left: &TypedName, right: &TypedName) -> Result<Form, AllocError>
    ensures { IfOk result (λ made. made ≡ equal_form (reading Side.Left (Local left.now.name) left.now.ty) (reading Side.Right (Local right.now.name) right.now.ty)) }
{
    let here = program(alloc, left.name.copy(alloc)?, Side::Left, left.ty.share()?)?;
    let there = program(
        alloc,
        right.name.copy(alloc)?,
        Side::Right,
        right.ty.share()?,
    )?;
    equality(alloc, here, there)
}

/// Equations behind others: the parameters of two procedures are the same, one by one, each in the memory of its own procedure.
pub fn same_params(
    alloc: Global,
    found: Terms,
    left: &[TypedName],
    right: &[TypedName],
) -> Result<Terms, AllocError>
    ensures { IfOk result (λ made. made ≡ found ++ same_params left.now right.now) }
{
    match left {
        [] => Ok(found),
        [x, left @ ..] => match right {
            [] => Ok(found),
            [y, right @ ..] => {
                let mut all = found;
                all.push(same_param(alloc, x, y)?)?;
                same_params(alloc, all, left, right)
            }
        },
    }
}

/// An argument of a call on the left is the same as one of a call on the right.
fn same_argument(alloc: Global, left: &Term, right: &Term) -> Result<Form, AllocError>
    ensures { IfOk result (λ made. made ≡ equal_form (located Side.Left left.now) (located Side.Right right.now)) }
{
    let here = located(alloc, left, Side::Left)?;
    let there = located(alloc, right, Side::Right)?;
    equality(alloc, here, there)
}

/// Equations behind others: the arguments of two calls are the same, one by one.
pub fn same_arguments(
    alloc: Global,
    found: Terms,
    left: &[Term],
    right: &[Term],
) -> Result<Terms, AllocError>
    ensures { IfOk result (λ made. made ≡ found ++ same_arguments left.now right.now) }
{
    match left {
        [] => Ok(found),
        [e, left @ ..] => match right {
            [] => Ok(found),
            [d, right @ ..] => {
                let mut all = found;
                all.push(same_argument(alloc, e, d)?)?;
                same_arguments(alloc, all, left, right)
            }
        },
    }
}

/// A form and others behind it, one after another.
fn and_each(alloc: Global, first: Form, others: &[Form]) -> Result<Form, AllocError>
    ensures { IfOk result (λ made. made ≡ and_each first others.now) }
{
    let mut all = first;
    for form in others {
        all = conjunction(alloc, all, form.share()?)?;
    }
    Ok(all)
}

/// A form and, as one conjunct behind it, others, if there are any.
pub fn followed_by(alloc: Global, form: Form, others: &[Form]) -> Result<Form, AllocError>
    ensures { IfOk result (λ made. made ≡ followed_by form others.now) }
{
    match others {
        [] => Ok(form),
        [first, others @ ..] => {
            let behind = and_each(alloc, first.share()?, others)?;
            conjunction(alloc, form, behind)
        }
    }
}

/// A form and, as one conjunct in front of it, others, if there are any.
pub fn led_by(alloc: Global, others: &[Form], form: Form) -> Result<Form, AllocError>
    ensures { IfOk result (λ made. made ≡ led_by others.now form) }
{
    match others {
        [] => Ok(form),
        [first, others @ ..] => {
            let before = and_each(alloc, first.share()?, others)?;
            conjunction(alloc, before, form)
        }
    }
}
