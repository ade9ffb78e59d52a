// What takes the places of the variables of an assignment.

ghost use Rattle.std.specs.Prelude.{◌≡◌, ◌≤◌, length, IfOk};
ghost use Rattle.std.specs.Option.{option_copied};
ghost use Rattle.gb_prog.specs.Assigned.{assigned_form, clashing, part, part_types, parts, parts_from, put_in, taken};

use crate::forms::located;
use gb_core::Shared;
use gb_core::copy::{copy_ty, copy_var};
use gb_core::ty::Ty;
use gb_core::var::Var;
use gb_terms::make;
use gb_terms::op::{Op, Read, Side};
use gb_terms::share::share_terms;
use gb_terms::term::{Form, Head, Term, Terms};
use gb_walk::change::{Change, Changes};
use gb_walk::clash::{Excluded, first_clash, lesser};
use gb_walk::walk::changed;
use sqlite_items::Items;
use std::alloc::{AllocError, Global};

/// The most parts of a tuple.
const PARTS: usize = 8;

/// The part of a tuple with this number, of this type.
fn part(alloc: Global, tuple: &Term, number: u8, ty: &Ty) -> Result<Term, AllocError>
    ensures { IfOk result (λ made. made ≡ part tuple.now number ty.now) }
{
    let ty = Shared::new(alloc, copy_ty(alloc, ty)?)?;
    make::unary(alloc, Op::Part(number), tuple.share()?, ty)
}

/// The parts of a tuple, of these types.
fn parts_from(alloc: Global, tuple: &Term, types: &[Ty]) -> Result<Terms, AllocError>
    requires { length types.now ≤ 8 }
    ensures { IfOk result (λ made. made ≡ parts_from tuple.now 1 types.now) }
{
    let mut parts = Items::new(alloc);
    let mut number = 1;
    for ty in types {
        parts.push(part(alloc, tuple, number, ty)?)?;
        number += 1;
    }
    Ok(parts)
}

/// The types of the parts of a tuple.
fn part_types(ty: &Ty) -> &[Ty]
    ensures types { result.now ≡ part_types ty.now }
    ensures few { length result.now ≤ 8 }
{
    match ty {
        Ty::Tuple(types) => {
            let types = types.as_slice();
            &types[..types.len().min(PARTS)]
        }
        _ => &[],
    }
}

/// The parts of a term: those of a tuple that is written out, else its parts by number.
fn parts(alloc: Global, value: &Term) -> Result<Terms, AllocError>
    ensures { IfOk result (λ made. made ≡ parts value.now) }
{
    match value.head.get() {
        Head::Builtin(Op::Tuple) => share_terms(alloc, value.args.as_slice()),
        _ => parts_from(alloc, value, part_types(value.ty.get())),
    }
}

/// What a term that is assigned gives to each of these variables.
pub fn taken(alloc: Global, targets: &[Var], value: &Term) -> Result<Terms, AllocError>
    ensures { IfOk result (λ made. made ≡ taken targets.now value.now) }
{
    match targets {
        [_] => {
            let mut alone = Items::new(alloc);
            alone.push(value.share()?)?;
            Ok(alone)
        }
        _ => parts(alloc, value),
    }
}

/// Terms in the places of variables of a memory.
pub fn put_in(
    alloc: Global,
    side: Side,
    targets: &[Var],
    values: &[Term],
) -> Result<Changes, AllocError>
    ensures { IfOk result (λ made. made ≡ put_in side targets.now values.now) }
{
    match targets {
        [] => Ok(Items::new(alloc)),
        [target, targets @ ..] => match values {
            [] => Ok(Items::new(alloc)),
            [value, values @ ..] => {
                let mut changes = put_in(alloc, side, targets, values)?;
                let var = copy_var(alloc, target)?;
                let value = located(alloc, value, side)?;
                changes.push(Change::ToTerm(Read::Program { var, side }, value))?;
                Ok(changes)
            }
        },
    }
}

/// A form with what is assigned in the places of these variables.
pub fn assigned_form(
    alloc: Global,
    side: Side,
    targets: &[Var],
    value: &Term,
    form: &Form,
) -> Result<Form, AllocError>
    ensures { IfOk result (λ made. made ≡ assigned_form side targets.now value.now form.now) }
{
    let values = taken(alloc, targets, value)?;
    let changes = put_in(alloc, side, targets, values.as_slice())?;
    changed(alloc, form, changes.as_slice())
}

/// The least of these variables with which another one clashes that the form reads.
pub fn clashing<'a>(
    exclusions: &[Excluded],
    side: Side,
    targets: &'a [Var],
    form: &Form,
) -> Option<&'a Var>
    ensures { option_copied result ≡ clashing exclusions.now side targets.now form.now }
{
    let mut found = None;
    for target in targets {
        if first_clash(exclusions, &side, target, form).is_some() {
            found = lesser(found, target);
        }
    }
    found
}
