// What a term reads of a memory that a binder binds.

ghost use Rattle.std.specs.Prelude.{◌≡◌, ◌&&◌, map, IfOk, OnOk};
ghost use Rattle.gb_core.specs.SameTypes.{ty_eq};
ghost use Rattle.gb_terms.specs.Equal.{var_eq};
ghost use Rattle.gb_walk.specs.Layers.{seen_by, where_last};
ghost use Rattle.gb_labels.specs.Reads.{are_free, head_reads, inside, is_among, is_bound_at, is_clash_among, joined, noted, reads_at, reads_of, with_new};

use gb_core::Shared;
use gb_core::copy::copy_var;
use gb_core::same::{same_types, same_var};
use gb_core::ty::Ty;
use gb_core::var::Var;
use gb_terms::op::{Read, Side};
use gb_terms::term::{Head, Term};
use gb_walk::binders::is_binder;
use gb_walk::clash::{Excluded, clashes};
use sqlite_items::Items;
use std::alloc::{AllocError, Global};

/// A variable of a memory, at the type at which it is read.
#[derive(Drop)]
pub struct TypedVar {
    pub var: Shared<Var>,
    pub ty: Shared<Ty>,
}

pub type TypedVars = Items<TypedVar>;

/// Whether two variables are the same.
#[tactic(auto, using(gb_terms::proofs::Equality::var_test))]
fn is_variable(x: &Var, y: &Var) -> bool
    ensures { result ≡ var_eq x.now y.now }
{
    same_var(x, y)
}

/// Whether two variables at types are the same.
pub fn is_read_at(x: &Var, ty: &Ty, y: &Var, u: &Ty) -> bool
    ensures { result ≡ (var_eq x.now y.now && ty_eq ty.now u.now) }
{
    is_variable(x, y) && same_types(ty, u)
}

/// Whether a variable is among these at a type.
fn is_among(list: &[TypedVar], var: &Var, ty: &Ty) -> bool
    ensures { result ≡ is_among list.now var.now ty.now }
{
    for entry in list {
        if is_read_at(entry.var.get(), entry.ty.get(), var, ty) {
            return true;
        }
    }
    false
}

/// Whether a memory is the one of the binder with so many binders between.
fn is_bound_at(side: &Side, depth: u32) -> bool
    ensures { result ≡ is_bound_at side.now depth }
{
    match side {
        Side::Bound(index) => *index == depth,
        _ => false,
    }
}

/// Adds a variable at a type, if it isn't there yet.
fn note_var(
    alloc: Global,
    var: &Var,
    ty: &Shared<Ty>,
    list: &mut TypedVars,
) -> Result<(), AllocError>
    ensures { OnOk result (list.new ≡ with_new list.old (record { var = var.now; ty = ty.now })) }
{
    if is_among(list.as_slice(), var, ty.get()) {
        return Ok(());
    }
    let var = Shared::new(alloc, copy_var(alloc, var)?)?;
    let ty = ty.share()?;
    list.push(TypedVar { var, ty })
}

/// Adds the variable that a head of a type reads of the memory with so many binders between.
fn note_head(
    alloc: Global,
    head: &Head,
    ty: &Shared<Ty>,
    depth: u32,
    list: &mut TypedVars,
) -> Result<(), AllocError>
    ensures { OnOk result (list.new ≡ noted list.old (head_reads head.now ty.now depth)) }
{
    match head {
        Head::Read(Read::Program { var, side }) if is_bound_at(side, depth) => {
            note_var(alloc, var, ty, list)
        }
        _ => Ok(()),
    }
}

/// How many binders stand between, in the last argument of a head. Where these are 2^32 or more, memory is said to run out.
fn depth_inside(head: &Head, depth: u32) -> Result<u32, AllocError>
    ensures { IfOk result (λ k. k ≡ inside head.now depth) }
{
    if is_binder(head) {
        depth.checked_add(1).ok_or(AllocError)
    } else {
        Ok(depth)
    }
}

/// How many stand between in an argument, by the arguments behind it.
fn depth_at(behind: &[Term], depth: u32, last: u32) -> u32
    ensures { result ≡ where_last behind.now depth last }
{
    if behind.is_empty() { last } else { depth }
}

/// Adds what a term reads of the memory with so many binders between.
#[cycle(note)]
#[tactic(auto, using(crate::proofs::NotedReads::reads_out, crate::proofs::NotedReads::noted_append))]
fn note(alloc: Global, t: &Term, depth: u32, list: &mut TypedVars) -> Result<(), AllocError>
    ensures { OnOk result (list.new ≡ noted list.old (reads_at t.now depth)) }
{
    let head = t.head.get();
    let last = depth_inside(head, depth)?;
    note_head(alloc, head, &t.ty, depth, list)?;
    note_all(alloc, t.args.as_slice(), depth, last, list)
}

/// Adds what the arguments of a head read, the last one under `last` binders.
#[cycle(note)]
fn note_all(
    alloc: Global,
    args: &[Term],
    depth: u32,
    last: u32,
    list: &mut TypedVars,
) -> Result<(), AllocError>
    ensures { OnOk result (list.new ≡ noted list.old (joined (seen_by depth last (map reads_at args.now)))) }
{
    for i in 0..args.len() {
        let at = depth_at(&args[i + 1..], depth, last);
        note(alloc, &args[i], at, list)?;
    }
    Ok(())
}

/// What the body of a quantifier over memories reads of the memory that it binds: each variable once at each type at which it is
/// read, in the order of first places.
pub fn reads(alloc: Global, body: &Term) -> Result<TypedVars, AllocError>
    ensures { IfOk result (λ vs. vs ≡ reads_of body.now) }
{
    let mut list = Items::new(alloc);
    note(alloc, body, 0, &mut list)?;
    Ok(list)
}

/// Whether a variable clashes with one of these.
fn is_clash_among(exclusions: &[Excluded], list: &[TypedVar], var: &Var) -> bool
    ensures { result ≡ is_clash_among exclusions.now list.now var.now }
{
    for entry in list {
        if clashes(exclusions, var, entry.var.get()) {
            return true;
        }
    }
    false
}

/// Whether no two of these clash, so that memories give them all values of their types, independently.
pub fn are_free(exclusions: &[Excluded], list: &[TypedVar]) -> bool
    ensures { result ≡ are_free exclusions.now list.now }
{
    for i in 0..list.len() {
        if is_clash_among(exclusions, &list[i + 1..], list[i].var.get()) {
            return false;
        }
    }
    true
}
