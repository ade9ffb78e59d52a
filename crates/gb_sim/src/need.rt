//! What has to be equal before the same statements on both sides, so that variables are equal after them.

ghost use Rattle.std.specs.Prelude.{◌≡◌, ◌++◌, IfOk};
ghost use Rattle.gb_full.specs.Loss.{full_operators};
ghost use Rattle.gb_mods.specs.Called.{calls};
ghost use Rattle.gb_terms.specs.Equal.{var_eq};
ghost use Rattle.gb_sim.specs.Need.{before, called_need, concern, concerns, is_among, loop_need, need, of_branches, statement_need, without, written_need};
ghost use Rattle.gb_sim.specs.Reads.{each_reads, list_reads, term_reads};

use crate::reads::{each_reads, list_reads, reached_reads, term_reads};
use gb_core::Shared;
use gb_core::name::Name;
use gb_core::same::same_var;
use gb_core::var::Var;
use gb_forms::ordered::{joined, shared_variable, with_variables};
use gb_full::loss::may_lose;
use gb_goal::scope::Scope;
use gb_labels::reads::{TypedVar, TypedVars};
use gb_mods::called::calls;
use gb_terms::module::ProcRef;
use gb_terms::term::{Instr, Term};
use gb_walk::clash::{Excluded, clashes};
use sqlite_items::Items;
use std::alloc::{AllocError, Global};
use std::slice::from_ref;

/// Whether two variables are the same.
#[tactic(auto, using(gb_terms::proofs::Equality::var_test))]
fn is_variable(x: &Var, y: &Var) -> bool
    ensures { result ≡ var_eq x.now y.now }
{
    same_var(x, y)
}

/// Whether a variable is one of these.
fn is_among(list: &[Var], variable: &TypedVar) -> bool
    ensures { result ≡ is_among list.now variable.now }
{
    for x in list {
        if is_variable(x, variable.var.get()) {
            return true;
        }
    }
    false
}

/// Variables but for these.
fn without(alloc: Global, targets: &[Var], list: &[TypedVar]) -> Result<TypedVars, AllocError>
    ensures { IfOk result (λ made. made ≡ without targets.now list.now) }
{
    let mut all = Items::new(alloc);
    for variable in list {
        if !is_among(targets, variable) {
            all.push(shared_variable(variable)?)?;
        }
    }
    Ok(all)
}

/// Whether a variable is one of these, or clashes with one.
fn concerns(exclusions: &[Excluded], target: &Var, list: &[TypedVar]) -> bool
    ensures { result ≡ concerns exclusions.now target.now list.now }
{
    for variable in list {
        if clashes(exclusions, target, variable.var.get()) {
            return true;
        }
    }
    false
}

/// Whether one of the targets is among the variables, or clashes with one.
fn concern(exclusions: &[Excluded], targets: &[Var], list: &[TypedVar]) -> bool
    ensures { result ≡ concern exclusions.now targets.now list.now }
{
    for target in targets {
        if concerns(exclusions, target, list) {
            return true;
        }
    }
    false
}

/// What is needed before what writes these variables and reads those.
fn before(
    alloc: Global,
    targets: &[Var],
    reads: &[TypedVar],
    after: &[TypedVar],
) -> Result<TypedVars, AllocError>
    ensures { IfOk result (λ made. made ≡ before targets.now reads.now after.now) }
{
    let kept = without(alloc, targets, after)?;
    joined(alloc, reads, kept)
}

/// The same of what writes the value of a term, where that matters.
fn written_need(
    alloc: Global,
    matters: bool,
    targets: &[Var],
    from: &Term,
    after: &[TypedVar],
) -> Result<TypedVars, AllocError>
    ensures { IfOk result (λ made. made ≡ written_need matters targets.now from.now after.now) }
{
    if !matters {
        return with_variables(Items::new(alloc), after);
    }
    let reads = term_reads(alloc, Items::new(alloc), from)?;
    before(alloc, targets, reads.as_slice(), after)
}

/// The same of a call: with all that its procedure reads, through every procedure that it calls.
fn called_need(
    alloc: Global,
    targets: &[Var],
    procedure: &Shared<ProcRef>,
    args: &[Term],
    scope: &Scope,
    after: &[TypedVar],
) -> Result<Option<TypedVars>, AllocError>
    ensures { IfOk result (λ made. made ≡ called_need scope.now targets.now procedure.now (each_reads args.now) after.now) }
{
    let mut first = Items::new(alloc);
    first.push(procedure.share()?)?;
    let Some(others) = reached_reads(alloc, scope, first)? else {
        return Ok(None);
    };
    let own = each_reads(alloc, Items::new(alloc), args)?;
    let all = with_variables(own, others.as_slice())?;
    Ok(Some(before(alloc, targets, all.as_slice(), after)?))
}

/// What a loop reads itself, with the statements in it.
fn loop_reads(
    alloc: Global,
    test: &Term,
    variant: &Term,
    body: &[Instr],
) -> Result<TypedVars, AllocError>
    ensures { IfOk result (λ made. made ≡ term_reads test.now ++ (term_reads variant.now ++ list_reads body.now)) }
{
    let found = term_reads(alloc, Items::new(alloc), test)?;
    let found = term_reads(alloc, found, variant)?;
    list_reads(alloc, found, body)
}

/// What is needed before a loop: all that it reads, so that it takes as many turns on both sides.
fn loop_need(
    alloc: Global,
    reads: TypedVars,
    body: &[Instr],
    scope: &Scope,
    after: &[TypedVar],
) -> Result<Option<TypedVars>, AllocError>
    ensures { IfOk result (λ made. made ≡ loop_need scope.now reads (calls body.now) after.now) }
{
    let called = calls(alloc, Items::new(alloc), body)?;
    let Some(others) = reached_reads(alloc, scope, called)? else {
        return Ok(None);
    };
    let all = with_variables(reads, others.as_slice())?;
    let after = with_variables(Items::new(alloc), after)?;
    Ok(Some(joined(alloc, all.as_slice(), after)?))
}

/// What is needed before two branches and a test of which to take.
fn of_branches(
    alloc: Global,
    test: &Term,
    yes: Option<TypedVars>,
    no: Option<TypedVars>,
) -> Result<Option<TypedVars>, AllocError>
    ensures { IfOk result (λ made. made ≡ of_branches (term_reads test.now) yes no) }
{
    let (Some(yes), Some(no)) = (yes, no) else {
        return Ok(None);
    };
    let reads = term_reads(alloc, Items::new(alloc), test)?;
    let together = joined(alloc, yes.as_slice(), no)?;
    Ok(Some(joined(alloc, reads.as_slice(), together)?))
}

/// What is needed before a statement, so that variables are equal after it. It is told which operators are full.
#[cycle(need)]
fn statement_need(
    alloc: Global,
    statement: &Instr,
    exclusions: &[Excluded],
    scope: &Scope,
    full: &[Name],
    after: &[TypedVar],
) -> Result<Option<TypedVars>, AllocError>
    requires { full.now ≡ full_operators scope.now }
    ensures { IfOk result (λ made. made ≡ statement_need exclusions.now scope.now statement.now after.now) }
{
    match statement {
        Instr::Assign(targets, value) => {
            let targets = targets.as_slice();
            let matters = concern(exclusions, targets, after);
            Ok(Some(written_need(alloc, matters, targets, value, after)?))
        }
        Instr::Sample(target, from) => {
            let targets = from_ref(target);
            let matters = may_lose(from, scope, full) || concern(exclusions, targets, after);
            Ok(Some(written_need(alloc, matters, targets, from, after)?))
        }
        Instr::Call(targets, procedure, args) => {
            called_need(
                alloc,
                targets.as_slice(),
                procedure,
                args.as_slice(),
                scope,
                after,
            )
        }
        Instr::If(test, yes, no) => {
            let yes = need(alloc, yes.list.as_slice(), exclusions, scope, full, after)?;
            let no = need(alloc, no.list.as_slice(), exclusions, scope, full, after)?;
            of_branches(alloc, test, yes, no)
        }
        Instr::While(test, variant, body) => {
            let body = body.list.as_slice();
            let reads = loop_reads(alloc, test, variant, body)?;
            loop_need(alloc, reads, body, scope, after)
        }
    }
}

/// The same of statements one after another. None where nothing is known of a procedure that is called.
#[cycle(need)]
pub fn need(
    alloc: Global,
    list: &[Instr],
    exclusions: &[Excluded],
    scope: &Scope,
    full: &[Name],
    after: &[TypedVar],
) -> Result<Option<TypedVars>, AllocError>
    requires { full.now ≡ full_operators scope.now }
    ensures { IfOk result (λ made. made ≡ need exclusions.now scope.now list.now after.now) }
{
    let mut known = with_variables(Items::new(alloc), after)?;
    for k in 0..list.len() {
        let at = list.len() - 1 - k;
        let after = known.as_slice();
        let Some(earlier) = statement_need(alloc, &list[at], exclusions, scope, full, after)? else {
            return Ok(None);
        };
        known = earlier;
    }
    Ok(Some(known))
}
