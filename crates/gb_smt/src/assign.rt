// The assignments to the variables of a claim.

ghost use Rattle.std.specs.Prelude.{◌≡◌, ◌-◌, ◌^◌, ◌<◌, length, map, min, IfOk, OnOk};
ghost use Rattle.gb_core.specs.declared.ty.Ty.TheVariants.{Tuple};
ghost use Rattle.gb_core.specs.Numbering.{tuple_at};
ghost use Rattle.gb_eval.specs.Findings.{Finds};
ghost use Rattle.gb_core.specs.Types.{IsPlaceBelow, card_of, numbering, value_at};
ghost use Rattle.gb_eval.specs.Eval.{environment};
ghost use Rattle.gb_labels.specs.Labels.{choice_at, choices, labelled_ty};
ghost use Rattle.gb_labels.specs.Labelled.{labelled};
ghost use Rattle.gb_mods.specs.Exclusions.{exclusions};
ghost use Rattle.gb_smt.specs.Assign.{assignments, assignment, environment_of, with_values, implied, truth_at, found_under, found_of, found_with, labelled_claim};

use crate::claims::Claim;
use gb_closing::linked::{Variable, Variables};
use gb_core::nth::nth;
use gb_core::size::size;
use gb_core::value::{Card, Value, Values};
use gb_dist::whole::Overflow;
use gb_equality::sizes::{number_of_values, size_of_variables};
use gb_eval::answer::Stop;
use gb_eval::env::{Env, ReadValue, ReadValues};
use gb_eval::eval::truth;
use gb_eval::script::script_of;
use gb_goal::scope::Scope;
use gb_labels::labelled::{labelled, labelled_all};
use gb_labels::labels::{Label, choice_at, choices};
use gb_labels::types::labelled_part;
use gb_mods::exclusions::exclusions;
use gb_terms::term::Term;
use gb_walk::clash::Excluded;
use sqlite_items::Items;
use std::alloc::{AllocError, Global};

/// A variable with the value at a place of its type.
fn with_value(alloc: Global, variable: &Variable, at: u64) -> Result<ReadValue, AllocError>
    requires { IsPlaceBelow at (card_of variable.now.ty) }
    ensures { IfOk result (λ made. made ≡ record { read = variable.now.read; value = value_at variable.now.ty at }) }
{
    let read = variable.read.share()?;
    let value = nth(alloc, variable.ty.get(), at)?;
    Ok(ReadValue { read, value })
}

/// The variables with some values.
fn unassigned(alloc: Global, variables: &[Variable]) -> Result<ReadValues, AllocError>
    ensures { IfOk result (λ reads. length reads ≡ length variables.now) }
{
    let mut reads = Items::new(alloc);
    for variable in variables {
        let read = variable.read.share()?;
        let value = Value::Num(0);
        reads.push(ReadValue { read, value })?;
    }
    Ok(reads)
}

/// Gives variables their values in the assignment at a place, the first variable slowest.
fn assign(
    alloc: Global,
    variables: &[Variable],
    at: u64,
    reads: &mut ReadValues,
) -> Result<(), AllocError>
    requires below { IsPlaceBelow at (card_of (Tuple (map (λ v. v.ty) variables.now))) }
    requires each { length reads.old ≡ length variables.now }
    ensures values { OnOk result (reads.new ≡ with_values variables.now (tuple_at (map numbering (map (λ v. v.ty) variables.now)) at)) }
    ensures each { OnOk result (length reads.new ≡ length variables.now) }
{
    let mut left = size_of_variables(variables);
    let mut rest = at;
    for i in 0..variables.len() {
        let variable = &variables[i];
        left /= size(variable.ty.get());
        reads.set(i, with_value(alloc, variable, rest / left)?);
        rest %= left;
    }
    Ok(())
}

fn values_of(alloc: Global, reads: &[ReadValue]) -> Result<Values, AllocError>
    ensures { IfOk result (λ values. values ≡ map (λ r. r.value) reads.now) }
{
    let mut values = Items::new(alloc);
    for entry in reads {
        values.push(entry.value.share()?)?;
    }
    Ok(values)
}

/// Whether hypotheses imply a conclusion, with labels in place of the values of modules' globals.
fn implied(alloc: Global, env: &Env<'_>, hyps: &[Term], conclusion: &Term) -> Result<bool, Stop>
    ensures { Finds (implied (environment env.now) (map (labelled env.now.labels.now) hyps.now) (labelled env.now.labels.now conclusion.now)) result }
{
    for hyp in hyps {
        if !truth(alloc, hyp, env)? {
            return Ok(true);
        }
    }
    truth(alloc, conclusion, env)
}

/// Whether the hypotheses of a claim imply its conclusion where its variables have values, and restrictions exclude what is excluded.
fn is_true_under(
    alloc: Global,
    claim: &Claim,
    reads: &[ReadValue],
    scope: &Scope,
    excluded: &[Excluded],
) -> Result<bool, Stop>
    requires { excluded.now ≡ exclusions scope.now }
    ensures { Finds (implied (environment_of scope.now reads.now) claim.now.hyps claim.now.conclusion) result }
{
    let env = Env {
        script: script_of(scope),
        reads,
        exclusions: excluded,
        labels: &[],
    };
    implied(alloc, &env, claim.hyps.as_slice(), &claim.conclusion)
}

/// What trying all assignments comes to.
#[derive(Drop)]
pub enum Found {
    /// The claim is true under every assignment.
    True,
    /// The first assignment under which it is false, in order.
    False(Values),
    /// Evaluation doesn't know its truth under the first assignment under which it isn't true, or there are too many.
    Unknown,
    /// Evaluation goes out of range under the first assignment under which it isn't true.
    Overflow(Overflow),
}

/// What trying the assignment at a place comes to.
fn found_at(
    alloc: Global,
    claim: &Claim,
    at: u64,
    reads: &mut ReadValues,
    scope: &Scope,
    excluded: &[Excluded],
) -> Result<Found, AllocError>
    requires exclusions { excluded.now ≡ exclusions scope.now }
    requires below { IsPlaceBelow at (card_of (assignments claim.now)) }
    requires each { length reads.old ≡ length claim.now.variables }
    ensures found { IfOk result (λ found. found ≡ found_under (truth_at scope.now claim.now at) (assignment claim.now at)) }
    ensures each { OnOk result (length reads.new ≡ length claim.now.variables) }
{
    assign(alloc, claim.variables.as_slice(), at, reads)?;
    match is_true_under(alloc, claim, reads.as_slice(), scope, excluded) {
        Ok(true) => Ok(Found::True),
        Ok(false) => {
            let values = values_of(alloc, reads.as_slice())?;
            Ok(Found::False(values))
        }
        Err(Stop::Unknown) => Ok(Found::Unknown),
        Err(Stop::Overflow(overflow)) => Ok(Found::Overflow(overflow)),
        Err(Stop::NoMemory) => Err(AllocError),
    }
}

/// Tries the assignments to the variables of a claim, in order. These are the values of the tuples of their types, so the
/// first variable is the slowest.
fn try_all(alloc: Global, claim: &Claim, scope: &Scope) -> Result<Found, AllocError>
    ensures { IfOk result (λ found. found ≡ found_of scope.now claim.now) }
{
    let count = match number_of_values(claim.variables.as_slice()) {
        Card::Exact(n) => n,
        Card::Above => return Ok(Found::Unknown),
    };
    let excluded = exclusions(alloc, scope)?;
    let mut reads = unassigned(alloc, claim.variables.as_slice())?;
    for at in 0..count {
        match found_at(alloc, claim, at, &mut reads, scope, excluded.as_slice())? {
            Found::True => {}
            decided => return Ok(decided),
        }
    }
    Ok(Found::True)
}

fn labelled_variables(
    alloc: Global,
    variables: &[Variable],
    list: &[Label],
) -> Result<Variables, AllocError>
    ensures { IfOk result (λ made. made ≡ map (λ v. record { read = v.read; ty = labelled_ty list.now v.ty }) variables.now) }
{
    let mut made = Items::new(alloc);
    for variable in variables {
        let read = variable.read.share()?;
        let ty = labelled_part(alloc, &variable.ty, list)?;
        made.push(Variable { read, ty })?;
    }
    Ok(made)
}

/// A claim with labels in place of the values of modules' globals.
pub fn labelled_claim(alloc: Global, claim: &Claim, list: &[Label]) -> Result<Claim, AllocError>
    ensures { IfOk result (λ made. made ≡ labelled_claim list.now claim.now) }
{
    let hyps = labelled_all(alloc, claim.hyps.as_slice(), list)?;
    let conclusion = labelled(alloc, &claim.conclusion, list)?;
    let variables = labelled_variables(alloc, claim.variables.as_slice(), list)?;
    Ok(Claim {
        hyps,
        conclusion,
        variables,
    })
}

/// Tries all assignments for the choice of numbers of labels at a place.
fn try_choice(
    alloc: Global,
    most: &[Label],
    at: u64,
    claim: &Claim,
    scope: &Scope,
) -> Result<Found, AllocError>
    requires { at < min (choices most.now) (2 ^ 64 - 1) }
    ensures { IfOk result (λ found. found ≡ found_of scope.now (labelled_claim (choice_at most.now at) claim.now)) }
{
    let choice = choice_at(alloc, most, at)?;
    let claim = labelled_claim(alloc, claim, choice.as_slice())?;
    try_all(alloc, &claim, scope)
}

/// Tries all choices of numbers of labels, each with all assignments, from one label for each module up to these numbers, the first
/// module slowest. More choices than there are numbers in `u64` are refused as want of memory, where all of these are true.
pub fn try_choices(
    alloc: Global,
    most: &[Label],
    claim: &Claim,
    scope: &Scope,
) -> Result<Found, AllocError>
    ensures { IfOk result (λ found. found ≡ found_with scope.now most.now claim.now) }
{
    let count = choices(most);
    for at in 0..count {
        match try_choice(alloc, most, at, claim, scope)? {
            Found::True => {}
            decided => return Ok(decided),
        }
    }
    if count == u64::MAX {
        return Err(AllocError);
    }
    Ok(Found::True)
}
