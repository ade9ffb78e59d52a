// The width of a claim: how many assignments there are to its variables and to those bound in it.

ghost use Rattle.std.specs.Prelude.{◌≡◌, ◌^◌, true, map, min, IfOk};
ghost use Rattle.std.specs.List.{flat_map};
ghost use Rattle.gb_core.specs.Numbering.{tuples};
ghost use Rattle.gb_core.specs.Types.{numbering};
ghost use Rattle.gb_meaning.specs.Written.{type_of};
ghost use Rattle.gb_smt.specs.Width.{bound_by, bound_in, bound_types, is_known_claim, assignments_of, width_of};

use crate::claims::Claim;
use gb_closing::counted::card_at;
use gb_core::name::Name;
use gb_core::size::{MANY, size};
use gb_core::value::Card;
use gb_equality::sizes::{
    are_finite, bound_size_of_memory, size_of_outcomes, size_of_variables, times,
};
use gb_eval::known::{are_known, is_known};
use gb_eval::script::{Script, body_of, inside, script_of};
use gb_goal::scope::Scope;
use gb_terms::term::{Head, Term};
use std::alloc::{AllocError, Global};

/// The product of the sizes of the types of the variables that are bound in the body of an operator of the script, up to `MANY`.
#[cycle(bound_size)]
fn bound_size_of_operator(
    alloc: Global,
    name: &Name,
    script: &Script<'_>,
) -> Result<u64, AllocError>
    ensures { IfOk result (λ n. n ≡ min (tuples (map numbering (bound_in script.now name.now))) (2 ^ 63)) }
{
    match body_of(script, name) {
        Some(body) => bound_size(alloc, body, &inside(script)),
        None => Ok(1),
    }
}

/// The size of the type of the variable that a head binds, up to `MANY`, and 1 where it binds none. An operator of the script
/// stands for its body.
#[cycle(bound_size)]
fn bound_size_of_head(
    alloc: Global,
    head: &Head,
    args: &[Term],
    script: &Script<'_>,
) -> Result<u64, AllocError>
    ensures { IfOk result (λ n. n ≡ min (tuples (map numbering (bound_by (bound_in script.now) head.now (map type_of args.now)))) (2 ^ 63)) }
{
    match head {
        Head::User(name) => bound_size_of_operator(alloc, name, script),
        Head::All(ty) | Head::Some(ty) => Ok(size(ty.get())),
        Head::Sum(count) => Ok((*count).min(u128::from(MANY)) as u64),
        Head::Mu | Head::Map | Head::Restrict => match args {
            [d, ..] => Ok(size_of_outcomes(d.ty.get())),
            [] => Ok(1),
        },
        _ => Ok(1),
    }
}

/// The product of the sizes of the types of the variables that are bound in a term, and of what is read of memories that are bound
/// in it, up to `MANY`.
#[cycle(bound_size)]
fn bound_size(alloc: Global, t: &Term, script: &Script<'_>) -> Result<u64, AllocError>
    ensures { IfOk result (λ n. n ≡ min (tuples (map numbering (bound_types (bound_in script.now) t.now))) (2 ^ 63)) }
{
    let head = t.head.get();
    let args = t.args.as_slice();
    let own = bound_size_of_head(alloc, head, args, script)?;
    let memory = bound_size_of_memory(alloc, head, args)?;
    let others = bound_size_of_all(alloc, args, script)?;
    let inner = times(memory, others);
    Ok(times(own, inner))
}

#[cycle(bound_size)]
fn bound_size_of_all(alloc: Global, list: &[Term], script: &Script<'_>) -> Result<u64, AllocError>
    ensures { IfOk result (λ n. n ≡ min (tuples (map numbering (flat_map (bound_types (bound_in script.now)) list.now))) (2 ^ 63)) }
{
    let mut all = 1;
    for t in list {
        let one = bound_size(alloc, t, script)?;
        all = times(all, one);
    }
    Ok(all)
}

/// The number of assignments to the variables of a claim and to those bound in it, whose types are finite.
fn number_of_assignments(alloc: Global, claim: &Claim, scope: &Scope) -> Result<Card, AllocError>
    requires { is_known_claim scope.now claim.now ≡ true }
    ensures { IfOk result (λ n. n ≡ assignments_of scope.now claim.now) }
{
    let script = script_of(scope);
    let variables = claim.variables.as_slice();
    let hyps = bound_size_of_all(alloc, claim.hyps.as_slice(), &script)?;
    let conclusion = bound_size(alloc, &claim.conclusion, &script)?;
    let bound = times(hyps, conclusion);
    Ok(card_at(
        are_finite(variables),
        times(size_of_variables(variables), bound),
    ))
}

/// Whether evaluation knows each part of a claim.
fn is_known_claim(claim: &Claim, scope: &Scope) -> bool
    ensures { result ≡ is_known_claim scope.now claim.now }
{
    let script = script_of(scope);
    are_known(claim.hyps.as_slice(), &script) && is_known(&claim.conclusion, &script)
}

/// The width of a claim, the product of the sizes of its variables and of those bound in it and in the bodies of the operators that
/// stand in it: above, where a part of it is opaque to evaluation.
pub fn width(alloc: Global, claim: &Claim, scope: &Scope) -> Result<Card, AllocError>
    ensures { IfOk result (λ n. n ≡ width_of scope.now claim.now) }
{
    if is_known_claim(claim, scope) {
        number_of_assignments(alloc, claim, scope)
    } else {
        Ok(Card::Above)
    }
}
