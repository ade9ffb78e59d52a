// Denominators of distributions.

ghost use Rattle.std.specs.Prelude.{◌≡◌, ◌<◌, ◌^◌, true, map, All, IfOk};
ghost use Rattle.gb_core.specs.Types.{card_of};
ghost use Rattle.gb_dist.specs.WeightedList.{total as sum};
ghost use Rattle.gb_dist.specs.Lists.{is_positive};
ghost use Rattle.gb_dist.specs.Rows.{adding_steps};
ghost use Rattle.gb_meaning.specs.Distributions.{stated};
ghost use Rattle.gb_eval.specs.Findings.{Finds, after};
ghost use Rattle.gb_meaning.specs.Operators.{is_distribution};
ghost use Rattle.gb_eval.specs.Totals.{are_weights, is_weight, multiplied, number_of_outcomes, of_first, operator_total, total_over, total_of, weights_total};
ghost use Rattle.gb_eval.specs.Eval.{operators_in};

use crate::answer::Stop;
use crate::script::{Script, body_of, inside};
use gb_core::card::card;
use gb_core::name::Name;
use gb_core::ty::Ty;
use gb_core::value::Card;
use gb_dist::number::{plus, times};
use gb_terms::op::Op;
use gb_terms::term::{Head, Pair, Term};

/// Whether a type is one of distributions.
pub fn is_distribution(ty: &Ty) -> bool
    ensures { result ≡ is_distribution ty.now }
{
    matches!(ty, Ty::Distr(_))
}

/// How many outcomes the uniform distribution over a type has.
fn number_of_outcomes(ty: &Ty) -> Result<u128, Stop>
    ensures value { Finds (number_of_outcomes (card_of ty.now)) result }
    ensures above { IfOk result (λ n. 0 < n) }
    ensures small { IfOk result (λ n. n < 2 ^ 127) }
{
    match card(ty) {
        Card::Exact(n) if 0 < n && n <= 65536 => Ok(u128::from(n)),
        _ => Err(Stop::Unknown),
    }
}

/// Whether a weight is above 0 and below 2^127.
fn is_weight(weight: u128) -> bool
    ensures { result ≡ is_weight weight }
{
    0 < weight && weight < 1 << 127
}

fn are_weights(pairs: &[Pair]) -> bool
    ensures { result ≡ are_weights (stated pairs.now) }
{
    for pair in pairs {
        if !is_weight(pair.weight) {
            return false;
        }
    }
    true
}

/// The sum of weights, one by one.
fn sum_of(pairs: &[Pair]) -> Result<u128, Stop>
    requires { All (λ p. p.weight < 2 ^ 127) pairs.now }
    ensures value { Finds (after (adding_steps 0 (stated pairs.now)) (sum (stated pairs.now))) result }
    ensures sum { IfOk result (λ n. n ≡ sum (stated pairs.now)) }
    ensures small { IfOk result (λ n. n < 2 ^ 127) }
{
    let mut total = 0;
    for pair in pairs {
        total = plus(total, pair.weight)?;
    }
    Ok(total)
}

/// The sum of stated weights.
pub fn weights_total(pairs: &[Pair]) -> Result<u128, Stop>
    ensures value { Finds (weights_total (stated pairs.now)) result }
    ensures sum { IfOk result (λ n. n ≡ sum (stated pairs.now)) }
    ensures positive { IfOk result (λ n. is_positive (stated pairs.now) ≡ true) }
    ensures above { IfOk result (λ n. 0 < n) }
    ensures small { IfOk result (λ n. n < 2 ^ 127) }
{
    if pairs.is_empty() || !are_weights(pairs) {
        return Err(Stop::Unknown);
    }
    sum_of(pairs)
}

/// The denominator of a distribution, read from its tree alone.
#[cycle(total)]
pub fn total(t: &Term, script: &Script<'_>) -> Result<u128, Stop>
    ensures value { Finds (total_of (operators_in script.now) t.now) result }
    ensures above { IfOk result (λ n. 0 < n) }
    ensures small { IfOk result (λ n. n < 2 ^ 127) }
{
    let args = t.args.as_slice();
    match t.head.get() {
        Head::Builtin(op) => operator_total(args, *op, t.ty.get(), script),
        Head::User(name) => named_total(t.ty.get(), name, script),
        Head::Map | Head::Restrict => of_first(args, script),
        Head::Weights(pairs) => weights_total(pairs.as_slice()),
        _ => Err(Stop::Unknown),
    }
}

/// The denominator of what an operator of the script gives.
#[cycle(total)]
fn named_total(ty: &Ty, name: &Name, script: &Script<'_>) -> Result<u128, Stop>
    ensures value { Finds (total_over ty.now (operators_in script.now name.now).total) result }
    ensures above { IfOk result (λ n. 0 < n) }
    ensures small { IfOk result (λ n. n < 2 ^ 127) }
{
    if !is_distribution(ty) {
        return Err(Stop::Unknown);
    }
    match body_of(script, name) {
        Some(body) => total(body, &inside(script)),
        None => Err(Stop::Unknown),
    }
}

/// The denominator of the first of two arguments.
#[cycle(total)]
fn of_first(args: &[Term], script: &Script<'_>) -> Result<u128, Stop>
    ensures value { Finds (of_first (map (total_of (operators_in script.now)) args.now)) result }
    ensures above { IfOk result (λ n. 0 < n) }
    ensures small { IfOk result (λ n. n < 2 ^ 127) }
{
    match args {
        [first, _] => total(first, script),
        _ => Err(Stop::Unknown),
    }
}

#[cycle(total)]
fn operator_total(args: &[Term], op: Op, ty: &Ty, script: &Script<'_>) -> Result<u128, Stop>
    ensures value { Finds (operator_total op ty.now (map (total_of (operators_in script.now)) args.now)) result }
    ensures above { IfOk result (λ n. 0 < n) }
    ensures small { IfOk result (λ n. n < 2 ^ 127) }
{
    match op {
        Op::Coin => Ok(2),
        Op::Uniform => match ty {
            Ty::Distr(outcomes) => number_of_outcomes(outcomes.get()),
            _ => Ok(1),
        },
        Op::Dunit => Ok(1),
        Op::Product => multiplied(args, script),
        Op::If => match args {
            [_, sides @ ..] => multiplied(sides, script),
            _ => Err(Stop::Unknown),
        },
        _ => Err(Stop::Unknown),
    }
}

/// The product of the denominators of two distributions.
#[cycle(total)]
fn multiplied(args: &[Term], script: &Script<'_>) -> Result<u128, Stop>
    ensures value { Finds (multiplied (map (total_of (operators_in script.now)) args.now)) result }
    ensures above { IfOk result (λ n. 0 < n) }
    ensures small { IfOk result (λ n. n < 2 ^ 127) }
{
    let [a, b] = args else {
        return Err(Stop::Unknown);
    };
    let left = total(a, script)?;
    let right = total(b, script)?;
    let product = times(left, right)?;
    Ok(product)
}
