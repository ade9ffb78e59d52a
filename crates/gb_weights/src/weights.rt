// Distributions of stated weights.

ghost use Rattle.std.specs.Prelude.{◌≡◌, ◌+◌, ◌<◌, ◌^◌, [], IfOk};
ghost use Rattle.std.specs.Option.{option_copied};
ghost use Rattle.gb_goal.specs.Answers.{Answers, Fails};
ghost use Rattle.gb_goal.specs.Answers.Answer.{given};
ghost use Rattle.gb_names.specs.Environment.{environment};
ghost use Rattle.gb_core.specs.declared.value.Value.{out-Value};
ghost use Rattle.gb_script.specs.Tree.{text_of, place_of};
ghost use Rattle.gb_weights.specs.Weights.{added, built_in_constant, constant_of, has_number_layer, is_weighed, new_constant, no_constant, outcomes, stated, sum_of, type_of_entry, weighed, weighed_all, weight_in, weights};

use gb_core::name::Name;
use gb_core::place::Place;
use gb_core::refusal::{Refused, Why};
use gb_core::same::same_types;
use gb_core::ty::Ty;
use gb_core::value::Value;
use gb_core::{Shared, SharedItems};
use gb_goal::scope::Constant;
use gb_limits::numbers::number;
use gb_names::allowed::distribution_here;
use gb_names::bindings::Binding;
use gb_names::names::{Known, constant_at, known_at, named};
use gb_names::refusals::{argument, double, mismatch, not_built};
use gb_names::setting::Setting;
use gb_names::types::wanted;
use gb_operators::operators::outcome_wanted;
use gb_script::tree::Node;
use gb_terms::make;
use gb_terms::term::{DistTerm, Head, Pair, Pairs, Term};
use sqlite_items::Items;
use std::alloc::Global;

/// The least sum of weights that is out of range.
const LIMIT: u128 = 1 << 127;

/// The constant of a type with this number.
fn numbered(alloc: Global, ty: Ty, number: u64) -> Result<Constant, Refused>
    ensures { Answers (given (record { ty = ty; number = number })) result }
{
    let ty = Shared::new(alloc, ty)?;
    Ok(Constant { ty, number })
}

/// A truth, or the value of `unit`.
fn built_in_constant(alloc: Global, known: Known, place: Place) -> Result<Constant, Refused>
    ensures { Answers (built_in_constant known place) result }
{
    match known {
        Known::True => numbered(alloc, Ty::Bool, 1),
        Known::False => numbered(alloc, Ty::Bool, 0),
        Known::Unit => numbered(alloc, Ty::Unit, 0),
        _ => Err(argument(place)),
    }
}

/// The same constant with one owner more.
fn shared(constant: &Constant) -> Result<Constant, Refused>
    ensures { Answers (given constant.now) result }
{
    let ty = constant.ty.share()?;
    Ok(Constant {
        ty,
        number: constant.number,
    })
}

/// The refusal of a name that is no constant's.
fn no_constant(
    alloc: Global,
    at: &Setting<'_>,
    bound: &[Binding],
    name: &Name,
    place: Place,
) -> Refused
    ensures { Fails (no_constant (environment at.now) bound.now name.now place) result }
{
    match named(alloc, at, bound, name, place) {
        Ok(_) => argument(place),
        Err(refused) => refused,
    }
}

/// The constant that a name means.
fn constant_of(
    alloc: Global,
    at: &Setting<'_>,
    bound: &[Binding],
    name: &Name,
    place: Place,
) -> Result<Constant, Refused>
    ensures { Answers (constant_of (environment at.now) bound.now name.now place) result }
{
    if let Some(constant) = constant_at(at, bound, name) {
        return shared(constant);
    }
    match known_at(at, bound, name) {
        Some(known) => built_in_constant(alloc, known, place),
        None => Err(no_constant(alloc, at, bound, name, place)),
    }
}

/// Whether a value with this number stands among the weighed ones.
fn is_weighed(number: u64, pairs: &[Pair]) -> bool
    ensures { result ≡ is_weighed number pairs.now }
{
    for pair in pairs {
        if has_number(number, &pair.value) {
            return true;
        }
    }
    false
}

/// Whether a value has this number.
fn has_number(number: u64, value: &Value) -> bool
    ensures { result ≡ has_number_layer number (out-Value value.now) }
{
    match value {
        Value::Num(n) => *n == number,
        Value::Many(_) => false,
    }
}

/// A constant of this type that has no weight yet.
fn new_constant(
    alloc: Global,
    at: &Setting<'_>,
    bound: &[Binding],
    ty: &Ty,
    pairs: &[Pair],
    name: &Name,
    place: Place,
) -> Result<Constant, Refused>
    ensures { Answers (new_constant (environment at.now) bound.now ty.now pairs.now name.now place) result }
{
    let constant = constant_of(alloc, at, bound, name, place)?;
    if !same_types(constant.ty.get(), ty) {
        Err(mismatch(place))
    } else if is_weighed(constant.number, pairs) {
        Err(double(alloc, name, place))
    } else {
        Ok(constant)
    }
}

/// One more weight, with which the sum is in range.
fn added(sum: u128, weight: u128, place: Place) -> Result<u128, Refused>
    requires within { sum < 2 ^ 127 }
    requires small { weight < 2 ^ 127 }
    ensures answer { Answers (added sum weight place) result }
    ensures bounded { IfOk result (λ n. sum + n < 2 ^ 127) }
{
    if sum + weight < LIMIT {
        Ok(weight)
    } else {
        Err(Refused::Script {
            why: Why::Overflow {
                left: sum as i128,
                right: weight as i128,
            },
            place,
        })
    }
}

/// A weight beside others, of which the sum is told.
fn weight_in(pairs: &[Pair], sum: u128, digits: &Node) -> Result<u128, Refused>
    requires total { sum ≡ sum_of pairs.now }
    requires within { sum < 2 ^ 127 }
    ensures answer { Answers (weight_in pairs.now (text_of digits.now) (place_of digits.now)) result }
    ensures bounded { IfOk result (λ n. sum + n < 2 ^ 127) }
{
    match number(digits.text.as_str().as_bytes()) {
        Ok(0) => Err(argument(digits.place)),
        Ok(weight) => added(sum, weight, digits.place),
        Err(_) => Err(not_built(digits.place)),
    }
}

/// A constant and its weight, beside others.
fn weighed(
    alloc: Global,
    at: &Setting<'_>,
    bound: &[Binding],
    ty: &Ty,
    pairs: &[Pair],
    sum: u128,
    parts: &[Node],
    place: Place,
) -> Result<Pair, Refused>
    requires total { sum ≡ sum_of pairs.now }
    requires within { sum < 2 ^ 127 }
    ensures answer { Answers (weighed (environment at.now) bound.now ty.now pairs.now parts.now place) result }
    ensures bounded { IfOk result (λ q. sum + q.weight < 2 ^ 127) }
{
    match parts {
        [name, digits] => {
            let number = new_constant(alloc, at, bound, ty, pairs, &name.text, name.place)?.number;
            let weight = weight_in(pairs, sum, digits)?;
            Ok(Pair {
                value: Value::Num(number),
                weight,
            })
        }
        _ => Err(not_built(place)),
    }
}

/// Constants with their weights, in the order of the text.
#[tactic(auto, unfolding(crate::specs::Weights::weighed_all), using(crate::proofs::Sums::sum_behind))]
fn weighed_all(
    alloc: Global,
    at: &Setting<'_>,
    bound: &[Binding],
    ty: &Ty,
    entries: &[Node],
) -> Result<Pairs, Refused>
    ensures { Answers (weighed_all (environment at.now) bound.now ty.now [] entries.now) result }
{
    let mut pairs = Items::new(alloc);
    let mut sum = 0;
    for entry in entries {
        let parts = entry.parts.as_slice();
        let pair = weighed(
            alloc,
            at,
            bound,
            ty,
            pairs.as_slice(),
            sum,
            parts,
            entry.place,
        )?;
        sum += pair.weight;
        pairs.push(pair)?;
    }
    Ok(pairs)
}

/// The type of the constant that a weight is stated of.
fn type_of_entry(
    alloc: Global,
    at: &Setting<'_>,
    bound: &[Binding],
    parts: &[Node],
    place: Place,
) -> Result<Shared<Ty>, Refused>
    ensures { Answers (type_of_entry (environment at.now) bound.now parts.now place) result }
{
    match parts {
        [name, ..] => Ok(constant_of(alloc, at, bound, &name.text, name.place)?.ty),
        [] => Err(not_built(place)),
    }
}

/// The type of the outcomes: the wanted one, or that of the first constant.
fn outcomes(
    alloc: Global,
    at: &Setting<'_>,
    bound: &[Binding],
    want: Option<Shared<Ty>>,
    entries: &[Node],
    place: Place,
) -> Result<Shared<Ty>, Refused>
    ensures { Answers (outcomes (environment at.now) bound.now want entries.now place) result }
{
    match entries {
        [] => Err(not_built(place)),
        [first, ..] => match want {
            Some(ty) => Ok(ty),
            None => type_of_entry(alloc, at, bound, first.parts.as_slice(), first.place),
        },
    }
}

/// The distribution of these weights over a type.
fn stated(alloc: Global, outcomes: Shared<Ty>, pairs: Pairs) -> Result<DistTerm, Refused>
    ensures { Answers (given (stated outcomes pairs)) result }
{
    let pairs = SharedItems::new(alloc, pairs)?;
    let ty = Shared::new(alloc, Ty::Distr(outcomes))?;
    Ok(make::leaf(alloc, Head::Weights(pairs), ty)?)
}

/// The typed tree of `weights [A : 1; B : 3]`.
///
/// # Errors
///
/// `Argument` where a program samples nothing, of a name that is no constant's, and of a weight 0; `UnknownName` of a name that
/// nothing has; `TypeMismatch` where no distribution is wanted, and of a constant of another type; `DoubleName` of a constant that
/// has a weight already; `Overflow` of the weight with which the sum is out of range.
pub fn weights(
    alloc: Global,
    at: &Setting<'_>,
    bound: &[Binding],
    entries: &[Node],
    want: Option<&Ty>,
    place: Place,
) -> Result<Term, Refused>
    ensures { Answers (weights entries.now place (environment at.now) bound.now (option_copied want.entry)) result }
{
    distribution_here(at, place)?;
    let outcomes = outcomes(
        alloc,
        at,
        bound,
        outcome_wanted(want, place)?,
        entries,
        place,
    )?;
    let pairs = weighed_all(alloc, at, bound, outcomes.get(), entries)?;
    wanted(stated(alloc, outcomes, pairs), want, place)
}
