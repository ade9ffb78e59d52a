// Operators at what their arguments come to.

ghost use Rattle.std.specs.Prelude.{◌≡◌, IfOk, [], ◌∷◌};
ghost use Rattle.gb_core.specs.declared.value.Value.TheVariants.{Many};
ghost use Rattle.gb_terms.specs.declared.op.Op.TheVariants as Op;
ghost use Rattle.gb_core.specs.Numbering.{key_of, parts_of, value_of};
ghost use Rattle.gb_core.specs.Types.{card_of};
ghost use Rattle.gb_meaning.specs.Operators.{entry_of};
ghost use Rattle.gb_meaning.specs.Values.{value_eq};
ghost use Rattle.gb_eval.specs.Findings.{Finds, Gives, shown};
ghost use Rattle.gb_eval.specs.Findings.Finding.{value};
ghost use Rattle.gb_eval.specs.Findings.Comes.{found};
ghost use Rattle.gb_eval.specs.Operators.{binary, combined, first_among, in_map, in_support, is_connective, is_test, left_decides, looked_up, nullary, opened, paired, part, probability, right_decides, tested, unary, unary_at, uniform_over};

use crate::answer::{Answer, Stop, of_truth, truth_in, value_in};
use crate::numbers::{absolute_of, arithmetic, as_fraction, chance, opposite, order, same};
use gb_core::card::card;
use gb_core::index::parts;
use gb_core::nth::nth;
use gb_core::same::same_value;
use gb_core::ty::Ty;
use gb_core::value::{Card, Value, Values};
use gb_dist::combine::product;
use gb_dist::make::{coin, dunit, uniform};
use gb_dist::parts::weight;
use gb_terms::op::Op;
use sqlite_items::Items;
use std::alloc::{AllocError, Global};

/// The uniform distribution over a type of at most 65,536 values.
fn uniform_over(alloc: Global, ty: &Ty) -> Result<Answer, Stop>
    ensures { Gives shown (uniform_over (card_of ty.now) ty.now) result }
{
    match card(ty) {
        Card::Exact(n) if 0 < n && n <= 65536 => Ok(Answer::Table(uniform(alloc, ty)?)),
        _ => Err(Stop::Unknown),
    }
}

/// An operator without arguments.
pub fn nullary(alloc: Global, op: Op, ty: &Ty) -> Result<Answer, Stop>
    ensures { Gives shown (nullary op ty.now) result }
{
    match op {
        Op::None | Op::Empty => {
            let empty = Value::of_parts(alloc, Items::new(alloc))?;
            Ok(Answer::Value(empty))
        }
        Op::Coin => Ok(Answer::Table(coin(alloc)?)),
        Op::Uniform => match ty {
            Ty::Distr(outcomes) => uniform_over(alloc, outcomes.get()),
            _ => uniform_over(alloc, &Ty::Unit),
        },
        _ => Err(Stop::Unknown),
    }
}

/// The part of a tuple at a place, counted from 0.
#[tactic(auto, using(crate::proofs::Places::part_within, crate::proofs::Places::part_outside))]
fn part(list: &[Value], at: usize) -> Result<Answer, Stop>
    ensures { Gives shown (part at list.now) result }
{
    if at < list.len() {
        let value = list[at].share()?;
        Ok(Answer::Value(value))
    } else {
        Err(Stop::Unknown)
    }
}

/// The first value of a type.
fn first_of(alloc: Global, ty: &Ty) -> Result<Answer, Stop>
    ensures { Gives shown (first_among (card_of ty.now) ty.now) result }
{
    match card(ty) {
        Card::Exact(n) if 0 < n => {
            let value = nth(alloc, ty, 0)?;
            Ok(Answer::Value(value))
        }
        _ => Err(Stop::Unknown),
    }
}

/// What stands in an option, or the first value of the type.
fn opened(alloc: Global, ty: &Ty, list: &[Value]) -> Result<Answer, Stop>
    ensures { Gives shown (opened ty.now list.now) result }
{
    match list {
        [] => first_of(alloc, ty),
        [value, ..] => {
            let value = value.share()?;
            Ok(Answer::Value(value))
        }
    }
}

fn some(alloc: Global, v: Value) -> Result<Answer, Stop>
    ensures { Gives shown (found (value (Many (v ∷ [])))) result }
{
    let mut list = Items::new(alloc);
    list.push(v)?;
    let value = Value::of_parts(alloc, list)?;
    Ok(Answer::Value(value))
}

/// An operator at one value.
fn unary_at(alloc: Global, op: Op, ty: &Ty, v: Value) -> Result<Answer, Stop>
    ensures { Gives shown (unary_at op ty.now v) result }
{
    match op {
        Op::Part(i) => part(parts(&v), usize::from(i.saturating_sub(1))),
        Op::Some => some(alloc, v),
        Op::Oget => opened(alloc, ty, parts(&v)),
        Op::Dunit => Ok(Answer::Table(dunit(alloc, &v)?)),
        _ => Err(Stop::Unknown),
    }
}

/// An operator at what its argument comes to.
pub fn unary(alloc: Global, op: Op, ty: &Ty, a: Answer) -> Result<Answer, Stop>
    ensures { Gives shown (unary op ty.now (shown a)) result }
{
    match op {
        Op::Not => {
            let truth = truth_in(&a)?;
            Ok(of_truth(!truth))
        }
        Op::Negate => opposite(&a),
        Op::ToReal => as_fraction(&a),
        Op::Abs => absolute_of(&a),
        _ => {
            let v = value_in(a)?;
            unary_at(alloc, op, ty, v)
        }
    }
}

/// Whether an entry of a map has this key.
#[tactic(auto, using(crate::proofs::Places::first_key))]
fn has_key(entry: &Value, key: &Value) -> bool
    ensures { result ≡ value_eq (key_of entry.now) key.now }
{
    match parts(entry) {
        [] => same_value(&Value::Num(0), key),
        [first, ..] => same_value(first, key),
    }
}

/// The value of an entry of a map.
fn value_of(entry: &Value) -> Result<Value, AllocError>
    ensures { IfOk result (λ v. v ≡ value_of entry.now) }
{
    match parts(entry) {
        [_, second, ..] => second.share(),
        _ => Ok(Value::Num(0)),
    }
}

/// What a map gives a key: a value, or nothing.
fn entry_of(alloc: Global, entries: &[Value], key: &Value) -> Result<Values, AllocError>
    ensures { IfOk result (λ found. found ≡ entry_of entries.now key.now) }
{
    let mut out = Items::new(alloc);
    for entry in entries {
        if has_key(entry, key) {
            let value = value_of(entry)?;
            out.push(value)?;
            break;
        }
    }
    Ok(out)
}

/// What a map gives a key, as an option.
fn looked_up(alloc: Global, map: Answer, key: Answer) -> Result<Answer, Stop>
    ensures { Gives shown (looked_up (shown map) (shown key)) result }
{
    let map = value_in(map)?;
    let key = value_in(key)?;
    let found = entry_of(alloc, parts(&map), &key)?;
    let value = Value::of_parts(alloc, found)?;
    Ok(Answer::Value(value))
}

/// Whether a map has a key.
fn in_map(alloc: Global, key: Answer, map: Answer) -> Result<bool, Stop>
    ensures { Finds (in_map (shown key) (shown map)) result }
{
    let key = value_in(key)?;
    let map = value_in(map)?;
    let found = entry_of(alloc, parts(&map), &key)?;
    Ok(!found.is_empty())
}

/// Whether a value has weight.
#[tactic(auto, using(crate::proofs::Places::weight_is))]
fn in_support(v: Answer, d: &Answer) -> Result<bool, Stop>
    ensures { Finds (in_support (shown v) (shown d.now)) result }
{
    let v = value_in(v)?;
    match d {
        Answer::Table(t) => Ok(0 < weight(t, &v)),
        _ => Err(Stop::Unknown),
    }
}

/// The probability of a value.
#[tactic(auto, using(crate::proofs::Places::weight_is))]
fn probability(d: &Answer, v: Answer) -> Result<Answer, Stop>
    ensures { Gives shown (probability (shown d.now) (shown v)) result }
{
    let v = value_in(v)?;
    match d {
        Answer::Table(t) => chance(weight(t, &v), t.total),
        _ => Err(Stop::Unknown),
    }
}

/// The distribution of pairs of independent outcomes.
fn paired(alloc: Global, a: &Answer, b: &Answer) -> Result<Answer, Stop>
    ensures { Gives shown (paired (shown a.now) (shown b.now)) result }
{
    match a {
        Answer::Table(d) => match b {
            Answer::Table(e) => Ok(Answer::Table(product(alloc, d, e)?)),
            _ => Err(Stop::Unknown),
        },
        _ => Err(Stop::Unknown),
    }
}

fn is_test(op: Op) -> bool
    ensures { result ≡ is_test op }
{
    matches!(
        op,
        Op::Equal | Op::NotEqual | Op::Less | Op::AtMost | Op::InSupport | Op::InMap
    )
}

/// The truth of a comparison of two answers.
fn compared(op: Op, a: &Answer, b: &Answer) -> Result<bool, Stop>
    requires { (op ≡ Op.InSupport → ⊥) × (op ≡ Op.InMap → ⊥) }
    ensures { Finds (tested op (shown a.now) (shown b.now)) result }
{
    match op {
        Op::Equal => same(a, b),
        Op::NotEqual => Ok(!same(a, b)?),
        Op::Less => Ok(order(a, b)?.is_lt()),
        Op::AtMost => Ok(order(a, b)?.is_le()),
        _ => Err(Stop::Unknown),
    }
}

/// The truth of a test of two answers.
fn tested(alloc: Global, op: Op, a: Answer, b: Answer) -> Result<bool, Stop>
    ensures { Finds (tested op (shown a) (shown b)) result }
{
    match op {
        Op::InSupport => in_support(a, &b),
        Op::InMap => in_map(alloc, a, b),
        _ => compared(op, &a, &b),
    }
}

fn combined(alloc: Global, op: Op, ty: &Ty, a: Answer, b: Answer) -> Result<Answer, Stop>
    ensures { Gives shown (combined op ty.now (shown a) (shown b)) result }
{
    match op {
        Op::Mu1 => probability(&a, b),
        Op::Product => paired(alloc, &a, &b),
        Op::Get => looked_up(alloc, a, b),
        _ => arithmetic(op, ty, &a, &b),
    }
}

/// An operator at what its two arguments come to.
pub fn binary(alloc: Global, op: Op, ty: &Ty, a: Answer, b: Answer) -> Result<Answer, Stop>
    ensures { Gives shown (binary op ty.now (shown a) (shown b)) result }
{
    if is_test(op) {
        let truth = tested(alloc, op, a, b)?;
        Ok(of_truth(truth))
    } else {
        combined(alloc, op, ty, a, b)
    }
}

/// Whether an operator is a connective of two forms.
pub fn is_connective(op: Op) -> bool
    ensures { result ≡ is_connective op }
{
    matches!(op, Op::And | Op::Or | Op::Implies | Op::Iff)
}

/// What the left side of a connective decides whatever the right side is.
pub fn left_decides(op: Op, left: bool) -> Option<bool>
    ensures { result ≡ left_decides op left }
{
    match op {
        Op::And if !left => Some(false),
        Op::Or if left => Some(true),
        Op::Implies if !left => Some(true),
        _ => None,
    }
}

/// What the right side of a connective decides where the left one doesn't.
pub fn right_decides(op: Op, left: bool, right: bool) -> bool
    ensures { result ≡ right_decides op left right }
{
    match op {
        Op::Iff if !left => !right,
        _ => right,
    }
}
