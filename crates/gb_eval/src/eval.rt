// What a closed term comes to.

ghost use Rattle.std.specs.Prelude.{◌≡◌, ◌<◌, ◌^◌, reverse, map, [], ◌∷◌, IfOk, OnOk};
ghost use Rattle.gb_core.specs.Types.{IsPlaceBelow, card_of, value_at};
ghost use Rattle.gb_core.specs.Numbering.{parts_of};
ghost use Rattle.gb_labels.specs.Held.{with_values};
ghost use Rattle.gb_labels.specs.Reads.{are_free};
ghost use Rattle.gb_dist.specs.Rows.{entries};
ghost use Rattle.gb_core.specs.declared.value.Value.TheVariants.{Num};
ghost use Rattle.gb_eval.specs.declared.env.Bound.TheVariants as to;
ghost use Rattle.gb_eval.specs.Findings.{Finds, Gives, ◌>>=◌ as ◌and_then◌, fraction_in, shown, shown_table, table_in, truth_in, value_in};
ghost use Rattle.gb_eval.specs.Findings.Finding.{whole};
ghost use Rattle.gb_eval.specs.Operators.{real_in};
ghost use Rattle.gb_eval.specs.Totals.{total_of};
ghost use Rattle.gb_eval.specs.Eval.{arguments, at_three, called, comes_to, conditional, connected, environment, eval, event, image_of, images, map_update, in_memories, mapped, may_have, measured, memories_of, number_of_memories, remembered, narrowed, next_sum, operated, part_of, quantified, restricted, result_at, scaled, summed, table_under, truth_at, tuple, weighed};

use crate::answer::{Answer, Stop, fraction_in, of_truth, table_in, truth_in, value_in};
use crate::env::{Bound, Bounds, Env, argument_of, value_bound, value_of};
use crate::known::is_tuple;
use crate::making::{imaged, weighted};
use crate::maps::updated;
use crate::numbers::{chance, real_in};
use crate::operators::{binary, is_connective, left_decides, nullary, right_decides, unary};
use crate::script::{body_of, inside};
use crate::total::{is_distribution, total};
use gb_closing::counted::values_tried;
use gb_core::SharedItems;
use gb_core::card::card;
use gb_core::copy::copy_ty;
use gb_core::index::parts;
use gb_core::name::Name;
use gb_core::nth::nth;
use gb_core::ty::Ty;
use gb_core::value::{Card, Value, Values};
use gb_dist::frac::{Frac, add};
use gb_dist::parts::{choose, mass, restrict};
use gb_dist::row::Row;
use gb_dist::table::Table;
use gb_labels::held::with_values;
use gb_labels::labelled::labelled;
use gb_labels::reads::{TypedVar, are_free, reads};
use gb_terms::op::Op;
use gb_terms::term::{Form, Head, Term};
use sqlite_items::Items;
use std::alloc::{AllocError, Global};

/// What a closed term comes to in an environment, with labels in place of the values of modules' globals. Operands come to something
/// from left to right; a connective and a conditional leave out what the left side decides; a quantifier tries the values of its type
/// in order and stops at the first that decides.
fn comes_to(alloc: Global, t: &Term, env: &Env<'_>) -> Result<Answer, Stop>
    ensures { Gives shown (comes_to env.now t.now) result }
{
    let t = labelled(alloc, t, env.labels)?;
    let mut bound = Items::new(alloc);
    eval(alloc, &t, env, &mut bound)
}

/// The value of a closed term of a finite type.
///
/// # Errors
/// `Unknown` at the first part that is opaque; `Overflow` with the operands of the first operation on whole numbers whose
/// result is out of range; `NoMemory`.
pub fn value(alloc: Global, t: &Term, env: &Env<'_>) -> Result<Value, Stop>
    ensures { Finds (comes_to env.now t.now and_then value_in) result }
{
    let found = comes_to(alloc, t, env)?;
    value_in(found)
}

/// The truth of a closed form.
///
/// # Errors
/// As of `value`.
pub fn truth(alloc: Global, t: &Form, env: &Env<'_>) -> Result<bool, Stop>
    ensures { Finds (comes_to env.now t.now and_then truth_in) result }
{
    let found = comes_to(alloc, t, env)?;
    truth_in(&found)
}

/// The fraction that a closed term of type `real` or `int` is, a whole number over 1.
///
/// # Errors
/// As of `value`.
pub fn real(alloc: Global, t: &Term, env: &Env<'_>) -> Result<Frac, Stop>
    ensures { Finds (comes_to env.now t.now and_then real_in) result }
{
    let found = comes_to(alloc, t, env)?;
    real_in(&found)
}

/// The distribution that a closed term is.
///
/// # Errors
/// As of `value`.
pub fn table(alloc: Global, t: &Term, env: &Env<'_>) -> Result<Table, Stop>
    ensures { Gives shown_table (comes_to env.now t.now and_then table_in) result }
{
    let found = comes_to(alloc, t, env)?;
    table_in(found)
}

#[cycle(eval)]
fn truth_under(alloc: Global, t: &Term, env: &Env<'_>, bound: &mut Bounds) -> Result<bool, Stop>
    ensures found { Finds (truth_at (environment env.now) t.now (reverse bound.old)) result }
    ensures bound { OnOk result (bound.new ≡ bound.old) }
{
    let found = eval(alloc, t, env, bound)?;
    truth_in(&found)
}

/// What a term comes to, under what the variables bound around it stand for, the innermost last. The arguments of an operator of
/// the script come to something before its body does.
#[cycle(eval)]
fn eval(alloc: Global, t: &Term, env: &Env<'_>, bound: &mut Bounds) -> Result<Answer, Stop>
    ensures found { Gives shown (eval (environment env.now) t.now (reverse bound.old)) result }
    ensures bound { OnOk result (bound.new ≡ bound.old) }
{
    let args = t.args.as_slice();
    match t.head.get() {
        Head::Lit(v) => {
            let value = v.share()?;
            Ok(Answer::Value(value))
        }
        Head::Whole(n) => Ok(whole(n)),
        Head::Read(r) => value_of(env.reads, bound.as_slice(), r, t.ty.get()),
        Head::Bound(index) => value_bound(bound.as_slice(), *index),
        Head::Builtin(op) => operator(alloc, args, *op, t.ty.get(), env, bound),
        Head::User(name) => called(alloc, args, name, t.ty.get(), env, bound),
        Head::All(ty) => quantifier(alloc, args, ty.get(), false, env, bound),
        Head::Some(ty) => quantifier(alloc, args, ty.get(), true, env, bound),
        Head::AllMemory => memories(alloc, args, false, env, bound),
        Head::SomeMemory => memories(alloc, args, true, env, bound),
        Head::Mu => measure(alloc, args, env, bound),
        Head::Restrict => restriction(alloc, args, env, bound),
        Head::Map => image(alloc, args, env, bound),
        Head::Weights(pairs) => weighted(alloc, pairs.as_slice()),
        Head::Sum(count) => sum(alloc, args, *count, env, bound),
        _ => Err(Stop::Unknown),
    }
}

/// The arguments of an operator of the script.
#[cycle(eval)]
fn arguments(
    alloc: Global,
    args: &[Term],
    env: &Env<'_>,
    bound: &mut Bounds,
) -> Result<Bounds, Stop>
    ensures found { Finds (arguments (map (part_of (environment env.now)) args.now) (reverse bound.old)) result }
    ensures bound { OnOk result (bound.new ≡ bound.old) }
{
    let mut out = Items::new(alloc);
    for arg in args {
        let answer = eval(alloc, arg, env, bound)?;
        let argument = argument_of(answer)?;
        out.push(argument)?;
    }
    Ok(out)
}

/// Whether a type may be that of an answer: a distribution is of a type of distributions.
fn may_have(ty: &Ty, answer: &Answer) -> bool
    ensures { result ≡ may_have ty.now (shown answer.now) }
{
    match answer {
        Answer::Table(_) => is_distribution(ty),
        _ => true,
    }
}

/// A result of an operator of the script at its type.
fn result_at(ty: &Ty, answer: Answer) -> Result<Answer, Stop>
    ensures { Gives shown (result_at ty.now (shown answer)) result }
{
    if may_have(ty, &answer) {
        Ok(answer)
    } else {
        Err(Stop::Unknown)
    }
}

/// What an operator of the script comes to at arguments: what its body does, in which they are bound.
#[cycle(eval)]
fn applied(alloc: Global, name: &Name, env: &Env<'_>, args: &mut Bounds) -> Result<Answer, Stop>
    ensures { Gives shown (((environment env.now).operators name.now).comes args.old) result }
{
    match body_of(&env.script, name) {
        Some(body) => {
            let inner = Env {
                script: inside(&env.script),
                reads: &[],
                exclusions: &[],
                labels: &[],
            };
            eval(alloc, body, &inner, args)
        }
        None => Err(Stop::Unknown),
    }
}

/// An operator of the script at its arguments.
#[cycle(eval)]
fn called(
    alloc: Global,
    args: &[Term],
    name: &Name,
    ty: &Ty,
    env: &Env<'_>,
    bound: &mut Bounds,
) -> Result<Answer, Stop>
    ensures found { Gives shown (called ((environment env.now).operators name.now) ty.now (map (part_of (environment env.now)) args.now) (reverse bound.old)) result }
    ensures bound { OnOk result (bound.new ≡ bound.old) }
{
    let mut given = arguments(alloc, args, env, bound)?;
    let answer = applied(alloc, name, env, &mut given)?;
    result_at(ty, answer)
}

/// The answer that is a whole number.
fn whole(number: &i128) -> Answer
    ensures { shown result ≡ whole number.now }
{
    let number = *number;
    Answer::Whole(number)
}

/// An operator at its arguments.
#[cycle(eval)]
fn operator(
    alloc: Global,
    args: &[Term],
    op: Op,
    ty: &Ty,
    env: &Env<'_>,
    bound: &mut Bounds,
) -> Result<Answer, Stop>
    ensures found { Gives shown (operated op ty.now (map (part_of (environment env.now)) args.now) (reverse bound.old)) result }
    ensures bound { OnOk result (bound.new ≡ bound.old) }
{
    if is_tuple(op) {
        return tuple(alloc, args, env, bound);
    }
    match args {
        [] => nullary(alloc, op, ty),
        [a] => {
            let a = eval(alloc, a, env, bound)?;
            unary(alloc, op, ty, a)
        }
        [_, _] if is_connective(op) => connective(alloc, op, args, env, bound),
        [a, b] => {
            let a = eval(alloc, a, env, bound)?;
            let b = eval(alloc, b, env, bound)?;
            binary(alloc, op, ty, a, b)
        }
        [_, _, _] => ternary(alloc, args, op, ty, env, bound),
        _ => Err(Stop::Unknown),
    }
}

#[cycle(eval)]
fn tuple(alloc: Global, args: &[Term], env: &Env<'_>, bound: &mut Bounds) -> Result<Answer, Stop>
    ensures found { Gives shown (tuple (map (part_of (environment env.now)) args.now) (reverse bound.old)) result }
    ensures bound { OnOk result (bound.new ≡ bound.old) }
{
    let mut parts = Items::new(alloc);
    for arg in args {
        let part = eval(alloc, arg, env, bound)?;
        parts.push(value_in(part)?)?;
    }
    let value = Value::of_parts(alloc, parts)?;
    Ok(Answer::Value(value))
}

/// What the left side of a connective decides alone; where that is nothing, the right side does.
#[cycle(eval)]
fn connective(
    alloc: Global,
    op: Op,
    args: &[Term],
    env: &Env<'_>,
    bound: &mut Bounds,
) -> Result<Answer, Stop>
    ensures found { Gives shown (connected op (map (part_of (environment env.now)) args.now) (reverse bound.old)) result }
    ensures bound { OnOk result (bound.new ≡ bound.old) }
{
    let [a, b] = args else {
        return Err(Stop::Unknown);
    };
    let left = truth_under(alloc, a, env, bound)?;
    if let Some(decided) = left_decides(op, left) {
        return Ok(of_truth(decided));
    }
    let right = truth_under(alloc, b, env, bound)?;
    Ok(of_truth(right_decides(op, left, right)))
}

/// An operator at three arguments.
#[cycle(eval)]
fn ternary(
    alloc: Global,
    args: &[Term],
    op: Op,
    ty: &Ty,
    env: &Env<'_>,
    bound: &mut Bounds,
) -> Result<Answer, Stop>
    ensures found { Gives shown (at_three op ty.now (map (part_of (environment env.now)) args.now) (reverse bound.old)) result }
    ensures bound { OnOk result (bound.new ≡ bound.old) }
{
    match op {
        Op::If => conditional(alloc, args, env, bound),
        Op::Set => update(alloc, args, ty, env, bound),
        _ => Err(Stop::Unknown),
    }
}

/// The side of a conditional that the test chooses.
#[cycle(eval)]
fn conditional(
    alloc: Global,
    args: &[Term],
    env: &Env<'_>,
    bound: &mut Bounds,
) -> Result<Answer, Stop>
    ensures found { Gives shown (conditional (map (part_of (environment env.now)) args.now) (reverse bound.old)) result }
    ensures bound { OnOk result (bound.new ≡ bound.old) }
{
    let [test, a, b] = args else {
        return Err(Stop::Unknown);
    };
    if truth_under(alloc, test, env, bound)? {
        let side = eval(alloc, a, env, bound)?;
        scaled(alloc, side, b, env)
    } else {
        let side = eval(alloc, b, env, bound)?;
        scaled(alloc, side, a, env)
    }
}

/// A map with a value for a key.
#[cycle(eval)]
fn update(
    alloc: Global,
    args: &[Term],
    ty: &Ty,
    env: &Env<'_>,
    bound: &mut Bounds,
) -> Result<Answer, Stop>
    ensures found { Gives shown (map_update ty.now (map (part_of (environment env.now)) args.now) (reverse bound.old)) result }
    ensures bound { OnOk result (bound.new ≡ bound.old) }
{
    let [map, key, v] = args else {
        return Err(Stop::Unknown);
    };
    let map = eval(alloc, map, env, bound)?;
    let key = eval(alloc, key, env, bound)?;
    let v = eval(alloc, v, env, bound)?;
    updated(alloc, ty, map, key, v)
}

/// The denominator of a distribution.
fn total_in(t: &Term, env: &Env<'_>) -> Result<u128, Stop>
    ensures value { Finds (total_of (environment env.now).operators t.now) result }
    ensures above { IfOk result (λ n. 0 < n) }
    ensures small { IfOk result (λ n. n < 2 ^ 127) }
{
    total(t, &env.script)
}

/// A chosen side: of a distribution its weights and its denominator times the denominator of the other side.
fn scaled(alloc: Global, side: Answer, other: &Term, env: &Env<'_>) -> Result<Answer, Stop>
    ensures { Gives shown (scaled (total_of (environment env.now).operators other.now) (shown side)) result }
{
    match &side {
        Answer::Table(table) => {
            let total = total_in(other, env)?;
            let chosen = choose(alloc, table, total)?;
            Ok(Answer::Table(chosen))
        }
        _ => Ok(side),
    }
}

/// The truth of a quantifier: a value that makes the body false decides `forall`, one that makes it true `exists`.
#[cycle(eval)]
fn quantifier(
    alloc: Global,
    args: &[Term],
    ty: &Ty,
    deciding: bool,
    env: &Env<'_>,
    bound: &mut Bounds,
) -> Result<Answer, Stop>
    ensures found { Gives shown (quantified deciding ty.now (map (part_of (environment env.now)) args.now) (reverse bound.old)) result }
    ensures bound { OnOk result (bound.new ≡ bound.old) }
{
    let [body] = args else {
        return Err(Stop::Unknown);
    };
    let count = match values_tried(ty) {
        Card::Exact(n) => n,
        Card::Above => return Err(Stop::Unknown),
    };
    for at in 0..count {
        let value = nth(alloc, ty, at)?;
        if truth_with(alloc, body, value, env, bound)? == deciding {
            return Ok(of_truth(deciding));
        }
    }
    Ok(of_truth(!deciding))
}

/// The type of whose values the memories are in which variables have values.
fn memories_of(alloc: Global, variables: &[TypedVar]) -> Result<Ty, AllocError>
    ensures { IfOk result (λ made. made ≡ memories_of variables.now) }
{
    let mut types = Items::new(alloc);
    for variable in variables {
        let ty = copy_ty(alloc, variable.ty.get())?;
        types.push(ty)?;
    }
    let types = SharedItems::new(alloc, types)?;
    Ok(Ty::Tuple(types))
}

/// How many memories there are in which variables have values of their types, where this is exact and there is one.
fn number_of_memories(ty: &Ty) -> Result<u64, Stop>
    ensures { Finds (number_of_memories (card_of ty.now)) result }
{
    match card(ty) {
        Card::Exact(n) if n > 0 => Ok(n),
        _ => Err(Stop::Unknown),
    }
}

/// The truth of a body in the memory at a place among those in which variables have values.
#[cycle(eval)]
fn truth_in_memory(
    alloc: Global,
    body: &Term,
    variables: &[TypedVar],
    value: Value,
    env: &Env<'_>,
    bound: &mut Bounds,
) -> Result<bool, Stop>
    ensures found { Finds (truth_at (environment env.now) body.now (to.Memory (with_values variables.now (parts_of value)) ∷ reverse bound.old)) result }
    ensures bound { OnOk result (bound.new ≡ bound.old) }
{
    let held = with_values(alloc, variables, parts(&value))?;
    bound.push(Bound::Memory(held))?;
    let found = truth_under(alloc, body, env, bound)?;
    let _inner = bound.pop();
    Ok(found)
}

/// The truth of a quantifier over the memories in which variables have values, which are tried in order.
#[cycle(eval)]
fn in_memories(
    alloc: Global,
    body: &Term,
    variables: &[TypedVar],
    deciding: bool,
    env: &Env<'_>,
    bound: &mut Bounds,
) -> Result<Answer, Stop>
    ensures found { Gives shown (in_memories deciding variables.now (part_of (environment env.now) body.now) (reverse bound.old)) result }
    ensures bound { OnOk result (bound.new ≡ bound.old) }
{
    let ty = memories_of(alloc, variables)?;
    let count = number_of_memories(&ty)?;
    for at in 0..count {
        let value = nth(alloc, &ty, at)?;
        if truth_in_memory(alloc, body, variables, value, env, bound)? == deciding {
            return Ok(of_truth(deciding));
        }
    }
    Ok(of_truth(!deciding))
}

/// Whether no two of these clash, so that memories give them all values of their types, independently.
#[tactic(auto, unfolding(crate::specs::Eval::environment))]
fn are_free_in(variables: &[TypedVar], env: &Env<'_>) -> bool
    ensures { result ≡ are_free (environment env.now).exclusions variables.now }
{
    are_free(env.exclusions, variables)
}

/// The truth of a quantifier over memories, by the values that they give what its body reads of them.
#[cycle(eval)]
fn memories(
    alloc: Global,
    args: &[Term],
    deciding: bool,
    env: &Env<'_>,
    bound: &mut Bounds,
) -> Result<Answer, Stop>
    ensures found { Gives shown (remembered (environment env.now).exclusions deciding (map (part_of (environment env.now)) args.now) (reverse bound.old)) result }
    ensures bound { OnOk result (bound.new ≡ bound.old) }
{
    let [body] = args else {
        return Err(Stop::Unknown);
    };
    let variables = reads(alloc, body)?;
    if !are_free_in(variables.as_slice(), env) {
        return Err(Stop::Unknown);
    }
    in_memories(alloc, body, variables.as_slice(), deciding, env, bound)
}

/// What a body comes to where its binder binds a value.
#[cycle(eval)]
fn eval_with(
    alloc: Global,
    body: &Term,
    value: Value,
    env: &Env<'_>,
    bound: &mut Bounds,
) -> Result<Answer, Stop>
    ensures found { Gives shown (eval (environment env.now) body.now (to.Value value ∷ reverse bound.old)) result }
    ensures bound { OnOk result (bound.new ≡ bound.old) }
{
    bound.push(Bound::Value(value))?;
    let found = eval(alloc, body, env, bound)?;
    let _inner = bound.pop();
    Ok(found)
}

#[cycle(eval)]
fn truth_with(
    alloc: Global,
    body: &Term,
    value: Value,
    env: &Env<'_>,
    bound: &mut Bounds,
) -> Result<bool, Stop>
    ensures found { Finds (truth_at (environment env.now) body.now (to.Value value ∷ reverse bound.old)) result }
    ensures bound { OnOk result (bound.new ≡ bound.old) }
{
    let found = eval_with(alloc, body, value, env, bound)?;
    truth_in(&found)
}

/// The truth of an event at each outcome of a table.
#[cycle(eval)]
fn event(
    alloc: Global,
    body: &Term,
    rows: &[Row],
    env: &Env<'_>,
    bound: &mut Bounds,
) -> Result<Vec<bool>, Stop>
    ensures found { Gives (λ bs. bs.items) (event (part_of (environment env.now) body.now) (entries rows.now) (reverse bound.old)) result }
    ensures bound { OnOk result (bound.new ≡ bound.old) }
{
    let mut out = Vec::new(alloc);
    for row in rows {
        let value = row.value.share()?;
        let holds = truth_with(alloc, body, value, env, bound)?;
        out.push(holds)?;
    }
    Ok(out)
}

/// The distribution that a term comes to.
#[cycle(eval)]
fn table_under(alloc: Global, t: &Term, env: &Env<'_>, bound: &mut Bounds) -> Result<Table, Stop>
    ensures found { Gives shown_table (table_under (part_of (environment env.now) t.now) (reverse bound.old)) result }
    ensures bound { OnOk result (bound.new ≡ bound.old) }
{
    let found = eval(alloc, t, env, bound)?;
    table_in(found)
}

/// The measure of an event in a table.
#[cycle(eval)]
#[tactic(auto, using(crate::proofs::Places::event_length))]
fn weighed(
    alloc: Global,
    body: &Term,
    table: &Table,
    env: &Env<'_>,
    bound: &mut Bounds,
) -> Result<Answer, Stop>
    ensures found { Gives shown (weighed (part_of (environment env.now) body.now) (shown_table table.now) (reverse bound.old)) result }
    ensures bound { OnOk result (bound.new ≡ bound.old) }
{
    let event = event(alloc, body, table.rows.as_slice(), env, bound)?;
    chance(mass(table, event.as_slice()), table.total)
}

/// The part of a table on which an event is true.
#[cycle(eval)]
#[tactic(auto, using(crate::proofs::Places::event_length))]
fn narrowed(
    alloc: Global,
    body: &Term,
    table: &Table,
    env: &Env<'_>,
    bound: &mut Bounds,
) -> Result<Answer, Stop>
    ensures found { Gives shown (narrowed (part_of (environment env.now) body.now) (shown_table table.now) (reverse bound.old)) result }
    ensures bound { OnOk result (bound.new ≡ bound.old) }
{
    let event = event(alloc, body, table.rows.as_slice(), env, bound)?;
    Ok(Answer::Table(restrict(alloc, table, event.as_slice())?))
}

/// The measure of an event.
#[cycle(eval)]
fn measure(alloc: Global, args: &[Term], env: &Env<'_>, bound: &mut Bounds) -> Result<Answer, Stop>
    ensures found { Gives shown (measured (map (part_of (environment env.now)) args.now) (reverse bound.old)) result }
    ensures bound { OnOk result (bound.new ≡ bound.old) }
{
    let [d, body] = args else {
        return Err(Stop::Unknown);
    };
    let table = table_under(alloc, d, env, bound)?;
    weighed(alloc, body, &table, env, bound)
}

/// The part of a distribution on which a test holds.
#[cycle(eval)]
fn restriction(
    alloc: Global,
    args: &[Term],
    env: &Env<'_>,
    bound: &mut Bounds,
) -> Result<Answer, Stop>
    ensures found { Gives shown (restricted (map (part_of (environment env.now)) args.now) (reverse bound.old)) result }
    ensures bound { OnOk result (bound.new ≡ bound.old) }
{
    let [d, body] = args else {
        return Err(Stop::Unknown);
    };
    let table = table_under(alloc, d, env, bound)?;
    narrowed(alloc, body, &table, env, bound)
}

/// The image of each outcome of a table.
#[cycle(eval)]
fn images(
    alloc: Global,
    body: &Term,
    rows: &[Row],
    env: &Env<'_>,
    bound: &mut Bounds,
) -> Result<Values, Stop>
    ensures found { Finds (images (part_of (environment env.now) body.now) (entries rows.now) (reverse bound.old)) result }
    ensures bound { OnOk result (bound.new ≡ bound.old) }
{
    let mut out = Items::new(alloc);
    for row in rows {
        let value = row.value.share()?;
        let image = eval_with(alloc, body, value, env, bound)?;
        let outcome = value_in(image)?;
        out.push(outcome)?;
    }
    Ok(out)
}

/// The table of the images of the outcomes of a table.
#[cycle(eval)]
#[tactic(auto, using(crate::proofs::Places::images_length))]
fn image_of(
    alloc: Global,
    body: &Term,
    table: &Table,
    env: &Env<'_>,
    bound: &mut Bounds,
) -> Result<Answer, Stop>
    ensures found { Gives shown (image_of (part_of (environment env.now) body.now) (shown_table table.now) (reverse bound.old)) result }
    ensures bound { OnOk result (bound.new ≡ bound.old) }
{
    let images = images(alloc, body, table.rows.as_slice(), env, bound)?;
    Ok(Answer::Table(imaged(alloc, table, images.as_slice())?))
}

/// The distribution of the image of an outcome.
#[cycle(eval)]
fn image(alloc: Global, args: &[Term], env: &Env<'_>, bound: &mut Bounds) -> Result<Answer, Stop>
    ensures found { Gives shown (mapped (map (part_of (environment env.now)) args.now) (reverse bound.old)) result }
    ensures bound { OnOk result (bound.new ≡ bound.old) }
{
    let [d, body] = args else {
        return Err(Stop::Unknown);
    };
    let table = table_under(alloc, d, env, bound)?;
    image_of(alloc, body, &table, env, bound)
}

/// The fraction that a body comes to where its binder binds a number.
#[cycle(eval)]
fn fraction_with(
    alloc: Global,
    body: &Term,
    at: u64,
    env: &Env<'_>,
    bound: &mut Bounds,
) -> Result<Frac, Stop>
    ensures found { Finds (eval (environment env.now) body.now (to.Value (Num at) ∷ reverse bound.old) and_then fraction_in) result }
    ensures bound { OnOk result (bound.new ≡ bound.old) }
{
    let found = eval_with(alloc, body, Value::Num(at), env, bound)?;
    fraction_in(&found)
}

/// A sum with the fraction that a body comes to at one number more.
#[cycle(eval)]
fn next_sum(
    alloc: Global,
    body: &Term,
    at: u64,
    all: Frac,
    env: &Env<'_>,
    bound: &mut Bounds,
) -> Result<Frac, Stop>
    ensures found { Finds (next_sum (λ i. eval (environment env.now) body.now (to.Value (Num i) ∷ reverse bound.old) and_then fraction_in) all at) result }
    ensures bound { OnOk result (bound.new ≡ bound.old) }
{
    let next = fraction_with(alloc, body, at, env, bound)?;
    Ok(add(all, next)?)
}

/// The sum over the numbers below a number.
#[cycle(eval)]
fn sum(
    alloc: Global,
    args: &[Term],
    count: u128,
    env: &Env<'_>,
    bound: &mut Bounds,
) -> Result<Answer, Stop>
    ensures found { Gives shown (summed count (map (part_of (environment env.now)) args.now) (reverse bound.old)) result }
    ensures bound { OnOk result (bound.new ≡ bound.old) }
{
    let [body] = args else {
        return Err(Stop::Unknown);
    };
    if count > 1 << 32 {
        return Err(Stop::Unknown);
    }
    let mut all = Frac::of_whole(0);
    for at in 0..count as u64 {
        all = next_sum(alloc, body, at, all, env, bound)?;
    }
    Ok(Answer::Fraction(all))
}
