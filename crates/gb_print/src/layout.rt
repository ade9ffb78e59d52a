// What stands in front of a form's arguments, between them and behind them.

ghost use Rattle.std.specs.Prelude.{◌≡◌, OnOk};
ghost use Rattle.gb_print_names.specs.BoundNames.{place};
ghost use Rattle.gb_print.specs.Layout.{compared, before_operand, operator_closing, operator_type, opening_word, opening, before_part, before, closing};
ghost use Rattle.gb_print_names.specs.Shapes.{spelling};

use crate::literals::{outcome, put_literal, put_weights};
use gb_core::Stack;
use gb_core::ty::Ty;
use gb_print_names::bound_names::{Known, Setting};
use gb_print_names::modules::{put_module, put_procedure};
use gb_print_names::place::{put_beside, put_bound, put_memory, put_read};
use gb_print_names::text::Text;
use gb_print_names::types::put_type_operand;
use gb_terms::op::{Op, Rel};
use gb_terms::term::Head;
use std::alloc::{AllocError, Global};

/// What stands behind the postcondition, where there is a bound.
fn compared(rel: Rel) -> &'static str
    ensures { result.now ≡ compared rel }
{
    match rel {
        Rel::AtMost => "] <= ",
        Rel::Equal => "] = ",
        Rel::AtLeast => "] >= ",
    }
}

/// In front of the operands.
fn operator_opening(op: Op) -> &'static str
    ensures { result.now ≡ (spelling op).opening }
{
    match op {
        Op::None => "None",
        Op::Empty => "empty",
        Op::Coin => "{0,1}",
        Op::Uniform => "uniform ",
        Op::Not => "!",
        Op::Negate => "-",
        Op::Some => "Some ",
        Op::Oget => "oget ",
        Op::Dunit => "dunit ",
        Op::Mu1 => "mu1 ",
        Op::Abs => "`|",
        Op::Tuple => "(",
        _ => "",
    }
}

/// Between the first operand and the second one.
fn between(op: Op) -> &'static str
    ensures { result.now ≡ (spelling op).second }
{
    match op {
        Op::And => " /\\ ",
        Op::Or => " \\/ ",
        Op::Implies => " => ",
        Op::Iff => " <=> ",
        Op::Equal => " = ",
        Op::NotEqual => " <> ",
        Op::Less => " < ",
        Op::AtMost => " <= ",
        Op::Plus => " + ",
        Op::Minus => " - ",
        Op::Times => " * ",
        Op::Xor => " +^ ",
        Op::Divide => " / ",
        Op::InMap | Op::InSupport => " \\in ",
        Op::Product => " `*` ",
        Op::If => " ? ",
        Op::Get | Op::Set => ".[",
        Op::Tuple => ", ",
        Op::Some | Op::Oget | Op::Dunit | Op::Mu1 => " ",
        _ => "",
    }
}

/// In front of the other operands.
fn further(op: Op) -> &'static str
    ensures { result.now ≡ (spelling op).further }
{
    match op {
        Op::If => " : ",
        Op::Set => " <- ",
        Op::Tuple => ", ",
        _ => "",
    }
}

fn before_operand(op: Op, i: usize) -> &'static str
    ensures { result.now ≡ before_operand op i }
{
    match i {
        0 => "",
        1 => between(op),
        _ => further(op),
    }
}

/// Behind the operands.
fn put_operator_closing(alloc: Global, text: &mut Text, op: Op) -> Result<(), AllocError>
    ensures { OnOk result (text.new ≡ operator_closing op text.old) }
{
    match op {
        Op::ToReal => text.put("%r"),
        Op::Abs => text.put_bar(),
        Op::Tuple => text.put(")"),
        Op::Get | Op::Set => text.put("]"),
        Op::Part(k) => {
            text.put(".`")?;
            text.put_number(alloc, k as u128)
        }
        _ => Ok(()),
    }
}

/// The type of which a distribution is uniform.
fn put_operator_type(
    alloc: Global,
    text: &mut Text,
    bound: &Stack<Known>,
    at: &Setting<'_>,
    op: Op,
    t: &Ty,
) -> Result<(), AllocError>
    ensures { OnOk result (text.new ≡ operator_type op t.now (place at.now bound.now) text.old) }
{
    match op {
        Op::Uniform => put_type_operand(alloc, text, bound, outcome(t)),
        _ => Ok(()),
    }
}

/// The word with which a form begins, where it begins with one.
fn opening_word(head: &Head) -> &str
    ensures { result.now ≡ opening_word head.now }
{
    match head {
        Head::Builtin(op) => operator_opening(*op),
        Head::User(name) => name.as_str(),
        Head::Mu => "mu",
        Head::Sum(_) => "sum ",
        Head::Weights(_) => "weights [",
        Head::Map => "dmap",
        Head::Restrict => "drestrict",
        Head::Pr(..) => "Pr[",
        Head::Glob(..) => "(glob ",
        Head::Hoare(_) => "hoare [",
        Head::Phoare(..) => "phoare [",
        Head::Equiv(..) => "equiv [",
        _ => "",
    }
}

/// A form begins with this; the programs of a judgment follow.
pub fn put_opening(
    alloc: Global,
    text: &mut Text,
    bound: &Stack<Known>,
    at: &Setting<'_>,
    head: &Head,
    t: &Ty,
) -> Result<(), AllocError>
    ensures { OnOk result (text.new ≡ opening head.now t.now (place at.now bound.now) text.old) }
{
    text.put(opening_word(head))?;
    match head {
        Head::Lit(value) => put_literal(alloc, text, at.enumerations, t, value),
        Head::Whole(n) => text.put_signed(alloc, *n),
        Head::Read(source) => put_read(text, bound, at, source),
        Head::Bound(i) => put_bound(text, bound, *i),
        Head::Builtin(op) => put_operator_type(alloc, text, bound, at, *op, t),
        Head::Sum(q) => text.put_number(alloc, *q),
        Head::Weights(pairs) => {
            put_weights(alloc, text, at.enumerations, outcome(t), pairs.as_slice())?;
            text.put("]")
        }
        Head::Pr(procedure, _) => {
            put_procedure(text, bound, procedure.get())?;
            text.put("(")
        }
        Head::Glob(module, side) => {
            put_module(text, bound, module.get())?;
            text.put(")")?;
            put_beside(text, bound, at, *side)
        }
        _ => Ok(()),
    }
}

/// In front of the parts of a judgment.
fn before_part(bound: &'static str, i: usize) -> &'static str
    ensures { result.now ≡ before_part bound.now i }
{
    match i {
        0 => " : ",
        1 => " ==> ",
        _ => bound,
    }
}

/// In front of an argument under no binder.
pub fn put_before(
    text: &mut Text,
    bound: &Stack<Known>,
    at: &Setting<'_>,
    head: &Head,
    i: usize,
    last: bool,
) -> Result<(), AllocError>
    ensures { OnOk result (text.new ≡ before head.now i last (place at.now bound.now) text.old) }
{
    match head {
        Head::Builtin(op) => text.put(before_operand(*op, i)),
        Head::Hoare(_) | Head::Equiv(..) => text.put(before_part("", i)),
        Head::Phoare(_, rel) => text.put(before_part(compared(*rel), i)),
        Head::Pr(_, side) if last => {
            text.put(") @ &")?;
            put_memory(text, bound, at, *side)?;
            text.put(" : ")
        }
        Head::Pr(..) => text.put(if i == 0 { "" } else { ", " }),
        _ => text.put(" "),
    }
}

/// A form ends with this.
pub fn put_closing(alloc: Global, text: &mut Text, head: &Head) -> Result<(), AllocError>
    ensures { OnOk result (text.new ≡ closing head.now text.old) }
{
    match head {
        Head::Builtin(op) => put_operator_closing(alloc, text, *op),
        Head::Mu | Head::Sum(_) | Head::Map | Head::Restrict => text.put(")"),
        Head::Pr(..) | Head::Hoare(_) | Head::Equiv(..) => text.put("]"),
        _ => Ok(()),
    }
}
