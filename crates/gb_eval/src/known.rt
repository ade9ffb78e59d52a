// The terms that evaluation knows.

ghost use Rattle.std.specs.Prelude.{◌≡◌, map};
ghost use Rattle.std.specs.List.{list_all};
ghost use Rattle.gb_meaning.specs.Written.{type_of};
ghost use Rattle.gb_eval.specs.Known.{are_of_outcomes, has_finite_outcomes, arity, is_tuple, takes, is_read_known, is_result_known, is_head_known, is_known, known_in};

use crate::script::{Script, body_of, inside};
use gb_core::name::Name;
use gb_core::size::is_finite;
use gb_core::ty::Ty;
use gb_terms::op::{Op, Read, Side};
use gb_terms::term::{Head, Term};

/// Whether an operator makes a tuple of its arguments.
pub fn is_tuple(op: Op) -> bool
    ensures { result ≡ is_tuple op }
{
    op == Op::Tuple
}

/// The number of arguments at which evaluation knows an operator, where there is one.
fn arity(op: Op) -> Option<usize>
    ensures { result ≡ arity op }
{
    match op {
        Op::None | Op::Empty | Op::Coin | Op::Uniform => Some(0),
        Op::Not
        | Op::Negate
        | Op::ToReal
        | Op::Abs
        | Op::Part(_)
        | Op::Some
        | Op::Oget
        | Op::Dunit => Some(1),
        Op::If | Op::Set => Some(3),
        Op::Tuple => None,
        _ => Some(2),
    }
}

/// Whether evaluation knows an operator at so many arguments.
fn takes(op: Op, count: usize) -> bool
    ensures { result ≡ takes op count }
{
    is_tuple(op) || arity(op) == Some(count)
}

/// Whether a read at a type is known: of a memory that a binder binds where the type is finite, and any other one.
fn is_read_known(read: &Read, ty: &Ty) -> bool
    ensures { result ≡ is_read_known read.now ty.now }
{
    match read {
        Read::Program {
            side: Side::Bound(_),
            ..
        } => is_finite(ty),
        _ => true,
    }
}

/// Whether what an operator gives at a type is known: the value of an option where the type is finite, and any other.
fn is_result_known(op: Op, ty: &Ty) -> bool
    ensures { result ≡ is_result_known op ty.now }
{
    op != Op::Oget || is_finite(ty)
}

fn has_finite_outcomes(ty: &Ty) -> bool
    ensures { result ≡ has_finite_outcomes ty.now }
{
    match ty {
        Ty::Distr(outcomes) => is_finite(outcomes.get()),
        _ => false,
    }
}

/// Whether the first of two arguments is a distribution over a finite type.
fn are_of_outcomes(args: &[Term]) -> bool
    ensures { result ≡ are_of_outcomes (map type_of args.now) }
{
    match args {
        [d, _] => has_finite_outcomes(d.ty.get()),
        _ => false,
    }
}

/// Whether evaluation knows an operator of the script: its body, where it is opened.
#[cycle(known)]
fn is_operator_known(name: &Name, script: &Script<'_>) -> bool
    ensures { result ≡ known_in script.now name.now }
{
    match body_of(script, name) {
        Some(body) => is_known(body, &inside(script)),
        None => false,
    }
}

/// Whether evaluation knows a head at its arguments.
#[cycle(known)]
fn is_head_known(head: &Head, ty: &Ty, args: &[Term], script: &Script<'_>) -> bool
    ensures { result ≡ is_head_known (known_in script.now) head.now ty.now (map type_of args.now) }
{
    match head {
        Head::User(name) => is_operator_known(name, script),
        Head::Lit(_) | Head::Whole(_) | Head::Bound(_) | Head::Weights(_) => args.is_empty(),
        Head::Read(read) => args.is_empty() && is_read_known(read, ty),
        Head::Builtin(op) => takes(*op, args.len()) && is_result_known(*op, ty),
        Head::All(values) | Head::Some(values) => args.len() == 1 && is_finite(values.get()),
        Head::Sum(_) | Head::AllMemory | Head::SomeMemory => args.len() == 1,
        Head::Mu | Head::Map | Head::Restrict => are_of_outcomes(args),
        _ => false,
    }
}

/// Whether evaluation knows each part of a term: literals, variables, reads, the built-in operators and those of the script with
/// bodies that it knows, quantifiers over finite types and over memories, sums, stated weights, and measures, images and parts of
/// distributions over finite types.
#[cycle(known)]
#[tactic(auto, using(crate::proofs::Layers::known_out))]
pub fn is_known(t: &Term, script: &Script<'_>) -> bool
    ensures { result ≡ is_known (known_in script.now) t.now }
{
    let args = t.args.as_slice();
    is_head_known(t.head.get(), t.ty.get(), args, script) && are_known(args, script)
}

#[cycle(known)]
#[tactic(auto, using(crate::proofs::Layers::known_out))]
pub fn are_known(list: &[Term], script: &Script<'_>) -> bool
    ensures { result ≡ list_all (is_known (known_in script.now)) list.now }
{
    for t in list {
        if !is_known(t, script) {
            return false;
        }
    }
    true
}
