// Connectives, equations and literals.

ghost use Rattle.std.specs.Prelude.{◌≡◌, ◌↔◌, IsTrue};
ghost use Rattle.std.specs.Option.{option_copied};
ghost use Rattle.gb_equality.specs.Connectives.{connective_at, connective_of, is_form, is_one, shown, with_one, with_two, AreDifferent};

use gb_core::same::same_ty;
use gb_core::ty::Ty;
use gb_core::value::Value;
use gb_terms::op::Op;
use gb_terms::same::same_head;
use gb_terms::term::{Head, Term};

/// How the truth of a form comes from its arguments.
#[derive(Clone, Copy)]
pub enum Connective {
    Truth(bool),
    Not,
    And,
    Or,
    Implies,
    /// `<=>`, and `=` between forms.
    Iff,
    /// `<>` between forms.
    Unlike,
    /// `=` between terms that are no forms.
    Equal,
    NotEqual,
    /// In no way that is known.
    Other,
}

/// Whether a term is a form.
pub fn is_form(t: &Term) -> bool
    ensures { result ≡ is_form t.now }
{
    matches!(t.ty.get(), Ty::Bool)
}

fn with_one(op: &Op, form: bool) -> Connective
    ensures { result ≡ with_one op.now form }
{
    match op {
        Op::Not if form => Connective::Not,
        _ => Connective::Other,
    }
}

fn with_two(op: &Op, forms: bool) -> Connective
    ensures { result ≡ with_two op.now forms }
{
    match (op, forms) {
        (Op::And, true) => Connective::And,
        (Op::Or, true) => Connective::Or,
        (Op::Implies, true) => Connective::Implies,
        (Op::Iff, true) => Connective::Iff,
        (Op::Equal, true) => Connective::Iff,
        (Op::NotEqual, true) => Connective::Unlike,
        (Op::Equal, false) => Connective::Equal,
        (Op::NotEqual, false) => Connective::NotEqual,
        _ => Connective::Other,
    }
}

fn is_one(value: &Value) -> bool
    ensures { result ≡ is_one value.now }
{
    match value {
        Value::Num(n) => *n == 1,
        _ => false,
    }
}

fn connective_at(head: &Head, args: &[Term]) -> Connective
    ensures { result ≡ connective_at head.now args.now }
{
    match (head, args) {
        (Head::Lit(value), []) => Connective::Truth(is_one(value)),
        (Head::Builtin(op), [a]) => with_one(op, is_form(a)),
        (Head::Builtin(op), [a, b]) => with_two(op, is_form(a) && is_form(b)),
        _ => Connective::Other,
    }
}

/// What a term is: `true` or `false`, a connective of forms, an equation or its negation, or another term.
pub fn connective_of(t: &Term) -> Connective
    ensures { result ≡ connective_of t.now }
{
    if is_form(t) {
        connective_at(t.head.get(), t.args.as_slice())
    } else {
        Connective::Other
    }
}

/// What a literal shows: a value, a whole number, or for `n%r` the whole number.
fn shown(t: &Term) -> Option<&Head>
    ensures { option_copied result ≡ shown t.now }
{
    match (t.head.get(), t.args.as_slice()) {
        (Head::Lit(_), []) | (Head::Whole(_), []) => Some(t.head.get()),
        (Head::Builtin(Op::ToReal), [n]) => match (n.head.get(), n.args.as_slice()) {
            (Head::Whole(_), []) => Some(n.head.get()),
            _ => None,
        },
        _ => None,
    }
}

/// Whether two terms are different literals of one type.
pub fn are_different(t: &Term, u: &Term) -> bool
    ensures { IsTrue result ↔ AreDifferent t.now u.now }
{
    match (shown(t), shown(u)) {
        (Some(a), Some(b)) => same_ty(t.ty.get(), u.ty.get()) && !same_head(a, b),
        _ => false,
    }
}
