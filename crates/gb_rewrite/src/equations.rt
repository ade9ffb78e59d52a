// Equations, and the terms that they let take the places of others.

ghost use Rattle.std.specs.Prelude.{◌≡◌};
ghost use Rattle.std.specs.Option.{option_map};
ghost use Rattle.gb_rewrite.specs.Equations.{equation_at, equation_of, equivalence_at, equivalence_of, is_variable, is_variable_apart, used_up, used_up_of};

use crate::rewritten::stands;
use gb_terms::op::{Op, Read};
use gb_terms::term::{Form, Head, Term};

fn equation_at<'a>(head: &Head, args: &'a [Term]) -> Option<(&'a Term, &'a Term)>
    ensures { option_map (λ p. (p.0.now, p.1.now)) result ≡ equation_at head.now args.now }
{
    match (head, args) {
        (Head::Builtin(Op::Equal), [left, right]) => Some((left, right)),
        _ => None,
    }
}

fn equivalence_at<'a>(head: &Head, args: &'a [Term]) -> Option<(&'a Term, &'a Term)>
    ensures { option_map (λ p. (p.0.now, p.1.now)) result ≡ equivalence_at head.now args.now }
{
    match (head, args) {
        (Head::Builtin(Op::Iff), [left, right]) => Some((left, right)),
        _ => equation_at(head, args),
    }
}

/// The sides of an equation or of an equivalence.
pub fn equivalence_of(form: &Form) -> Option<(&Term, &Term)>
    ensures { option_map (λ p. (p.0.now, p.1.now)) result ≡ equivalence_of form.now }
{
    let head = form.head.get();
    equivalence_at(head, form.args.as_slice())
}

fn is_variable(head: &Head) -> bool
    ensures { result ≡ is_variable head.now }
{
    matches!(head, Head::Read(Read::Logical(_)))
}

/// Whether this is a variable of the context that doesn't occur in another term.
fn is_variable_apart(t: &Term, other: &Term) -> bool
    ensures { result ≡ is_variable_apart t.now other.now }
{
    is_variable(t.head.get()) && !stands(other, t)
}

/// The variable that an equation is used up for, and the term that takes its place: the right side, where it is a variable
/// that doesn't occur in the left one; else the left side, where it is one that doesn't occur in the right one.
fn used_up<'a>(left: &'a Term, right: &'a Term) -> Option<(&'a Term, &'a Term)>
    ensures { option_map (λ p. (p.0.now, p.1.now)) result ≡ used_up (left.now, right.now) }
{
    if is_variable_apart(right, left) {
        return Some((right, left));
    }
    if is_variable_apart(left, right) {
        return Some((left, right));
    }
    None
}

/// What a form is used up for, where it is an equation.
pub fn used_up_by(form: &Form) -> Option<(&Term, &Term)>
    ensures { option_map (λ p. (p.0.now, p.1.now)) result ≡ used_up_of (equation_of form.now) }
{
    let head = form.head.get();
    match equation_at(head, form.args.as_slice()) {
        Some((left, right)) => used_up(left, right),
        None => None,
    }
}
