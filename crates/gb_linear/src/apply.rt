// The rule `linear`.

ghost use Rattle.std.specs.Prelude.{◌≡◌, not, ◌||◌, Some, None, IfOk, IfSome};
ghost use Rattle.std.specs.List.{list_all};
ghost use Rattle.gb_goal.specs.Answers.{Answers};
ghost use Rattle.gb_linear.specs.Closing.{added, all_assumed, assumed, between, closed_by, closed_with, closing, compared, difference, factor_of, is_allowed, is_closed, is_number, linear_answer, with_all};

use crate::forms::{LinearForm, combined, is_constant, scaled};
use crate::linear::linear;
use crate::numbers::{Stands, is_positive, is_zero};
use gb_closing::numbers::{Sign, may_have, refusal};
use gb_core::place::Place;
use gb_core::refusal::{Refused, Why};
use gb_core::ty::Ty;
use gb_dist::frac::Frac;
use gb_goal::sequent::{Hyp, Sequent, Sequents};
use gb_steps::step::Multiple;
use gb_terms::op::Op;
use gb_terms::term::{Form, Head, Term};
use sqlite_items::{Items, at};
use std::alloc::{AllocError, Global};

/// The form `left = right` or `left <= right`, between whole numbers or reals.
pub struct Comparison {
    pub equal: bool,
    pub left: Term,
    pub right: Term,
}

impl Drop for Comparison {
    fn drop(self) {
        let Comparison {
            equal: _,
            left,
            right,
        } = self;
        drop(left);
        drop(right);
    }
}

/// What a hypothesis says, and its multiplier.
pub struct Assumption {
    pub factor: Option<Frac>,
    pub says: Comparison,
}

impl Drop for Assumption {
    fn drop(self) {
        let Assumption { factor: _, says } = self;
        drop(says);
    }
}

fn is_number(ty: &Ty) -> bool
    ensures { result ≡ is_number ty.now }
{
    matches!(ty, Ty::Int | Ty::Real)
}

/// A comparison, where its sides are whole numbers or reals.
fn between(equal: bool, a: &Term, b: &Term) -> Result<Option<Comparison>, AllocError>
    ensures { IfOk result (λ made. made ≡ between equal a.now b.now) }
{
    if !is_number(a.ty.get()) || !is_number(b.ty.get()) {
        return Ok(None);
    }
    let left = a.share()?;
    let right = b.share()?;
    Ok(Some(Comparison { equal, left, right }))
}

/// The form `a <= b` or `a = b`.
fn compared(form: &Form) -> Result<Option<Comparison>, AllocError>
    ensures { IfOk result (λ made. made ≡ compared form.now) }
{
    match (form.head.get(), form.args.as_slice()) {
        (Head::Builtin(Op::AtMost), [a, b]) => between(false, a, b),
        (Head::Builtin(Op::Equal), [a, b]) => between(true, a, b),
        _ => Ok(None),
    }
}

/// Whether a comparison is used: for an equation equations alone are.
fn is_usable(equal: bool, says: &Comparison) -> bool
    ensures { result ≡ (not equal || says.now.equal) }
{
    !equal || says.equal
}

/// The hypothesis of a multiple.
fn assumed(equal: bool, hyps: &[Hyp], multiple: Multiple) -> Result<Option<Assumption>, AllocError>
    ensures { IfOk result (λ made. made ≡ assumed equal hyps.now multiple) }
{
    let Some(hyp) = at(hyps, multiple.hyp) else {
        return Ok(None);
    };
    let Some(says) = compared(&hyp.form)? else {
        return Ok(None);
    };
    if !is_usable(equal, &says) {
        return Ok(None);
    }
    Ok(Some(Assumption {
        factor: multiple.factor,
        says,
    }))
}

/// The hypotheses of multiples, where each can be used.
fn all_assumed(
    alloc: Global,
    equal: bool,
    hyps: &[Hyp],
    multiples: &[Multiple],
) -> Result<Option<Items<Assumption>>, AllocError>
    ensures { IfOk result (λ made. made ≡ all_assumed equal hyps.now multiples.now) }
{
    let mut out = Items::new(alloc);
    for multiple in multiples {
        let Some(assumption) = assumed(equal, hyps, *multiple)? else {
            return Ok(None);
        };
        out.push(assumption)?;
    }
    Ok(Some(out))
}

/// Whether each multiplier is a number with a denominator above 0, and not below 0 where its hypothesis isn't an equation.
fn are_allowed(assumptions: &[Assumption]) -> bool
    ensures { result ≡ list_all is_allowed assumptions.now }
{
    for a in assumptions {
        if !may_have(a.says.equal, a.factor) {
            return false;
        }
    }
    true
}

fn factor_of(factor: Option<Frac>) -> Frac
    ensures { result ≡ factor_of factor }
{
    match factor {
        Some(factor) => factor,
        None => Frac::of_whole(0),
    }
}

/// One side of a comparison less the other one.
fn difference(alloc: Global, a: &Term, b: &Term) -> Result<LinearForm, Refused>
    ensures { Answers (difference a.now b.now) result }
{
    let a = linear(alloc, a)?;
    let b = linear(alloc, b)?;
    combined(alloc, Sign::Minus, &a, &b)
}

/// What a hypothesis adds.
fn added(alloc: Global, assumption: &Assumption) -> Result<LinearForm, Refused>
    ensures { Answers (added assumption.now) result }
{
    let more = difference(alloc, &assumption.says.right, &assumption.says.left)?;
    let factor = factor_of(assumption.factor);
    scaled(alloc, Stands::Left, factor, &more)
}

/// A form, and behind it what each hypothesis adds.
fn with_all(
    alloc: Global,
    form: LinearForm,
    assumptions: &[Assumption],
) -> Result<LinearForm, Refused>
    ensures { Answers (with_all form assumptions.now) result }
{
    let mut sum = form;
    for assumption in assumptions {
        let more = added(alloc, assumption)?;
        sum = combined(alloc, Sign::Plus, &sum, &more)?;
    }
    Ok(sum)
}

/// Whether a rest is a constant at most 0, for an equation exactly 0.
fn is_closed(equal: bool, rest: &LinearForm) -> bool
    ensures { result ≡ is_closed equal rest.now }
{
    is_constant(rest)
        && if equal {
            is_zero(rest.constant)
        } else {
            !is_positive(rest.constant)
        }
}

/// No subgoals, or the rest that is left.
fn closed_by(alloc: Global, equal: bool, rest: &LinearForm) -> Result<Sequents, Refused>
    ensures { Answers (closed_by equal rest.now) result }
{
    if is_closed(equal, rest) {
        return Ok(Items::new(alloc));
    }
    Err(refusal(Why::NotLinear {
        num: rest.constant.num(),
        den: rest.constant.den(),
        other: !is_constant(rest),
    }))
}

/// Closes a comparison by hypotheses that can be used, where their multipliers are allowed.
fn closed_with(
    alloc: Global,
    goal: &Comparison,
    assumptions: &[Assumption],
) -> Result<Sequents, Refused>
    ensures { Answers (closed_with goal.now assumptions.now) result }
{
    if !are_allowed(assumptions) {
        return Err(refusal(Why::Argument));
    }
    let form = difference(alloc, &goal.left, &goal.right)?;
    let rest = with_all(alloc, form, assumptions)?;
    closed_by(alloc, goal.equal, &rest)
}

/// Closes a goal by multiples of hypotheses.
#[tactic(auto, unfolding(crate::specs::Closing::closing))]
fn closing(alloc: Global, multiples: &[Multiple], goal: &Sequent) -> Result<Sequents, Refused>
    ensures { Answers (closing multiples.now goal.now) result }
{
    let Some(says) = compared(&goal.conclusion)? else {
        return Err(refusal(Why::Shape));
    };
    let Some(assumptions) = all_assumed(alloc, says.equal, goal.hyps.as_slice(), multiples)? else {
        return Err(refusal(Why::Shape));
    };
    closed_with(alloc, &says, assumptions.as_slice())
}

/// Closes a goal `s <= t` or `s = t`, with no subgoals, by multiples of hypotheses `a <= b` and `a = b`: the rest is `s - t` and
/// for each multiple m of a hypothesis `m * (b - a)`, as a linear form, and closes the goal where it is a constant at most 0, for
/// an equation exactly 0.
///
/// # Errors
/// At the place of the step: `Shape`, where the goal or a hypothesis isn't such a comparison of whole numbers or reals, or where the
/// goal is an equation and a hypothesis isn't one; else `Argument`, where a multiplier is no number, or below 0 at a hypothesis that
/// isn't an equation; else the operands of the first operation out of range; else the rest.
pub fn apply(
    alloc: Global,
    multiples: &[Multiple],
    place: Place,
    goal: &Sequent,
) -> Result<Sequents, Refused>
    ensures { Answers (linear_answer multiples.now place goal.now) result }
{
    match closing(alloc, multiples, goal) {
        Ok(goals) => Ok(goals),
        Err(refused) => Err(refused.placed(place)),
    }
}
