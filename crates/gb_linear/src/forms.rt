// Linear forms.

ghost use Rattle.std.specs.Prelude.{◌≡◌, IfOk};
ghost use Rattle.gb_goal.specs.Answers.{Answers};
ghost use Rattle.gb_closing.specs.Summands.{behind, besides};
ghost use Rattle.gb_linear.specs.Forms.{alone, coefficient, combined, each_scaled, is_constant, is_same, merged, of_number, place_in, scaled, without};

use crate::numbers::{Stands, is_zero, multiplied};
use gb_closing::numbers::{Sign, operated};
use gb_closing::summands::{Summand, Summands, besides, with_coefficient};
use gb_core::refusal::Refused;
use gb_dist::frac::Frac;
use gb_terms::same::same;
use gb_terms::term::Term;
use sqlite_items::Items;
use std::alloc::{AllocError, Global};

/// A constant, and different terms with their coefficients.
pub struct LinearForm {
    pub constant: Frac,
    pub summands: Summands,
}

impl Drop for LinearForm {
    fn drop(self) {
        let LinearForm {
            constant: _,
            summands,
        } = self;
        drop(summands);
    }
}

#[tactic(auto, using(crate::proofs::Same::same_is))]
fn is_same(a: &Term, b: &Term) -> bool
    ensures { result ≡ is_same a.now b.now }
{
    same(a, b)
}

/// The place of the summand of a term, or the end of the list.
fn place_in(list: &[Summand], t: &Term) -> usize
    ensures { result ≡ place_in list.now t.now }
{
    for i in 0..list.len() {
        if is_same(&list[i].term, t) {
            return i;
        }
    }
    list.len()
}

/// Takes the summand of a term off a list. Its coefficient is 0 where it is missing.
#[tactic(auto, using(crate::proofs::Places::taken_off, crate::proofs::Places::coefficient_at, crate::proofs::Places::none_taken, crate::proofs::Places::no_coefficient))]
fn take(list: &mut Summands, t: &Term) -> Frac
    ensures coefficient { result ≡ coefficient list.old t.now }
    ensures others { list.new ≡ without list.old t.now }
{
    let at = place_in(list.as_slice(), t);
    if at < list.len() {
        let summand = list.remove(at);
        summand.coefficient
    } else {
        Frac::of_whole(0)
    }
}

/// Summands with one owner more of their terms.
fn shared(alloc: Global, list: &[Summand]) -> Result<Summands, AllocError>
    ensures { IfOk result (λ made. made ≡ list.now) }
{
    let mut out = Items::new(alloc);
    for x in list {
        let summand = with_coefficient(&x.term, x.coefficient)?;
        out.push(summand)?;
    }
    Ok(out)
}

/// The summands of a sum or a difference, in order of first occurrence.
fn merged(
    alloc: Global,
    sign: Sign,
    first: &[Summand],
    second: &[Summand],
) -> Result<Summands, Refused>
    ensures { Answers (merged sign first.now second.now) result }
{
    let mut left = shared(alloc, second)?;
    let mut out = Items::new(alloc);
    for x in first {
        let other = take(&mut left, &x.term);
        let number = operated(sign, x.coefficient, other)?;
        let summand = with_coefficient(&x.term, number)?;
        out.push(summand)?;
    }
    besides(alloc, sign, out, left.as_slice())
}

/// A sum or a difference: the constants first, then the terms.
pub fn combined(
    alloc: Global,
    sign: Sign,
    a: &LinearForm,
    b: &LinearForm,
) -> Result<LinearForm, Refused>
    ensures { Answers (combined sign a.now b.now) result }
{
    let constant = operated(sign, a.constant, b.constant)?;
    let summands = merged(alloc, sign, a.summands.as_slice(), b.summands.as_slice())?;
    Ok(LinearForm { constant, summands })
}

/// The terms of a form times a number.
fn each_scaled(
    alloc: Global,
    on: Stands,
    factor: Frac,
    list: &[Summand],
) -> Result<Summands, Refused>
    ensures { Answers (each_scaled on factor list.now) result }
{
    let mut out = Items::new(alloc);
    for x in list {
        let number = multiplied(on, factor, x.coefficient)?;
        let summand = with_coefficient(&x.term, number)?;
        out.push(summand)?;
    }
    Ok(out)
}

/// A form times a number.
pub fn scaled(
    alloc: Global,
    on: Stands,
    factor: Frac,
    a: &LinearForm,
) -> Result<LinearForm, Refused>
    ensures { Answers (scaled on factor a.now) result }
{
    let constant = multiplied(on, factor, a.constant)?;
    let summands = each_scaled(alloc, on, factor, a.summands.as_slice())?;
    Ok(LinearForm { constant, summands })
}

/// Whether no term is left.
pub fn is_constant(a: &LinearForm) -> bool
    ensures { result ≡ is_constant a.now }
{
    for x in a.summands.as_slice() {
        if !is_zero(x.coefficient) {
            return false;
        }
    }
    true
}

pub fn of_number(alloc: Global, number: Frac) -> LinearForm
    ensures { result ≡ of_number number }
{
    LinearForm {
        constant: number,
        summands: Items::new(alloc),
    }
}

/// The form of a term that isn't taken apart.
pub fn alone(alloc: Global, t: &Term) -> Result<LinearForm, AllocError>
    ensures { IfOk result (λ made. made ≡ alone t.now) }
{
    let summand = with_coefficient(t, Frac::of_whole(1))?;
    let mut summands = Items::new(alloc);
    summands.push(summand)?;
    Ok(LinearForm {
        constant: Frac::of_whole(0),
        summands,
    })
}
