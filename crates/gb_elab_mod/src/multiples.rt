// The typing of multiples of hypotheses.

ghost use Rattle.std.specs.Prelude.{◌≡◌, ◌<◌, ◌^◌, unsigned_abs};
ghost use Rattle.gb_goal.specs.Answers.{Answers, Refuses, ◌>>=◌ as ◌and_then◌};
ghost use Rattle.gb_goal.specs.Answers.Answer.{given};
ghost use Rattle.gb_elab_mod.specs.Multiples.{divisor, hypothesis_at, hyps_before, multiple, multiple_of, multiples, no_such, ratio, signed};

use crate::conclusions::{is_hypothesis, is_taken};
use crate::cut::position;
use gb_core::name::Name;
use gb_core::place::Place;
use gb_core::refusal::Refused;
use gb_dist::frac::{Frac, div_lit};
use gb_goal::scope::Scope;
use gb_goal::sequent::{Hyp, Sequent};
use gb_names::globals::no_declared;
use gb_names::refusals::argument;
use gb_script::head::Head;
use gb_script::tree::Node;
use gb_steps::step::{Multiple, Multiples, Rule};
use sqlite_items::Items;
use std::alloc::Global;

/// How many hypotheses stand before the first of this name.
fn hyps_before(hyps: &[Hyp], name: &Name) -> usize
    ensures { result ≡ hyps_before hyps.now name.now }
{
    for i in 0..hyps.len() {
        if *name == hyps[i].name {
            return i;
        }
    }
    hyps.len()
}

/// The refusal of a name that means nothing of the kind that is asked for: another thing has it, or nothing.
pub fn no_such(alloc: Global, scope: &Scope, goal: &Sequent, name: &Name, place: Place) -> Refused
    ensures { Refuses (no_such scope.now goal.now name.now) place result }
{
    if is_taken(goal, name) {
        argument(place)
    } else {
        no_declared(alloc, None, scope, name, place)
    }
}

/// The place of a hypothesis in a goal.
pub fn hypothesis_at(
    alloc: Global,
    scope: &Scope,
    goal: &Sequent,
    name: &Name,
    place: Place,
) -> Result<usize, Refused>
    ensures { Answers (hypothesis_at scope.now goal.now name.now place) result }
{
    let hyps = goal.hyps.as_slice();
    if is_hypothesis(hyps, name) {
        Ok(hyps_before(hyps, name))
    } else {
        Err(no_such(alloc, scope, goal, name, place))
    }
}

fn signed(back: bool, number: u128) -> i128
    requires { number < 2 ^ 127 }
    ensures value { result ≡ signed back number }
    ensures small { unsigned_abs result < 2 ^ 127 }
{
    let number = number as i128;
    if back { -number } else { number }
}

/// A fraction, with a sign or without. No number is by a denominator of 0, nor by numbers that the reader doesn't let pass.
fn ratio(back: bool, num: u128, den: u128) -> Option<Frac>
    ensures { result ≡ ratio back num den }
{
    if num < 1 << 127 && (0 < den && den < 1 << 127) {
        div_lit(Frac::of_whole(signed(back, num)), den as i128).ok()
    } else {
        None
    }
}

/// The denominator of a multiplier: 1 where it is missing.
fn divisor(numbers: &[Node]) -> u128
    ensures { result ≡ divisor numbers.now }
{
    match numbers {
        [] => 1,
        [number, ..] => position(number),
    }
}

/// The multiple of the hypothesis of a name.
fn multiple_of(
    alloc: Global,
    scope: &Scope,
    goal: &Sequent,
    name: &Node,
    factor: Option<Frac>,
) -> Result<Multiple, Refused>
    ensures { Answers (multiple_of scope.now goal.now name.now factor) result }
{
    let hyp = hypothesis_at(alloc, scope, goal, &name.text, name.place)?;
    Ok(Multiple { hyp, factor })
}

/// A hypothesis with its multiplier, or alone.
fn multiple(alloc: Global, scope: &Scope, goal: &Sequent, tree: &Node) -> Result<Multiple, Refused>
    ensures { Answers (multiple scope.now goal.now tree.now) result }
{
    match (tree.head, tree.parts.as_slice()) {
        (Head::Scaled, [num, den, name]) => {
            let factor = ratio(false, position(num), divisor(den.parts.as_slice()));
            multiple_of(alloc, scope, goal, name, factor)
        }
        (Head::ScaledBack, [num, den, name]) => {
            let factor = ratio(true, position(num), divisor(den.parts.as_slice()));
            multiple_of(alloc, scope, goal, name, factor)
        }
        _ => multiple_of(alloc, scope, goal, tree, Some(Frac::of_whole(1))),
    }
}

/// Hypotheses with their multipliers.
fn multiples(
    alloc: Global,
    scope: &Scope,
    goal: &Sequent,
    trees: &[Node],
) -> Result<Multiples, Refused>
    ensures { Answers (multiples scope.now goal.now trees.now) result }
{
    let mut out = Items::new(alloc);
    for tree in trees {
        out.push(multiple(alloc, scope, goal, tree)?)?;
    }
    Ok(out)
}

/// The rule that combines hypotheses with their multipliers.
pub fn linear_rule(
    alloc: Global,
    scope: &Scope,
    goal: &Sequent,
    trees: &[Node],
) -> Result<Rule, Refused>
    ensures { Answers (multiples scope.now goal.now trees.now and_then λ ms. given (Rule.Linear ms)) result }
{
    let multiples = multiples(alloc, scope, goal, trees)?;
    Ok(Rule::Linear(multiples))
}
