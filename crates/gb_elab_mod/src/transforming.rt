//! Rules that put other statements into a program.

ghost use Rattle.std.specs.Prelude.{◌≡◌};
ghost use Rattle.gb_goal.specs.Answers.{Answers};
ghost use Rattle.gb_elab_mod.specs.Steps.{calls_of, inlining_rule, passing, passing_rule, placed_rule};

use crate::cut::position;
use gb_core::name::Name;
use gb_core::place::Place;
use gb_core::refusal::Refused;
use gb_goal::scope::Scope;
use gb_goal::sequent::Sequent;
use gb_names::judgment::named_procedure;
use gb_names::refusals::not_built;
use gb_names::setting::Setting;
use gb_script::head::Head;
use gb_script::tree::Node;
use gb_steps::step::{Acts, Calls, Passing, Rule, Transformation};
use std::alloc::Global;

/// The statement at a place passes so many others: to the back, or to the front.
fn passing(at: &Node, by: &Node, front: bool, acts: Acts) -> Rule
    ensures { result ≡ passing at.now by.now front acts }
{
    let passing = Passing {
        at: position(at),
        by: position(by),
        front,
    };
    Rule::Transform(acts, Transformation::Swap(passing))
}

/// `swap` of the statement at a place, as far as is written.
pub fn passing_rule(
    acts: Acts,
    at: &Node,
    way: Head,
    distance: &[Node],
    place: Place,
) -> Result<Rule, Refused>
    ensures { Answers (passing_rule acts at.now way distance.now place) result }
{
    match (way, distance) {
        (Head::Forward, [by]) => Ok(passing(at, by, false, acts)),
        (Head::Backward, [by]) => Ok(passing(at, by, true, acts)),
        _ => Err(not_built(place)),
    }
}

/// A rule on the statement at a place, by its name.
pub fn placed_rule(name: &Name, acts: Acts, at: u128, place: Place) -> Result<Rule, Refused>
    ensures { Answers (placed_rule name.now acts at place) result }
{
    let name = name.as_str();
    if name == "rcondt" {
        Ok(Rule::Transform(acts, Transformation::Decided(at, true)))
    } else if name == "rcondf" {
        Ok(Rule::Transform(acts, Transformation::Decided(at, false)))
    } else if name == "unroll" {
        Ok(Rule::Transform(acts, Transformation::Unroll(at)))
    } else if name == "kill" {
        Ok(Rule::Transform(acts, Transformation::Kill(at)))
    } else {
        Err(not_built(place))
    }
}

/// The calls that a step inlines: all of them, or those of the procedure that is named.
fn calls_of(
    alloc: Global,
    scope: &Scope,
    goal: &Sequent,
    procedures: &[Node],
    place: Place,
) -> Result<Calls, Refused>
    ensures { Answers (calls_of scope.now goal.now procedures.now place) result }
{
    match procedures {
        [] => Ok(Calls::All),
        [path] => {
            let at = Setting::ambient(scope, goal);
            let words = path.parts.as_slice();
            let named = named_procedure(alloc, &at, &[], path.head, words, path.place)?;
            Ok(Calls::Of(named.reference))
        }
        _ => Err(not_built(place)),
    }
}

/// `inline` of these calls.
pub fn inlining_rule(
    alloc: Global,
    scope: &Scope,
    goal: &Sequent,
    acts: Acts,
    procedures: &[Node],
    place: Place,
) -> Result<Rule, Refused>
    ensures { Answers (inlining_rule scope.now goal.now acts procedures.now place) result }
{
    let calls = calls_of(alloc, scope, goal, procedures, place)?;
    Ok(Rule::Transform(acts, Transformation::Inline(calls)))
}
