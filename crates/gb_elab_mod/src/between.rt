// The typing of `transitivity`.

ghost use Rattle.gb_script.specs.Tree.{head_of, parts_of};
ghost use Rattle.gb_goal.specs.Answers.{Answers};
ghost use Rattle.gb_goal.specs.Views.{goal_seen};
ghost use Rattle.gb_names.specs.Judgments.{named_seen};
ghost use Rattle.std.specs.Prelude.{◌≡◌};
ghost use Rattle.std.specs.Option.{option_map};
ghost use Rattle.gb_elab_mod.specs.OnPrograms.{between_at, between_functor, between_of, between_words, contracts, procedures_of, transitive_rule};

use crate::contract::{Said, related};
use gb_core::place::Place;
use gb_core::refusal::Refused;
use gb_goal::goal::{Code, Goal, goal_of};
use gb_goal::scope::Scope;
use gb_goal::sequent::Sequent;
use gb_names::judgment::{Named, functor_procedure, named_procedure};
use gb_names::refusals::not_built;
use gb_names::setting::Setting;
use gb_script::head::Head;
use gb_script::tree::Node;
use gb_steps::step::{Acts, Between, BodyRule, RelationalRule, Rule};
use gb_terms::module::ProcRef;
use std::alloc::Global;

/// Two contracts, by which a procedure stands between two others.
#[derive(Clone, Copy)]
struct Contracts<'a> {
    first: Said<'a>,
    second: Said<'a>,
}

/// A procedure between two others, what relates the left one to it, and what relates it to the right one.
#[tactic(auto, unfolding(crate::specs::OnPrograms::between_of))]
fn between_of(
    alloc: Global,
    scope: &Scope,
    goal: &Sequent,
    named: Named<'_>,
    said: Contracts<'_>,
    left: &ProcRef,
    right: &ProcRef,
) -> Result<Rule, Refused>
    ensures { Answers (between_of scope.now goal.now (named_seen named.entry) said.entry.first.pre.now said.entry.first.post.now said.entry.second.pre.now said.entry.second.post.now left.now right.now) result }
{
    let procedure = named.reference;
    let (left_pre, left_post) = related(alloc, scope, goal, said.first, left, procedure.get())?;
    let (right_pre, right_post) = related(alloc, scope, goal, said.second, procedure.get(), right)?;
    let between = Between {
        procedure,
        left_pre,
        left_post,
        right_pre,
        right_post,
    };
    Ok(Rule::Relational(RelationalRule::Transitivity(between)))
}

/// The two procedures that a goal relates.
fn procedures_of<'a>(goal: Goal<'a>) -> Option<(&'a ProcRef, &'a ProcRef)>
    ensures { option_map (λ z. (z.0.now, z.1.now)) result ≡ procedures_of (goal_seen goal.entry) }
{
    match goal {
        Goal::Equiv(Code::Procedure(left), Code::Procedure(right), _, _) => Some((left, right)),
        _ => None,
    }
}

/// The contracts that stand in these parts.
fn contracts_in<'a>(first: &'a [Node], second: &'a [Node]) -> Option<Contracts<'a>>
    ensures { option_map (λ c. ((c.first.pre.now, c.first.post.now), (c.second.pre.now, c.second.post.now))) result ≡ contracts first.now second.now }
{
    match (first, second) {
        ([pre, post], [later_pre, later_post]) => Some(Contracts {
            first: Said { pre, post },
            second: Said {
                pre: later_pre,
                post: later_post,
            },
        }),
        _ => None,
    }
}

/// The same by the words of a name and by the contracts, of which the second stands in a part of its own.
fn between_words(
    alloc: Global,
    scope: &Scope,
    goal: &Sequent,
    words: &[Node],
    parts: &[Node],
    place: Place,
) -> Result<Rule, Refused>
    ensures { Answers (between_words scope.now goal.now words.now parts.now place) result }
{
    let ([first, ..], [_, _, contract]) = (words, parts) else {
        return Err(not_built(place));
    };
    let Some(said) = contracts_in(&parts[..2], contract.parts.as_slice()) else {
        return Err(not_built(place));
    };
    let Some((left, right)) = procedures_of(goal_of(&goal.conclusion)) else {
        return Ok(Rule::OnBodies(BodyRule::Unfit));
    };
    let at = Setting::ambient(scope, goal);
    let named = named_procedure(alloc, &at, &[], Head::ProcedurePath, words, first.place)?;
    between_of(alloc, scope, goal, named, said, left, right)
}

/// The same of a functor with arguments, of which the first stands in a part of its own.
fn between_functor(
    alloc: Global,
    scope: &Scope,
    goal: &Sequent,
    words: &[Node],
    parts: &[Node],
    place: Place,
) -> Result<Rule, Refused>
    ensures { Answers (between_functor scope.now goal.now words.now parts.now place) result }
{
    let ([first, more @ ..], [argument, others, name, one, other]) = (words, parts) else {
        return Err(not_built(place));
    };
    let Some(said) = contracts_in(one.parts.as_slice(), other.parts.as_slice()) else {
        return Err(not_built(place));
    };
    let Some((left, right)) = procedures_of(goal_of(&goal.conclusion)) else {
        return Ok(Rule::OnBodies(BodyRule::Unfit));
    };
    let at = Setting::ambient(scope, goal);
    let arguments = (argument, others.parts.as_slice());
    let named = functor_procedure(alloc, &at, &[], (first, more), arguments, name, first.place)?;
    between_of(alloc, scope, goal, named, said, left, right)
}

/// The same as it is written: the last parts are the contracts, behind the arguments of a functor and the procedure's name where there are
/// any, and all those before them the words of a name.
fn between_at(
    alloc: Global,
    scope: &Scope,
    goal: &Sequent,
    said: &Node,
    place: Place,
) -> Result<Rule, Refused>
    ensures { Answers (between_at scope.now goal.now (head_of said.now) (parts_of said.now) place) result }
{
    let parts = said.parts.as_slice();
    match said.head {
        Head::PlainTransitivity => {
            let (words, behind) = parts.split_at(parts.len().saturating_sub(3));
            between_words(alloc, scope, goal, words, behind, place)
        }
        Head::FunctorTransitivity => {
            let (words, behind) = parts.split_at(parts.len().saturating_sub(5));
            between_functor(alloc, scope, goal, words, behind, place)
        }
        _ => Err(not_built(place)),
    }
}

/// The typed step of `transitivity`, which acts on both programs.
///
/// # Errors
///
/// `Syntax` of one that isn't built, `UnknownName` and `Argument` of a name that is that of no procedure, and those of typing.
pub fn transitive_rule(
    alloc: Global,
    scope: &Scope,
    goal: &Sequent,
    acts: Acts,
    said: &Node,
    place: Place,
) -> Result<Rule, Refused>
    ensures { Answers (transitive_rule scope.now goal.now acts (head_of said.now) (parts_of said.now) place) result }
{
    match acts {
        Acts::All => between_at(alloc, scope, goal, said, place),
        _ => Ok(Rule::OnBodies(BodyRule::Unfit)),
    }
}
