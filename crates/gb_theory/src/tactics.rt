// What a proof step with its combinators makes of goals.

ghost use Rattle.std.specs.Prelude.{◌≡◌, [], ◌∷◌, IfOk};
ghost use Rattle.std.specs.Prelude.{List};
ghost use Rattle.gb_goal.specs.Answers.{Answer, Answers, ◌>>=◌ as ◌and_then◌};
ghost use Rattle.gb_goal.specs.Goal.{goal_of};
ghost use Rattle.gb_goal.specs.declared.sequent.Sequent.{Sequent as Goal};
ghost use Rattle.gb_limits.specs.Numbers.{number_of};
ghost use Rattle.gb_script.specs.declared.tree.Node.{Node as Tree};
ghost use Rattle.gb_script.specs.Tree.{head_of, parts_of, text_of, place_of};
ghost use Rattle.gb_theory.specs.Commands.{AreRules, RuleAnswers, Applied, allowed, entered, entering, on_guard, transformed, unless_unproved};
ghost use Rattle.gb_theory.specs.Patterns.{is_pattern};
ghost use Rattle.gb_theory.specs.Combinators.{Stepping, done_at, fitted, introduced, on_each, or_left, in_turn, ruled, spread, times, stepped_by, worked, works};
ghost use Rattle.gb_theory.specs.Sessions.{Meets};
ghost use Rattle.gb_theory.specs.Tactics.{with_works, each_works, fits};

use crate::combinators::{only, or_left, times_allowed};
use crate::limits::check_each;
use crate::names::check_new;
use crate::outcome_laws::rules_have_answers;
use gb_core::name::Name;
use gb_core::place::Place;
use gb_core::refusal::{Refused, Why};
use gb_ended::loops::unproved_in;
use gb_goal::goal::goal_of;
use gb_goal::scope::{ProcName, Scope};
use gb_goal::sequent::{Sequent, Sequents};
use gb_names::refusals::{argument, not_built};
use gb_prog::subgoals::{placed, refusal};
use gb_script::head::Head;
use gb_script::tree::Node;
use gb_steps::step::{Acts, BodyRule, RelationalRule, Rule, Step, Transformation};
use sqlite_items::Items;
use std::alloc::{AllocError, Global};
use std::slice::from_ref;

/// Refuses a procedure with a loop of its own that isn't proved.
fn unless_unproved(alloc: Global, found: Option<ProcName>, place: Place) -> Result<(), Refused>
    ensures { Answers (unless_unproved found place) result }
{
    match found {
        None => Ok(()),
        Some(procedure) => {
            let path = procedure.path(alloc)?;
            let why = Why::UnprovedLoop(path);
            Err(Refused::Script { why, place })
        }
    }
}

/// Refuses `proc` at a goal that judges a procedure with a loop of its own that isn't proved.
fn check_entered(
    alloc: Global,
    rule: &BodyRule,
    place: Place,
    goal: &Sequent,
    scope: &Scope,
) -> Result<(), Refused>
    ensures { Answers (entering scope.now rule.now place (goal_of goal.now.conclusion)) result }
{
    match rule {
        BodyRule::Proc => {
            let found = unproved_in(alloc, scope, goal_of(&goal.conclusion))?;
            unless_unproved(alloc, found, place)
        }
        _ => Ok(()),
    }
}

/// The subgoals of a rule on programs.
fn on_bodies(
    alloc: Global,
    step: &Step,
    rule: &BodyRule,
    goal: &Sequent,
    scope: &Scope,
) -> Result<Sequents, Refused>
    requires { step.now.rule ≡ Rule.OnBodies rule.now }
    ensures { Answers (entered scope.now rule.now step.now.place goal.now) result }
{
    check_entered(alloc, rule, step.place, goal, scope)?;
    gb_bodies::apply::apply(alloc, step, goal, scope)
}

/// The subgoals of a rule on equivalences.
fn on_both(
    alloc: Global,
    step: &Step,
    rule: &RelationalRule,
    goal: &Sequent,
    scope: &Scope,
) -> Result<Sequents, Refused>
    requires { step.now.rule ≡ Rule.Relational rule.now }
    ensures { Meets (λ x. x) (Applied scope.now step.now.rule step.now.place goal.now) result }
{
    match rule {
        RelationalRule::Sim => gb_sim::apply(alloc, step.place, goal, scope),
        _ => gb_equiv::rule::apply(alloc, step, goal, scope),
    }
}

/// The subgoals of a rule on a guard: on one of two programs it has a goal in a wider context.
fn on_guard(
    alloc: Global,
    step: &Step,
    acts: Acts,
    at: u128,
    holds: bool,
    goal: &Sequent,
    scope: &Scope,
) -> Result<Sequents, Refused>
    requires { step.now.rule ≡ Rule.Transform acts (Transformation.Decided at holds) }
    ensures { Answers (on_guard scope.now acts at holds step.now.place goal.now) result }
{
    match acts {
        Acts::All => gb_inline::apply::apply(alloc, step, goal, scope),
        _ => gb_trans::beside::apply(alloc, acts, at, holds, step.place, goal, scope),
    }
}

/// The subgoals of a rule that puts other statements into a program.
fn on_programs(
    alloc: Global,
    step: &Step,
    acts: Acts,
    rule: &Transformation,
    goal: &Sequent,
    scope: &Scope,
) -> Result<Sequents, Refused>
    requires { step.now.rule ≡ Rule.Transform acts rule.now }
    ensures { Answers (transformed scope.now acts rule.now step.now.place goal.now) result }
{
    match rule {
        Transformation::Decided(at, holds) => {
            on_guard(alloc, step, acts, *at, *holds, goal, scope)
        }
        _ => gb_inline::apply::apply(alloc, step, goal, scope),
    }
}

/// The subgoals of a rule, by the crate that has its row.
fn apply(alloc: Global, step: &Step, goal: &Sequent, scope: &Scope) -> Result<Sequents, Refused>
    ensures { Meets (λ x. x) (Applied scope.now step.now.rule step.now.place goal.now) result }
{
    match &step.rule {
        Rule::OnBodies(rule) => on_bodies(alloc, step, rule, goal, scope),
        Rule::Relational(rule) => on_both(alloc, step, rule, goal, scope),
        Rule::Chance(_) => gb_pr::apply_chance::apply(alloc, step, goal, scope),
        Rule::Probability(_) => gb_pr::apply::apply(alloc, step, goal, scope),
        Rule::Call(_) => gb_call_both::apply::apply(alloc, step, goal, scope),
        Rule::Transform(acts, rule) => on_programs(alloc, step, *acts, rule, goal, scope),
        Rule::While(kept) => gb_loops::while_loop::apply(alloc, kept, step.place, goal, scope),
        Rule::CallKnown(acts, known) => {
            gb_call_both::known::apply(alloc, *acts, known, step.place, goal, scope)
        }
        Rule::Abstract(rule) => gb_adv::apply::apply(alloc, rule, step.place, goal, scope),
        Rule::Ambient(rule) => gb_amb::apply::apply(alloc, rule, step.place, goal),
        Rule::Use(rule) => gb_amb::using::apply(alloc, rule, step.place, goal),
        Rule::Rewrite(rule) => gb_rewrite::goals::apply(alloc, rule, step.place, goal, scope),
        Rule::Smt(known) => gb_smt::apply::apply(alloc, known.as_slice(), step.place, goal, scope),
        Rule::Linear(multiples) => {
            gb_linear::apply::apply(alloc, multiples.as_slice(), step.place, goal)
        }
    }
}

/// Goals of which each is within its limits.
fn allowed(goals: Sequents, place: Place) -> Result<Sequents, Refused>
    ensures { Answers (allowed place goals) result }
{
    check_each(goals.as_slice(), place)?;
    Ok(goals)
}

/// The subgoals of a rule of a text, with its arguments typed at the goal.
fn subgoals(alloc: Global, scope: &Scope, tree: &Node, goal: &Sequent) -> Result<Sequents, Refused>
    ensures { Meets (λ x. x) (RuleAnswers scope.now tree.now goal.now) result }
{
    let step = gb_elab_mod::step::proof_step(alloc, scope, goal, tree)?;
    let goals = apply(alloc, &step, goal, scope)?;
    allowed(goals, step.place)
}

/// What a rule of a text makes of a goal: it answers one thing.
fn rule(alloc: Global, scope: &Scope, tree: &Node, goal: &Sequent) -> Result<Sequents, Refused>
    ensures { (f : Tree → Stepping) → AreRules scope.now f → Answers (f tree.now goal.now) result }
{
    rules_have_answers();
    subgoals(alloc, scope, tree, goal)
}

/// Patterns are rules too.
fn is_pattern(head: Head) -> bool
    ensures { result ≡ is_pattern head }
{
    match head {
        Head::Name
        | Head::Memory
        | Head::Drop
        | Head::TrivialPattern
        | Head::SmtPattern
        | Head::BothPatterns
        | Head::EitherPattern => true,
        _ => false,
    }
}

/// A refusal of a pattern that doesn't fit has no place of its own.
fn fitted(head: Head, made: Result<Sequents, Refused>) -> Result<Sequents, Refused>
    ensures { (x : Answer (List Goal)) → Answers x made → Answers (fitted head x) result }
{
    let nowhere = Place {
        file: 0,
        line: 0,
        col: 0,
    };
    match head {
        Head::SmtPattern => made,
        Head::TrivialPattern => made,
        _ => match made {
            Ok(goals) => Ok(goals),
            Err(refused) => Err(refused.moved(nowhere)),
        },
    }
}

/// `done`, as it is written.
fn done_at(alloc: Global, place: Place) -> Result<Node, AllocError>
    ensures { IfOk result (λ step. step ≡ done_at place) }
{
    let text = Name::from_str(alloc, "done")?;
    Ok(Node {
        head: Head::PlainStep,
        text,
        parts: Items::new(alloc),
        place,
    })
}

/// A rule on each goal.
fn rule_on_each(
    alloc: Global,
    scope: &Scope,
    tree: &Node,
    goals: &[Sequent],
) -> Result<Sequents, Refused>
    ensures { (f : Tree → Stepping) → AreRules scope.now f → Answers (on_each (f tree.now) goals.now) result }
{
    let mut left = Items::new(alloc);
    for goal in goals {
        let more = rule(alloc, scope, tree, goal)?;
        left.append(more)?;
    }
    Ok(left)
}

/// `done` on each goal.
fn done(alloc: Global, scope: &Scope, place: Place, goals: &[Sequent]) -> Result<Sequents, Refused>
    ensures { (f : Tree → Stepping) → AreRules scope.now f → Answers (on_each (f (done_at place)) goals.now) result }
{
    let step = done_at(alloc, place)?;
    rule_on_each(alloc, scope, &step, goals)
}

/// What a step, a pattern, or what stands behind a `;`, makes of goals.
#[cycle(tactic)]
pub fn work(
    alloc: Global,
    scope: &Scope,
    tree: &Node,
    goals: &[Sequent],
) -> Result<Sequents, Refused>
    ensures { (f : Tree → Stepping) → AreRules scope.now f → Answers (works scope.now f tree.now goals.now) result }
{
    if is_pattern(tree.head) {
        return pattern(alloc, scope, tree, goals);
    }
    worked(
        alloc,
        scope,
        tree.head,
        tree.parts.as_slice(),
        tree.place,
        goals,
    )
}

/// A pattern on each goal.
#[cycle(tactic)]
fn pattern(
    alloc: Global,
    scope: &Scope,
    tree: &Node,
    goals: &[Sequent],
) -> Result<Sequents, Refused>
    ensures { (f : Tree → Stepping) → AreRules scope.now f → Answers (on_each (fits scope.now f tree.now) goals.now) result }
{
    let mut left = Items::new(alloc);
    for goal in goals {
        let more = fit(alloc, scope, tree, goal)?;
        left.append(more)?;
    }
    Ok(left)
}

/// A pattern on a goal: first it works as a rule, and then what stands inside it.
#[cycle(tactic)]
fn fit(alloc: Global, scope: &Scope, tree: &Node, goal: &Sequent) -> Result<Sequents, Refused>
    ensures { (f : Tree → Stepping) → AreRules scope.now f → Answers (fits scope.now f tree.now goal.now) result }
{
    let goals = fitted(tree.head, rule(alloc, scope, tree, goal))?;
    let parts = tree.parts.as_slice();
    match tree.head {
        Head::BothPatterns | Head::EitherPattern => {
            worked(alloc, scope, tree.head, parts, tree.place, goals.as_slice())
        }
        _ => Ok(goals),
    }
}

/// .. from its head, its parts and its place.
#[cycle(tactic)]
fn worked(
    alloc: Global,
    scope: &Scope,
    head: Head,
    parts: &[Node],
    place: Place,
    goals: &[Sequent],
) -> Result<Sequents, Refused>
    ensures { (f : Tree → Stepping) → AreRules scope.now f → Answers (worked scope.now f head (with_works scope.now f parts.now) place goals.now) result }
{
    match head {
        Head::Next => match parts {
            [step] => work(alloc, scope, step, goals),
            _ => on_each(alloc, scope, head, parts, place, goals),
        },
        Head::EitherPattern | Head::Branches => spread(alloc, scope, parts, place, goals),
        _ => on_each(alloc, scope, head, parts, place, goals),
    }
}

/// A step on each goal.
#[cycle(tactic)]
fn on_each(
    alloc: Global,
    scope: &Scope,
    head: Head,
    parts: &[Node],
    place: Place,
    goals: &[Sequent],
) -> Result<Sequents, Refused>
    ensures { (f : Tree → Stepping) → AreRules scope.now f → Answers (on_each (stepped_by scope.now f head (with_works scope.now f parts.now) place) goals.now) result }
{
    let mut left = Items::new(alloc);
    for goal in goals {
        let more = stepped_by(alloc, scope, head, parts, place, goal)?;
        left.append(more)?;
    }
    Ok(left)
}

/// What a step of this head, these parts and this place makes of a goal.
#[cycle(tactic)]
fn stepped_by(
    alloc: Global,
    scope: &Scope,
    head: Head,
    parts: &[Node],
    place: Place,
    goal: &Sequent,
) -> Result<Sequents, Refused>
    ensures { (f : Tree → Stepping) → AreRules scope.now f → Answers (stepped_by scope.now f head (with_works scope.now f parts.now) place goal.now) result }
{
    match head {
        Head::Tactic | Head::BothPatterns => in_turn(alloc, scope, parts, goal),
        Head::Group => match parts {
            [tactic] => work(alloc, scope, tactic, from_ref(goal)),
            _ => Err(not_built(place)),
        },
        Head::Try => match parts {
            [step] => attempt(alloc, scope, step, goal),
            _ => Err(not_built(place)),
        },
        Head::Repeat => match parts {
            [count, step] => times(alloc, scope, step, count, goal),
            _ => Err(not_built(place)),
        },
        Head::By => match parts {
            [step] => by(alloc, scope, step, place, goal),
            _ => Err(not_built(place)),
        },
        Head::Rule => with_patterns(alloc, scope, parts, place, goal),
        Head::NoIntroduction => Ok(only(alloc, goal)?),
        Head::Introduction | Head::Move => introduced(alloc, scope, parts, goal),
        _ => Err(not_built(place)),
    }
}

/// A step that leaves no goals, once `done` works on those that it leaves.
#[cycle(tactic)]
fn by(
    alloc: Global,
    scope: &Scope,
    step: &Node,
    place: Place,
    goal: &Sequent,
) -> Result<Sequents, Refused>
    ensures { (f : Tree → Stepping) → AreRules scope.now f → Answers (works scope.now f step.now (goal.now ∷ []) and_then on_each (f (done_at place))) result }
{
    let left = work(alloc, scope, step, from_ref(goal))?;
    done(alloc, scope, place, left.as_slice())
}

/// A rule, and then the patterns behind it.
#[cycle(tactic)]
fn with_patterns(
    alloc: Global,
    scope: &Scope,
    parts: &[Node],
    place: Place,
    goal: &Sequent,
) -> Result<Sequents, Refused>
    ensures { (f : Tree → Stepping) → AreRules scope.now f → Answers (stepped_by scope.now f Head.Rule (with_works scope.now f parts.now) place goal.now) result }
{
    match parts {
        [tree, introduction] => {
            let goals = placed(ruled(alloc, scope, tree, goal), place)?;
            placed(work(alloc, scope, introduction, goals.as_slice()), place)
        }
        _ => Err(not_built(place)),
    }
}

/// A rule; `move` has none but its patterns.
#[cycle(tactic)]
fn ruled(alloc: Global, scope: &Scope, tree: &Node, goal: &Sequent) -> Result<Sequents, Refused>
    ensures { (f : Tree → Stepping) → AreRules scope.now f → Answers (ruled f (head_of tree.now) (tree.now, works scope.now f tree.now) goal.now) result }
{
    match tree.head {
        Head::Move => work(alloc, scope, tree, from_ref(goal)),
        _ => rule(alloc, scope, tree, goal),
    }
}

/// Patterns on a goal, once all their names are new.
#[cycle(tactic)]
fn introduced(
    alloc: Global,
    scope: &Scope,
    patterns: &[Node],
    goal: &Sequent,
) -> Result<Sequents, Refused>
    ensures { (f : Tree → Stepping) → AreRules scope.now f → Answers (introduced scope.now (with_works scope.now f patterns.now) goal.now) result }
{
    check_new(alloc, scope, goal, patterns)?;
    in_turn(alloc, scope, patterns, goal)
}

/// Steps one after another, the first one on a goal.
#[cycle(tactic)]
fn in_turn(
    alloc: Global,
    scope: &Scope,
    steps: &[Node],
    goal: &Sequent,
) -> Result<Sequents, Refused>
    ensures { (f : Tree → Stepping) → AreRules scope.now f → Answers (in_turn (each_works scope.now f steps.now) (goal.now ∷ [])) result }
{
    let goals = only(alloc, goal)?;
    let mut left = goals;
    for step in steps {
        left = work(alloc, scope, step, left.as_slice())?;
    }
    Ok(left)
}

/// One tactic for each goal, as many as there are goals.
#[cycle(tactic)]
fn spread(
    alloc: Global,
    scope: &Scope,
    tactics: &[Node],
    place: Place,
    goals: &[Sequent],
) -> Result<Sequents, Refused>
    ensures { (f : Tree → Stepping) → AreRules scope.now f → Answers (spread (each_works scope.now f tactics.now) place goals.now) result }
{
    if tactics.len() != goals.len() {
        return Err(argument(place));
    }
    let mut left = Items::new(alloc);
    for (i, tactic) in tactics.iter().enumerate() {
        let more = work(alloc, scope, tactic, from_ref(&goals[i]))?;
        left.append(more)?;
    }
    Ok(left)
}

/// A step on one goal, which a refusal leaves. Want of memory isn't caught.
#[cycle(tactic)]
fn attempt(alloc: Global, scope: &Scope, step: &Node, goal: &Sequent) -> Result<Sequents, Refused>
    ensures { (f : Tree → Stepping) → AreRules scope.now f → Answers (or_left (works scope.now f step.now (goal.now ∷ [])) goal.now) result }
{
    let made = work(alloc, scope, step, from_ref(goal));
    or_left(alloc, goal, made)
}

/// A step 1 to 64 times, the first time on a goal.
#[cycle(tactic)]
fn times(
    alloc: Global,
    scope: &Scope,
    step: &Node,
    count: &Node,
    goal: &Sequent,
) -> Result<Sequents, Refused>
    ensures { (f : Tree → Stepping) → AreRules scope.now f
        → Answers (times (number_of (text_of count.now)) (place_of count.now) (works scope.now f step.now) (goal.now ∷ [])) result }
{
    let Some(rounds) = times_allowed(count) else {
        return Err(argument(count.place));
    };
    let goals = only(alloc, goal)?;
    let mut left = goals;
    for _ in 0..rounds {
        left = work(alloc, scope, step, left.as_slice())?;
    }
    Ok(left)
}
