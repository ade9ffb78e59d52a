// The forms that `seq`, `case` and `while` say of bodies.

ghost use Rattle.std.specs.Prelude.{◌≡◌, [], ◌∷◌, Some};
ghost use Rattle.gb_core.specs.declared.ty.Ty.TheVariants.{Bool};
ghost use Rattle.gb_terms.specs.declared.op.Side.TheVariants.{Own, Left, Right};
ghost use Rattle.gb_names.specs.Environment.{relational, unary};
ghost use Rattle.gb_elab.specs.Forms.{elaborated};
ghost use Rattle.gb_elab_mod.specs.Occurring.{occurring};
ghost use Rattle.gb_script.specs.Tree.{parts_of};
ghost use Rattle.gb_elab_prog.specs.Unbuilt.{absent};
ghost use Rattle.gb_goal.specs.Answers.{Answers, ◌>>=◌ as ◌and_then◌};
ghost use Rattle.gb_goal.specs.Goal.{goal_of};
ghost use Rattle.gb_goal.specs.Views.{goal_seen};
ghost use Rattle.gb_elab_mod.specs.Multiples.{position};
ghost use Rattle.gb_elab_mod.specs.OnPrograms.{case_of_bodies, cut_of, cut_rule, of_bodies_rule, said_of_bodies, seq_rule, while_rule};

use crate::forms::{form_on_one, form_on_two};
use crate::occurring::occurring_between;
use gb_core::place::Place;
use gb_core::refusal::Refused;
use gb_elab_prog::unbuilt::refuse_any;
use gb_goal::goal::{Code, Goal, goal_of};
use gb_goal::scope::Scope;
use gb_goal::sequent::Sequent;
use gb_limits::numbers::number;
use gb_script::tree::Node;
use gb_steps::step::{Acts, BodyRule, Cut, Invariant, Rule};
use gb_terms::op::Side;
use gb_terms::term::{Form, Instr};
use std::alloc::Global;

/// A number, as a position in a body. No body is as long as the numbers that the reader doesn't let pass.
pub fn position(digits: &Node) -> u128
    ensures { result ≡ position digits.now }
{
    match number(digits.text.as_str().as_bytes()) {
        Ok(n) => n,
        Err(_) => 1 << 127,
    }
}

/// What is written of a cut: its position in a body, that in a second body, if there is one, and bounds, which aren't built.
#[derive(Clone, Copy)]
pub struct Cutting<'a> {
    pub first: &'a Node,
    pub second: &'a Node,
    pub bounds: &'a Node,
}

/// The positions of a cut, in one body or in two.
fn cut_of(first: &Node, second: &Node) -> Cut
    ensures { result ≡ cut_of first.now (parts_of second.now) }
{
    match second.parts.as_slice() {
        [] => Cut::One(position(first)),
        [second, ..] => Cut::Two(position(first), position(second)),
    }
}

/// A form over the locals that occur in a judgment of one body.
fn on_one(
    alloc: Global,
    scope: &Scope,
    goal: &Sequent,
    body: &[Instr],
    pre: &Form,
    post: &Form,
    tree: &Node,
) -> Result<Form, Refused>
    ensures { Answers (elaborated tree.now (unary scope.now goal.now (occurring scope.now (pre.now ∷ post.now ∷ []) Own body.now)) [] (Some Bool)) result }
{
    let locals = occurring_between(alloc, scope, pre, post, Side::Own, body)?;
    form_on_one(alloc, scope, goal, locals.as_slice(), tree)
}

/// A form over the locals that occur in an equivalence of two bodies.
fn on_two(
    alloc: Global,
    scope: &Scope,
    goal: &Sequent,
    bodies: (&[Instr], &[Instr]),
    pre: &Form,
    post: &Form,
    tree: &Node,
) -> Result<Form, Refused>
    ensures { Answers (elaborated tree.now (relational scope.now goal.now (occurring scope.now (pre.now ∷ post.now ∷ []) Left bodies.entry.0.now) (occurring scope.now (pre.now ∷ post.now ∷ []) Right bodies.entry.1.now)) [] (Some Bool)) result }
{
    let (left, right) = bodies;
    let left = occurring_between(alloc, scope, pre, post, Side::Left, left)?;
    let right = occurring_between(alloc, scope, pre, post, Side::Right, right)?;
    form_on_two(alloc, scope, goal, left.as_slice(), right.as_slice(), tree)
}

/// The form between the parts of the bodies of a goal that is seen so.
#[tactic(auto, unfolding(crate::specs::OnPrograms::cut_rule))]
fn cut_rule(
    alloc: Global,
    scope: &Scope,
    goal: &Sequent,
    at: Cut,
    between: &Node,
    seen: Goal<'_>,
) -> Result<BodyRule, Refused>
    ensures { Answers (cut_rule scope.now goal.now at between.now (goal_seen seen.entry)) result }
{
    match (at, seen) {
        (Cut::One(_), Goal::Hoare(Code::Body(body), pre, post)) => {
            let form = on_one(alloc, scope, goal, body, pre, post, between)?;
            Ok(BodyRule::Seq(at, form))
        }
        (Cut::Two(..), Goal::Equiv(Code::Body(left), Code::Body(right), pre, post)) => {
            let form = on_two(alloc, scope, goal, (left, right), pre, post, between)?;
            Ok(BodyRule::Seq(at, form))
        }
        _ => Ok(BodyRule::Unfit),
    }
}

/// A form that a step says of the bodies of a judgment that is seen so.
#[tactic(auto, unfolding(crate::specs::OnPrograms::said_of_bodies))]
fn said_of_bodies(
    alloc: Global,
    scope: &Scope,
    goal: &Sequent,
    form: &Node,
    seen: Goal<'_>,
) -> Result<Option<Form>, Refused>
    ensures { Answers (said_of_bodies scope.now goal.now form.now (goal_seen seen.entry)) result }
{
    match seen {
        Goal::Hoare(Code::Body(body), pre, post)
        | Goal::Phoare(Code::Body(body), _, pre, post, _) => {
            let form = on_one(alloc, scope, goal, body, pre, post, form)?;
            Ok(Some(form))
        }
        Goal::Equiv(Code::Body(left), Code::Body(right), pre, post) => {
            let form = on_two(alloc, scope, goal, (left, right), pre, post, form)?;
            Ok(Some(form))
        }
        _ => Ok(None),
    }
}

/// The typed step of `case`, with its form, at a judgment of bodies.
///
/// # Errors
///
/// Those of the form, over the locals that occur in the goal.
pub fn case_of_bodies(
    alloc: Global,
    scope: &Scope,
    goal: &Sequent,
    form: &Node,
) -> Result<Rule, Refused>
    ensures { Answers (of_bodies_rule (case_of_bodies scope.now goal.now form.now (goal_of goal.now.conclusion))) result }
{
    match said_of_bodies(alloc, scope, goal, form, goal_of(&goal.conclusion))? {
        Some(form) => Ok(Rule::OnBodies(BodyRule::Case(form))),
        None => Ok(Rule::OnBodies(BodyRule::Unfit)),
    }
}

/// The typed step of `while`, with what each turn keeps of the loops that end the bodies.
///
/// # Errors
///
/// Those of the form, over the locals that occur in the goal.
pub fn while_rule(
    alloc: Global,
    scope: &Scope,
    goal: &Sequent,
    acts: Acts,
    kept: &Node,
) -> Result<Rule, Refused>
    ensures { Answers (while_rule scope.now goal.now acts kept.now) result }
{
    match said_of_bodies(alloc, scope, goal, kept, goal_of(&goal.conclusion))? {
        Some(kept) => Ok(Rule::While(Invariant { acts, kept })),
        None => Ok(Rule::OnBodies(BodyRule::Unfit)),
    }
}

/// The typed step of `seq`, with the form between the parts of the bodies.
///
/// # Errors
///
/// `Syntax` of bounds, and those of the form, over the locals that occur in the goal.
pub fn seq_rule(
    alloc: Global,
    scope: &Scope,
    goal: &Sequent,
    acts: Acts,
    at: &Cutting<'_>,
    between: &Node,
    place: Place,
) -> Result<Rule, Refused>
    ensures { Answers (absent (parts_of at.now.bounds.now) place and_then λ _. of_bodies_rule (seq_rule scope.now goal.now acts (cut_of at.now.first.now (parts_of at.now.second.now)) between.now)) result }
{
    refuse_any(at.bounds.parts.as_slice(), place)?;
    let Acts::All = acts else {
        return Ok(Rule::OnBodies(BodyRule::Unfit));
    };
    let cut = cut_of(at.first, at.second);
    let rule = cut_rule(alloc, scope, goal, cut, between, goal_of(&goal.conclusion))?;
    Ok(Rule::OnBodies(rule))
}
