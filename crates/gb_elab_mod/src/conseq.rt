// The typing of `conseq`.

ghost use Rattle.std.specs.Prelude.{◌≡◌, [], IfOk};
ghost use Rattle.gb_script.specs.Tree.{parts_of};
ghost use Rattle.gb_goal.specs.Answers.{Answers};
ghost use Rattle.gb_goal.specs.Views.{code_seen, goal_seen};
ghost use Rattle.gb_names.specs.Environment.{ambient, environment, relational, unary};
ghost use Rattle.gb_elab_mod.specs.OnPrograms.{conseq_of, conseq_rule, locals_after, locals_before, of_bodies_rule, said_anew, term_if};

use crate::contract::{params_of, result_if};
use crate::occurring::occurring_between;
use gb_core::refusal::Refused;
use gb_core::ty::Ty;
use gb_elab::form::typed;
use gb_goal::goal::{Code, Goal, goal_of};
use gb_goal::scope::Scope;
use gb_goal::sequent::Sequent;
use gb_names::setting::Setting;
use gb_script::tree::Node;
use gb_steps::step::{Acts, BodyRule, Rule, Weakened};
use gb_terms::decl::Typed;
use gb_terms::op::Side;
use gb_terms::share::copy_typed;
use gb_terms::term::{Form, Term};
use std::alloc::{AllocError, Global};

/// What is written of a precondition, a postcondition and a bound, each at most once.
#[derive(Clone, Copy)]
pub struct Written<'a> {
    pub pre: &'a Node,
    pub post: &'a Node,
    pub bound: &'a Node,
}

/// The conditions of a judgment.
#[derive(Clone, Copy)]
struct Conditions<'a> {
    pre: &'a Form,
    post: &'a Form,
}

/// The locals of a memory before what a judgment speaks of: those that occur in it, or the parameters of a procedure.
fn locals_before(
    alloc: Global,
    scope: &Scope,
    conditions: Conditions<'_>,
    side: Side,
    code: Code<'_>,
) -> Result<Typed, AllocError>
    ensures { IfOk result (λ found. found ≡ locals_before scope.now conditions.entry.pre.now conditions.entry.post.now side (code_seen code.entry)) }
{
    match code {
        Code::Body(list) => {
            occurring_between(alloc, scope, conditions.pre, conditions.post, side, list)
        }
        Code::Procedure(named) => copy_typed(alloc, params_of(scope, named)),
    }
}

/// The locals of a memory after what a judgment speaks of: those that occur in it, or the result of a procedure.
fn locals_after(
    alloc: Global,
    scope: &Scope,
    conditions: Conditions<'_>,
    side: Side,
    code: Code<'_>,
) -> Result<Typed, AllocError>
    ensures { IfOk result (λ found. found ≡ locals_after scope.now conditions.entry.pre.now conditions.entry.post.now side (code_seen code.entry)) }
{
    match code {
        Code::Body(list) => {
            occurring_between(alloc, scope, conditions.pre, conditions.post, side, list)
        }
        Code::Procedure(named) => result_if(alloc, scope, named),
    }
}

/// A term of this type, if one is written.
fn term_if(
    alloc: Global,
    at: &Setting<'_>,
    ty: &Ty,
    written: &Node,
) -> Result<Option<Term>, Refused>
    ensures { Answers (term_if (environment at.now) ty.now (parts_of written.now)) result }
{
    match written.parts.as_slice() {
        [] => Ok(None),
        [tree, ..] => {
            let term = typed(alloc, at, &[], tree, Some(ty))?;
            Ok(Some(term))
        }
    }
}

/// What is written of a precondition, a postcondition and a bound, each where it stands.
fn said_anew(
    alloc: Global,
    before: &Setting<'_>,
    after: &Setting<'_>,
    around: &Setting<'_>,
    written: &Written<'_>,
) -> Result<Rule, Refused>
    ensures { Answers (of_bodies_rule (said_anew (environment before.now) (environment after.now) (environment around.now) (parts_of written.now.pre.now) (parts_of written.now.post.now) (parts_of written.now.bound.now))) result }
{
    let pre = term_if(alloc, before, &Ty::Bool, written.pre)?;
    let post = term_if(alloc, after, &Ty::Bool, written.post)?;
    let bound = term_if(alloc, around, &Ty::Real, written.bound)?;
    Ok(Rule::OnBodies(BodyRule::Conseq(Weakened { pre, post, bound })))
}

/// What is written at a judgment of one program.
fn of_one<'a>(
    alloc: Global,
    scope: &'a Scope,
    goal: &'a Sequent,
    code: Code<'_>,
    conditions: Conditions<'_>,
    written: &Written<'_>,
) -> Result<Rule, Refused>
    ensures { Answers (of_bodies_rule (said_anew
        (unary scope.now goal.now (locals_before scope.now conditions.entry.pre.now conditions.entry.post.now Side.Own (code_seen code.entry)))
        (unary scope.now goal.now (locals_after scope.now conditions.entry.pre.now conditions.entry.post.now Side.Own (code_seen code.entry)))
        (ambient scope.now goal.now) (parts_of written.now.pre.now) (parts_of written.now.post.now) (parts_of written.now.bound.now))) result }
{
    let before = locals_before(alloc, scope, conditions, Side::Own, code)?;
    let after = locals_after(alloc, scope, conditions, Side::Own, code)?;
    let before = Setting::unary(scope, goal, before.as_slice());
    let after = Setting::unary(scope, goal, after.as_slice());
    said_anew(
        alloc,
        &before,
        &after,
        &Setting::ambient(scope, goal),
        written,
    )
}

/// What is written at an equivalence of two programs.
fn of_two<'a>(
    alloc: Global,
    scope: &'a Scope,
    goal: &'a Sequent,
    codes: (Code<'_>, Code<'_>),
    conditions: Conditions<'_>,
    written: &Written<'_>,
) -> Result<Rule, Refused>
    ensures { Answers (of_bodies_rule (said_anew
        (relational scope.now goal.now (locals_before scope.now conditions.entry.pre.now conditions.entry.post.now Side.Left (code_seen codes.entry.0))
        (locals_before scope.now conditions.entry.pre.now conditions.entry.post.now Side.Right (code_seen codes.entry.1)))
        (relational scope.now goal.now (locals_after scope.now conditions.entry.pre.now conditions.entry.post.now Side.Left (code_seen codes.entry.0))
        (locals_after scope.now conditions.entry.pre.now conditions.entry.post.now Side.Right (code_seen codes.entry.1)))
        (ambient scope.now goal.now) (parts_of written.now.pre.now) (parts_of written.now.post.now) (parts_of written.now.bound.now))) result }
{
    let (left, right) = codes;
    let here = locals_before(alloc, scope, conditions, Side::Left, left)?;
    let there = locals_before(alloc, scope, conditions, Side::Right, right)?;
    let before = Setting::relational(scope, goal, here.as_slice(), there.as_slice());
    let here = locals_after(alloc, scope, conditions, Side::Left, left)?;
    let there = locals_after(alloc, scope, conditions, Side::Right, right)?;
    let after = Setting::relational(scope, goal, here.as_slice(), there.as_slice());
    said_anew(
        alloc,
        &before,
        &after,
        &Setting::ambient(scope, goal),
        written,
    )
}

/// What is written at a goal that is seen so.
#[tactic(auto, unfolding(crate::specs::OnPrograms::conseq_of))]
fn conseq_of(
    alloc: Global,
    scope: &Scope,
    goal: &Sequent,
    seen: Goal<'_>,
    written: &Written<'_>,
) -> Result<Rule, Refused>
    ensures { Answers (of_bodies_rule (conseq_of scope.now goal.now (goal_seen seen.entry) (parts_of written.now.pre.now) (parts_of written.now.post.now) (parts_of written.now.bound.now))) result }
{
    match seen {
        Goal::Hoare(code, pre, post) | Goal::Phoare(code, _, pre, post, _) => {
            of_one(alloc, scope, goal, code, Conditions { pre, post }, written)
        }
        Goal::Equiv(left, right, pre, post) => {
            of_two(
                alloc,
                scope,
                goal,
                (left, right),
                Conditions { pre, post },
                written,
            )
        }
        Goal::Ambient(_) => Ok(Rule::OnBodies(BodyRule::Unfit)),
    }
}

/// The typed step of `conseq`: its conditions read the locals before and after what the goal speaks of, and its bound none.
///
/// # Errors
///
/// Those of typing.
pub fn conseq_rule(
    alloc: Global,
    scope: &Scope,
    goal: &Sequent,
    acts: Acts,
    written: &Written<'_>,
) -> Result<Rule, Refused>
    ensures { Answers (of_bodies_rule (conseq_rule scope.now goal.now acts (parts_of written.now.pre.now) (parts_of written.now.post.now) (parts_of written.now.bound.now))) result }
{
    match acts {
        Acts::All => conseq_of(alloc, scope, goal, goal_of(&goal.conclusion), written),
        _ => Ok(Rule::OnBodies(BodyRule::Unfit)),
    }
}
