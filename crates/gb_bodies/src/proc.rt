//! The rule `proc`.

ghost use Rattle.std.specs.Prelude.{◌≡◌, ◌∷◌, [], IfOk};
ghost use Rattle.std.specs.Option.{option_zip};
ghost use Rattle.gb_meaning.specs.Declared.{declared};
ghost use Rattle.gb_typing.specs.Scopes.{context_of, IsTypedScope};
ghost use Rattle.gb_typing.specs.Sequents.{of_sequent, IsTypedSequent};
ghost use Rattle.gb_goal.specs.declared.sequent.Sequent.{Sequent as TypedSequent};
ghost use Rattle.gb_goal.specs.Answers.{Answers};
ghost use Rattle.gb_goal.specs.Goal.{form_of};
ghost use Rattle.gb_goal.specs.Goal.Code.{body};
ghost use Rattle.gb_goal.specs.Goal.Goal.{hoare, phoare, equiv};
ghost use Rattle.gb_goal.specs.Rows.{answered, each_concluding};
ghost use Rattle.gb_goal.specs.Scope.{Declarations};
ghost use Rattle.gb_walk.specs.Change.{term_changed};
ghost use Rattle.gb_typing.specs.Rules.{IsSoundRuleIn, no_arguments};
ghost use Rattle.gb_typing.specs.Calls.{returned};
ghost use Rattle.gb_bodies.specs.Proc.{of_chance, of_one, of_result, of_two, proc_row};

use gb_core::Shared;
use gb_core::name::Name;
use gb_core::refusal::Refused;
use gb_core::var::Var;
use gb_goal::goal::{Code, Goal, equiv, goal_of, hoare, phoare};
use gb_goal::scope::Scope;
use gb_goal::sequent::{Sequent, Sequents};
use gb_prog::forms::located;
use gb_prog::subgoals::{no_shape, one_goal};
use gb_terms::decl::Proc;
use gb_terms::op::{Read, Rel, Side};
use gb_terms::term::{Form, RealTerm};
use gb_walk::change::Change;
use gb_walk::walk::changed;
use std::alloc::{AllocError, Global};

/// The variable that stands for the result of a procedure.
const RESULT: &str = "res";

/// The result of a procedure in a memory becomes the term that the procedure returns.
fn returned(alloc: Global, proc: &Proc, side: Side) -> Result<Change, AllocError>
    ensures { IfOk result (λ made. made ≡ returned side proc.now) }
{
    let name = Name::from_str(alloc, RESULT)?;
    let value = located(alloc, &proc.value, side)?;
    let var = Var::Local { name };
    Ok(Change::ToTerm(Read::Program { var, side }, value))
}

/// What is said of the result of a procedure, of the term that it returns.
fn said_of_one(alloc: Global, proc: &Proc, post: &Form) -> Result<Form, AllocError>
    ensures { IfOk result (λ made. made ≡ of_result proc.now post.now) }
{
    let result = returned(alloc, proc, Side::Own)?;
    changed(alloc, post, &[result])
}

/// The judgment on the body of a procedure.
fn one_entered(alloc: Global, proc: &Proc, pre: &Form, post: &Form) -> Result<Form, AllocError>
    ensures { IfOk result (λ made. made ≡ form_of (hoare (body proc.now.body.list) pre.now (of_result proc.now post.now))) }
{
    let post = said_of_one(alloc, proc, post)?;
    let pre = pre.share()?;
    let list = proc.body.list.share()?;
    hoare(alloc, list, pre, post)
}

/// The judgment on the body of a procedure, with a probability.
fn chance_entered(
    alloc: Global,
    proc: &Proc,
    rel: Rel,
    pre: &Form,
    post: &Form,
    bound: &RealTerm,
) -> Result<Form, AllocError>
    ensures { IfOk result (λ made. made ≡ form_of (phoare (body proc.now.body.list) rel pre.now (of_result proc.now post.now) bound.now)) }
{
    let post = said_of_one(alloc, proc, post)?;
    let pre = pre.share()?;
    let bound = bound.share()?;
    let list = proc.body.list.share()?;
    phoare(alloc, list, rel, pre, post, bound)
}

/// The judgment on the bodies of two procedures.
fn two_entered(
    alloc: Global,
    left: &Proc,
    right: &Proc,
    pre: &Form,
    post: &Form,
) -> Result<Form, AllocError>
    ensures { IfOk result (λ made. made ≡ form_of (equiv (body left.now.body.list) (body right.now.body.list) pre.now
        (term_changed post.now (returned Side.Left left.now ∷ returned Side.Right right.now ∷ [])))) }
{
    let here = returned(alloc, left, Side::Left)?;
    let there = returned(alloc, right, Side::Right)?;
    let post = changed(alloc, post, &[here, there])?;
    let pre = pre.share()?;
    let left = left.body.list.share()?;
    let right = right.body.list.share()?;
    equiv(alloc, left, right, pre, post)
}

/// The goal on the body of a procedure, where it is known.
fn of_one(
    alloc: Global,
    goal: &Sequent,
    found: Option<Shared<Proc>>,
    pre: &Form,
    post: &Form,
) -> Result<Sequents, Refused>
    ensures { Answers (each_concluding goal.now (of_one pre.now post.now found)) result }
{
    let Some(proc) = found else {
        return Err(no_shape());
    };
    let conclusion = one_entered(alloc, proc.get(), pre, post)?;
    Ok(one_goal(alloc, goal, conclusion)?)
}

/// The same with a probability.
fn of_chance(
    alloc: Global,
    goal: &Sequent,
    found: Option<Shared<Proc>>,
    rel: Rel,
    pre: &Form,
    post: &Form,
    bound: &RealTerm,
) -> Result<Sequents, Refused>
    ensures { Answers (each_concluding goal.now (of_chance rel pre.now post.now bound.now found)) result }
{
    let Some(proc) = found else {
        return Err(no_shape());
    };
    let conclusion = chance_entered(alloc, proc.get(), rel, pre, post, bound)?;
    Ok(one_goal(alloc, goal, conclusion)?)
}

/// The same of two procedures.
fn of_two(
    alloc: Global,
    goal: &Sequent,
    left: Option<Shared<Proc>>,
    right: Option<Shared<Proc>>,
    pre: &Form,
    post: &Form,
) -> Result<Sequents, Refused>
    ensures { Answers (each_concluding goal.now (of_two pre.now post.now (option_zip left right))) result }
{
    let (Some(left), Some(right)) = (left, right) else {
        return Err(no_shape());
    };
    let conclusion = two_entered(alloc, left.get(), right.get(), pre, post)?;
    Ok(one_goal(alloc, goal, conclusion)?)
}

/// The subgoals of `proc`: from concrete procedures to their bodies. Parameters are locals, and the postcondition speaks of the terms
/// that the procedures return in place of their results. Refused with `Shape` at any other goal.
pub fn proc(alloc: Global, goal: &Sequent, scope: &Scope) -> Result<Sequents, Refused>
    ensures { Answers (answered (proc_row scope.now) goal.now) result }
{
    match goal_of(&goal.conclusion) {
        Goal::Hoare(Code::Procedure(named), pre, post) => {
            let found = scope.procedure(alloc, named)?;
            of_one(alloc, goal, found, pre, post)
        }
        Goal::Phoare(Code::Procedure(named), rel, pre, post, bound) => {
            let found = scope.procedure(alloc, named)?;
            of_chance(alloc, goal, found, rel, pre, post, bound)
        }
        Goal::Equiv(Code::Procedure(left), Code::Procedure(right), pre, post) => {
            let there = scope.procedure(alloc, right)?;
            let here = scope.procedure(alloc, left)?;
            of_two(alloc, goal, here, there, pre, post)
        }
        _ => Err(no_shape()),
    }
}

/// `proc` is sound over each typed scope, at the goal of each typed sequent.
pub fn proc_is_sound()
    ensures { (ds : Declarations) → IsTypedScope (declared ds) → (q : TypedSequent) (t : IsTypedSequent (context_of (declared ds)) q) →
        IsSoundRuleIn (declared ds) (of_sequent (context_of (declared ds)) q t.frames) (proc_row ds) no_arguments }
{}
