//! The rule `conseq`.

ghost use Rattle.std.specs.Prelude.{◌≡◌, map, IfOk};
ghost use Rattle.gb_goal.specs.Answers.{Answers};
ghost use Rattle.gb_goal.specs.Goal.{code_of, form_of};
ghost use Rattle.gb_goal.specs.Goal.Goal.{ambient, phoare};
ghost use Rattle.gb_goal.specs.Rows.{answered, concluding, each_concluding};
ghost use Rattle.gb_steps.specs.declared.step.Weakened.{Weakened as Conditions};
ghost use Rattle.gb_typing.specs.Context.{Context};
ghost use Rattle.gb_typing.specs.Forms.{every as in_every};
ghost use Rattle.gb_typing.specs.Rules.{IsSoundRule};
ghost use Rattle.gb_bodies.specs.Conseq.{bound_goals, conseq_row, of_chance, of_one, of_two, or_old, IsTypedWeakened};
ghost use Rattle.gb_prog.specs.Likely.{as_likely};
ghost use Rattle.gb_prog.specs.Judged.{goal_judged};

use crate::goals::{leads, pair_leads, three_goals};
use gb_core::refusal::Refused;
use gb_goal::sequent::{Sequent, Sequents};
use gb_prog::compared::compared;
use gb_prog::forms::{every, likely};
use gb_prog::judged::{Judged, equiv_of, hoare_of, judgment, phoare_of};
use gb_prog::subgoals::{no_shape, one_goal};
use gb_steps::step::Weakened;
use gb_terms::op::{Rel, Side};
use gb_terms::term::{Form, RealTerm, Subject, Term};
use sqlite_items::Items;
use std::alloc::{AllocError, Global};

/// A judgment with a probability, but for what it speaks of.
#[derive(Clone, Copy)]
pub struct Bounded<'a> {
    pub rel: Rel,
    pub pre: &'a Form,
    pub post: &'a Form,
    pub bound: &'a RealTerm,
}

/// What is said anew, or else what stood there.
fn or_old<'a>(new: &'a Option<Term>, old: &'a Term) -> &'a Term
    ensures { result.now ≡ or_old new.now old.now }
{
    match new {
        Some(new) => new,
        None => old,
    }
}

/// The old postcondition and the new one, so that one is as likely as the relation to the bound asks, in every memory.
fn as_likely(alloc: Global, rel: Rel, old: &Form, new: &Form) -> Result<Form, AllocError>
    ensures { IfOk result (λ made. made ≡ form_of (ambient (in_every Side.Own (as_likely rel old.now new.now)))) }
{
    let form = likely(alloc, rel, old, new)?;
    every(alloc, Side::Own, form)
}

/// The goals of a judgment that a postcondition always holds.
fn of_one(
    alloc: Global,
    goal: &Sequent,
    new: &Weakened,
    subject: &Subject,
    pre: &Form,
    post: &Form,
) -> Result<Sequents, AllocError>
    ensures { IfOk result (λ goals. goals ≡ map (concluding goal.now) (of_one new.now (code_of subject.now) pre.now post.now)) }
{
    let before = or_old(&new.pre, pre);
    let after = or_old(&new.post, post);
    let last = hoare_of(alloc, subject, before.share()?, after.share()?)?;
    let first = leads(alloc, pre, before)?;
    let second = leads(alloc, after, post)?;
    three_goals(alloc, goal, first, second, last)
}

/// The goals of an equivalence.
fn of_two(
    alloc: Global,
    goal: &Sequent,
    new: &Weakened,
    left: &Subject,
    right: &Subject,
    pre: &Form,
    post: &Form,
) -> Result<Sequents, AllocError>
    ensures { IfOk result (λ goals. goals ≡ map (concluding goal.now) (of_two new.now (code_of left.now) (code_of right.now) pre.now post.now)) }
{
    let before = or_old(&new.pre, pre);
    let after = or_old(&new.post, post);
    let last = equiv_of(alloc, left, right, before.share()?, after.share()?)?;
    let first = pair_leads(alloc, pre, before)?;
    let second = pair_leads(alloc, after, post)?;
    three_goals(alloc, goal, first, second, last)
}

/// The goal that a new bound stands so to the old one.
fn bound_goals(
    alloc: Global,
    goal: &Sequent,
    rel: Rel,
    new: &Option<RealTerm>,
    old: &RealTerm,
) -> Result<Sequents, AllocError>
    ensures { IfOk result (λ goals. goals ≡ map (concluding goal.now) (bound_goals rel new.now old.now)) }
{
    match new {
        Some(new) => {
            let new = new.share()?;
            let form = compared(alloc, rel, new, old.share()?)?;
            one_goal(alloc, goal, form)
        }
        None => Ok(Items::new(alloc)),
    }
}

/// A judgment with a probability, of other conditions and another bound.
fn weakened(
    alloc: Global,
    new: &Weakened,
    subject: &Subject,
    old: &Bounded<'_>,
) -> Result<Form, AllocError>
    ensures { IfOk result (λ made. made ≡ form_of (phoare (code_of subject.now) old.now.rel (or_old new.now.pre old.now.pre.now)
        (or_old new.now.post old.now.post.now) (or_old new.now.bound old.now.bound.now))) }
{
    let pre = or_old(&new.pre, old.pre).share()?;
    let post = or_old(&new.post, old.post).share()?;
    let bound = or_old(&new.bound, old.bound).share()?;
    phoare_of(alloc, subject, old.rel, pre, post, bound)
}

/// The goals of a judgment with a probability.
fn of_chance(
    alloc: Global,
    goal: &Sequent,
    new: &Weakened,
    subject: &Subject,
    old: &Bounded<'_>,
) -> Result<Sequents, AllocError>
    ensures { IfOk result (λ goals. goals ≡ map (concluding goal.now)
        (of_chance new.now (code_of subject.now) old.now.rel old.now.pre.now old.now.post.now old.now.bound.now)) }
{
    let last = weakened(alloc, new, subject, old)?;
    let first = leads(alloc, old.pre, or_old(&new.pre, old.pre))?;
    let second = as_likely(alloc, old.rel, old.post, or_old(&new.post, old.post))?;
    let rest = three_goals(alloc, goal, first, second, last)?;
    let mut goals = bound_goals(alloc, goal, old.rel, &new.bound, old.bound)?;
    goals.append(rest)?;
    Ok(goals)
}

/// The subgoals of a judgment.
fn subgoals(
    alloc: Global,
    goal: &Sequent,
    new: &Weakened,
    old: Judged<'_>,
) -> Result<Sequents, Refused>
    ensures { Answers (each_concluding goal.now (conseq_row new.now (goal_judged old.entry))) result }
{
    match (old, &new.bound) {
        (Judged::Hoare(subject, pre, post), None) => {
            Ok(of_one(alloc, goal, new, subject, pre, post)?)
        }
        (Judged::Phoare(subject, rel, pre, post, bound), _) => {
            let old = Bounded {
                rel,
                pre,
                post,
                bound,
            };
            Ok(of_chance(alloc, goal, new, subject, &old)?)
        }
        (Judged::Equiv(left, right, pre, post), None) => {
            Ok(of_two(alloc, goal, new, left, right, pre, post)?)
        }
        _ => Err(no_shape()),
    }
}

/// The subgoals of `conseq`: the old precondition leads to the new one, the new postcondition to the old one, and the judgment has the
/// new ones. With a probability the postconditions stand to each other as its relation to the bound asks, and a new bound stands so to
/// the old one. Refused with `Shape` where the goal is no judgment, and where a bound is said of one without a probability.
pub fn conseq(alloc: Global, goal: &Sequent, new: &Weakened) -> Result<Sequents, Refused>
    ensures { Answers (answered (conseq_row new.now) goal.now) result }
{
    subgoals(alloc, goal, new, judgment(&goal.conclusion))
}

/// `conseq` is sound.
pub fn conseq_is_sound()
    ensures { (c : Context) (w : Conditions) → IsSoundRule c (conseq_row w) (IsTypedWeakened c w) }
{}
