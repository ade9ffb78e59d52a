//! The rule on calls of procedures of abstract modules that end bodies, by what their oracles keep.

ghost use Rattle.std.specs.Prelude.{◌≡◌, ◌++◌, [], ◌∷◌, Some, map, IfOk};
ghost use Rattle.std.specs.Option.{option_map};
ghost use Rattle.gb_goal.specs.Answers.{Answers};
ghost use Rattle.gb_core.specs.declared.var.Var.TheVariants.{Glob};
ghost use Rattle.gb_typing.specs.Forms.{and_form};
ghost use Rattle.gb_goal.specs.Goal.{form_of};
ghost use Rattle.gb_goal.specs.Goal.Code.{body};
ghost use Rattle.gb_goal.specs.Goal.Goal.{equiv, hoare};
ghost use Rattle.gb_goal.specs.Rows.{answered, concluding, each_concluding};
ghost use Rattle.gb_walk.specs.Clash.{variables_read};
ghost use Rattle.gb_call.specs.Call.{unless_clash};
ghost use Rattle.gb_call.specs.LastCall.{call_seen};
ghost use Rattle.gb_call.specs.Outcomes.{globals_seen, outcome_seen};
ghost use Rattle.gb_adv.specs.Abstract.{abstract_call, abstract_seen};
ghost use Rattle.gb_adv.specs.Call.{before_call, before_calls, both_goals, by_calls, by_writes, by_written, call_row, clash_of_both, on_both, on_one, one_goals, outcome, read_after};
ghost use Rattle.gb_adv.specs.Equations.{followed_by, same_arguments, same_owner};
ghost use Rattle.gb_adv.specs.Oracles.{each_keeps, writes_of};

use crate::abstract_call::{AbstractCall, abstract_call};
use crate::equations::{followed_by, same_arguments, same_owner};
use crate::oracles::{
    Keeping, copied, each_keep_both, each_keeps, meeting, meeting_both, writes_of,
};
use crate::returns::{Returns, after_calls};
use gb_bodies::goals::of_two;
use gb_call::call::{MANY, read_of, side_condition};
use gb_call::last_call::{Last, last_call};
use gb_call::outcomes::{Outcome, after_call, clashing_after};
use gb_call::written::TypedGlobal;
use gb_core::refusal::{Refused, Why};
use gb_core::var::{Var, Vars};
use gb_forms::calls::Reads;
use gb_goal::goal::{Code, Goal, goal_of, hoare};
use gb_goal::scope::Scope;
use gb_goal::sequent::{Sequent, Sequents};
use gb_mods::exclusions::exclusions;
use gb_mods::meant::meant_by;
use gb_mods::order::{all_of, with_variables};
use gb_mods::procedures::proc_writes;
use gb_prog::subgoals::{no_shape, one_goal, refusal, shared_body};
use gb_terms::make::conjunction;
use gb_terms::op::{Rel, Side};
use gb_terms::term::Form;
use gb_walk::clash::Excluded;
use sqlite_items::Items;
use std::alloc::{AllocError, Global};

/// A call, what is read after it on its side, and the globals that are written and read.
#[derive(Clone, Copy)]
pub struct ReadCall<'a> {
    pub of: &'a AbstractCall<'a>,
    pub reads: &'a Reads,
    pub globals: &'a [TypedGlobal],
}

/// What the call changes in a memory.
pub fn outcome<'a>(side: Side, read: &ReadCall<'a>) -> Outcome<'a>
    ensures { outcome_seen result ≡ outcome side (abstract_seen read.now.of.now) (globals_seen read.now.globals.now) }
{
    let of = read.of;
    Outcome {
        side,
        targets: of.call.targets,
        result: of.called.ty.result,
        globals: read.globals,
    }
}

/// The form holds, the arguments are the same, and so is all that is the module's own.
fn alike(
    alloc: Global,
    left: &AbstractCall<'_>,
    right: &AbstractCall<'_>,
    kept: &Form,
) -> Result<Form, AllocError>
    ensures { IfOk result (λ made. made ≡
        and_form (followed_by kept.now (same_arguments (abstract_seen left.now).call.arguments (abstract_seen right.now).call.arguments)) (same_owner (abstract_seen left.now).called.owner)) }
{
    let (here, there) = (left.call.arguments, right.call.arguments);
    let equal = same_arguments(alloc, Items::new(alloc), here, there)?;
    let holds = followed_by(alloc, kept.share()?, equal.as_slice())?;
    conjunction(alloc, holds, same_owner(alloc, left.called.owner)?)
}

/// The form holds, the arguments are the same, and so is all that is the module's own; and this leads to what is to hold after the calls.
fn before_calls(
    alloc: Global,
    left: &ReadCall<'_>,
    right: &ReadCall<'_>,
    kept: &Form,
    post: &Form,
) -> Result<Form, AllocError>
    requires left_said { left.now.reads.now.said ≡ variables_read Side.Left kept.now }
    requires left_later { left.now.reads.now.after ≡ variables_read Side.Left post.now }
    requires right_said { right.now.reads.now.said ≡ variables_read Side.Right kept.now }
    requires right_later { right.now.reads.now.after ≡ variables_read Side.Right post.now }
    ensures { IfOk result (λ made. made ≡ before_calls (abstract_seen left.now.of.now) (globals_seen left.now.globals.now)
        (abstract_seen right.now.of.now) (globals_seen right.now.globals.now) kept.now post.now) }
{
    let (here, there) = (left.of, right.of);
    let holds = alike(alloc, here, there, kept)?;
    let owner = here.called.owner;
    let returns = Returns {
        owner,
        left: outcome(Side::Left, left),
        right: outcome(Side::Right, right),
    };
    let leads = after_calls(alloc, &returns, left.reads, right.reads, kept, post)?;
    conjunction(alloc, holds, leads)
}

/// What stands before the calls leads to where they may be made.
fn leads_to_calls(
    alloc: Global,
    keeping: &Keeping<'_>,
    left: &ReadCall<'_>,
    right: &ReadCall<'_>,
) -> Result<Form, AllocError>
    requires left_said { left.now.reads.now.said ≡ variables_read Side.Left keeping.now.kept.now }
    requires left_later { left.now.reads.now.after ≡ variables_read Side.Left keeping.now.post.now }
    requires right_said { right.now.reads.now.said ≡ variables_read Side.Right keeping.now.kept.now }
    requires right_later { right.now.reads.now.after ≡ variables_read Side.Right keeping.now.post.now }
    ensures { IfOk result (λ made. made ≡ form_of (equiv (body (abstract_seen left.now.of.now).call.before) (body (abstract_seen right.now.of.now).call.before) keeping.now.pre.now
        (before_calls (abstract_seen left.now.of.now) (globals_seen left.now.globals.now)
        (abstract_seen right.now.of.now) (globals_seen right.now.globals.now) keeping.now.kept.now keeping.now.post.now))) }
{
    let before = before_calls(alloc, left, right, keeping.kept, keeping.post)?;
    let (here, there) = (left.of, right.of);
    let (here, there) = (here.call.before, there.call.before);
    of_two(alloc, here, there, keeping.pre, before)
}

/// The oracles keep the form, and what stands before the calls leads to where they may be made.
#[tactic(auto, using(crate::proofs::OracleSteps::refused_behind))]
fn both_goals(
    alloc: Global,
    keeping: &Keeping<'_>,
    left: &ReadCall<'_>,
    right: &ReadCall<'_>,
) -> Result<Sequents, Refused>
    requires left_said { left.now.reads.now.said ≡ variables_read Side.Left keeping.now.kept.now }
    requires left_later { left.now.reads.now.after ≡ variables_read Side.Left keeping.now.post.now }
    requires right_said { right.now.reads.now.said ≡ variables_read Side.Right keeping.now.kept.now }
    requires right_later { right.now.reads.now.after ≡ variables_read Side.Right keeping.now.post.now }
    ensures { Answers (each_concluding keeping.now.goal.now (both_goals keeping.now.scope.now (abstract_seen left.now.of.now) (abstract_seen right.now.of.now)
        keeping.now.kept.now keeping.now.pre.now keeping.now.post.now (Some (globals_seen left.now.globals.now)) (Some (globals_seen right.now.globals.now)))) result }
{
    let last = leads_to_calls(alloc, keeping, left, right)?;
    let (here, there) = (left.of, right.of);
    let (here, there) = (here.called.oracles, there.called.oracles);
    let mut goals = each_keep_both(alloc, keeping, here, there)?;
    goals.append(one_goal(alloc, keeping.goal, last)?)?;
    Ok(goals)
}

/// All that is the module's own, and what the oracles of a call write.
fn all_written(alloc: Global, of: &AbstractCall<'_>, written: &[Var]) -> Result<Vars, AllocError>
    ensures { IfOk result (λ made. made ≡ Glob (abstract_seen of.now).called.owner ∷ written.now) }
{
    let own = all_of(alloc, of.called.owner)?;
    with_variables(alloc, own, written)
}

/// The least variable that is replaced on either side, of the left sides, what oracles write and all that is the module's own, with which
/// another one clashes.
#[tactic(auto, using(gb_call_both::proofs::BothSteps::least_both))]
pub fn clash_of_both<'a>(
    alloc: Global,
    exclusions: &[Excluded],
    keeping: &Keeping<'_>,
    left: &AbstractCall<'a>,
    written: &[Var],
    right: &AbstractCall<'a>,
    others: &[Var],
) -> Result<Option<Var>, AllocError>
    ensures { IfOk result (λ made. made ≡
        clash_of_both exclusions.now (abstract_seen left.now) (abstract_seen right.now) keeping.now.kept.now keeping.now.post.now written.now others.now) }
{
    let (kept, post) = (keeping.kept, keeping.post);
    let written = all_written(alloc, left, written)?;
    let others = all_written(alloc, right, others)?;
    let found = clashing_after(
        None,
        exclusions,
        Side::Left,
        left.call.targets,
        written.as_slice(),
        kept,
        post,
    );
    let found = clashing_after(
        found,
        exclusions,
        Side::Right,
        right.call.targets,
        others.as_slice(),
        kept,
        post,
    );
    copied(alloc, found)
}

/// The goals of two calls of which no variable clashes.
fn by_read(
    alloc: Global,
    keeping: &Keeping<'_>,
    left: &AbstractCall<'_>,
    written: &[Var],
    right: &AbstractCall<'_>,
    others: &[Var],
) -> Result<Sequents, Refused>
    ensures { Answers (each_concluding keeping.now.goal.now (both_goals keeping.now.scope.now (abstract_seen left.now) (abstract_seen right.now)
        keeping.now.kept.now keeping.now.pre.now keeping.now.post.now
        (read_after keeping.now.scope.now Side.Left (abstract_seen left.now) keeping.now.kept.now keeping.now.post.now written.now)
        (read_after keeping.now.scope.now Side.Right (abstract_seen right.now) keeping.now.kept.now keeping.now.post.now others.now))) result }
{
    let Keeping {
        scope,
        kept,
        post,
        ..
    } = *keeping;
    let (side, targets) = (Side::Left, left.call.targets);
    let Some(here) = read_of(alloc, side, scope, targets, written, kept, post)? else {
        return Err(no_shape());
    };
    let (side, targets) = (Side::Right, right.call.targets);
    let Some(there) = read_of(alloc, side, scope, targets, others, kept, post)? else {
        return Err(no_shape());
    };
    let left = ReadCall {
        of: left,
        reads: &here.reads,
        globals: here.globals.as_slice(),
    };
    let right = ReadCall {
        of: right,
        reads: &there.reads,
        globals: there.globals.as_slice(),
    };
    both_goals(alloc, keeping, &left, &right)
}

/// The goals of two calls whose oracles write these, which don't meet what is the module's own.
fn by_clash(
    alloc: Global,
    exclusions: &[Excluded],
    keeping: &Keeping<'_>,
    left: &AbstractCall<'_>,
    written: &[Var],
    right: &AbstractCall<'_>,
    others: &[Var],
) -> Result<Sequents, Refused>
    ensures { Answers (each_concluding keeping.now.goal.now
        (unless_clash (clash_of_both exclusions.now (abstract_seen left.now) (abstract_seen right.now) keeping.now.kept.now keeping.now.post.now written.now others.now)
        (both_goals keeping.now.scope.now (abstract_seen left.now) (abstract_seen right.now) keeping.now.kept.now keeping.now.pre.now keeping.now.post.now
        (read_after keeping.now.scope.now Side.Left (abstract_seen left.now) keeping.now.kept.now keeping.now.post.now written.now)
        (read_after keeping.now.scope.now Side.Right (abstract_seen right.now) keeping.now.kept.now keeping.now.post.now others.now)))) result }
{
    if let Some(var) = clash_of_both(alloc, exclusions, keeping, left, written, right, others)? {
        return Err(refusal(Why::SideCondition(var)));
    }
    by_read(alloc, keeping, left, written, right, others)
}

/// The goals of two calls whose oracles write these.
fn by_writes(
    alloc: Global,
    keeping: &Keeping<'_>,
    left: &AbstractCall<'_>,
    written: &[Var],
    right: &AbstractCall<'_>,
    others: &[Var],
) -> Result<Sequents, Refused>
    ensures { Answers (each_concluding keeping.now.goal.now (by_writes keeping.now.scope.now (abstract_seen left.now) (abstract_seen right.now)
        keeping.now.kept.now keeping.now.pre.now keeping.now.post.now (Some written.now) (Some others.now))) result }
{
    let excluded = exclusions(alloc, keeping.scope)?;
    let excluded = excluded.as_slice();
    let (owner, kept) = (left.called.owner, keeping.kept);
    if let Some(var) = meeting_both(alloc, excluded, owner, kept, written, others)? {
        return Err(refusal(Why::SideCondition(var)));
    }
    by_clash(alloc, excluded, keeping, left, written, right, others)
}

/// The goals of two calls, by what their oracles write.
fn by_oracles(
    alloc: Global,
    keeping: &Keeping<'_>,
    left: &AbstractCall<'_>,
    right: &AbstractCall<'_>,
) -> Result<Sequents, Refused>
    ensures { Answers (each_concluding keeping.now.goal.now (by_writes keeping.now.scope.now (abstract_seen left.now) (abstract_seen right.now)
        keeping.now.kept.now keeping.now.pre.now keeping.now.post.now
        (writes_of keeping.now.scope.now (abstract_seen left.now).called.oracles) (writes_of keeping.now.scope.now (abstract_seen right.now).called.oracles))) result }
{
    let Some(written) = writes_of(alloc, keeping.scope, left.called.oracles)? else {
        return Err(no_shape());
    };
    let Some(others) = writes_of(alloc, keeping.scope, right.called.oracles)? else {
        return Err(no_shape());
    };
    let (written, others) = (written.as_slice(), others.as_slice());
    by_writes(alloc, keeping, left, written, right, others)
}

/// The goals of two calls.
fn by_calls(
    alloc: Global,
    keeping: &Keeping<'_>,
    left: &AbstractCall<'_>,
    right: &AbstractCall<'_>,
) -> Result<Sequents, Refused>
    ensures { Answers (each_concluding keeping.now.goal.now (by_calls keeping.now.scope.now (abstract_seen left.now) (abstract_seen right.now)
        keeping.now.kept.now keeping.now.pre.now keeping.now.post.now)) result }
{
    if !left.called.is_same(&right.called) {
        return Err(no_shape());
    }
    if left.call.targets.len() >= MANY || right.call.targets.len() >= MANY {
        return Err(no_shape());
    }
    by_oracles(alloc, keeping, left, right)
}

/// The goals on two bodies, the left one of which ends with a call of a procedure of an abstract module, and the right one with a call.
fn beside<'a>(
    alloc: Global,
    keeping: &Keeping<'a>,
    left: &AbstractCall<'_>,
    right: Last<'a>,
) -> Result<Sequents, Refused>
    ensures { Answers (each_concluding keeping.now.goal.now (on_both keeping.now.scope.now keeping.now.kept.now keeping.now.pre.now keeping.now.post.now
        (Some (abstract_seen left.now)) (abstract_call keeping.now.scope.now (Some (call_seen right.entry))))) result }
{
    let meant = meant_by(alloc, keeping.scope, right.procedure.get())?;
    let Some(right) = abstract_call(keeping.scope, right, &meant) else {
        return Err(no_shape());
    };
    by_calls(alloc, keeping, left, &right)
}

/// The goals on two bodies that end with these calls.
fn on_both<'a>(
    alloc: Global,
    keeping: &Keeping<'a>,
    left: Option<Last<'a>>,
    right: Option<Last<'a>>,
) -> Result<Sequents, Refused>
    ensures { Answers (each_concluding keeping.now.goal.now (on_both keeping.now.scope.now keeping.now.kept.now keeping.now.pre.now keeping.now.post.now
        (abstract_call keeping.now.scope.now (option_map call_seen left.entry)) (abstract_call keeping.now.scope.now (option_map call_seen right.entry)))) result }
{
    let (Some(left), Some(right)) = (left, right) else {
        return Err(no_shape());
    };
    let meant = meant_by(alloc, keeping.scope, left.procedure.get())?;
    let Some(left) = abstract_call(keeping.scope, left, &meant) else {
        return Err(no_shape());
    };
    beside(alloc, keeping, &left, right)
}

/// The form holds, and leads to what is to hold after the call.
fn before_call(
    alloc: Global,
    read: &ReadCall<'_>,
    kept: &Form,
    post: &Form,
) -> Result<Form, AllocError>
    requires said { read.now.reads.now.said ≡ variables_read Side.Own kept.now }
    requires later { read.now.reads.now.after ≡ variables_read Side.Own post.now }
    ensures { IfOk result (λ made. made ≡ before_call (abstract_seen read.now.of.now) (globals_seen read.now.globals.now) kept.now post.now) }
{
    let outcome = outcome(Side::Own, read);
    let leads = after_call(alloc, Rel::AtLeast, &outcome, read.reads, kept, post)?;
    conjunction(alloc, kept.share()?, leads)
}

/// What stands before the call leads to where it may be made.
fn leads_to_call(
    alloc: Global,
    keeping: &Keeping<'_>,
    read: &ReadCall<'_>,
) -> Result<Form, AllocError>
    requires said { read.now.reads.now.said ≡ variables_read Side.Own keeping.now.kept.now }
    requires later { read.now.reads.now.after ≡ variables_read Side.Own keeping.now.post.now }
    ensures { IfOk result (λ made. made ≡ form_of (hoare (body (abstract_seen read.now.of.now).call.before) keeping.now.pre.now
        (before_call (abstract_seen read.now.of.now) (globals_seen read.now.globals.now) keeping.now.kept.now keeping.now.post.now))) }
{
    let of = read.of;
    let before = before_call(alloc, read, keeping.kept, keeping.post)?;
    let list = shared_body(alloc, of.call.before)?;
    hoare(alloc, list, keeping.pre.share()?, before)
}

/// The oracles keep the form, and what stands before the call leads to where it may be made.
#[tactic(auto, using(crate::proofs::OracleSteps::all_behind))]
fn one_goals(
    alloc: Global,
    keeping: &Keeping<'_>,
    read: &ReadCall<'_>,
) -> Result<Sequents, AllocError>
    requires said { read.now.reads.now.said ≡ variables_read Side.Own keeping.now.kept.now }
    requires later { read.now.reads.now.after ≡ variables_read Side.Own keeping.now.post.now }
    ensures { IfOk result (λ goals. goals ≡ map (concluding keeping.now.goal.now)
        (each_keeps keeping.now.kept.now (abstract_seen read.now.of.now).called.oracles
        ++ hoare (body (abstract_seen read.now.of.now).call.before) keeping.now.pre.now
        (before_call (abstract_seen read.now.of.now) (globals_seen read.now.globals.now) keeping.now.kept.now keeping.now.post.now) ∷ [])) }
{
    let of = read.of;
    let last = leads_to_call(alloc, keeping, read)?;
    let last = one_goal(alloc, keeping.goal, last)?;
    let mut goals = each_keeps(alloc, keeping, of.called.oracles)?;
    goals.append(last)?;
    Ok(goals)
}

/// The goals of one call that writes these, of which no variable clashes.
fn of_read(
    alloc: Global,
    keeping: &Keeping<'_>,
    of: &AbstractCall<'_>,
    written: &[Var],
) -> Result<Sequents, Refused>
    ensures { Answers (each_concluding keeping.now.goal.now (one_goals (abstract_seen of.now) keeping.now.kept.now keeping.now.pre.now keeping.now.post.now
        (read_after keeping.now.scope.now Side.Own (abstract_seen of.now) keeping.now.kept.now keeping.now.post.now written.now))) result }
{
    let Keeping {
        scope,
        kept,
        post,
        ..
    } = *keeping;
    let (side, targets) = (Side::Own, of.call.targets);
    let Some(read) = read_of(alloc, side, scope, targets, written, kept, post)? else {
        return Err(no_shape());
    };
    let read = ReadCall {
        of,
        reads: &read.reads,
        globals: read.globals.as_slice(),
    };
    Ok(one_goals(alloc, keeping, &read)?)
}

/// The goals of one call that writes these.
fn by_written<'a>(
    alloc: Global,
    keeping: &Keeping<'_>,
    of: &AbstractCall<'a>,
    written: &'a [Var],
) -> Result<Sequents, Refused>
    ensures { Answers (each_concluding keeping.now.goal.now (by_written keeping.now.scope.now (abstract_seen of.now)
        keeping.now.kept.now keeping.now.pre.now keeping.now.post.now (Some written.now))) result }
{
    let Keeping {
        scope,
        kept,
        post,
        ..
    } = *keeping;
    let (side, targets) = (Side::Own, of.call.targets);
    let excluded = exclusions(alloc, scope)?;
    let excluded = excluded.as_slice();
    if let Some(var) = meeting(alloc, excluded, of.called.owner, kept)? {
        return Err(refusal(Why::SideCondition(var)));
    }
    if let Some(var) = clashing_after(None, excluded, side, targets, written, kept, post) {
        return Err(side_condition(alloc, var));
    }
    of_read(alloc, keeping, of, written)
}

/// The goals on one body that ends with this call.
fn on_one<'a>(
    alloc: Global,
    keeping: &Keeping<'a>,
    call: Option<Last<'a>>,
) -> Result<Sequents, Refused>
    ensures { Answers (each_concluding keeping.now.goal.now (on_one keeping.now.scope.now keeping.now.kept.now keeping.now.pre.now keeping.now.post.now
        (abstract_call keeping.now.scope.now (option_map call_seen call.entry)))) result }
{
    let Some(call) = call else {
        return Err(no_shape());
    };
    let meant = meant_by(alloc, keeping.scope, call.procedure.get())?;
    let Some(of) = abstract_call(keeping.scope, call, &meant) else {
        return Err(no_shape());
    };
    if call.targets.len() >= MANY {
        return Err(no_shape());
    }
    let Some(written) = proc_writes(alloc, keeping.scope, call.procedure)? else {
        return Err(no_shape());
    };
    by_written(alloc, keeping, &of, written.as_slice())
}

/// The subgoals of `call` by a form that is kept, on a body that ends with a call of a procedure of an abstract module, or on two such bodies,
/// of one procedure: the oracles that the procedure's signature names keep the form, and what stands before the calls leads to where it
/// holds, and where for all results, and all values of what the calls write, it leads to what is to hold after them. Of two calls the
/// arguments are the same too, and all that is the module's own, and the oracles give equal results of equal arguments. Refused with
/// `Shape` at any other goal; with `SideCondition` where what is kept reads a variable that clashes with all that is the module's own, or
/// an oracle of one of two calls writes one, and where a form reads a variable that clashes with one that is replaced.
pub fn call<'a>(
    alloc: Global,
    goal: &'a Sequent,
    kept: &'a Form,
    scope: &'a Scope,
) -> Result<Sequents, Refused>
    ensures { Answers (answered (call_row scope.now kept.now) goal.now) result }
{
    match goal_of(&goal.conclusion) {
        Goal::Equiv(Code::Body(left), Code::Body(right), pre, post) => {
            let keeping = Keeping {
                goal,
                scope,
                kept,
                pre,
                post,
            };
            on_both(alloc, &keeping, last_call(left), last_call(right))
        }
        Goal::Hoare(Code::Body(body), pre, post) => {
            let keeping = Keeping {
                goal,
                scope,
                kept,
                pre,
                post,
            };
            on_one(alloc, &keeping, last_call(body))
        }
        _ => Err(no_shape()),
    }
}
