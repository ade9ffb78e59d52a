//! The rule on calls of procedures of abstract modules that end two bodies, by what their oracles keep until an event has come about.

ghost use Rattle.std.specs.Prelude.{◌≡◌, true, ◌∷◌, ◌++◌, Some, map, IfOk};
ghost use Rattle.std.specs.Option.{option_map};
ghost use Rattle.gb_goal.specs.Answers.{Answers};
ghost use Rattle.gb_goal.specs.Goal.{form_of};
ghost use Rattle.gb_goal.specs.Goal.Code.{procedure};
ghost use Rattle.gb_goal.specs.Rows.{answered, concluding, each_concluding};
ghost use Rattle.gb_goal.specs.Seen.{typed};
ghost use Rattle.gb_core.specs.declared.ty.Ty.TheVariants as ty;
ghost use Rattle.gb_core.specs.declared.var.Var.TheVariants.{Glob};
ghost use Rattle.gb_walk.specs.Change.{term_changed};
ghost use Rattle.gb_mods.specs.Exclusions.{exclusions};
ghost use Rattle.gb_prog.specs.AllValues.{to_bound_values};
ghost use Rattle.gb_full.specs.Loss.{code_loss};
ghost use Rattle.gb_full.specs.Lossless.{full};
ghost use Rattle.gb_call.specs.Call.{unless_clash};
ghost use Rattle.gb_call.specs.LastCall.{call_seen};
ghost use Rattle.gb_call.specs.Outcomes.{globals_seen, outcome_seen};
ghost use Rattle.gb_call_both.specs.BothOutcomes.{after_among, bound_seen, results_among, values_among};
ghost use Rattle.gb_adv.specs.Abstract.{abstract_call, abstract_seen, procedure_seen};
ghost use Rattle.gb_adv.specs.Call.{clash_of_both, read_after};
ghost use Rattle.gb_adv.specs.Oracles.{keeps, meeting_both};
ghost use Rattle.gb_adv.specs.Until.{as_long, before_until, by_calls_until, by_full, by_known, changed_in, each_keep_until, end_until, keep_until, not_yet, on_both_until, start_until, until_goals, until_row};

use crate::abstract_call::{AbstractCall, AbstractProcedure, abstract_call};
use crate::call::{ReadCall, clash_of_both, outcome};
use crate::equations::{
    followed_by, owner_ty, owner_variable, same_arguments, same_owner, same_params, same_result,
};
use crate::oracles::{Keeping, Oracle, keeps, meeting_both, own_names, typed_oracle, writes_of};
use gb_bodies::goals::of_two;
use gb_call::call::{MANY, in_front, read_of};
use gb_call::last_call::{Last, last_call};
use gb_call::outcomes::Outcome;
use gb_call_both::both::{
    AllMeant, Meant, for_all, globals_of, left_side_within, to_bound_values, with_result,
};
use gb_call_both::one_side::speaks;
use gb_core::Shared;
use gb_core::name::Name;
use gb_core::refusal::{Refused, Why};
use gb_core::var::Var;
use gb_full::loss::subject_loss;
use gb_full::lossless::full;
use gb_goal::goal::{Code, Goal, goal_of};
use gb_goal::scope::Scope;
use gb_goal::sequent::{Sequent, Sequents};
use gb_mods::exclusions::exclusions;
use gb_mods::meant::meant_by;
use gb_prog::forms::located;
use gb_prog::judged::equiv_of;
use gb_prog::subgoals::{no_shape, one_goal, refusal};
use gb_steps::step::Until;
use gb_terms::make::{conjunction, implication, negation};
use gb_terms::module::ProcRef;
use gb_terms::op::Side;
use gb_terms::term::{Form, Subject};
use gb_walk::change::Changes;
use gb_walk::clash::Excluded;
use gb_walk::walk::changed;
use sqlite_items::Items;
use std::alloc::{AllocError, Global};

/// The event hasn't come about.
fn not_yet(alloc: Global, until: &Until) -> Result<Form, AllocError>
    ensures { IfOk result (λ made. made ≡ not_yet until.now) }
{
    let event = located(alloc, &until.event, Side::Right)?;
    negation(alloc, event)
}

/// A form, as long as the event hasn't come about.
fn as_long(alloc: Global, until: &Until, form: Form) -> Result<Form, AllocError>
    ensures { IfOk result (λ made. made ≡ as_long until.now form) }
{
    let not_yet = not_yet(alloc, until)?;
    implication(alloc, not_yet, form)
}

/// An oracle on either side: where the event hasn't come about and the form holds, equal arguments give, as long as it still hasn't,
/// equal results, and the form holds.
fn keep_until(
    alloc: Global,
    until: &Until,
    left: &Oracle<'_>,
    right: &Oracle<'_>,
) -> Result<Form, AllocError>
    ensures { IfOk result (λ made. made ≡ form_of (keep_until until.now left.now.procedure.now (typed left.now.ty) right.now.procedure.now (typed right.now.ty))) }
{
    let equal = same_params(alloc, Items::new(alloc), left.ty.params, right.ty.params)?;
    let starts = followed_by(alloc, not_yet(alloc, until)?, equal.as_slice())?;
    let pre = conjunction(alloc, starts, until.kept.share()?)?;
    let ends = same_result(alloc, left.ty.result)?;
    let ends = conjunction(alloc, ends, until.kept.share()?)?;
    let post = as_long(alloc, until, ends)?;
    let first = Subject::Proc(left.procedure.share()?);
    let second = Subject::Proc(right.procedure.share()?);
    equiv_of(alloc, &first, &second, pre, post)
}

/// Goals behind those of an oracle on either side: it does so, and the right one keeps the event.
fn with_oracle(
    alloc: Global,
    goal: &Sequent,
    until: &Until,
    left: &Oracle<'_>,
    right: &Oracle<'_>,
    others: Sequents,
) -> Result<Sequents, AllocError>
    ensures { IfOk result (λ goals. goals ≡
        concluding goal.now (keep_until until.now left.now.procedure.now (typed left.now.ty) right.now.procedure.now (typed right.now.ty))
        ∷ concluding goal.now (keeps until.now.event right.now.procedure.now) ∷ others) }
{
    let kept = keeps(alloc, &until.event, right.procedure)?;
    let others = in_front(alloc, goal, kept, others)?;
    let first = keep_until(alloc, until, left, right)?;
    in_front(alloc, goal, first, others)
}

/// Two goals for each oracle, in order, of both sides. Refused with `Shape` where two parameters of one of them have the same name.
fn each_keep_until(
    alloc: Global,
    goal: &Sequent,
    scope: &Scope,
    until: &Until,
    left: &[Shared<ProcRef>],
    right: &[Shared<ProcRef>],
) -> Result<Sequents, Refused>
    ensures { Answers (each_concluding goal.now (each_keep_until scope.now until.now left.now right.now)) result }
{
    match left {
        [] => Ok(Items::new(alloc)),
        [o, left @ ..] => match right {
            [] => Ok(Items::new(alloc)),
            [p, right @ ..] => {
                let Some(here) = typed_oracle(scope, o) else {
                    return Err(no_shape());
                };
                let Some(there) = typed_oracle(scope, p) else {
                    return Err(no_shape());
                };
                if !own_names(here.ty.params) || !own_names(there.ty.params) {
                    return Err(no_shape());
                }
                let others = each_keep_until(alloc, goal, scope, until, left, right)?;
                Ok(with_oracle(alloc, goal, until, &here, &there, others)?)
            }
        },
    }
}

/// As long as the event hasn't come about, the form holds, the arguments are the same, and so is all that is the module's own.
fn start_until(
    alloc: Global,
    until: &Until,
    left: &AbstractCall<'_>,
    right: &AbstractCall<'_>,
) -> Result<Form, AllocError>
    ensures { IfOk result (λ made. made ≡ start_until until.now (abstract_seen left.now) (abstract_seen right.now)) }
{
    let equal = same_arguments(
        alloc,
        Items::new(alloc),
        left.call.arguments,
        right.call.arguments,
    )?;
    let holds = followed_by(alloc, until.kept.share()?, equal.as_slice())?;
    let holds = conjunction(alloc, holds, same_owner(alloc, left.called.owner)?)?;
    as_long(alloc, until, holds)
}

/// As long as the event hasn't come about, the results are the same, all that is the module's own is, and the form holds.
fn end_until(
    alloc: Global,
    until: &Until,
    procedure: &AbstractProcedure<'_>,
) -> Result<Form, AllocError>
    ensures { IfOk result (λ made. made ≡ end_until until.now (procedure_seen procedure.now)) }
{
    let results = same_result(alloc, procedure.ty.result)?;
    let holds = conjunction(alloc, results, same_owner(alloc, procedure.owner)?)?;
    let holds = conjunction(alloc, holds, until.kept.share()?)?;
    as_long(alloc, until, holds)
}

/// All that is a module's own, in a memory.
fn owner_in(alloc: Global, module: &Name, side: Side) -> Result<Meant, AllocError>
    ensures { IfOk result (λ made. bound_seen made ≡ (side, record { variable = Glob «module».now; ty = ty.Glob «module».now })) }
{
    let variable = owner_variable(alloc, module)?;
    let ty = owner_ty(alloc, module)?;
    Ok(Meant { side, variable, ty })
}

/// Variables behind others: all that is a module's own, in each memory, and what oracles write there.
fn changed_in(
    alloc: Global,
    found: AllMeant,
    module: &Name,
    left: &Outcome<'_>,
    right: &Outcome<'_>,
) -> Result<AllMeant, AllocError>
    ensures { IfOk result (λ made. map bound_seen made ≡ map bound_seen found ++ changed_in «module».now (outcome_seen left.now) (outcome_seen right.now)) }
{
    let mut all = found;
    all.push(owner_in(alloc, module, Side::Left)?)?;
    all.push(owner_in(alloc, module, Side::Right)?)?;
    globals_of(alloc, all, left, right)
}

/// The variables of which all values are meant: both results, and what is changed.
fn values_with(
    alloc: Global,
    module: &Name,
    left: &Outcome<'_>,
    right: &Outcome<'_>,
) -> Result<AllMeant, AllocError>
    ensures { IfOk result (λ made. map bound_seen made ≡ values_among true true (outcome_seen left.now) (outcome_seen right.now)
        (changed_in «module».now (outcome_seen left.now) (outcome_seen right.now))) }
{
    let all = with_result(alloc, Items::new(alloc), true, left)?;
    let all = with_result(alloc, all, true, right)?;
    changed_in(alloc, all, module, left, right)
}

/// The results go to the left sides; so many variables are bound inside of the right one.
fn results_with(
    alloc: Global,
    left: &Outcome<'_>,
    right: &Outcome<'_>,
    changed: &[Meant],
) -> Result<Changes, AllocError>
    ensures { IfOk result (λ made. made ≡ results_among true true (outcome_seen left.now) (outcome_seen right.now) (map bound_seen changed.now)) }
{
    let mut changes = left_side_within(alloc, true, left, changed.len() + 1)?;
    changes.append(left_side_within(alloc, true, right, changed.len())?)?;
    Ok(changes)
}

/// What is said after the calls, of the bound values.
fn of_values(
    alloc: Global,
    module: &Name,
    left: &Outcome<'_>,
    right: &Outcome<'_>,
    form: &Form,
) -> Result<Form, AllocError>
    ensures { IfOk result (λ made. made ≡ term_changed form.now (results_among true true (outcome_seen left.now) (outcome_seen right.now)
        (changed_in «module».now (outcome_seen left.now) (outcome_seen right.now))
        ++ to_bound_values (changed_in «module».now (outcome_seen left.now) (outcome_seen right.now)))) }
{
    let inside = changed_in(alloc, Items::new(alloc), module, left, right)?;
    let changes = results_with(alloc, left, right, inside.as_slice())?;
    let changes = to_bound_values(alloc, changes, inside.as_slice())?;
    changed(alloc, form, changes.as_slice())
}

/// For all values that are meant, what is said of both ends leads to what is said after the calls.
fn for_values(
    alloc: Global,
    module: &Name,
    left: &Outcome<'_>,
    right: &Outcome<'_>,
    said: &Form,
    form: &Form,
) -> Result<Form, AllocError>
    ensures { IfOk result (λ made. made ≡ after_among true true (outcome_seen left.now) (outcome_seen right.now)
        (changed_in «module».now (outcome_seen left.now) (outcome_seen right.now)) said.now form.now) }
{
    let meant = values_with(alloc, module, left, right)?;
    let changes = to_bound_values(alloc, Items::new(alloc), meant.as_slice())?;
    let said = changed(alloc, said, changes.as_slice())?;
    let form = of_values(alloc, module, left, right, form)?;
    let leads = implication(alloc, said, form)?;
    for_all(alloc, meant.as_slice(), leads)
}

/// What is to hold before the calls.
fn before_until(
    alloc: Global,
    until: &Until,
    left: &ReadCall<'_>,
    right: &ReadCall<'_>,
    post: &Form,
) -> Result<Form, AllocError>
    ensures { IfOk result (λ made. made ≡ before_until until.now (abstract_seen left.now.of.now) (globals_seen left.now.globals.now)
        (abstract_seen right.now.of.now) (globals_seen right.now.globals.now) post.now) }
{
    let (here, there) = (left.of, right.of);
    let starts = start_until(alloc, until, here, there)?;
    let ends = end_until(alloc, until, &here.called)?;
    let (first, second) = (outcome(Side::Left, left), outcome(Side::Right, right));
    let leads = for_values(alloc, here.called.owner, &first, &second, &ends, post)?;
    conjunction(alloc, starts, leads)
}

/// The oracles do so, and what stands before the calls leads to where they may be made.
#[tactic(auto, using(crate::proofs::OracleSteps::refused_behind))]
fn until_goals(
    alloc: Global,
    keeping: &Keeping<'_>,
    until: &Until,
    left: &ReadCall<'_>,
    right: &ReadCall<'_>,
) -> Result<Sequents, Refused>
    ensures { Answers (each_concluding keeping.now.goal.now (until_goals keeping.now.scope.now until.now (abstract_seen left.now.of.now) (abstract_seen right.now.of.now)
        keeping.now.pre.now keeping.now.post.now (Some (globals_seen left.now.globals.now)) (Some (globals_seen right.now.globals.now)))) result }
{
    let (here, there) = (left.of, right.of);
    let oracles = (here.called.oracles, there.called.oracles);
    let (goal, scope) = (keeping.goal, keeping.scope);
    let mut goals = each_keep_until(alloc, goal, scope, until, oracles.0, oracles.1)?;
    let before = before_until(alloc, until, left, right, keeping.post)?;
    let (here, there) = (here.call.before, there.call.before);
    let last = of_two(alloc, here, there, keeping.pre, before)?;
    goals.append(one_goal(alloc, goal, last)?)?;
    Ok(goals)
}

/// The goals of two calls of which no variable clashes. `keeping` has what is said of both ends.
fn by_read(
    alloc: Global,
    keeping: &Keeping<'_>,
    until: &Until,
    left: &AbstractCall<'_>,
    written: &[Var],
    right: &AbstractCall<'_>,
    others: &[Var],
) -> Result<Sequents, Refused>
    ensures { Answers (each_concluding keeping.now.goal.now (until_goals keeping.now.scope.now until.now (abstract_seen left.now) (abstract_seen right.now)
        keeping.now.pre.now keeping.now.post.now
        (read_after keeping.now.scope.now Side.Left (abstract_seen left.now) keeping.now.kept.now keeping.now.post.now written.now)
        (read_after keeping.now.scope.now Side.Right (abstract_seen right.now) keeping.now.kept.now keeping.now.post.now others.now))) result }
{
    let Keeping {
        scope,
        kept,
        post,
        ..
    } = *keeping;
    let (side, targets) = (Side::Left, left.call.targets);
    let Some(here) = read_of(alloc, side, scope, targets, written, kept, post)? else {
        return Err(no_shape());
    };
    let (side, targets) = (Side::Right, right.call.targets);
    let Some(there) = read_of(alloc, side, scope, targets, others, kept, post)? else {
        return Err(no_shape());
    };
    let left = ReadCall {
        of: left,
        reads: &here.reads,
        globals: here.globals.as_slice(),
    };
    let right = ReadCall {
        of: right,
        reads: &there.reads,
        globals: there.globals.as_slice(),
    };
    until_goals(alloc, keeping, until, &left, &right)
}

/// Why a procedure is refused that may lose weight.
fn full_call(alloc: Global, scope: &Scope, reference: &Shared<ProcRef>) -> Result<(), Refused>
    ensures { Answers (full (code_loss scope.now (procedure reference.now))) result }
{
    let subject = Subject::Proc(reference.share()?);
    full(alloc, subject_loss(alloc, scope, &subject)?)
}

/// The goals of two calls of which no variable clashes, and neither may lose weight.
fn by_full(
    alloc: Global,
    keeping: &Keeping<'_>,
    until: &Until,
    left: &AbstractCall<'_>,
    written: &[Var],
    right: &AbstractCall<'_>,
    others: &[Var],
) -> Result<Sequents, Refused>
    ensures { Answers (each_concluding keeping.now.goal.now (by_full keeping.now.scope.now until.now keeping.now.kept.now (abstract_seen left.now) (abstract_seen right.now)
        keeping.now.pre.now keeping.now.post.now written.now others.now)) result }
{
    full_call(alloc, keeping.scope, left.call.procedure)?;
    full_call(alloc, keeping.scope, right.call.procedure)?;
    by_read(alloc, keeping, until, left, written, right, others)
}

/// The goals of two calls whose oracles write these, which don't meet what is the module's own. `keeping` has what is said of both ends.
fn by_clash(
    alloc: Global,
    exclusions: &[Excluded],
    keeping: &Keeping<'_>,
    until: &Until,
    left: &AbstractCall<'_>,
    written: &[Var],
    right: &AbstractCall<'_>,
    others: &[Var],
) -> Result<Sequents, Refused>
    ensures { Answers (each_concluding keeping.now.goal.now
        (unless_clash (clash_of_both exclusions.now (abstract_seen left.now) (abstract_seen right.now) keeping.now.kept.now keeping.now.post.now written.now others.now)
        (by_full keeping.now.scope.now until.now keeping.now.kept.now (abstract_seen left.now) (abstract_seen right.now) keeping.now.pre.now keeping.now.post.now
        written.now others.now))) result }
{
    if let Some(var) = clash_of_both(alloc, exclusions, keeping, left, written, right, others)? {
        return Err(refusal(Why::SideCondition(var)));
    }
    by_full(alloc, keeping, until, left, written, right, others)
}

/// The least variable that the event or the form reads, or an oracle writes, and that clashes with all that is a module's own.
fn meeting_until(
    alloc: Global,
    exclusions: &[Excluded],
    module: &Name,
    until: &Until,
    written: &[Var],
    others: &[Var],
) -> Result<Option<Var>, AllocError>
    ensures { IfOk result (λ made. made ≡ meeting_both exclusions.now «module».now (as_long until.now until.now.kept) written.now others.now) }
{
    let kept = as_long(alloc, until, until.kept.share()?)?;
    meeting_both(alloc, exclusions, module, &kept, written, others)
}

/// The goals of two calls whose oracles write these. `keeping` has what is said of both ends.
fn by_writes(
    alloc: Global,
    keeping: &Keeping<'_>,
    until: &Until,
    left: &AbstractCall<'_>,
    written: &[Var],
    right: &AbstractCall<'_>,
    others: &[Var],
) -> Result<Sequents, Refused>
    ensures { Answers (each_concluding keeping.now.goal.now
        (unless_clash (meeting_both (exclusions keeping.now.scope.now) (abstract_seen left.now).called.owner (as_long until.now until.now.kept) written.now others.now)
        (unless_clash (clash_of_both (exclusions keeping.now.scope.now) (abstract_seen left.now) (abstract_seen right.now) keeping.now.kept.now keeping.now.post.now written.now others.now)
        (by_full keeping.now.scope.now until.now keeping.now.kept.now (abstract_seen left.now) (abstract_seen right.now) keeping.now.pre.now keeping.now.post.now
        written.now others.now)))) result }
{
    let excluded = exclusions(alloc, keeping.scope)?;
    let excluded = excluded.as_slice();
    let owner = left.called.owner;
    if let Some(var) = meeting_until(alloc, excluded, owner, until, written, others)? {
        return Err(refusal(Why::SideCondition(var)));
    }
    by_clash(
        alloc, excluded, keeping, until, left, written, right, others,
    )
}

/// The goals of two calls of one procedure.
fn by_known(
    alloc: Global,
    keeping: &Keeping<'_>,
    until: &Until,
    left: &AbstractCall<'_>,
    right: &AbstractCall<'_>,
) -> Result<Sequents, Refused>
    ensures { Answers (each_concluding keeping.now.goal.now (by_known keeping.now.scope.now until.now (abstract_seen left.now) (abstract_seen right.now)
        keeping.now.pre.now keeping.now.post.now)) result }
{
    let ends = end_until(alloc, until, &left.called)?;
    let ending = Keeping {
        kept: &ends,
        ..*keeping
    };
    let Some(written) = writes_of(alloc, keeping.scope, left.called.oracles)? else {
        return Err(no_shape());
    };
    let Some(others) = writes_of(alloc, keeping.scope, right.called.oracles)? else {
        return Err(no_shape());
    };
    let (written, others) = (written.as_slice(), others.as_slice());
    by_writes(alloc, &ending, until, left, written, right, others)
}

/// The goals of two calls.
fn by_calls(
    alloc: Global,
    keeping: &Keeping<'_>,
    until: &Until,
    left: &AbstractCall<'_>,
    right: &AbstractCall<'_>,
) -> Result<Sequents, Refused>
    ensures { Answers (each_concluding keeping.now.goal.now (by_calls_until keeping.now.scope.now until.now (abstract_seen left.now) (abstract_seen right.now)
        keeping.now.pre.now keeping.now.post.now)) result }
{
    if !left.called.is_same(&right.called) {
        return Err(no_shape());
    }
    if left.call.targets.len() >= MANY || right.call.targets.len() >= MANY {
        return Err(no_shape());
    }
    if speaks(&until.event) {
        return Err(no_shape());
    }
    by_known(alloc, keeping, until, left, right)
}

/// The goals on two bodies that end with these calls.
fn on_both<'a>(
    alloc: Global,
    keeping: &Keeping<'a>,
    until: &Until,
    left: Option<Last<'a>>,
    right: Option<Last<'a>>,
) -> Result<Sequents, Refused>
    ensures { Answers (each_concluding keeping.now.goal.now (on_both_until keeping.now.scope.now until.now keeping.now.pre.now keeping.now.post.now
        (abstract_call keeping.now.scope.now (option_map call_seen left.entry)) (abstract_call keeping.now.scope.now (option_map call_seen right.entry)))) result }
{
    let (Some(left), Some(right)) = (left, right) else {
        return Err(no_shape());
    };
    let here = meant_by(alloc, keeping.scope, left.procedure.get())?;
    let there = meant_by(alloc, keeping.scope, right.procedure.get())?;
    let Some(left) = abstract_call(keeping.scope, left, &here) else {
        return Err(no_shape());
    };
    let Some(right) = abstract_call(keeping.scope, right, &there) else {
        return Err(no_shape());
    };
    by_calls(alloc, keeping, until, &left, &right)
}

/// The subgoals of `call` by a form that is kept until an event has come about, on two bodies that end with calls of one procedure of an
/// abstract module. For each oracle that the procedure's signature names: where the event hasn't come about, which is read in the right
/// memory, and the form holds, equal arguments give equal results and the form again, as long as the event still hasn't; and the right
/// oracle keeps the event. What stands before the calls leads to where, as long as the event hasn't come about, the form holds, the
/// arguments are the same, and so is all that is the module's own; and where for all results and all values of what the calls may write
/// these lead to what is to hold after the calls. Refused with `Shape` at any other goal, and where the event speaks of programs; with
/// `SideCondition` where the event or the form reads a variable that clashes with all that is the module's own, or an oracle writes one, and
/// where a form reads a variable that clashes with one that is replaced; with `NotLossless` where an oracle may lose weight.
pub fn call_until<'a>(
    alloc: Global,
    goal: &'a Sequent,
    until: &'a Until,
    scope: &'a Scope,
) -> Result<Sequents, Refused>
    ensures { Answers (answered (until_row scope.now until.now) goal.now) result }
{
    match goal_of(&goal.conclusion) {
        Goal::Equiv(Code::Body(left), Code::Body(right), pre, post) => {
            let keeping = Keeping {
                goal,
                scope,
                kept: &until.kept,
                pre,
                post,
            };
            on_both(alloc, &keeping, until, last_call(left), last_call(right))
        }
        _ => Err(no_shape()),
    }
}
