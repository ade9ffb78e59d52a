//! The rule `call`, by what a procedure is said to do.

ghost use Rattle.std.specs.Prelude.{◌≡◌, ◌∷◌, Some, IfOk, IfSome, map, filter};
ghost use Rattle.std.specs.Option.{option_copied, option_map};
ghost use Rattle.gb_core.specs.declared.refusal.Why.TheVariants.{SideCondition};
ghost use Rattle.gb_goal.specs.Answers.{nowhere, Answers, Refuses};
ghost use Rattle.gb_goal.specs.Goal.{form_of};
ghost use Rattle.gb_goal.specs.Goal.Code.{body, procedure};
ghost use Rattle.gb_goal.specs.Goal.Goal.{hoare, phoare};
ghost use Rattle.gb_goal.specs.Rows.{answered, concluding, each_concluding};
ghost use Rattle.gb_goal.specs.Scope.{Declarations};
ghost use Rattle.gb_goal.specs.Views.{goal_seen};
ghost use Rattle.gb_walk.specs.Clash.{variables_read};
ghost use Rattle.gb_goal.specs.declared.sequent.Sequent.{Sequent as TypedSequent};
ghost use Rattle.gb_meaning.specs.Declared.{declared};
ghost use Rattle.gb_steps.specs.declared.step.Contract.{Contract as Said};
ghost use Rattle.gb_typing.specs.Scopes.{context_of, IsTypedScope};
ghost use Rattle.gb_typing.specs.Sequents.{of_sequent, IsTypedSequent};
ghost use Rattle.gb_typing.specs.Rules.{IsSoundRuleIn};
ghost use Rattle.gb_full.specs.Loss.{first_loss};
ghost use Rattle.gb_full.specs.Lossless.{of_rest};
ghost use Rattle.gb_call.specs.Call.{before_call, by_callee, call_goals, call_row, chance_goals, chances_by_callee, chances_of_callee, callee_of, callee_seen, known_seen, left_of, of_callee, on_programs, IsTypedContract};
ghost use Rattle.gb_call.specs.LastCall.{call_seen, last_call};
ghost use Rattle.gb_call.specs.Outcomes.{clash_after, globals_seen, is_left};
ghost use Rattle.gb_call.specs.Written.{typed_seen, with_types};
ghost use Rattle.gb_forms.specs.Calls.{is_left_of};
ghost use Rattle.gb_mods.specs.Exclusions.{exclusions};

use crate::last_call::{Last, last_call};
use crate::outcomes::{Outcome, after_call, clashing_after, of_arguments};
use crate::reads::variables_read;
use crate::written::{TypedGlobal, TypedGlobals, with_types};
use gb_core::Shared;
use gb_core::copy::copy_var;
use gb_core::refusal::{Refused, Why};
use gb_core::var::{Var, Vars};
use gb_forms::calls::{Reads, left_of};
use gb_full::loss::first_loss;
use gb_full::lossless::{Judged, of_rest};
use gb_goal::goal::{Code, Goal, goal_of, hoare};
use gb_goal::scope::Scope;
use gb_goal::sequent::{Sequent, Sequents};
use gb_mods::exclusions::exclusions;
use gb_mods::procedures::proc_writes;
use gb_prog::judged::{hoare_of, phoare_of};
use gb_prog::subgoals::{no_shape, one_goal, refusal, shared_body, two_goals};
use gb_steps::step::{Acts, Contract};
use gb_terms::decl::Proc;
use gb_terms::make::conjunction;
use gb_terms::module::ProcRef;
use gb_terms::op::{Rel, Side};
use gb_terms::term::{Form, RealTerm, Subject};
use gb_walk::clash::Excluded;
use std::alloc::{AllocError, Global};

/// More variables than a tuple has parts.
pub const MANY: usize = 9;

/// A call that ends a body, its procedure, and the globals that it writes.
#[derive(Clone, Copy)]
pub struct Callee<'a> {
    pub call: Last<'a>,
    pub declared: &'a Proc,
    pub written: &'a [Var],
}

/// The precondition holds of the arguments, and the postcondition makes what is to hold after the call as likely as the relation asks.
pub fn before_call(
    alloc: Global,
    rel: Rel,
    side: Side,
    callee: &Callee<'_>,
    globals: &[TypedGlobal],
    reads: &Reads,
    contract: &Contract,
    post: &Form,
) -> Result<Form, AllocError>
    requires said { reads.now.said ≡ variables_read side contract.now.post }
    requires later { reads.now.after ≡ variables_read side post.now }
    ensures { IfOk result (λ made. made ≡ before_call rel side (callee_seen callee.now) (globals_seen globals.now) contract.now post.now) }
{
    let params = callee.declared.params.as_slice();
    let holds = of_arguments(alloc, side, params, callee.call.arguments, &contract.pre)?;
    let outcome = Outcome {
        side,
        targets: callee.call.targets,
        result: &callee.declared.result,
        globals,
    };
    let likely = after_call(alloc, rel, &outcome, reads, &contract.post, post)?;
    conjunction(alloc, holds, likely)
}

/// A procedure does what is said of it.
pub fn does(alloc: Global, named: &Shared<ProcRef>, contract: &Contract) -> Result<Form, AllocError>
    ensures { IfOk result (λ made. made ≡ form_of (hoare (procedure named.now) contract.now.pre contract.now.post)) }
{
    let subject = Subject::Proc(named.share()?);
    let pre = contract.pre.share()?;
    let post = contract.post.share()?;
    hoare_of(alloc, &subject, pre, post)
}

/// What stands before the call leads to where it may be called.
fn leads(alloc: Global, callee: &Callee<'_>, pre: &Form, post: Form) -> Result<Form, AllocError>
    ensures { IfOk result (λ made. made ≡ form_of (hoare (body (callee_seen callee.now).call.before) pre.now post)) }
{
    let list = shared_body(alloc, callee.call.before)?;
    let pre = pre.share()?;
    hoare(alloc, list, pre, post)
}

/// The subgoals of a call of a procedure, where these globals are read after it.
fn by_globals(
    alloc: Global,
    goal: &Sequent,
    callee: &Callee<'_>,
    contract: &Contract,
    pre: &Form,
    post: &Form,
    reads: &Reads,
    globals: &[TypedGlobal],
) -> Result<Sequents, AllocError>
    requires said { reads.now.said ≡ variables_read Side.Own contract.now.post }
    requires later { reads.now.after ≡ variables_read Side.Own post.now }
    ensures { IfOk result (λ made. made ≡ map (concluding goal.now) (call_goals (callee_seen callee.now) (globals_seen globals.now) contract.now pre.now post.now)) }
{
    let before = before_call(
        alloc,
        Rel::AtLeast,
        Side::Own,
        callee,
        globals,
        reads,
        contract,
        post,
    )?;
    let first = does(alloc, callee.call.procedure, contract)?;
    let second = leads(alloc, callee, pre, before)?;
    two_goals(alloc, goal, first, second)
}

/// What is read of a memory after a call, and the globals among it that the call writes, with their types.
pub struct ReadAfter {
    pub reads: Reads,
    pub globals: TypedGlobals,
}

impl Drop for ReadAfter {
    fn drop(self) {
        let ReadAfter { reads, globals } = self;
        drop(reads);
        drop(globals);
    }
}

/// The globals among these that are read after a call with this left side, with their types. None where one of them has none.
fn typed_left(
    alloc: Global,
    scope: &Scope,
    targets: &[Var],
    reads: &Reads,
    written: &[Var],
) -> Result<Option<TypedGlobals>, AllocError>
    ensures { IfOk result (λ made. typed_seen made ≡ with_types scope.now (filter (is_left_of targets.now reads.now.said reads.now.after) written.now)) }
{
    let left = left_of(alloc, targets, reads, written)?;
    with_types(alloc, scope, left.as_slice())
}

/// What is read of a memory after a call with this left side, and of what it writes, where this is said of its outcome. None where one of
/// the globals has no type.
#[tactic(auto, using(crate::proofs::OutcomeSteps::left_as_read))]
pub fn read_of(
    alloc: Global,
    side: Side,
    scope: &Scope,
    targets: &[Var],
    written: &[Var],
    said: &Form,
    post: &Form,
) -> Result<Option<ReadAfter>, AllocError>
    ensures reads { IfOk result (λ made. IfSome made (λ r. (r.reads.said ≡ variables_read side said.now) × (r.reads.after ≡ variables_read side post.now))) }
    ensures globals { IfOk result (λ made. option_map (λ r. globals_seen r.globals) made ≡ with_types scope.now (filter (is_left side targets.now said.now post.now) written.now)) }
{
    let said = variables_read(alloc, said, side)?;
    let after = variables_read(alloc, post, side)?;
    let reads = Reads { said, after };
    match typed_left(alloc, scope, targets, &reads, written)? {
        Some(globals) => Ok(Some(ReadAfter { reads, globals })),
        None => Ok(None),
    }
}

/// What is read of a memory after a call. None where one of the globals that the call writes has no type.
pub fn read_after(
    alloc: Global,
    side: Side,
    scope: &Scope,
    callee: &Callee<'_>,
    contract: &Contract,
    post: &Form,
) -> Result<Option<ReadAfter>, AllocError>
    ensures reads { IfOk result (λ made. IfSome made (λ r. (r.reads.said ≡ variables_read side contract.now.post) × (r.reads.after ≡ variables_read side post.now))) }
    ensures globals { IfOk result (λ made. option_map (λ r. globals_seen r.globals) made ≡ with_types scope.now (left_of side (callee_seen callee.now) contract.now post.now)) }
{
    let said = &contract.post;
    read_of(
        alloc,
        side,
        scope,
        callee.call.targets,
        callee.written,
        said,
        post,
    )
}

/// The least variable of the left side, or of the globals that are written, with which another one clashes where it is replaced.
pub fn clash_after<'a>(
    exclusions: &[Excluded],
    side: Side,
    callee: &Callee<'a>,
    contract: &Contract,
    post: &Form,
) -> Option<&'a Var>
    ensures { option_copied result ≡ clash_after exclusions.now side (callee_seen callee.now).call.targets (callee_seen callee.now).written contract.now.post post.now }
{
    let targets = callee.call.targets;
    clashing_after(
        None,
        exclusions,
        side,
        targets,
        callee.written,
        &contract.post,
        post,
    )
}

/// The same over the exclusions of a scope.
pub fn clash_in<'a>(
    alloc: Global,
    side: Side,
    scope: &Scope,
    callee: &Callee<'a>,
    contract: &Contract,
    post: &Form,
) -> Result<Option<&'a Var>, AllocError>
    ensures { IfOk result (λ found. option_copied found ≡
        clash_after (exclusions scope.now) side (callee_seen callee.now).call.targets (callee_seen callee.now).written contract.now.post post.now) }
{
    let excluded = exclusions(alloc, scope)?;
    Ok(clash_after(excluded.as_slice(), side, callee, contract, post))
}

/// The refusal at a variable that clashes with one that is replaced.
pub fn side_condition(alloc: Global, var: &Var) -> Refused
    ensures { Refuses (SideCondition var.now) nowhere result }
{
    match copy_var(alloc, var) {
        Ok(var) => refusal(Why::SideCondition(var)),
        Err(_) => Refused::NoMemory,
    }
}

/// The subgoals of a call of a procedure.
fn by_callee(
    alloc: Global,
    goal: &Sequent,
    scope: &Scope,
    contract: &Contract,
    pre: &Form,
    post: &Form,
    callee: &Callee<'_>,
) -> Result<Sequents, Refused>
    ensures { Answers (each_concluding goal.now (by_callee scope.now contract.now pre.now post.now (callee_seen callee.now))) result }
{
    let targets = callee.call.targets;
    if targets.len() >= MANY {
        return Err(no_shape());
    }
    if let Some(var) = clash_in(alloc, Side::Own, scope, callee, contract, post)? {
        return Err(side_condition(alloc, var));
    }
    let Some(read) = read_after(alloc, Side::Own, scope, callee, contract, post)? else {
        return Err(no_shape());
    };
    Ok(by_globals(
        alloc,
        goal,
        callee,
        contract,
        pre,
        post,
        &read.reads,
        read.globals.as_slice(),
    )?)
}

/// A procedure does what is said of it as likely as the bound says.
pub fn does_as_likely(
    alloc: Global,
    named: &Shared<ProcRef>,
    contract: &Contract,
    rel: Rel,
    bound: &RealTerm,
) -> Result<Form, AllocError>
    ensures { IfOk result (λ made. made ≡ form_of (phoare (procedure named.now) rel contract.now.pre contract.now.post bound.now)) }
{
    let subject = Subject::Proc(named.share()?);
    let pre = contract.pre.share()?;
    let post = contract.post.share()?;
    phoare_of(alloc, &subject, rel, pre, post, bound.share()?)
}

/// What is left of a call of which it is known what is read after it, where a probability is judged.
fn chances_left(
    alloc: Global,
    goal: &Sequent,
    scope: &Scope,
    callee: &Callee<'_>,
    globals: &[TypedGlobal],
    reads: &Reads,
    contract: &Contract,
    judged: &Judged<'_>,
) -> Result<Sequents, Refused>
    requires said { reads.now.said ≡ variables_read Side.Own contract.now.post }
    requires later { reads.now.after ≡ variables_read Side.Own judged.now.post.now }
    ensures { Answers (each_concluding goal.now (of_rest (first_loss scope.now (callee_seen callee.now).call.before) judged.now.rel judged.now.bound.now
        (hoare (body (callee_seen callee.now).call.before) judged.now.pre.now
        (before_call judged.now.rel Side.Own (callee_seen callee.now) (globals_seen globals.now) contract.now judged.now.post.now)))) result }
{
    let before = before_call(
        alloc,
        judged.rel,
        Side::Own,
        callee,
        globals,
        reads,
        contract,
        judged.post,
    )?;
    let conclusion = leads(alloc, callee, judged.pre, before)?;
    let lost = first_loss(alloc, scope, callee.call.before)?;
    of_rest(alloc, goal, lost, judged, conclusion)
}

/// Goals behind one.
pub fn in_front(
    alloc: Global,
    goal: &Sequent,
    first: Form,
    others: Sequents,
) -> Result<Sequents, AllocError>
    ensures { IfOk result (λ made. made ≡ record goal.now { conclusion = first } ∷ others) }
{
    let mut goals = one_goal(alloc, goal, first)?;
    goals.append(others)?;
    Ok(goals)
}

/// The subgoals of a call of a procedure, where these globals are read after it and a probability is judged.
fn chance_goals(
    alloc: Global,
    goal: &Sequent,
    scope: &Scope,
    callee: &Callee<'_>,
    globals: &[TypedGlobal],
    reads: &Reads,
    contract: &Contract,
    judged: &Judged<'_>,
) -> Result<Sequents, Refused>
    requires said { reads.now.said ≡ variables_read Side.Own contract.now.post }
    requires later { reads.now.after ≡ variables_read Side.Own judged.now.post.now }
    ensures { Answers (each_concluding goal.now (chance_goals scope.now (callee_seen callee.now) (globals_seen globals.now) contract.now judged.now.rel judged.now.pre.now judged.now.post.now judged.now.bound.now)) result }
{
    let others = chances_left(alloc, goal, scope, callee, globals, reads, contract, judged)?;
    let first = does_as_likely(
        alloc,
        callee.call.procedure,
        contract,
        judged.rel,
        judged.bound,
    )?;
    Ok(in_front(alloc, goal, first, others)?)
}

/// The subgoals of a call of a procedure, where a probability is judged.
fn chances_by_callee(
    alloc: Global,
    goal: &Sequent,
    scope: &Scope,
    contract: &Contract,
    judged: &Judged<'_>,
    callee: &Callee<'_>,
) -> Result<Sequents, Refused>
    ensures { Answers (each_concluding goal.now
        (chances_by_callee scope.now contract.now judged.now.rel judged.now.pre.now judged.now.post.now judged.now.bound.now (callee_seen callee.now))) result }
{
    let targets = callee.call.targets;
    if targets.len() >= MANY {
        return Err(no_shape());
    }
    let post = judged.post;
    if let Some(var) = clash_in(alloc, Side::Own, scope, callee, contract, post)? {
        return Err(side_condition(alloc, var));
    }
    let Some(read) = read_after(alloc, Side::Own, scope, callee, contract, post)? else {
        return Err(no_shape());
    };
    let globals = read.globals.as_slice();
    chance_goals(
        alloc,
        goal,
        scope,
        callee,
        globals,
        &read.reads,
        contract,
        judged,
    )
}

/// A call that ends a body, its procedure, and the globals that it is known to write.
pub struct Known<'a> {
    pub call: Last<'a>,
    pub declared: Shared<Proc>,
    pub written: Vars,
}

impl<'a> Drop for Known<'a> {
    fn drop(self) {
        let Known {
            call: _,
            declared,
            written,
        } = self;
        drop(declared);
        drop(written);
    }
}

/// The same, if there is a call, and it is known.
pub fn known_call<'a>(
    alloc: Global,
    scope: &Scope,
    call: Option<Last<'a>>,
) -> Result<Option<Known<'a>>, AllocError>
    ensures { IfOk result (λ made. option_map known_seen made ≡ callee_of scope.now (option_map call_seen call.entry)) }
{
    let Some(call) = call else {
        return Ok(None);
    };
    let Some(declared) = scope.procedure(alloc, call.procedure.get())? else {
        return Ok(None);
    };
    let Some(written) = proc_writes(alloc, scope, call.procedure)? else {
        return Ok(None);
    };
    Ok(Some(Known {
        call,
        declared,
        written,
    }))
}

/// The callee of a call that is known.
pub fn callee_of<'a>(known: &'a Known<'a>) -> Callee<'a>
    ensures { callee_seen result ≡ known_seen known.now }
{
    Callee {
        call: known.call,
        declared: known.declared.get(),
        written: known.written.as_slice(),
    }
}

/// The subgoals on a body that ends with this call.
fn of_callee(
    alloc: Global,
    goal: &Sequent,
    scope: &Scope,
    contract: &Contract,
    pre: &Form,
    post: &Form,
    call: Option<Last<'_>>,
) -> Result<Sequents, Refused>
    ensures { Answers (each_concluding goal.now (of_callee scope.now contract.now pre.now post.now (callee_of scope.now (option_map call_seen call.entry)))) result }
{
    let Some(known) = known_call(alloc, scope, call)? else {
        return Err(no_shape());
    };
    let callee = callee_of(&known);
    by_callee(alloc, goal, scope, contract, pre, post, &callee)
}

/// The subgoals on a body that ends with this call, where a probability is judged.
fn chances_of_callee(
    alloc: Global,
    goal: &Sequent,
    scope: &Scope,
    contract: &Contract,
    judged: &Judged<'_>,
    call: Option<Last<'_>>,
) -> Result<Sequents, Refused>
    ensures { Answers (each_concluding goal.now (chances_of_callee scope.now contract.now judged.now.rel judged.now.pre.now judged.now.post.now judged.now.bound.now
        (callee_of scope.now (option_map call_seen call.entry)))) result }
{
    let Some(known) = known_call(alloc, scope, call)? else {
        return Err(no_shape());
    };
    let callee = callee_of(&known);
    chances_by_callee(alloc, goal, scope, contract, judged, &callee)
}

/// The subgoals of a goal that is seen so.
pub fn called(
    alloc: Global,
    goal: &Sequent,
    scope: &Scope,
    contract: &Contract,
    seen: Goal,
) -> Result<Sequents, Refused>
    ensures { Answers (each_concluding goal.now (on_programs scope.now contract.now contract.now.acts (goal_seen seen.entry))) result }
{
    match (contract.acts, seen) {
        (Acts::All, Goal::Hoare(Code::Body(body), pre, post)) => {
            of_callee(alloc, goal, scope, contract, pre, post, last_call(body))
        }
        (Acts::All, Goal::Phoare(Code::Body(body), rel, pre, post, bound)) => {
            let judged = Judged {
                rel,
                pre,
                post,
                bound,
            };
            chances_of_callee(alloc, goal, scope, contract, &judged, last_call(body))
        }
        _ => Err(no_shape()),
    }
}

/// The subgoals of `call` on a body that ends with a call: the procedure does what is said of it, and what stands before the call leads to
/// where its precondition holds of the arguments, and its postcondition leads to what is to hold after the call, for all results and all
/// values of the globals that the procedure writes. Refused with `Shape` at any other goal, and at a procedure of which it isn't known
/// what it writes; with `SideCondition` where a form reads a variable that clashes with one that is replaced.
pub fn call(
    alloc: Global,
    goal: &Sequent,
    contract: &Contract,
    scope: &Scope,
) -> Result<Sequents, Refused>
    ensures { Answers (answered (call_row scope.now contract.now) goal.now) result }
{
    called(alloc, goal, scope, contract, goal_of(&goal.conclusion))
}

/// `call` is sound over each typed scope, at the goal of each typed sequent.
pub fn call_is_sound()
    ensures { (ds : Declarations) → IsTypedScope (declared ds) → (q : TypedSequent) (t : IsTypedSequent (context_of (declared ds)) q) (s : Said) →
        IsSoundRuleIn (declared ds) (of_sequent (context_of (declared ds)) q t.frames) (call_row ds s) (IsTypedContract (of_sequent (context_of (declared ds)) q t.frames) s) }
{}
