//! The rule `call` on one of two bodies, by what a procedure is said to do.

ghost use Rattle.std.specs.Prelude.{◌≡◌, IfOk, map};
ghost use Rattle.std.specs.List.{list_any};
ghost use Rattle.std.specs.Option.{option_copied, option_map};
ghost use Rattle.gb_goal.specs.Answers.{Answers};
ghost use Rattle.gb_goal.specs.Goal.{form_of};
ghost use Rattle.gb_goal.specs.Rows.{concluding, each_concluding};
ghost use Rattle.gb_goal.specs.Views.{goal_seen};
ghost use Rattle.gb_prog.specs.OneBody.{filled, one_seen, side_of};
ghost use Rattle.gb_full.specs.Lossless.{full};
ghost use Rattle.gb_walk.specs.Clash.{variables_read};
ghost use Rattle.gb_mods.specs.Exclusions.{exclusions};
ghost use Rattle.gb_call.specs.Call.{callee_of, callee_seen, left_of, unless_clash};
ghost use Rattle.gb_call.specs.LastCall.{call_seen};
ghost use Rattle.gb_call.specs.Outcomes.{clash_after, globals_seen};
ghost use Rattle.gb_call.specs.Written.{with_types};
ghost use Rattle.gb_call_both.specs.OneSide.{by_side_callee, by_side_globals, head_speaks, judged, lost, of_side_callee, on_one_side, on_side, side_goals, speaks, where_full};

use gb_call::call::{
    Callee, MANY, before_call, callee_of, clash_in, does, does_as_likely, known_call, read_after,
    side_condition,
};
use gb_call::last_call::{Last, last_call};
use gb_call::written::TypedGlobal;
use gb_core::Shared;
use gb_core::refusal::Refused;
use gb_forms::calls::Reads;
use gb_full::loss::subject_loss;
use gb_full::lossless::full;
use gb_goal::goal::Goal;
use gb_goal::scope::Scope;
use gb_goal::sequent::{Sequent, Sequents};
use gb_prog::forms::located;
use gb_prog::one_body::{OneBody, filled, one_body, side_of};
use gb_prog::subgoals::{no_shape, shared_body, two_goals};
use gb_steps::step::{Acts, Contract};
use gb_terms::module::ProcRef;
use gb_terms::op::{Rel, Side};
use gb_terms::term::{Form, Head, RealTerm, Subject, Term};
use std::alloc::{AllocError, Global};

/// Whether this head speaks of programs, or of every memory.
fn head_speaks(head: &Head) -> bool
    ensures { result ≡ head_speaks head.now }
{
    match head {
        Head::AllMemory | Head::SomeMemory => true,
        Head::Pr(..) | Head::Hoare(_) | Head::Phoare(..) | Head::Equiv(..) => true,
        _ => false,
    }
}

/// Whether a form speaks of programs, or of every memory.
#[cycle(speaking)]
#[tactic(auto, using(crate::proofs::SideSteps::speaks_out))]
pub fn speaks(term: &Term) -> bool
    ensures { result ≡ speaks term.now }
{
    head_speaks(term.head.get()) || any_speaks(term.args.as_slice())
}

#[cycle(speaking)]
fn any_speaks(list: &[Term]) -> bool
    ensures { result ≡ list_any speaks list.now }
{
    for term in list {
        if speaks(term) {
            return true;
        }
    }
    false
}

/// What is said of a procedure, of a memory of the goal.
fn on_side(alloc: Global, side: Side, contract: &Contract) -> Result<Contract, AllocError>
    ensures { IfOk result (λ made. made ≡ on_side side contract.now) }
{
    let acts = contract.acts;
    let pre = located(alloc, &contract.pre, side)?;
    let post = located(alloc, &contract.post, side)?;
    Ok(Contract { acts, pre, post })
}

/// What is said always holds after the procedure, or with this probability.
fn judged(
    alloc: Global,
    surely: Option<&RealTerm>,
    procedure: &Shared<ProcRef>,
    contract: &Contract,
) -> Result<Form, AllocError>
    ensures { IfOk result (λ made. made ≡ form_of (judged (option_copied surely.entry) procedure.now contract.now)) }
{
    match surely {
        None => does(alloc, procedure, contract),
        Some(bound) => does_as_likely(alloc, procedure, contract, Rel::Equal, bound),
    }
}

/// Why a procedure is refused that may lose weight. None does after which what is said holds with probability 1.
fn full_call(
    alloc: Global,
    scope: &Scope,
    surely: Option<&RealTerm>,
    procedure: &Shared<ProcRef>,
) -> Result<(), Refused>
    ensures { Answers (full (lost scope.now (option_copied surely.entry) procedure.now)) result }
{
    if surely.is_some() {
        return Ok(());
    }
    let subject = Subject::Proc(procedure.share()?);
    full(alloc, subject_loss(alloc, scope, &subject)?)
}

/// A call that ends a body, and what is said of its procedure: of its own memory, and of the memory of the goal.
#[derive(Clone, Copy)]
struct Saying<'a> {
    callee: &'a Callee<'a>,
    contract: &'a Contract,
    here: &'a Contract,
    surely: Option<&'a RealTerm>,
}

/// What stands before the call, and the other body, lead to where it may be called.
fn leads(
    alloc: Global,
    one: &OneBody<'_>,
    callee: &Callee<'_>,
    post: Form,
) -> Result<Form, AllocError>
    ensures { IfOk result (λ made. made ≡ form_of (filled one.now.around (callee_seen callee.now).call.before one.now.pre.now post)) }
{
    let list = shared_body(alloc, callee.call.before)?;
    let pre = one.pre.share()?;
    filled(alloc, one.around, list, pre, post)
}

/// The subgoals of a call of a procedure, where these globals are read after it.
fn side_goals(
    alloc: Global,
    goal: &Sequent,
    one: &OneBody<'_>,
    saying: &Saying<'_>,
    reads: &Reads,
    globals: &[TypedGlobal],
) -> Result<Sequents, AllocError>
    requires here { saying.now.here.now ≡ on_side (side_of one.now.around) saying.now.contract.now }
    requires said { reads.now.said ≡ variables_read (side_of one.now.around) saying.now.here.now.post }
    requires later { reads.now.after ≡ variables_read (side_of one.now.around) one.now.post.now }
    ensures { IfOk result (λ made. made ≡ map (concluding goal.now)
        (side_goals (option_copied saying.now.surely) saying.now.contract.now (one_seen one.now) (callee_seen saying.now.callee.now) (globals_seen globals.now))) }
{
    let callee = saying.callee;
    let side = side_of(one.around);
    let rel = Rel::AtLeast;
    let before = before_call(
        alloc,
        rel,
        side,
        callee,
        globals,
        reads,
        saying.here,
        one.post,
    )?;
    let second = leads(alloc, one, callee, before)?;
    let first = judged(alloc, saying.surely, callee.call.procedure, saying.contract)?;
    two_goals(alloc, goal, first, second)
}

/// The subgoals of a call of a procedure that loses no weight, where no variable clashes.
fn by_globals(
    alloc: Global,
    goal: &Sequent,
    scope: &Scope,
    one: &OneBody<'_>,
    saying: &Saying<'_>,
) -> Result<Sequents, Refused>
    requires { saying.now.here.now ≡ on_side (side_of one.now.around) saying.now.contract.now }
    ensures { Answers (each_concluding goal.now (by_side_globals (option_copied saying.now.surely) saying.now.contract.now (one_seen one.now) (callee_seen saying.now.callee.now)
        (with_types scope.now (left_of (side_of one.now.around) (callee_seen saying.now.callee.now) (on_side (side_of one.now.around) saying.now.contract.now) one.now.post.now)))) result }
{
    let side = side_of(one.around);
    let (callee, here, post) = (saying.callee, saying.here, one.post);
    let Some(read) = read_after(alloc, side, scope, callee, here, post)? else {
        return Err(no_shape());
    };
    let globals = read.globals.as_slice();
    Ok(side_goals(alloc, goal, one, saying, &read.reads, globals)?)
}

/// The subgoals of a call of a procedure of which this is said.
fn by_saying(
    alloc: Global,
    goal: &Sequent,
    scope: &Scope,
    one: &OneBody<'_>,
    saying: &Saying<'_>,
) -> Result<Sequents, Refused>
    requires { saying.now.here.now ≡ on_side (side_of one.now.around) saying.now.contract.now }
    ensures { Answers (each_concluding goal.now
        (unless_clash (clash_after (exclusions scope.now) (side_of one.now.around) (callee_seen saying.now.callee.now).call.targets (callee_seen saying.now.callee.now).written
        (on_side (side_of one.now.around) saying.now.contract.now).post one.now.post.now)
        (where_full (lost scope.now (option_copied saying.now.surely) (callee_seen saying.now.callee.now).call.procedure)
        (by_side_globals (option_copied saying.now.surely) saying.now.contract.now (one_seen one.now) (callee_seen saying.now.callee.now)
        (with_types scope.now (left_of (side_of one.now.around) (callee_seen saying.now.callee.now) (on_side (side_of one.now.around) saying.now.contract.now) one.now.post.now)))))) result }
{
    let side = side_of(one.around);
    let callee = saying.callee;
    if let Some(var) = clash_in(alloc, side, scope, callee, saying.here, one.post)? {
        return Err(side_condition(alloc, var));
    }
    full_call(alloc, scope, saying.surely, callee.call.procedure)?;
    by_globals(alloc, goal, scope, one, saying)
}

/// The subgoals of a call of a procedure.
fn by_callee(
    alloc: Global,
    goal: &Sequent,
    scope: &Scope,
    contract: &Contract,
    surely: Option<&RealTerm>,
    one: &OneBody<'_>,
    callee: &Callee<'_>,
) -> Result<Sequents, Refused>
    ensures { Answers (each_concluding goal.now (by_side_callee scope.now (option_copied surely.entry) contract.now (one_seen one.now) (callee_seen callee.now))) result }
{
    if callee.call.targets.len() >= MANY {
        return Err(no_shape());
    }
    if speaks(&contract.pre) || speaks(&contract.post) {
        return Err(no_shape());
    }
    let side = side_of(one.around);
    let here = on_side(alloc, side, contract)?;
    let saying = Saying {
        callee,
        contract,
        here: &here,
        surely,
    };
    by_saying(alloc, goal, scope, one, &saying)
}

/// The subgoals on the body on which the rule acts, where it ends with this call.
fn of_callee(
    alloc: Global,
    goal: &Sequent,
    scope: &Scope,
    contract: &Contract,
    surely: Option<&RealTerm>,
    one: &OneBody<'_>,
    call: Option<Last<'_>>,
) -> Result<Sequents, Refused>
    ensures { Answers (each_concluding goal.now (of_side_callee scope.now (option_copied surely.entry) contract.now (one_seen one.now)
        (callee_of scope.now (option_map call_seen call.entry)))) result }
{
    let Some(known) = known_call(alloc, scope, call)? else {
        return Err(no_shape());
    };
    let callee = callee_of(&known);
    by_callee(alloc, goal, scope, contract, surely, one, &callee)
}

/// The subgoals of `call` on one of two bodies, which ends with a call: the procedure does what is said of it, and what stands before the
/// call leads to where its precondition holds of the arguments, and its postcondition leads to what is to hold after the call, for all
/// results and all values of the globals that the procedure writes. What is said is said with probability 1 where a bound is given that is
/// known to be 1, else the procedure must not lose weight. Refused with `Shape` at any other goal, at a procedure of which it isn't known
/// what it writes, and where a condition speaks of programs, or of every memory; with `SideCondition` where a form reads a variable that
/// clashes with one that is replaced; with `NotLossless` where the procedure may lose weight.
pub fn one_side(
    alloc: Global,
    goal: &Sequent,
    scope: &Scope,
    contract: &Contract,
    surely: Option<&RealTerm>,
    seen: Goal<'_>,
) -> Result<Sequents, Refused>
    ensures { Answers (each_concluding goal.now (on_one_side scope.now (option_copied surely.entry) contract.now contract.now.acts (goal_seen seen.entry))) result }
{
    match contract.acts {
        Acts::All => Err(no_shape()),
        acts => match one_body(acts, seen) {
            Some(one) => {
                let call = last_call(one.list);
                of_callee(alloc, goal, scope, contract, surely, &one, call)
            }
            None => Err(no_shape()),
        },
    }
}
