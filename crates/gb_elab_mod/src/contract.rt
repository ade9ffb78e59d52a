// The typing of what procedures are said to do, and of `call`, by that, by what oracles keep, and by what is known.

ghost use Rattle.std.specs.Prelude.{◌≡◌, [], None, Some, IfOk};
ghost use Rattle.std.specs.Option.{option_copied};
ghost use Rattle.gb_script.specs.Tree.{head_of, parts_of};
ghost use Rattle.gb_goal.specs.Answers.{Answers};
ghost use Rattle.gb_core.specs.declared.ty.Ty.TheVariants.{Bool};
ghost use Rattle.gb_goal.specs.Interfaces.{procedure_type};
ghost use Rattle.gb_goal.specs.Views.{goal_seen};
ghost use Rattle.gb_elab.specs.Forms.{elaborated};
ghost use Rattle.gb_names.specs.Environment.{relational, unary};
ghost use Rattle.gb_elab_mod.specs.OnPrograms.{call_rule, contract_at, contract_of, contract_of_both, contract_on, last_procedure, params_if, procedure_called, related, result_if, said_around};

use crate::forms::{form_on_one, form_on_two};
use crate::kept::{calls_rule, calls_until};
use crate::uses::used;
use gb_core::place::Place;
use gb_core::refusal::Refused;
use gb_goal::goal::{Code, Goal, goal_of};
use gb_goal::interface::procedure_type;
use gb_goal::scope::Scope;
use gb_goal::sequent::Sequent;
use gb_names::judgment::result_of;
use gb_names::refusals::not_built;
use gb_script::head::Head;
use gb_script::tree::Node;
use gb_steps::step::{Acts, BodyRule, Contract, Rule};
use gb_terms::decl::{Typed, TypedName};
use gb_terms::module::ProcRef;
use gb_terms::term::{Form, Instr};
use sqlite_items::Items;
use std::alloc::{AllocError, Global};

/// The procedure that a statement calls itself.
fn procedure_called(statement: &Instr) -> Option<&ProcRef>
    ensures { option_copied result ≡ procedure_called statement.now }
{
    match statement {
        Instr::Call(_, procedure, _) => Some(procedure.get()),
        _ => None,
    }
}

/// The procedure that the last statement of a body calls.
#[tactic(auto, using(crate::proofs::LastProcedures::last_statement, crate::proofs::LastProcedures::no_statement))]
fn last_procedure(body: &[Instr]) -> Option<&ProcRef>
    ensures { option_copied result ≡ last_procedure body.now }
{
    match body.split_last() {
        Some((last, _)) => procedure_called(last),
        None => None,
    }
}

/// The parameters of a procedure that may be declared.
pub fn params_of<'a>(scope: &'a Scope, procedure: &ProcRef) -> &'a [TypedName]
    ensures { result.now ≡ params_if (procedure_type scope.now None procedure.now) }
{
    match procedure_type(scope, None, procedure) {
        Some(ty) => ty.params,
        None => &[],
    }
}

/// Its result.
pub fn result_if(alloc: Global, scope: &Scope, procedure: &ProcRef) -> Result<Typed, AllocError>
    ensures { IfOk result (λ made. made ≡ result_if (procedure_type scope.now None procedure.now)) }
{
    match procedure_type(scope, None, procedure) {
        Some(ty) => result_of(alloc, ty),
        None => Ok(Items::new(alloc)),
    }
}

/// A precondition and a postcondition as they are written.
#[derive(Clone, Copy)]
pub struct Said<'a> {
    pub pre: &'a Node,
    pub post: &'a Node,
}

/// A form over the result of a procedure.
///
/// # Errors
///
/// Those of typing.
pub fn said_after(
    alloc: Global,
    scope: &Scope,
    goal: &Sequent,
    said: &Node,
    procedure: &ProcRef,
) -> Result<Form, Refused>
    ensures { Answers (elaborated said.now (unary scope.now goal.now (result_if (procedure_type scope.now None procedure.now))) [] (Some Bool)) result }
{
    let result = result_if(alloc, scope, procedure)?;
    form_on_one(alloc, scope, goal, result.as_slice(), said)
}

/// What is said before and after one procedure: a form over its parameters, and one over its result.
///
/// # Errors
///
/// Those of typing.
#[tactic(auto, unfolding(crate::specs::OnPrograms::said_around))]
pub fn said_around(
    alloc: Global,
    scope: &Scope,
    goal: &Sequent,
    said: Said<'_>,
    procedure: &ProcRef,
) -> Result<(Form, Form), Refused>
    ensures { Answers (said_around scope.now goal.now said.entry.pre.now said.entry.post.now procedure.now) result }
{
    let pre = form_on_one(alloc, scope, goal, params_of(scope, procedure), said.pre)?;
    let post = said_after(alloc, scope, goal, said.post, procedure)?;
    Ok((pre, post))
}

/// What a called procedure is said to do: a precondition reads its parameters, and a postcondition its result.
#[tactic(auto, unfolding(crate::specs::OnPrograms::contract_of, crate::specs::OnPrograms::said_around))]
fn contract_of(
    alloc: Global,
    scope: &Scope,
    goal: &Sequent,
    acts: Acts,
    said: Said<'_>,
    called: Option<&ProcRef>,
) -> Result<Rule, Refused>
    ensures { Answers (contract_of scope.now goal.now acts said.entry.pre.now said.entry.post.now (option_copied called.entry)) result }
{
    let Some(called) = called else {
        return Ok(Rule::OnBodies(BodyRule::Unfit));
    };
    let (pre, post) = said_around(alloc, scope, goal, said, called)?;
    Ok(Rule::Call(Contract { acts, pre, post }))
}

/// A form over the results of two procedures.
fn after_both(
    alloc: Global,
    scope: &Scope,
    goal: &Sequent,
    said: &Node,
    left: &ProcRef,
    right: &ProcRef,
) -> Result<Form, Refused>
    ensures { Answers (elaborated said.now (relational scope.now goal.now (result_if (procedure_type scope.now None left.now)) (result_if (procedure_type scope.now None right.now))) [] (Some Bool)) result }
{
    let result = result_if(alloc, scope, left)?;
    let other = result_if(alloc, scope, right)?;
    form_on_two(
        alloc,
        scope,
        goal,
        result.as_slice(),
        other.as_slice(),
        said,
    )
}

/// What relates two procedures: a form over the parameters of both, and one over both results.
///
/// # Errors
///
/// Those of typing.
#[tactic(auto, unfolding(crate::specs::OnPrograms::related))]
pub fn related(
    alloc: Global,
    scope: &Scope,
    goal: &Sequent,
    said: Said<'_>,
    left: &ProcRef,
    right: &ProcRef,
) -> Result<(Form, Form), Refused>
    ensures { Answers (related scope.now goal.now said.entry.pre.now said.entry.post.now left.now right.now) result }
{
    let (params, others) = (params_of(scope, left), params_of(scope, right));
    let pre = form_on_two(alloc, scope, goal, params, others, said.pre)?;
    let post = after_both(alloc, scope, goal, said.post, left, right)?;
    Ok((pre, post))
}

/// What two called procedures are said to do: a precondition reads the parameters of both, and a postcondition both results.
#[tactic(auto, unfolding(crate::specs::OnPrograms::contract_of_both, crate::specs::OnPrograms::related))]
fn contract_of_both(
    alloc: Global,
    scope: &Scope,
    goal: &Sequent,
    acts: Acts,
    said: Said<'_>,
    left: Option<&ProcRef>,
    right: Option<&ProcRef>,
) -> Result<Rule, Refused>
    ensures { Answers (contract_of_both scope.now goal.now acts said.entry.pre.now said.entry.post.now (option_copied left.entry) (option_copied right.entry)) result }
{
    let (Some(left), Some(right)) = (left, right) else {
        return Ok(Rule::OnBodies(BodyRule::Unfit));
    };
    let (pre, post) = related(alloc, scope, goal, said, left, right)?;
    Ok(Rule::Call(Contract { acts, pre, post }))
}

/// The same of two bodies, or of the one of them on which the step acts.
fn contract_on(
    alloc: Global,
    scope: &Scope,
    goal: &Sequent,
    acts: Acts,
    said: Said<'_>,
    left: &[Instr],
    right: &[Instr],
) -> Result<Rule, Refused>
    ensures { Answers (contract_on scope.now goal.now acts said.entry.pre.now said.entry.post.now left.now right.now) result }
{
    let (first, second) = (last_procedure(left), last_procedure(right));
    match acts {
        Acts::All => contract_of_both(alloc, scope, goal, acts, said, first, second),
        Acts::Left => contract_of(alloc, scope, goal, acts, said, first),
        Acts::Right => contract_of(alloc, scope, goal, acts, said, second),
    }
}

/// The same at a goal that is seen so.
fn contract_at(
    alloc: Global,
    scope: &Scope,
    goal: &Sequent,
    acts: Acts,
    said: Said<'_>,
    seen: Goal<'_>,
) -> Result<Rule, Refused>
    ensures { Answers (contract_at scope.now goal.now acts said.entry.pre.now said.entry.post.now (goal_seen seen.entry)) result }
{
    match seen {
        Goal::Hoare(Code::Body(list), _, _) | Goal::Phoare(Code::Body(list), ..) => {
            contract_of(alloc, scope, goal, acts, said, last_procedure(list))
        }
        Goal::Equiv(Code::Body(left), Code::Body(right), _, _) => {
            contract_on(alloc, scope, goal, acts, said, left, right)
        }
        _ => Ok(Rule::OnBodies(BodyRule::Unfit)),
    }
}

/// The typed step of `call`.
///
/// # Errors
///
/// `Syntax` of one that isn't built, and those of typing.
pub fn call_rule(
    alloc: Global,
    scope: &Scope,
    goal: &Sequent,
    acts: Acts,
    said: &Node,
    place: Place,
) -> Result<Rule, Refused>
    ensures { Answers (call_rule scope.now goal.now acts (head_of said.now) (parts_of said.now) place) result }
{
    match (said.head, said.parts.as_slice()) {
        (Head::CallContract, [pre, post]) => {
            let said = Said { pre, post };
            contract_at(alloc, scope, goal, acts, said, goal_of(&goal.conclusion))
        }
        (Head::CallInvariant, [kept]) => calls_rule(alloc, scope, goal, acts, kept),
        (Head::CallUpto, [event, kept]) => calls_until(alloc, scope, goal, acts, event, kept),
        (Head::CallLemma, [known]) => Ok(Rule::CallKnown(acts, used(alloc, scope, goal, known)?)),
        _ => Err(not_built(place)),
    }
}
