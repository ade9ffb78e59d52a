//! The rule on procedures of abstract modules, by what their oracles keep.

ghost use Rattle.std.specs.Prelude.{◌≡◌, [], ◌∷◌, Some, map, IfOk};
ghost use Rattle.gb_goal.specs.Answers.{Answers};
ghost use Rattle.gb_goal.specs.Goal.{form_of};
ghost use Rattle.gb_goal.specs.Rows.{answered, concluding, each_concluding};
ghost use Rattle.gb_bodies.specs.Conseq.{pair_leads};
ghost use Rattle.gb_adv.specs.Abstract.{abstract_procedure, procedure_seen};
ghost use Rattle.gb_adv.specs.Oracles.{writes_of};
ghost use Rattle.gb_adv.specs.Proc.{both_goals, by_writes, end_alike, on_both, on_one, one_goals, proc_row, start_alike};

use crate::abstract_call::{AbstractProcedure, any_one};
use crate::equations::{followed_by, same_owner, same_params, same_result};
use crate::oracles::{
    Keeping, each_keep_both, each_keeps, meeting, meeting_both, own_names, writes_of,
};
use gb_bodies::goals::{leads, pair_leads};
use gb_core::refusal::{Refused, Why};
use gb_core::var::Var;
use gb_goal::goal::{Code, Goal, goal_of};
use gb_goal::scope::Scope;
use gb_goal::sequent::{Sequent, Sequents};
use gb_mods::exclusions::exclusions;
use gb_mods::meant::meant_by;
use gb_prog::subgoals::{no_shape, refusal, two_goals};
use gb_terms::make::conjunction;
use gb_terms::module::ProcRef;
use gb_terms::term::Form;
use sqlite_items::Items;
use std::alloc::{AllocError, Global};

/// The form holds, the parameters are the same, and so is all that is the module's own.
fn start_alike(
    alloc: Global,
    left: &AbstractProcedure<'_>,
    right: &AbstractProcedure<'_>,
    kept: &Form,
) -> Result<Form, AllocError>
    ensures { IfOk result (λ made. made ≡ start_alike (procedure_seen left.now) (procedure_seen right.now) kept.now) }
{
    let equal = same_params(alloc, Items::new(alloc), left.ty.params, right.ty.params)?;
    let holds = followed_by(alloc, kept.share()?, equal.as_slice())?;
    conjunction(alloc, holds, same_owner(alloc, left.owner)?)
}

/// The form holds, the results are the same, and so is all that is the module's own.
fn end_alike(
    alloc: Global,
    procedure: &AbstractProcedure<'_>,
    kept: &Form,
) -> Result<Form, AllocError>
    ensures { IfOk result (λ made. made ≡ end_alike (procedure_seen procedure.now) kept.now) }
{
    let results = same_result(alloc, procedure.ty.result)?;
    let holds = conjunction(alloc, kept.share()?, results)?;
    conjunction(alloc, holds, same_owner(alloc, procedure.owner)?)
}

/// The precondition leads to where the procedures may start.
fn leads_in(
    alloc: Global,
    keeping: &Keeping<'_>,
    left: &AbstractProcedure<'_>,
    right: &AbstractProcedure<'_>,
) -> Result<Form, AllocError>
    ensures { IfOk result (λ made. made ≡ form_of (pair_leads keeping.now.pre.now (start_alike (procedure_seen left.now) (procedure_seen right.now) keeping.now.kept.now))) }
{
    let start = start_alike(alloc, left, right, keeping.kept)?;
    pair_leads(alloc, keeping.pre, &start)
}

/// Where the procedures end leads to the postcondition.
fn leads_out(
    alloc: Global,
    keeping: &Keeping<'_>,
    procedure: &AbstractProcedure<'_>,
) -> Result<Form, AllocError>
    ensures { IfOk result (λ made. made ≡ form_of (pair_leads (end_alike (procedure_seen procedure.now) keeping.now.kept.now) keeping.now.post.now)) }
{
    let end = end_alike(alloc, procedure, keeping.kept)?;
    pair_leads(alloc, &end, keeping.post)
}

/// The conditions lead to where the procedures may start, and from where they end.
fn conditions(
    alloc: Global,
    keeping: &Keeping<'_>,
    left: &AbstractProcedure<'_>,
    right: &AbstractProcedure<'_>,
) -> Result<Sequents, AllocError>
    ensures { IfOk result (λ goals. goals ≡ map (concluding keeping.now.goal.now)
        (pair_leads keeping.now.pre.now (start_alike (procedure_seen left.now) (procedure_seen right.now) keeping.now.kept.now)
        ∷ pair_leads (end_alike (procedure_seen left.now) keeping.now.kept.now) keeping.now.post.now ∷ [])) }
{
    let first = leads_in(alloc, keeping, left, right)?;
    let second = leads_out(alloc, keeping, left)?;
    two_goals(alloc, keeping.goal, first, second)
}

/// The oracles keep the form, and the conditions lead to where the procedures may start, and from where they end.
#[tactic(auto, using(crate::proofs::OracleSteps::refused_behind))]
fn both_goals(
    alloc: Global,
    keeping: &Keeping<'_>,
    left: &AbstractProcedure<'_>,
    right: &AbstractProcedure<'_>,
) -> Result<Sequents, Refused>
    ensures { Answers (each_concluding keeping.now.goal.now (both_goals keeping.now.scope.now (procedure_seen left.now) (procedure_seen right.now)
        keeping.now.kept.now keeping.now.pre.now keeping.now.post.now)) result }
{
    let last = conditions(alloc, keeping, left, right)?;
    let mut goals = each_keep_both(alloc, keeping, left.oracles, right.oracles)?;
    goals.append(last)?;
    Ok(goals)
}

/// The goals of two procedures whose oracles write these.
fn by_writes(
    alloc: Global,
    keeping: &Keeping<'_>,
    left: &AbstractProcedure<'_>,
    written: &[Var],
    right: &AbstractProcedure<'_>,
    others: &[Var],
) -> Result<Sequents, Refused>
    ensures { Answers (each_concluding keeping.now.goal.now (by_writes keeping.now.scope.now (procedure_seen left.now) (procedure_seen right.now)
        keeping.now.kept.now keeping.now.pre.now keeping.now.post.now (Some written.now) (Some others.now))) result }
{
    let excluded = exclusions(alloc, keeping.scope)?;
    let excluded = excluded.as_slice();
    let (owner, kept) = (left.owner, keeping.kept);
    if let Some(var) = meeting_both(alloc, excluded, owner, kept, written, others)? {
        return Err(refusal(Why::SideCondition(var)));
    }
    both_goals(alloc, keeping, left, right)
}

/// The goals of two procedures of abstract modules, by what their oracles write.
fn by_oracles(
    alloc: Global,
    keeping: &Keeping<'_>,
    left: &AbstractProcedure<'_>,
    right: &AbstractProcedure<'_>,
) -> Result<Sequents, Refused>
    ensures { Answers (each_concluding keeping.now.goal.now (by_writes keeping.now.scope.now (procedure_seen left.now) (procedure_seen right.now)
        keeping.now.kept.now keeping.now.pre.now keeping.now.post.now
        (writes_of keeping.now.scope.now (procedure_seen left.now).oracles) (writes_of keeping.now.scope.now (procedure_seen right.now).oracles))) result }
{
    let Some(written) = writes_of(alloc, keeping.scope, left.oracles)? else {
        return Err(no_shape());
    };
    let Some(others) = writes_of(alloc, keeping.scope, right.oracles)? else {
        return Err(no_shape());
    };
    let (written, others) = (written.as_slice(), others.as_slice());
    by_writes(alloc, keeping, left, written, right, others)
}

/// The goals of two procedures, the left one of which is of an abstract module.
fn beside(
    alloc: Global,
    keeping: &Keeping<'_>,
    left: &AbstractProcedure<'_>,
    right: &ProcRef,
) -> Result<Sequents, Refused>
    ensures { Answers (each_concluding keeping.now.goal.now (on_both keeping.now.scope.now keeping.now.kept.now keeping.now.pre.now keeping.now.post.now
        (Some (procedure_seen left.now)) (abstract_procedure keeping.now.scope.now right.now))) result }
{
    let meant = meant_by(alloc, keeping.scope, right)?;
    let Some(right) = any_one(keeping.scope, right, &meant) else {
        return Err(no_shape());
    };
    if !left.is_same(&right) || !own_names(left.ty.params) {
        return Err(no_shape());
    }
    by_oracles(alloc, keeping, left, &right)
}

/// The goals of two procedures.
fn on_both(
    alloc: Global,
    keeping: &Keeping<'_>,
    left: &ProcRef,
    right: &ProcRef,
) -> Result<Sequents, Refused>
    ensures { Answers (each_concluding keeping.now.goal.now (on_both keeping.now.scope.now keeping.now.kept.now keeping.now.pre.now keeping.now.post.now
        (abstract_procedure keeping.now.scope.now left.now) (abstract_procedure keeping.now.scope.now right.now))) result }
{
    let meant = meant_by(alloc, keeping.scope, left)?;
    let Some(left) = any_one(keeping.scope, left, &meant) else {
        return Err(no_shape());
    };
    beside(alloc, keeping, &left, right)
}

/// The oracles keep the form, and the conditions lead to it, and from it.
#[tactic(auto, using(crate::proofs::OracleSteps::all_behind))]
fn one_goals(
    alloc: Global,
    keeping: &Keeping<'_>,
    procedure: &AbstractProcedure<'_>,
) -> Result<Sequents, AllocError>
    ensures { IfOk result (λ goals. goals ≡ map (concluding keeping.now.goal.now) (one_goals (procedure_seen procedure.now) keeping.now.kept.now keeping.now.pre.now keeping.now.post.now)) }
{
    let first = leads(alloc, keeping.pre, keeping.kept)?;
    let second = leads(alloc, keeping.kept, keeping.post)?;
    let last = two_goals(alloc, keeping.goal, first, second)?;
    let mut goals = each_keeps(alloc, keeping, procedure.oracles)?;
    goals.append(last)?;
    Ok(goals)
}

/// The goals of one procedure of an abstract module.
fn by_read(
    alloc: Global,
    keeping: &Keeping<'_>,
    procedure: &AbstractProcedure<'_>,
) -> Result<Sequents, Refused>
    ensures { Answers (each_concluding keeping.now.goal.now (on_one keeping.now.scope.now keeping.now.kept.now keeping.now.pre.now keeping.now.post.now
        (Some (procedure_seen procedure.now)))) result }
{
    let excluded = exclusions(alloc, keeping.scope)?;
    if let Some(var) = meeting(alloc, excluded.as_slice(), procedure.owner, keeping.kept)? {
        return Err(refusal(Why::SideCondition(var)));
    }
    Ok(one_goals(alloc, keeping, procedure)?)
}

/// The goals of one procedure.
fn on_one(alloc: Global, keeping: &Keeping<'_>, procedure: &ProcRef) -> Result<Sequents, Refused>
    ensures { Answers (each_concluding keeping.now.goal.now (on_one keeping.now.scope.now keeping.now.kept.now keeping.now.pre.now keeping.now.post.now
        (abstract_procedure keeping.now.scope.now procedure.now))) result }
{
    let meant = meant_by(alloc, keeping.scope, procedure)?;
    let Some(procedure) = any_one(keeping.scope, procedure, &meant) else {
        return Err(no_shape());
    };
    by_read(alloc, keeping, &procedure)
}

/// The subgoals of `proc` by a form that is kept, on a procedure of an abstract module, or on two that are one procedure with other modules for
/// the module's parameters: the oracles that its signature names keep the form, and the conditions lead to it, and from it. Of two
/// procedures the parameters are the same too where they start, and the results where they end, and all that is the module's own; and
/// the oracles give equal results of equal arguments. Refused with `Shape` at any other goal; with `SideCondition` where what is kept
/// reads a variable that clashes with all that is the module's own, or an oracle of one of two procedures writes one.
pub fn proc<'a>(
    alloc: Global,
    goal: &'a Sequent,
    kept: &'a Form,
    scope: &'a Scope,
) -> Result<Sequents, Refused>
    ensures { Answers (answered (proc_row scope.now kept.now) goal.now) result }
{
    match goal_of(&goal.conclusion) {
        Goal::Equiv(Code::Procedure(left), Code::Procedure(right), pre, post) => {
            let keeping = Keeping {
                goal,
                scope,
                kept,
                pre,
                post,
            };
            on_both(alloc, &keeping, left, right)
        }
        Goal::Hoare(Code::Procedure(procedure), pre, post) => {
            let keeping = Keeping {
                goal,
                scope,
                kept,
                pre,
                post,
            };
            on_one(alloc, &keeping, procedure)
        }
        _ => Err(no_shape()),
    }
}
