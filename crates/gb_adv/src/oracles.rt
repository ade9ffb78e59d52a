//! What oracles of procedures of abstract modules are to keep, and what they write.

ghost use Rattle.std.specs.Prelude.{◌≡◌, ◌++◌, ◌∷◌, Some, map, filter, IfOk, IfSome};
ghost use Rattle.std.specs.Option.{option_copied, option_map};
ghost use Rattle.gb_goal.specs.Answers.{Answers};
ghost use Rattle.gb_goal.specs.Goal.{form_of};
ghost use Rattle.gb_goal.specs.Interfaces.{procedure_type};
ghost use Rattle.gb_goal.specs.Rows.{concluding, each_concluding};
ghost use Rattle.gb_goal.specs.Seen.{typed};
ghost use Rattle.gb_mods.specs.Written.{written_if};
ghost use Rattle.gb_walk.specs.Clash.{clashes, least_from, variables_read};
ghost use Rattle.gb_adv.specs.Oracles.{each_keep_both, each_keeps, keep_both, keeps, meeting, meeting_both, writes_of};
ghost use Rattle.gb_adv.specs.Equations.{led_by, same_params};
ghost use Rattle.gb_adv.specs.OwnNames.{own_names};

use crate::equations::{led_by, owner_variable, same_params, same_result};
use gb_call::call::in_front;
use gb_call::reads::variables_read;
use gb_call::written::type_named;
use gb_core::Shared;
use gb_core::copy::copy_var;
use gb_core::name::Name;
use gb_core::refusal::Refused;
use gb_core::var::{Var, Vars};
use gb_goal::interface::{ProcedureType, procedure_type};
use gb_goal::scope::Scope;
use gb_goal::sequent::{Sequent, Sequents};
use gb_mods::called::{Procedures, all_reached};
use gb_mods::order::joined;
use gb_mods::written::written_by;
use gb_prog::judged::{equiv_of, hoare_of};
use gb_prog::subgoals::no_shape;
use gb_terms::decl::TypedName;
use gb_terms::make::conjunction;
use gb_terms::module::ProcRef;
use gb_terms::op::Side;
use gb_terms::term::{Form, Subject};
use gb_walk::clash::{Excluded, clashes, lesser};
use sqlite_items::Items;
use std::alloc::{AllocError, Global};

/// A goal in a scope, a judgment with these conditions, and a form that oracles are to keep.
#[derive(Clone, Copy)]
pub struct Keeping<'a> {
    pub goal: &'a Sequent,
    pub scope: &'a Scope,
    pub kept: &'a Form,
    pub pre: &'a Form,
    pub post: &'a Form,
}

/// An oracle keeps a form.
pub fn keeps(alloc: Global, kept: &Form, oracle: &Shared<ProcRef>) -> Result<Form, AllocError>
    ensures { IfOk result (λ made. made ≡ form_of (keeps kept.now oracle.now)) }
{
    let subject = Subject::Proc(oracle.share()?);
    hoare_of(alloc, &subject, kept.share()?, kept.share()?)
}

/// One goal for each oracle, in order: it keeps the form.
pub fn each_keeps(
    alloc: Global,
    keeping: &Keeping<'_>,
    oracles: &[Shared<ProcRef>],
) -> Result<Sequents, AllocError>
    ensures { IfOk result (λ goals. goals ≡ map (concluding keeping.now.goal.now) (each_keeps keeping.now.kept.now oracles.now)) }
{
    let mut goals = Items::new(alloc);
    for oracle in oracles {
        let form = keeps(alloc, keeping.kept, oracle)?;
        goals.push(keeping.goal.with_conclusion(form)?)?;
    }
    Ok(goals)
}

/// Whether no two parameters have the same name.
pub fn own_names(params: &[TypedName]) -> bool
    ensures { result ≡ own_names params.now }
{
    match params {
        [] => true,
        [x, others @ ..] => type_named(others, &x.name).is_none() && own_names(others),
    }
}

/// An oracle with its type.
#[derive(Clone, Copy)]
pub struct Oracle<'a> {
    pub procedure: &'a Shared<ProcRef>,
    pub ty: ProcedureType<'a>,
}

/// An oracle, with its type, if it has one.
pub fn typed_oracle<'a>(scope: &'a Scope, procedure: &'a Shared<ProcRef>) -> Option<Oracle<'a>>
    ensures procedures { IfSome result (λ o. o.procedure.now ≡ procedure.now) }
    ensures types { option_map (λ o. typed o.ty) result ≡ procedure_type scope.now None procedure.now }
{
    let ty = procedure_type(scope, None, procedure.get())?;
    Some(Oracle { procedure, ty })
}

/// The parameters of two procedures are the same, and the form holds.
fn from_equal(
    alloc: Global,
    kept: &Form,
    left: &[TypedName],
    right: &[TypedName],
) -> Result<Form, AllocError>
    ensures { IfOk result (λ made. made ≡ led_by (same_params left.now right.now) kept.now) }
{
    let equal = same_params(alloc, Items::new(alloc), left, right)?;
    led_by(alloc, equal.as_slice(), kept.share()?)
}

/// An oracle on either side: from equal arguments, where the form holds, they give equal results, and the form holds.
fn keep_both(
    alloc: Global,
    kept: &Form,
    left: &Oracle<'_>,
    right: &Oracle<'_>,
) -> Result<Form, AllocError>
    ensures { IfOk result (λ made. made ≡ form_of (keep_both kept.now left.now.procedure.now (typed left.now.ty) right.now.procedure.now (typed right.now.ty))) }
{
    let pre = from_equal(alloc, kept, left.ty.params, right.ty.params)?;
    let results = same_result(alloc, left.ty.result)?;
    let post = conjunction(alloc, results, kept.share()?)?;
    let left = left.procedure.share()?;
    let right = right.procedure.share()?;
    let (first, second) = (Subject::Proc(left), Subject::Proc(right));
    equiv_of(alloc, &first, &second, pre, post)
}

/// The goal of an oracle on either side, in front of others.
fn with_both(
    alloc: Global,
    keeping: &Keeping<'_>,
    left: &Oracle<'_>,
    right: &Oracle<'_>,
    others: Sequents,
) -> Result<Sequents, AllocError>
    ensures { IfOk result (λ goals. goals ≡
        concluding keeping.now.goal.now (keep_both keeping.now.kept.now left.now.procedure.now (typed left.now.ty) right.now.procedure.now (typed right.now.ty)) ∷ others) }
{
    let first = keep_both(alloc, keeping.kept, left, right)?;
    in_front(alloc, keeping.goal, first, others)
}

/// One goal for each oracle, in order, of both sides. Refused with `Shape` where two parameters of one of them have the same name.
pub fn each_keep_both(
    alloc: Global,
    keeping: &Keeping<'_>,
    left: &[Shared<ProcRef>],
    right: &[Shared<ProcRef>],
) -> Result<Sequents, Refused>
    ensures { Answers (each_concluding keeping.now.goal.now (each_keep_both keeping.now.scope.now keeping.now.kept.now left.now right.now)) result }
{
    match left {
        [] => Ok(Items::new(alloc)),
        [o, left @ ..] => match right {
            [] => Ok(Items::new(alloc)),
            [p, right @ ..] => {
                let Some(here) = typed_oracle(keeping.scope, o) else {
                    return Err(no_shape());
                };
                let Some(there) = typed_oracle(keeping.scope, p) else {
                    return Err(no_shape());
                };
                if !own_names(here.ty.params) || !own_names(there.ty.params) {
                    return Err(no_shape());
                }
                let others = each_keep_both(alloc, keeping, left, right)?;
                Ok(with_both(alloc, keeping, &here, &there, others)?)
            }
        },
    }
}

/// References, shared.
fn shared(alloc: Global, list: &[Shared<ProcRef>]) -> Result<Procedures, AllocError>
    ensures { IfOk result (λ made. made ≡ list.now) }
{
    let mut all = Items::new(alloc);
    for procedure in list {
        all.push(procedure.share()?)?;
    }
    Ok(all)
}

/// What procedures write, in order. None where it isn't known.
fn all_written(
    alloc: Global,
    scope: &Scope,
    list: &[Shared<ProcRef>],
) -> Result<Option<Vars>, AllocError>
    ensures { IfOk result (λ made. made ≡ written_if scope.now (Some list.now)) }
{
    let Some(found) = written_by(alloc, scope, list)? else {
        return Ok(None);
    };
    let ordered = joined(alloc, found.as_slice(), Items::new(alloc))?;
    Ok(Some(ordered))
}

/// What oracles write, through every procedure that they call, in order. None where it isn't known.
#[tactic(auto, unfolding(crate::specs::Oracles::writes_of))]
pub fn writes_of(
    alloc: Global,
    scope: &Scope,
    oracles: &[Shared<ProcRef>],
) -> Result<Option<Vars>, AllocError>
    ensures { IfOk result (λ made. made ≡ writes_of scope.now oracles.now) }
{
    let Some(all) = all_reached(alloc, scope, shared(alloc, oracles)?)? else {
        return Ok(None);
    };
    all_written(alloc, scope, all.as_slice())
}

/// The lesser of what was found before and the least of these variables that clashes with all that is a module's own.
fn meeting_from<'a>(
    found: Option<&'a Var>,
    exclusions: &[Excluded],
    owner: &Var,
    list: &'a [Var],
) -> Option<&'a Var>
    ensures { option_copied result ≡ least_from (option_copied found.entry) (filter (clashes exclusions.now owner.now) list.now) }
{
    let mut least = found;
    for variable in list {
        if clashes(exclusions, owner, variable) {
            least = lesser(least, variable);
        }
    }
    least
}

/// A variable that was found, to be kept.
pub fn copied(alloc: Global, found: Option<&Var>) -> Result<Option<Var>, AllocError>
    ensures { IfOk result (λ made. made ≡ option_copied found.entry) }
{
    match found {
        Some(variable) => Ok(Some(copy_var(alloc, variable)?)),
        None => Ok(None),
    }
}

/// The least of variables of two lists that clashes with all that is a module's own.
fn meeting_of(
    alloc: Global,
    exclusions: &[Excluded],
    module: &Name,
    first: &[Var],
    second: &[Var],
) -> Result<Option<Var>, AllocError>
    ensures { IfOk result (λ made. made ≡ meeting exclusions.now «module».now (first.now ++ second.now)) }
{
    let owner = owner_variable(alloc, module)?;
    let found = meeting_from(None, exclusions, &owner, first);
    let found = meeting_from(found, exclusions, &owner, second);
    copied(alloc, found)
}

/// The least variable that a form reads and that clashes with all that is a module's own.
pub fn meeting(
    alloc: Global,
    exclusions: &[Excluded],
    module: &Name,
    kept: &Form,
) -> Result<Option<Var>, AllocError>
    ensures { IfOk result (λ made. made ≡ meeting exclusions.now «module».now (variables_read Side.Own kept.now)) }
{
    let read = variables_read(alloc, kept, Side::Own)?;
    meeting_of(alloc, exclusions, module, &[], read.as_slice())
}

/// The same of what a form reads in two memories.
fn meeting_read(
    alloc: Global,
    exclusions: &[Excluded],
    module: &Name,
    kept: &Form,
) -> Result<Option<Var>, AllocError>
    ensures { IfOk result (λ made. made ≡ meeting exclusions.now «module».now (variables_read Side.Left kept.now ++ variables_read Side.Right kept.now)) }
{
    let here = variables_read(alloc, kept, Side::Left)?;
    let there = variables_read(alloc, kept, Side::Right)?;
    meeting_of(alloc, exclusions, module, here.as_slice(), there.as_slice())
}

/// The same of what a form reads in two memories, and if there is none, of what oracles write on either side.
pub fn meeting_both(
    alloc: Global,
    exclusions: &[Excluded],
    module: &Name,
    kept: &Form,
    left: &[Var],
    right: &[Var],
) -> Result<Option<Var>, AllocError>
    ensures { IfOk result (λ made. made ≡ meeting_both exclusions.now «module».now kept.now left.now right.now) }
{
    let read = meeting_read(alloc, exclusions, module, kept)?;
    if read.is_some() {
        return Ok(read);
    }
    meeting_of(alloc, exclusions, module, left, right)
}
