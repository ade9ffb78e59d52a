// The rule `sim`.

ghost use Rattle.std.specs.Prelude.{◌≡◌, map, Some, IfOk};
ghost use Rattle.gb_amb.specs.Steps.{Returns};
ghost use Rattle.gb_goal.specs.Answers.{Answers};
ghost use Rattle.gb_goal.specs.Answers.Answer.{given};
ghost use Rattle.gb_goal.specs.Rows.{each_concluding};
ghost use Rattle.gb_typing.specs.Forms.{every_pair};
ghost use Rattle.gb_sim.specs.Sim.{IsAnswer, both, by_need, equal_in, equal_on, equality, equated, equated_at, on_statements, same_variable, variable_in, variable_of, with_equalities};

use crate::need::need;
use gb_core::Shared;
use gb_core::copy::copy_var;
use gb_core::place::Place;
use gb_core::refusal::{Refused, Why};
use gb_forms::ordered::{is_same, joined};
use gb_full::loss::full_operators;
use gb_goal::goal::{Code, Goal, goal_of};
use gb_goal::scope::Scope;
use gb_goal::sequent::{Sequent, Sequents};
use gb_labels::reads::{TypedVar, TypedVars};
use gb_mods::exclusions::exclusions;
use gb_prog::forms::{every_pair, implied};
use gb_prog::subgoals::{no_shape, one_goal, placed};
use gb_terms::make::{boolean, conjunction, equality as equation, variable};
use gb_terms::op::{Op, Read, Side};
use gb_terms::same::{same_instrs, same_side};
use gb_terms::term::{Form, Head, Instr, Term};
use sqlite_items::Items;
use std::alloc::{AllocError, Global};

/// The variable of a memory that a term is.
fn variable_in(alloc: Global, side: &Side, term: &Term) -> Result<Option<TypedVar>, AllocError>
    ensures { IfOk result (λ made. made ≡ variable_in side.now term.now) }
{
    match term.head.get() {
        Head::Read(Read::Program { var, side: through }) if same_side(through, side) => {
            let var = Shared::new(alloc, copy_var(alloc, var)?)?;
            let ty = term.ty.share()?;
            Ok(Some(TypedVar { var, ty }))
        }
        _ => Ok(None),
    }
}

/// The variable that both are.
fn same_variable(
    alloc: Global,
    left: Option<TypedVar>,
    right: Option<TypedVar>,
) -> Result<Option<TypedVars>, AllocError>
    ensures { IfOk result (λ made. made ≡ same_variable left right) }
{
    let (Some(x), Some(y)) = (left, right) else {
        return Ok(None);
    };
    if !is_same(&x, &y) {
        return Ok(None);
    }
    let mut one = Items::new(alloc);
    one.push(x)?;
    Ok(Some(one))
}

/// The variable that one term is in a memory, and the other one in another memory.
fn across(
    alloc: Global,
    here: &Side,
    there: &Side,
    a: &Term,
    b: &Term,
) -> Result<Option<TypedVars>, AllocError>
    ensures { IfOk result (λ made. made ≡ same_variable (variable_in here.now a.now) (variable_in there.now b.now)) }
{
    let left = variable_in(alloc, here, a)?;
    let right = variable_in(alloc, there, b)?;
    same_variable(alloc, left, right)
}

/// The variable of both memories of which an equation says that it is the same there.
fn equated(alloc: Global, a: &Term, b: &Term) -> Result<Option<TypedVars>, AllocError>
    ensures { IfOk result (λ made. made ≡ equated a.now b.now) }
{
    match across(alloc, &Side::Left, &Side::Right, a, b)? {
        Some(found) => Ok(Some(found)),
        None => across(alloc, &Side::Right, &Side::Left, a, b),
    }
}

/// The variables of both sides of a conjunction, where both are known.
fn both(
    alloc: Global,
    left: Option<TypedVars>,
    right: Option<TypedVars>,
) -> Result<Option<TypedVars>, AllocError>
    ensures { IfOk result (λ made. made ≡ both left right) }
{
    let (Some(left), Some(right)) = (left, right) else {
        return Ok(None);
    };
    Ok(Some(joined(alloc, left.as_slice(), right)?))
}

/// The variables of which a form says that each is the same in both memories. None where it isn't a conjunction of such equations.
#[cycle(equal_in)]
fn equal_in(alloc: Global, form: &Form) -> Result<Option<TypedVars>, AllocError>
    ensures { IfOk result (λ made. made ≡ equal_in form.now) }
{
    equated_at(alloc, form.args.as_slice(), form.head.get())
}

/// The same of a form with these arguments and this head.
#[cycle(equal_in)]
fn equated_at(alloc: Global, args: &[Term], head: &Head) -> Result<Option<TypedVars>, AllocError>
    ensures { IfOk result (λ made. made ≡ equated_at head.now args.now (map equal_in args.now)) }
{
    match (head, args) {
        (Head::Builtin(Op::And), [a, b]) => {
            let left = equal_in(alloc, a)?;
            let right = equal_in(alloc, b)?;
            both(alloc, left, right)
        }
        (Head::Builtin(Op::Equal), [a, b]) => equated(alloc, a, b),
        _ => Ok(None),
    }
}

/// A variable, read in a memory.
fn variable_of(alloc: Global, side: Side, x: &TypedVar) -> Result<Term, AllocError>
    ensures { IfOk result (λ made. made ≡ variable_of side x.now) }
{
    let var = copy_var(alloc, x.var.get())?;
    let ty = x.ty.share()?;
    variable(alloc, var, side, ty)
}

/// The variable is the same on both sides.
fn equality(alloc: Global, x: &TypedVar) -> Result<Form, AllocError>
    ensures { IfOk result (λ made. made ≡ equality x.now) }
{
    let left = variable_of(alloc, Side::Left, x)?;
    let right = variable_of(alloc, Side::Right, x)?;
    equation(alloc, left, right)
}

/// A form, and that each of these variables is the same on both sides.
fn with_equalities(alloc: Global, form: Form, list: &[TypedVar]) -> Result<Form, AllocError>
    ensures { IfOk result (λ made. made ≡ with_equalities form list.now) }
{
    let mut all = form;
    for x in list {
        let one = equality(alloc, x)?;
        all = conjunction(alloc, all, one)?;
    }
    Ok(all)
}

/// Each of these variables is the same on both sides.
fn equal_on(alloc: Global, list: &[TypedVar]) -> Result<Form, AllocError>
    ensures { IfOk result (λ made. made ≡ equal_on list.now) }
{
    match list {
        [] => boolean(alloc, true),
        [first, rest @ ..] => {
            let form = equality(alloc, first)?;
            with_equalities(alloc, form, rest)
        }
    }
}

/// The goal that what is needed is equal wherever the precondition holds.
fn by_need(
    alloc: Global,
    goal: &Sequent,
    pre: &Form,
    needed: &[TypedVar],
) -> Result<Sequents, AllocError>
    ensures { IfOk result (λ made. given made ≡ each_concluding goal.now (by_need pre.now (Some needed.now))) }
{
    let equal = equal_on(alloc, needed)?;
    let form = every_pair(alloc, implied(alloc, pre, &equal)?)?;
    one_goal(alloc, goal, form)
}

/// The goal of the same statements on both sides. Refused where it isn't known what is needed.
fn on_statements(
    alloc: Global,
    goal: &Sequent,
    list: &[Instr],
    pre: &Form,
    post: &Form,
    scope: &Scope,
) -> Result<Sequents, Refused>
    ensures { Answers (each_concluding goal.now (on_statements scope.now list.now pre.now post.now)) result }
{
    let Some(equal) = equal_in(alloc, post)? else {
        return Err(no_shape());
    };
    let full = full_operators(alloc, scope)?;
    let excluded = exclusions(alloc, scope)?;
    let Some(needed) = need(
        alloc,
        list,
        excluded.as_slice(),
        scope,
        full.as_slice(),
        equal.as_slice(),
    )?
    else {
        return Err(no_shape());
    };
    Ok(by_need(alloc, goal, pre, needed.as_slice())?)
}

/// The subgoal of `sim` on an equivalence of two bodies that are the same, of which the postcondition says of variables that they are
/// equal: wherever the precondition holds, what decides them is equal. Refused with `Shape` at the place of the step at any other goal,
/// and where nothing is known of a procedure that is called.
pub fn apply(
    alloc: Global,
    place: Place,
    goal: &Sequent,
    scope: &Scope,
) -> Result<Sequents, Refused>
    ensures { Returns (IsAnswer scope.now place goal.now) result }
{
    match goal_of(&goal.conclusion) {
        Goal::Equiv(Code::Body(left), Code::Body(right), pre, post) if same_instrs(left, right) => {
            placed(on_statements(alloc, goal, left, pre, post, scope), place)
        }
        _ => Err(Refused::Script {
            why: Why::Shape,
            place,
        }),
    }
}
