//! What shows that a loop ends: its variant is above 0 where the guard is true, and each turn makes it less.

ghost use Rattle.std.specs.Prelude.{◌≡◌, [], ◌++◌, flat_map, IfOk};
ghost use Rattle.gb_terms.specs.declared.term.Term.{out-Term};
ghost use Rattle.gb_print_names.specs.BoundNames.{is_among};
ghost use Rattle.gb_loops.specs.Loops.{loops, statement_loops};
ghost use Rattle.gb_forms.specs.Variants.{less};
ghost use Rattle.gb_loops.specs.Variants.{above_zero, fallen, falling, falling_goal, goals_of, loop_goals, loop_seen, turning, unlike, value_before, value_name};

use gb_core::SharedItems;
use gb_core::name::Name;
use gb_core::value::Value;
use gb_forms::variants::less;
use gb_goal::goal::hoare;
use gb_goal::sequent::{Sequent, Sequents, ambient};
use gb_print_names::occurring::names_inside;
use gb_prog::forms::{every, implied};
use gb_terms::decl::TypedName;
use gb_terms::make::{conjunction, equality, leaf, logical};
use gb_terms::op::Side;
use gb_terms::term::{Cmd, Form, Head, Instr, Term};
use sqlite_items::Items;
use std::alloc::{AllocError, Global};

/// A loop: its guard, its variant and its body.
#[derive(Clone, Copy)]
struct Loop<'a> {
    guard: &'a Term,
    variant: &'a Term,
    body: &'a Cmd,
}

/// In each memory, where the guard is true the variant is above 0.
fn above_zero(alloc: Global, turned: Loop<'_>) -> Result<Form, AllocError>
    ensures { IfOk result (λ made. made ≡ above_zero (loop_seen turned.entry)) }
{
    let ty = turned.variant.ty.share()?;
    let zero = leaf(alloc, Head::Lit(Value::Num(0)), ty)?;
    let positive = less(alloc, zero, turned.variant.share()?)?;
    let form = implied(alloc, turned.guard, &positive)?;
    every(alloc, Side::Own, form)
}

/// What the variant is before a turn.
fn value_before(alloc: Global, variant: &Term) -> Result<Term, AllocError>
    ensures { IfOk result (λ made. made ≡ value_before (out-Term variant.now).ty) }
{
    logical(alloc, 0, variant.ty.share()?)
}

/// Where a turn begins.
fn turning(alloc: Global, turned: Loop<'_>) -> Result<Form, AllocError>
    ensures { IfOk result (λ made. made ≡ turning (loop_seen turned.entry)) }
{
    let before = value_before(alloc, turned.variant)?;
    let known = equality(alloc, turned.variant.share()?, before)?;
    conjunction(alloc, turned.guard.share()?, known)
}

/// What a turn comes to.
fn fallen(alloc: Global, turned: Loop<'_>) -> Result<Form, AllocError>
    ensures { IfOk result (λ made. made ≡ fallen (loop_seen turned.entry)) }
{
    let before = value_before(alloc, turned.variant)?;
    less(alloc, turned.variant.share()?, before)
}

fn is_among(names: &[Name], name: &Name) -> bool
    ensures { result ≡ is_among names.now name.now }
{
    for x in names {
        if *x == *name {
            return true;
        }
    }
    false
}

/// A name, with a prime behind it while it is one of these.
fn unlike(alloc: Global, taken: &[Name], name: Name) -> Result<Name, AllocError>
    ensures { IfOk result (λ made. made ≡ unlike taken.now name) }
{
    let mut name = name;
    for _tried in 0..taken.len() {
        if !is_among(taken, &name) {
            return Ok(name);
        }
        name = Name::new(format!(in alloc; "{name}'")?);
    }
    Ok(name)
}

/// The name of what the variant is before a turn: the locals of the judgment have others.
fn value_name(alloc: Global, judgment: &Form) -> Result<Name, AllocError>
    ensures { IfOk result (λ made. made ≡ value_name judgment.now) }
{
    let args = judgment.args.as_slice();
    let taken = names_inside(alloc, judgment.head.get(), args, &[])?;
    let letter = Name::from_str(alloc, "k")?;
    unlike(alloc, taken.as_slice(), letter)
}

/// Each turn makes the variant less.
fn falling(alloc: Global, turned: Loop<'_>) -> Result<Form, AllocError>
    ensures { IfOk result (λ made. made ≡ falling (loop_seen turned.entry)) }
{
    let pre = turning(alloc, turned)?;
    let post = fallen(alloc, turned)?;
    hoare(alloc, turned.body.list.share()?, pre, post)
}

/// The goal that each turn makes the variant less, over one logical variable: what the variant is before the turn.
fn falling_goal(alloc: Global, turned: Loop<'_>) -> Result<Sequent, AllocError>
    ensures { IfOk result (λ made. made ≡ falling_goal (loop_seen turned.entry)) }
{
    let judgment = falling(alloc, turned)?;
    let name = value_name(alloc, &judgment)?;
    let ty = turned.variant.ty.share()?;
    let mut logical = Items::new(alloc);
    logical.push(TypedName { name, ty })?;
    let mut goal = ambient(alloc, judgment)?;
    goal.logical = SharedItems::new(alloc, logical)?;
    Ok(goal)
}

/// Behind other goals the two of a loop.
fn with_loop(alloc: Global, found: Sequents, turned: Loop<'_>) -> Result<Sequents, AllocError>
    ensures { IfOk result (λ made. made ≡ found ++ loop_goals (loop_seen turned.entry)) }
{
    let mut all = found;
    let above = above_zero(alloc, turned)?;
    all.push(ambient(alloc, above)?)?;
    all.push(falling_goal(alloc, turned)?)?;
    Ok(all)
}

/// Behind other goals those of the loops of a statement, inner loops first.
#[cycle(goals)]
#[tactic(auto, using(crate::proofs::GoalSteps::goals_if, crate::proofs::GoalSteps::goals_while))]
fn statement_goals(
    alloc: Global,
    found: Sequents,
    statement: &Instr,
) -> Result<Sequents, AllocError>
    ensures { IfOk result (λ made. made ≡ found ++ flat_map loop_goals (statement_loops statement.now)) }
{
    match statement {
        Instr::If(_, yes, no) => {
            let found = goals_behind(alloc, found, yes.list.as_slice())?;
            goals_behind(alloc, found, no.list.as_slice())
        }
        Instr::While(guard, variant, body) => {
            let found = goals_behind(alloc, found, body.list.as_slice())?;
            let turned = Loop {
                guard,
                variant,
                body,
            };
            with_loop(alloc, found, turned)
        }
        _ => Ok(found),
    }
}

/// The same of statements one after another.
#[cycle(goals)]
#[tactic(auto, using(crate::proofs::GoalSteps::goals_next))]
fn goals_behind(alloc: Global, found: Sequents, list: &[Instr]) -> Result<Sequents, AllocError>
    ensures { IfOk result (λ made. made ≡ found ++ flat_map loop_goals (loops list.now)) }
{
    let mut all = found;
    for statement in list {
        all = statement_goals(alloc, all, statement)?;
    }
    Ok(all)
}

/// The goals of all loops of a program, inner loops first: that the variant is above 0 where the guard is true, and that each turn
/// makes it less.
pub fn goals_of(alloc: Global, list: &[Instr]) -> Result<Sequents, AllocError>
    ensures { IfOk result (λ made. made ≡ goals_of list.now) }
{
    goals_behind(alloc, Items::new(alloc), list)
}
