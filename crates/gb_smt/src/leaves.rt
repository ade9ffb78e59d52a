// The leaves of a goal.

ghost use Rattle.std.specs.Prelude.{◌≡◌, ◌+◌, ◌++◌, ◌∷◌, [], map, IfOk, OnOk};
ghost use Rattle.std.specs.List.{list_any, flat_map};
ghost use Rattle.gb_walk.specs.Change.{term_changed};
ghost use Rattle.gb_smt.specs.Leaves.{connective, with_variable, with_memory, context_of, is_true, unless_true, assumed, assumed_of, split, speaks_of_programs, head_speaks_of_programs, hyps_with, leaves_of};

use gb_core::ty::Ty;
use gb_core::value::Value;
use gb_core::{Shared, SharedItems};
use gb_goal::sequent::{Hyp, Sequent};
use gb_terms::make::logical;
use gb_terms::op::{Op, Side};
use gb_terms::share::share_terms;
use gb_terms::term::{Head, Term, Terms};
use gb_walk::change::{Change, Changes, under_binder};
use gb_walk::walk::changed;
use sqlite_items::Items;
use std::alloc::{AllocError, Global};

/// A part of a goal: its hypotheses imply its conclusion.
pub struct Leaf {
    pub hyps: SharedItems<Term>,
    pub conclusion: Term,
}

impl Drop for Leaf {
    fn drop(self) {
        let Leaf { hyps, conclusion } = self;
        drop(hyps);
        drop(conclusion);
    }
}

pub type Leaves = Items<Shared<Leaf>>;

/// The context of a part of the conclusion: how many logical variables and memories there are, and what became of the
/// quantifiers around the part.
pub struct Context {
    logical: u32,
    memories: u32,
    changes: Changes,
}

impl Drop for Context {
    fn drop(self) {
        let Context {
            logical: _,
            memories: _,
            changes,
        } = self;
        drop(changes);
    }
}

fn next_place(place: u32) -> Result<u32, AllocError>
    ensures { IfOk result (λ next. next ≡ place + 1) }
{
    place.checked_add(1).ok_or(AllocError)
}

impl Context {
    /// The context of a goal.
    fn of(alloc: Global, goal: &Sequent) -> Result<Context, AllocError>
        ensures { IfOk result (λ c. c ≡ context_of goal.now) }
    {
        let logical = place_after(goal.logical.len())?;
        let memories = place_after(goal.memories.len())?;
        Ok(Context {
            logical,
            memories,
            changes: Items::new(alloc),
        })
    }

    /// This context with one variable more, for a quantifier over values.
    fn with_variable(&self, alloc: Global, ty: &Shared<Ty>) -> Result<Context, AllocError>
        ensures { IfOk result (λ c. c ≡ with_variable self.now ty.now) }
    {
        let next = next_place(self.logical)?;
        let mut changes = under_binder(alloc, self.changes.as_slice())?;
        let variable = logical(alloc, self.logical, ty.share()?)?;
        changes.push(Change::OfBound(0, variable))?;
        Ok(Context {
            logical: next,
            memories: self.memories,
            changes,
        })
    }

    /// This context with one memory more, for a quantifier over memories.
    fn with_memory(&self, alloc: Global) -> Result<Context, AllocError>
        ensures { IfOk result (λ c. c ≡ with_memory self.now) }
    {
        let next = next_place(self.memories)?;
        let mut changes = under_binder(alloc, self.changes.as_slice())?;
        let memory = Side::Memory(self.memories);
        changes.push(Change::ToSide(Side::Bound(0), memory))?;
        Ok(Context {
            logical: self.logical,
            memories: next,
            changes,
        })
    }
}

/// A length as the number of a place. A list that is longer doesn't fit in memory, and so counts as a want of it.
fn place_after(length: usize) -> Result<u32, AllocError>
    ensures { IfOk result (λ place. place ≡ length) }
{
    u32::try_from(length).or(Err(AllocError))
}

/// What a form of two sides is split by.
#[derive(Clone, Copy)]
enum Connective {
    Implication,
    Conjunction,
    Other,
}

fn connective_of(head: &Head) -> Connective
    ensures { result ≡ connective head.now }
{
    match head {
        Head::Builtin(Op::And) => Connective::Conjunction,
        Head::Builtin(Op::Implies) => Connective::Implication,
        _ => Connective::Other,
    }
}

/// Whether a head is that of the literal `true`.
fn is_true(head: &Head) -> bool
    ensures { result ≡ is_true head.now }
{
    match head {
        Head::Lit(Value::Num(bit)) => *bit == 1,
        _ => false,
    }
}

/// Adds a hypothesis, unless it is `true`.
fn add_unless_true(alloc: Global, t: &Term, hyps: &mut Terms) -> Result<(), AllocError>
    ensures { OnOk result (hyps.new ≡ hyps.old ++ unless_true t.now) }
{
    if is_true(t.head.get()) {
        return Ok(());
    }
    hyps.push(t.share()?)
}

/// Adds a hypothesis: both sides of a conjunction, and nothing for `true`.
fn assume(alloc: Global, t: &Term, hyps: &mut Terms) -> Result<(), AllocError>
    ensures { OnOk result (hyps.new ≡ hyps.old ++ assumed t.now) }
{
    let args = t.args.as_slice();
    if args.len() != 2 {
        return add_unless_true(alloc, t, hyps);
    }
    match connective_of(t.head.get()) {
        Connective::Conjunction => {
            assume(alloc, &args[0], hyps)?;
            assume(alloc, &args[1], hyps)
        }
        _ => add_unless_true(alloc, t, hyps),
    }
}

/// The hypotheses, and behind them what the left side of an implication gives.
fn hyps_with(
    alloc: Global,
    hyps: &SharedItems<Term>,
    t: &Term,
    context: &Context,
) -> Result<SharedItems<Term>, AllocError>
    ensures { IfOk result (λ made. made ≡ hyps.now ++ assumed (term_changed t.now context.now.changes)) }
{
    let hyp = changed(alloc, t, context.changes.as_slice())?;
    let mut more = share_terms(alloc, hyps.as_slice())?;
    assume(alloc, &hyp, &mut more)?;
    SharedItems::new(alloc, more)
}

/// Adds the leaf of a conclusion that isn't split.
fn add_leaf(
    alloc: Global,
    t: &Term,
    context: &Context,
    hyps: &SharedItems<Term>,
    leaves: &mut Leaves,
) -> Result<(), AllocError>
    ensures { OnOk result (leaves.new ≡ leaves.old ++ record { hyps = hyps.now; conclusion = term_changed t.now context.now.changes } ∷ []) }
{
    let hyps = hyps.share()?;
    let conclusion = changed(alloc, t, context.changes.as_slice())?;
    leaves.push(Shared::new(alloc, Leaf { hyps, conclusion })?)
}

/// Adds the leaves of a part of the conclusion under hypotheses. A quantifier over values or memories goes to the
/// context, the left side of an implication to the hypotheses, and a conjunction gives the leaves of both sides.
fn split(
    alloc: Global,
    t: &Term,
    context: &Context,
    hyps: &SharedItems<Term>,
    leaves: &mut Leaves,
) -> Result<(), AllocError>
    ensures { OnOk result (leaves.new ≡ leaves.old ++ split t.now context.now hyps.now) }
{
    let args = t.args.as_slice();
    if args.len() == 1 {
        return match t.head.get() {
            Head::All(ty) => {
                let inner = context.with_variable(alloc, ty)?;
                split(alloc, &args[0], &inner, hyps, leaves)
            }
            Head::AllMemory => {
                let inner = context.with_memory(alloc)?;
                split(alloc, &args[0], &inner, hyps, leaves)
            }
            _ => add_leaf(alloc, t, context, hyps, leaves),
        };
    }
    if args.len() == 2 {
        return match connective_of(t.head.get()) {
            Connective::Implication => {
                let more = hyps_with(alloc, hyps, &args[0], context)?;
                split(alloc, &args[1], context, &more, leaves)
            }
            Connective::Conjunction => {
                split(alloc, &args[0], context, hyps, leaves)?;
                split(alloc, &args[1], context, hyps, leaves)
            }
            Connective::Other => add_leaf(alloc, t, context, hyps, leaves),
        };
    }
    add_leaf(alloc, t, context, hyps, leaves)
}

/// The hypotheses of a goal without those that hold a judgment or a probability.
fn hyps_of(alloc: Global, list: &[Hyp]) -> Result<Terms, AllocError>
    ensures { IfOk result (λ made. made ≡ flat_map assumed_of list.now) }
{
    let mut hyps = Items::new(alloc);
    for hyp in list {
        if !speaks_of_programs(&hyp.form) {
            assume(alloc, &hyp.form, &mut hyps)?;
        }
    }
    Ok(hyps)
}

/// Adds forms that are known besides.
fn assume_all(alloc: Global, known: &[Term], hyps: &mut Terms) -> Result<(), AllocError>
    ensures { OnOk result (hyps.new ≡ hyps.old ++ flat_map assumed known.now) }
{
    for form in known {
        assume(alloc, form, hyps)?;
    }
    Ok(())
}

/// The hypotheses of a goal, and behind them forms that are known besides.
fn all_hyps(alloc: Global, goal: &Sequent, known: &[Term]) -> Result<SharedItems<Term>, AllocError>
    ensures { IfOk result (λ made. made ≡ hyps_with known.now goal.now) }
{
    let mut hyps = hyps_of(alloc, goal.hyps.as_slice())?;
    assume_all(alloc, known, &mut hyps)?;
    SharedItems::new(alloc, hyps)
}

/// The leaves of a goal whose context this is.
fn leaves_in(
    alloc: Global,
    goal: &Sequent,
    known: &[Term],
    context: &Context,
) -> Result<Leaves, AllocError>
    ensures { IfOk result (λ made. made ≡ split goal.now.conclusion context.now (hyps_with known.now goal.now)) }
{
    let hyps = all_hyps(alloc, goal, known)?;
    let mut out = Items::new(alloc);
    split(alloc, &goal.conclusion, context, &hyps, &mut out)?;
    Ok(out)
}

/// The leaves of a goal, in order, where some forms are known besides its hypotheses. Hypotheses that hold a judgment or a
/// probability are left out.
pub fn leaves(alloc: Global, goal: &Sequent, known: &[Term]) -> Result<Leaves, AllocError>
    ensures { IfOk result (λ made. made ≡ leaves_of known.now goal.now) }
{
    let context = Context::of(alloc, goal)?;
    leaves_in(alloc, goal, known, &context)
}

/// Whether a judgment or a probability stands in a term.
#[cycle(speaks_of_programs)]
#[tactic(auto, using(crate::proofs::Layers::speaks_out))]
fn speaks_of_programs(t: &Term) -> bool
    ensures { result ≡ speaks_of_programs t.now }
{
    head_speaks_of_programs(t.head.get()) || speak_of_programs(t.args.as_slice())
}

fn head_speaks_of_programs(head: &Head) -> bool
    ensures { result ≡ head_speaks_of_programs head.now }
{
    matches!(
        head,
        Head::Hoare(_) | Head::Phoare(..) | Head::Equiv(..) | Head::Pr(..)
    )
}

#[cycle(speaks_of_programs)]
#[tactic(auto, using(crate::proofs::Layers::speaks_out))]
fn speak_of_programs(list: &[Term]) -> bool
    ensures { result ≡ list_any speaks_of_programs list.now }
{
    for t in list {
        if speaks_of_programs(t) {
            return true;
        }
    }
    false
}
