// Equations that are used up.

ghost use Rattle.std.specs.Prelude.{◌≡◌, ◌+◌, ◌<◌, ◌++◌, ◌∷◌, [], map, length, IfOk, OnOk};
ghost use Rattle.std.specs.List.{list_any};
ghost use Rattle.std.specs.Option.{option_map};
ghost use Rattle.gb_terms.specs.Equal.{read_eq};
ghost use Rattle.gb_walk.specs.Change.{term_changed};
ghost use Rattle.gb_smt.specs.Equations.{occurs, replacement, is_equality, use_of, first_usable, others, with_used, used_up};

use crate::leaves::Leaf;
use gb_core::{Shared, SharedItems};
use gb_terms::op::{Op, Read};
use gb_terms::reads::reads;
use gb_terms::same::same_read;
use gb_terms::share::copy_read;
use gb_terms::term::{Head, Term, Terms};
use gb_walk::change::{Change, Changes};
use gb_walk::walk::changed;
use sqlite_items::Items;
use std::alloc::{AllocError, Global};

/// A hypothesis that is used up, by its place, and the replacement that it stands for.
struct Equation {
    place: usize,
    changes: Changes,
}

impl Drop for Equation {
    fn drop(self) {
        let Equation { place: _, changes } = self;
        drop(changes);
    }
}

impl Equation {
    fn new(alloc: Global, place: usize, change: Change) -> Result<Equation, AllocError>
        ensures { IfOk result (λ e. e ≡ record { place = place; changes = change ∷ [] }) }
    {
        let mut changes = Items::new(alloc);
        changes.push(change)?;
        Ok(Equation { place, changes })
    }
}

fn is_among(list: &[Read], r: &Read) -> bool
    ensures { result ≡ list_any (λ q. read_eq q r.now) list.now }
{
    for read in list {
        if same_read(read, r) {
            return true;
        }
    }
    false
}

#[tactic(auto, using(crate::proofs::Uses::any_once))]
fn occurs(alloc: Global, r: &Read, t: &Term) -> Result<bool, AllocError>
    ensures { IfOk result (λ found. found ≡ occurs r.now t.now) }
{
    let list = reads(alloc, t)?;
    Ok(is_among(list.as_slice(), r))
}

/// The replacement of a variable or read by a term in which it doesn't occur.
fn replacement(alloc: Global, replaced: &Term, by: &Term) -> Result<Option<Change>, AllocError>
    ensures { IfOk result (λ change. change ≡ replacement replaced.now by.now) }
{
    match replaced.head.get() {
        Head::Read(r) => {
            if occurs(alloc, r, by)? {
                return Ok(None);
            }
            let read = copy_read(alloc, r)?;
            let by = by.share()?;
            Ok(Some(Change::ToTerm(read, by)))
        }
        _ => Ok(None),
    }
}

fn is_equality(head: &Head) -> bool
    ensures { result ≡ is_equality head.now }
{
    matches!(head, Head::Builtin(Op::Equal))
}

/// What a hypothesis `s = t` is used for: t where it can be, else s.
fn use_of(alloc: Global, hyp: &Term) -> Result<Option<Change>, AllocError>
    ensures { IfOk result (λ change. change ≡ use_of hyp.now) }
{
    if !is_equality(hyp.head.get()) {
        return Ok(None);
    }
    match hyp.args.as_slice() {
        [s, t] => match replacement(alloc, t, s)? {
            Some(change) => Ok(Some(change)),
            None => replacement(alloc, s, t),
        },
        _ => Ok(None),
    }
}

/// The first hypothesis that can be used.
#[tactic(auto, using(crate::proofs::Uses::further_none, crate::proofs::Uses::usable_more))]
fn first_usable(alloc: Global, hyps: &[Term]) -> Result<Option<Equation>, AllocError>
    ensures { IfOk result (λ found. found ≡ first_usable hyps.now) }
{
    for place in 0..hyps.len() {
        if let Some(change) = use_of(alloc, &hyps[place])? {
            return Ok(Some(Equation::new(alloc, place, change)?));
        }
    }
    Ok(None)
}

/// The hypotheses but the one at a place, with the changes made.
fn others_changed(
    alloc: Global,
    hyps: &[Term],
    place: usize,
    changes: &[Change],
) -> Result<SharedItems<Term>, AllocError>
    requires { place < length hyps.now }
    ensures { IfOk result (λ made. made ≡ map (λ t. term_changed t changes.now) (others hyps.now place)) }
{
    let mut out = Items::new(alloc);
    for at in 0..hyps.len() {
        if at != place {
            out.push(changed(alloc, &hyps[at], changes)?)?;
        }
    }
    SharedItems::new(alloc, out)
}

/// The leaf without the hypothesis, its replacement made everywhere.
fn with_used(alloc: Global, leaf: &Leaf, equation: &Equation) -> Result<Shared<Leaf>, AllocError>
    requires { equation.now.place < length leaf.now.hyps }
    ensures { IfOk result (λ made. made ≡ with_used equation.now leaf.now) }
{
    let changes = equation.changes.as_slice();
    let hyps = others_changed(alloc, leaf.hyps.as_slice(), equation.place, changes)?;
    let conclusion = changed(alloc, &leaf.conclusion, changes)?;
    Shared::new(alloc, Leaf { hyps, conclusion })
}

/// The leaf without the first hypothesis that can be used, where there is one.
fn used_once(alloc: Global, leaf: &Leaf) -> Result<Option<Shared<Leaf>>, AllocError>
    ensures { IfOk result (λ made. made ≡ option_map (λ e. with_used e leaf.now) (first_usable leaf.now.hyps)) }
{
    match first_usable(alloc, leaf.hyps.as_slice())? {
        Some(equation) => {
            let made = with_used(alloc, leaf, &equation)?;
            Ok(Some(made))
        }
        None => Ok(None),
    }
}

/// The leaf without its equations between a variable or read and a term in which it doesn't occur: the first one is
/// dropped and used everywhere, as long as there is one.
pub fn used_up(alloc: Global, leaf: &Shared<Leaf>) -> Result<Shared<Leaf>, AllocError>
    ensures value { IfOk result (λ made. made ≡ used_up leaf.now) }
    ensures none_left { IfOk result (λ made. first_usable made.hyps ≡ None) }
{
    let mut left = leaf.share()?;
    for turn in 0..leaf.get().hyps.len() {
        match used_once(alloc, left.get())? {
            Some(next) => left = next,
            None => break,
        }
    }
    Ok(left)
}
