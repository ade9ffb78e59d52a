// What gives a module its number of labels.

ghost use Rattle.std.specs.Prelude.{◌≡◌, [], map, IfOk, OnOk};
ghost use Rattle.std.specs.List.{flat_map, list_all};
ghost use Rattle.std.specs.Option.{option_map};
ghost use Rattle.gb_terms.specs.declared.term.Term.{out-Term};
ghost use Rattle.gb_meaning.specs.Written.{type_of};
ghost use Rattle.gb_labels.specs.Things.{all_names, bound_by, counted, holds_glob, is_noted, is_of_bound_memory, is_once, module_of, module_or, modules_in, modules_of, most_labels, noted, of_outcomes, of_types, reads_freely, reads_under, thing_of, things_at, things_in, with_new};

use crate::labels::{Labels, with_one};
use crate::reads::{TypedVar, TypedVars, are_free, reads};
use crate::types::{holds_glob, module_of};
use gb_core::Shared;
use gb_core::ty::Ty;
use gb_terms::op::{Op, Read, Side};
use gb_terms::same::{same, same_read};
use gb_terms::share::copy_read;
use gb_terms::term::{Head, Term};
use gb_walk::clash::Excluded;
use sqlite_items::Items;
use std::alloc::{AllocError, Global};

/// What makes a thing one with another of its type.
#[derive(Drop)]
pub enum Source {
    /// A variable that is read, once however often it stands.
    Variable(Shared<Read>),
    /// The value of an option by this term, once up to `same`.
    Opened(Term),
    /// What is bound, at each place anew.
    Place,
}

/// A read, what is bound or the value of an option, with its type.
#[derive(Drop)]
pub struct Thing {
    pub source: Source,
    pub ty: Shared<Ty>,
}

pub type Things = Items<Thing>;

/// Whether things of these sources are one.
fn is_once(a: &Source, b: &Source) -> bool
    ensures { result ≡ is_once a.now b.now }
{
    match (a, b) {
        (Source::Variable(r), Source::Variable(q)) => same_read(q.get(), r.get()),
        (Source::Opened(t), Source::Opened(u)) => same(u, t),
        _ => false,
    }
}

fn is_noted(list: &[Thing], source: &Source) -> bool
    ensures { result ≡ is_noted list.now source.now }
{
    for thing in list {
        if is_once(source, &thing.source) {
            return true;
        }
    }
    false
}

/// Adds a thing whose type holds globals, if it isn't there yet.
fn note_new(source: Source, ty: &Shared<Ty>, list: &mut Things) -> Result<(), AllocError>
    ensures { OnOk result (list.new ≡ with_new list.old (record { source = source; ty = ty.now })) }
{
    if !holds_glob(ty.get()) || is_noted(list.as_slice(), &source) {
        return Ok(());
    }
    let ty = ty.share()?;
    list.push(Thing { source, ty })
}

/// Whether it is a read of a memory that a binder binds.
fn is_of_bound_memory(r: &Read) -> bool
    ensures { result ≡ is_of_bound_memory r.now }
{
    matches!(
        r,
        Read::Program {
            side: Side::Bound(_),
            ..
        }
    )
}

/// Adds the thing that a term is, if it is one and its type holds globals.
fn note_own(alloc: Global, t: &Term, list: &mut Things) -> Result<(), AllocError>
    ensures { OnOk result (list.new ≡ noted list.old (thing_of (out-Term t.now).head t.now (out-Term t.now).ty)) }
{
    if !holds_glob(t.ty.get()) {
        return Ok(());
    }
    match t.head.get() {
        Head::Read(r) if !is_of_bound_memory(r) => {
            let r = Shared::new(alloc, copy_read(alloc, r)?)?;
            note_new(Source::Variable(r), &t.ty, list)
        }
        Head::Builtin(Op::Oget) => note_new(Source::Opened(t.share()?), &t.ty, list),
        Head::Builtin(Op::Uniform) => note_new(Source::Place, &t.ty, list),
        _ => Ok(()),
    }
}

/// Adds the variable of the outcomes of a distribution, the first of these arguments.
fn note_outcome(args: &[Term], list: &mut Things) -> Result<(), AllocError>
    ensures { OnOk result (list.new ≡ noted list.old (of_types (of_outcomes (map type_of args.now)))) }
{
    match args {
        [d, ..] => match d.ty.get() {
            Ty::Distr(outcomes) => note_new(Source::Place, outcomes, list),
            _ => Ok(()),
        },
        [] => Ok(()),
    }
}

/// What a term reads of the memory that its head binds.
#[tactic(auto, using(crate::proofs::Layers::reads_out))]
fn reads_inside(alloc: Global, t: &Term) -> Result<TypedVars, AllocError>
    ensures { IfOk result (λ vs. vs ≡ reads_under t.now) }
{
    match (t.head.get(), t.args.as_slice()) {
        (Head::AllMemory | Head::SomeMemory, [body]) => reads(alloc, body),
        _ => Ok(Items::new(alloc)),
    }
}

/// Adds what is read of a bound memory.
fn note_reads(variables: &[TypedVar], list: &mut Things) -> Result<(), AllocError>
    ensures { OnOk result (list.new ≡ noted list.old (of_types (map (λ v. v.ty) variables.now))) }
{
    for variable in variables {
        note_new(Source::Place, &variable.ty, list)?;
    }
    Ok(())
}

/// Adds what the head of a term binds.
fn note_bound(alloc: Global, t: &Term, list: &mut Things) -> Result<(), AllocError>
    ensures { OnOk result (list.new ≡ noted list.old (of_types (bound_by (out-Term t.now).head (map type_of (out-Term t.now).args) (reads_under t.now)))) }
{
    match t.head.get() {
        Head::All(ty) | Head::Some(ty) => note_new(Source::Place, ty, list),
        Head::Mu | Head::Map | Head::Restrict => note_outcome(t.args.as_slice(), list),
        _ => {
            let variables = reads_inside(alloc, t)?;
            note_reads(variables.as_slice(), list)
        }
    }
}

/// Adds the things of a term whose types hold globals.
#[cycle(note)]
fn note(alloc: Global, t: &Term, list: &mut Things) -> Result<(), AllocError>
    ensures { OnOk result (list.new ≡ noted list.old (things_at t.now)) }
{
    note_own(alloc, t, list)?;
    note_bound(alloc, t, list)?;
    note_all(alloc, t.args.as_slice(), list)
}

#[cycle(note)]
fn note_all(alloc: Global, terms: &[Term], list: &mut Things) -> Result<(), AllocError>
    ensures { OnOk result (list.new ≡ noted list.old (flat_map things_at terms.now)) }
{
    for t in terms {
        note(alloc, t, list)?;
    }
    Ok(())
}

/// The things of hypotheses and a conclusion whose types hold globals.
fn things_in(alloc: Global, hyps: &[Term], conclusion: &Term) -> Result<Things, AllocError>
    ensures { IfOk result (λ made. made ≡ things_in hyps.now conclusion.now) }
{
    let mut list = Items::new(alloc);
    note_all(alloc, hyps, &mut list)?;
    note(alloc, conclusion, &mut list)?;
    Ok(list)
}

/// Whether no two reads through one bound memory clash.
#[cycle(reads_freely)]
#[tactic(auto, using(crate::proofs::Layers::freely_out))]
fn reads_freely(alloc: Global, exclusions: &[Excluded], t: &Term) -> Result<bool, AllocError>
    ensures { IfOk result (λ b. b ≡ reads_freely exclusions.now t.now) }
{
    let variables = reads_inside(alloc, t)?;
    if are_free(exclusions, variables.as_slice()) {
        all_read_freely(alloc, exclusions, t.args.as_slice())
    } else {
        Ok(false)
    }
}

#[cycle(reads_freely)]
fn all_read_freely(
    alloc: Global,
    exclusions: &[Excluded],
    terms: &[Term],
) -> Result<bool, AllocError>
    ensures { IfOk result (λ b. b ≡ list_all (reads_freely exclusions.now) terms.now) }
{
    for t in terms {
        if !reads_freely(alloc, exclusions, t)? {
            return Ok(false);
        }
    }
    Ok(true)
}

/// One more of the module whose globals the values of a type are, or options of them; none where the type holds globals in another way.
fn with_module(alloc: Global, ty: &Ty, counts: Labels) -> Result<Option<Labels>, AllocError>
    ensures { IfOk result (λ made. made ≡ option_map (counted counts) (module_or (holds_glob ty.now) (module_of ty.now))) }
{
    match module_of(ty) {
        Some(module) => {
            let counts = with_one(alloc, counts, module)?;
            Ok(Some(counts))
        }
        None => Ok(if holds_glob(ty) { None } else { Some(counts) }),
    }
}

/// One more of each module whose globals a thing of this type is, an option of them, or a part of a tuple, part by part; none where the
/// type holds globals in another way.
#[cycle(with_modules)]
fn with_modules(alloc: Global, ty: &Ty, counts: Labels) -> Result<Option<Labels>, AllocError>
    ensures { IfOk result (λ made. made ≡ option_map (counted counts) (modules_of ty.now)) }
{
    match ty {
        Ty::Tuple(parts) => with_modules_of(alloc, parts.as_slice(), counts),
        _ => with_module(alloc, ty, counts),
    }
}

#[cycle(with_modules)]
fn with_modules_of(
    alloc: Global,
    parts: &[Ty],
    counts: Labels,
) -> Result<Option<Labels>, AllocError>
    ensures { IfOk result (λ made. made ≡ option_map (counted counts) (all_names (map modules_of parts.now))) }
{
    let mut counts = counts;
    for part in parts {
        match with_modules(alloc, part, counts)? {
            Some(more) => counts = more,
            None => return Ok(None),
        }
    }
    Ok(Some(counts))
}

/// How many things there are of the globals of each module.
fn number_of_things(alloc: Global, list: &[Thing]) -> Result<Option<Labels>, AllocError>
    ensures { IfOk result (λ made. made ≡ option_map (counted []) (modules_in list.now)) }
{
    let mut counts = Items::new(alloc);
    for thing in list {
        match with_modules(alloc, thing.ty.get(), counts)? {
            Some(more) => counts = more,
            None => return Ok(None),
        }
    }
    Ok(Some(counts))
}

/// The greatest number of labels of each module: how many things there are of its globals in hypotheses and a conclusion. There are
/// none where a thing holds globals in a way that labels don't allow, or where two reads through one bound memory clash.
pub fn most_labels(
    alloc: Global,
    exclusions: &[Excluded],
    hyps: &[Term],
    conclusion: &Term,
) -> Result<Option<Labels>, AllocError>
    ensures { IfOk result (λ made. made ≡ most_labels exclusions.now hyps.now conclusion.now) }
{
    if !all_read_freely(alloc, exclusions, hyps)? || !reads_freely(alloc, exclusions, conclusion)? {
        return Ok(None);
    }
    let list = things_in(alloc, hyps, conclusion)?;
    number_of_things(alloc, list.as_slice())
}
