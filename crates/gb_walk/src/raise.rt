// Trees under one binder more.
#![tactic(auto)]

ghost use Rattle.std.specs.Prelude.{◌≡◌, map, unwrap_or, IfOk};
ghost use Rattle.gb_walk.specs.Layers.{seen_by, where_last};
ghost use Rattle.gb_walk.specs.Raise.{index_raised, side_raised, read_raised, last_from, term_raised, head_raised, subject_raised, instr_raised, cmd_raised};

use crate::binders::is_binder;
use crate::rebuild::{
    bound_head, equiv_head, finished_cmd, finished_terms, glob_head, head_now, hoare_head,
    phoare_head, pr_head, put_instr, put_term, read_head, rebuilt_assign, rebuilt_body,
    rebuilt_call, rebuilt_if, rebuilt_sample, rebuilt_term, rebuilt_while, term_or_kept,
};
use gb_core::copy::copy_var;
use gb_core::{Shared, SharedItems};
use gb_terms::op::{Read, Side};
use gb_terms::term::{Cmd, Head, Instr, Subject, Term};
use sqlite_items::Items;
use std::alloc::{AllocError, Global};

/// Where a place moves to, if it moves. A place that counts 2^32 binders or more is no place: then memory is said to
/// run out.
fn moved_index(index: u32, from: u32) -> Result<Option<u32>, AllocError>
    ensures { IfOk result (λ made. unwrap_or made index ≡ index_raised from index) }
{
    if index < from {
        return Ok(None);
    }
    let next = index.checked_add(1).ok_or(AllocError)?;
    Ok(Some(next))
}

/// The memory that is bound at the place that this one moves to, if it moves.
fn moved_side(side: Side, from: u32) -> Result<Option<Side>, AllocError>
    ensures { IfOk result (λ made. unwrap_or made side ≡ side_raised from side) }
{
    let Side::Bound(index) = side else {
        return Ok(None);
    };
    match moved_index(index, from)? {
        Some(index) => Ok(Some(Side::Bound(index))),
        None => Ok(None),
    }
}

/// A memory under one binder more.
pub fn raised_side(side: Side, from: u32) -> Result<Side, AllocError>
    ensures { IfOk result (λ s. s ≡ side_raised from side) }
{
    match moved_side(side, from)? {
        Some(side) => Ok(side),
        None => Ok(side),
    }
}

/// A read under one binder more.
pub fn raised_read(alloc: Global, read: &Read, from: u32) -> Result<Read, AllocError>
    ensures { IfOk result (λ r. r ≡ read_raised from read.now) }
{
    match read {
        Read::Logical(place) => Ok(Read::Logical(*place)),
        Read::Program { var, side } => {
            let var = copy_var(alloc, var)?;
            let side = raised_side(*side, from)?;
            Ok(Read::Program { var, side })
        }
    }
}

fn last_argument_from(head: &Head, from: u32) -> Result<u32, AllocError>
    ensures { IfOk result (λ k. k ≡ last_from head.now from) }
{
    if is_binder(head) {
        from.checked_add(1).ok_or(AllocError)
    } else {
        Ok(from)
    }
}

/// What an argument is raised from, by the arguments behind it.
fn argument_from(behind: &[Term], from: u32, last: u32) -> u32
    ensures { result ≡ where_last behind.now from last }
{
    if behind.is_empty() { last } else { from }
}

/// The tree, with what is bound `from` or more binders outside of it one binder further away. Its parts in which nothing
/// is bound there are shared.
pub fn raised(alloc: Global, term: &Term, from: u32) -> Result<Term, AllocError>
    ensures { IfOk result (λ made. made ≡ term_raised term.now from) }
{
    let made = moved_term(alloc, term, from)?;
    term_or_kept(made, term)
}

/// The raised term; none where it is the same.
#[cycle(raise)]
fn moved_term(alloc: Global, term: &Term, from: u32) -> Result<Option<Term>, AllocError>
    ensures { IfOk result (λ made. unwrap_or made term.now ≡ term_raised term.now from) }
{
    let head = moved_head(alloc, term.head.get(), from)?;
    let last = last_argument_from(head_now(&head, &term.head), from)?;
    let args = moved_args(alloc, term.args.as_slice(), from, last)?;
    rebuilt_term(term, head, args)
}

/// The arguments of a head, the last one raised from `last` on.
#[cycle(raise)]
fn moved_args(
    alloc: Global,
    args: &[Term],
    from: u32,
    last: u32,
) -> Result<Option<SharedItems<Term>>, AllocError>
    ensures { IfOk result (λ made. unwrap_or made args.now ≡ seen_by from last (map term_raised args.now)) }
{
    let mut out = Items::new(alloc);
    for i in 0..args.len() {
        let seen = argument_from(&args[i + 1..], from, last);
        let made = moved_term(alloc, &args[i], seen)?;
        put_term(&mut out, &args[..i], made)?;
    }
    finished_terms(alloc, out, args)
}

fn moved_read(alloc: Global, read: &Read, from: u32) -> Result<Option<Shared<Head>>, AllocError>
    ensures { IfOk result (λ made. unwrap_or made (Head.Read read.now) ≡ Head.Read (read_raised from read.now)) }
{
    match read {
        Read::Logical(_) => Ok(None),
        Read::Program { var, side } => {
            let side = moved_side(*side, from)?;
            read_head(alloc, var, side)
        }
    }
}

#[cycle(raise)]
fn moved_head(alloc: Global, head: &Head, from: u32) -> Result<Option<Shared<Head>>, AllocError>
    ensures { IfOk result (λ made. unwrap_or made head.now ≡ head_raised head.now from) }
{
    match head {
        Head::Bound(index) => {
            let index = moved_index(*index, from)?;
            bound_head(alloc, index)
        }
        Head::Read(read) => moved_read(alloc, read, from),
        Head::Glob(module, side) => {
            let side = moved_side(*side, from)?;
            glob_head(alloc, module, side)
        }
        Head::Pr(procedure, side) => {
            let side = moved_side(*side, from)?;
            pr_head(alloc, procedure, side)
        }
        Head::Hoare(subject) => {
            let subject = moved_subject(alloc, subject, from)?;
            hoare_head(alloc, subject)
        }
        Head::Phoare(subject, rel) => {
            let subject = moved_subject(alloc, subject, from)?;
            phoare_head(alloc, subject, *rel)
        }
        Head::Equiv(left, right) => {
            let made_left = moved_subject(alloc, left, from)?;
            let made_right = moved_subject(alloc, right, from)?;
            equiv_head(alloc, left, right, made_left, made_right)
        }
        _ => Ok(None),
    }
}

#[cycle(raise)]
fn moved_subject(alloc: Global, subject: &Subject, from: u32) -> Result<Option<Subject>, AllocError>
    ensures { IfOk result (λ made. unwrap_or made subject.now ≡ subject_raised subject.now from) }
{
    match subject {
        Subject::Proc(_) => Ok(None),
        Subject::Body(body) => {
            let body = moved_cmd(alloc, body, from)?;
            Ok(rebuilt_body(body))
        }
    }
}

#[cycle(raise)]
fn moved_cmd(alloc: Global, cmd: &Cmd, from: u32) -> Result<Option<Cmd>, AllocError>
    ensures { IfOk result (λ made. unwrap_or made cmd.now ≡ cmd_raised cmd.now from) }
{
    let list = cmd.list.as_slice();
    let mut out = Items::new(alloc);
    for i in 0..list.len() {
        let made = moved_instr(alloc, &list[i], from)?;
        put_instr(alloc, &mut out, &list[..i], made)?;
    }
    finished_cmd(alloc, out, cmd)
}

#[cycle(raise)]
fn moved_instr(alloc: Global, instr: &Instr, from: u32) -> Result<Option<Instr>, AllocError>
    ensures { IfOk result (λ made. unwrap_or made instr.now ≡ instr_raised instr.now from) }
{
    match instr {
        Instr::Assign(targets, value) => {
            let value = moved_term(alloc, value, from)?;
            rebuilt_assign(targets, value)
        }
        Instr::Sample(target, d) => {
            let d = moved_term(alloc, d, from)?;
            rebuilt_sample(alloc, target, d)
        }
        Instr::Call(targets, procedure, args) => {
            let args = moved_args(alloc, args.as_slice(), from, from)?;
            rebuilt_call(targets, procedure, args)
        }
        Instr::If(test, yes, no) => {
            let made_test = moved_term(alloc, test, from)?;
            let made_yes = moved_cmd(alloc, yes, from)?;
            let made_no = moved_cmd(alloc, no, from)?;
            rebuilt_if(test, yes, no, made_test, made_yes, made_no)
        }
        Instr::While(guard, variant, body) => {
            let made_guard = moved_term(alloc, guard, from)?;
            let made_variant = moved_term(alloc, variant, from)?;
            let made_body = moved_cmd(alloc, body, from)?;
            rebuilt_while(guard, variant, body, made_guard, made_variant, made_body)
        }
    }
}
