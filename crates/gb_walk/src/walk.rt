// Trees with changes made.
#![tactic(auto)]

ghost use Rattle.std.specs.Prelude.{◌≡◌, map, unwrap_or, IfOk};
ghost use Rattle.gb_walk.specs.Layers.{seen_by, where_last};
ghost use Rattle.gb_walk.specs.Change.{or_given, found, put_or, read_changed, args_changed, term_changed, head_changed, subject_changed, instr_changed, cmd_changed};

use crate::change::{Change, Changes, found, found_side, seen_by_args, seen_by_last, without_own};
use crate::rebuild::{
    equiv_head, finished_cmd, finished_terms, glob_head, head_now, hoare_head, phoare_head,
    pr_head, put_instr, put_term, read_head, rebuilt_assign, rebuilt_body, rebuilt_call,
    rebuilt_if, rebuilt_sample, rebuilt_term, rebuilt_while, term_or_kept,
};
use gb_core::{Shared, SharedItems};
use gb_terms::op::Read;
use gb_terms::term::{Cmd, Head, Instr, Subject, Term};
use sqlite_items::Items;
use std::alloc::{AllocError, Global};

/// The changes seen, or those given where they are the same.
fn or_given<'a>(seen: &'a Option<Changes>, given: &'a [Change]) -> &'a [Change]
    ensures { result.now ≡ or_given seen.now given.now }
{
    match seen {
        Some(changes) => changes.as_slice(),
        None => given,
    }
}

/// The changes that an argument sees, by the arguments behind it.
fn argument_sees<'a>(behind: &[Term], changes: &'a [Change], last: &'a [Change]) -> &'a [Change]
    ensures { result.now ≡ where_last behind.now changes.now last.now }
{
    if behind.is_empty() { last } else { changes }
}

/// The tree with the changes made, all at once: what a change puts in isn't changed again. What is bound outside of a
/// term that is put in stays bound there, however many binders of the tree lie between. A judgment binds the memories
/// that it speaks of, so changes of reads through these end there. Parts in which nothing changes are shared.
pub fn changed(alloc: Global, term: &Term, changes: &[Change]) -> Result<Term, AllocError>
    ensures { IfOk result (λ made. made ≡ term_changed term.now changes.now) }
{
    let made = made_term(alloc, term, changes)?;
    term_or_kept(made, term)
}

/// The changed term; none where it is the same.
#[cycle(walk)]
fn made_term(alloc: Global, term: &Term, changes: &[Change]) -> Result<Option<Term>, AllocError>
    ensures { IfOk result (λ made. unwrap_or made term.now ≡ term_changed term.now changes.now) }
{
    if let Some(by) = found(changes, term.head.get()) {
        let by = by.share()?;
        return Ok(Some(by));
    }
    let head = made_head(alloc, term.head.get(), changes)?;
    let args = made_args_of(
        alloc,
        term.args.as_slice(),
        head_now(&head, &term.head),
        changes,
    )?;
    rebuilt_term(term, head, args)
}

/// The changed arguments of a head that is kept.
#[cycle(walk)]
fn made_args_of(
    alloc: Global,
    args: &[Term],
    head: &Head,
    changes: &[Change],
) -> Result<Option<SharedItems<Term>>, AllocError>
    ensures { IfOk result (λ made. unwrap_or made args.now ≡ args_changed head.now changes.now (map term_changed args.now)) }
{
    let by_args = seen_by_args(alloc, head, changes)?;
    let by_last = seen_by_last(alloc, head, changes)?;
    let seen = or_given(&by_args, changes);
    let last = or_given(&by_last, changes);
    made_args(alloc, args, seen, last)
}

/// The changed arguments; the last one sees `last`.
#[cycle(walk)]
fn made_args(
    alloc: Global,
    args: &[Term],
    changes: &[Change],
    last: &[Change],
) -> Result<Option<SharedItems<Term>>, AllocError>
    ensures { IfOk result (λ made. unwrap_or made args.now ≡ seen_by changes.now last.now (map term_changed args.now)) }
{
    let mut out = Items::new(alloc);
    for i in 0..args.len() {
        let seen = argument_sees(&args[i + 1..], changes, last);
        let made = made_term(alloc, &args[i], seen)?;
        put_term(&mut out, &args[..i], made)?;
    }
    finished_terms(alloc, out, args)
}

fn made_read(
    alloc: Global,
    read: &Read,
    changes: &[Change],
) -> Result<Option<Shared<Head>>, AllocError>
    ensures { IfOk result (λ made. unwrap_or made (Head.Read read.now) ≡ Head.Read (read_changed changes.now read.now)) }
{
    match read {
        Read::Logical(_) => Ok(None),
        Read::Program { var, side } => read_head(alloc, var, found_side(changes, *side)),
    }
}

/// What becomes of a head that no term takes the place of: its reads are led to other memories.
#[cycle(walk)]
fn made_head(
    alloc: Global,
    head: &Head,
    changes: &[Change],
) -> Result<Option<Shared<Head>>, AllocError>
    ensures { IfOk result (λ made. put_or (found changes.now head.now) (unwrap_or made head.now) ≡ head_changed head.now changes.now) }
{
    match head {
        Head::Read(read) => made_read(alloc, read, changes),
        Head::Glob(module, side) => glob_head(alloc, module, found_side(changes, *side)),
        Head::Pr(procedure, side) => pr_head(alloc, procedure, found_side(changes, *side)),
        Head::Hoare(subject) => {
            let subject = made_subject(alloc, subject, changes)?;
            hoare_head(alloc, subject)
        }
        Head::Phoare(subject, rel) => {
            let subject = made_subject(alloc, subject, changes)?;
            phoare_head(alloc, subject, *rel)
        }
        Head::Equiv(left, right) => {
            let made_left = made_subject(alloc, left, changes)?;
            let made_right = made_subject(alloc, right, changes)?;
            equiv_head(alloc, left, right, made_left, made_right)
        }
        _ => Ok(None),
    }
}

#[cycle(walk)]
fn made_subject(
    alloc: Global,
    subject: &Subject,
    changes: &[Change],
) -> Result<Option<Subject>, AllocError>
    ensures { IfOk result (λ made. unwrap_or made subject.now ≡ subject_changed subject.now changes.now) }
{
    match subject {
        Subject::Proc(_) => Ok(None),
        Subject::Body(body) => {
            let inside = without_own(alloc, changes)?;
            let body = made_cmd(alloc, body, inside.as_slice())?;
            Ok(rebuilt_body(body))
        }
    }
}

#[cycle(walk)]
fn made_cmd(alloc: Global, cmd: &Cmd, changes: &[Change]) -> Result<Option<Cmd>, AllocError>
    ensures { IfOk result (λ made. unwrap_or made cmd.now ≡ cmd_changed cmd.now changes.now) }
{
    let list = cmd.list.as_slice();
    let mut out = Items::new(alloc);
    for i in 0..list.len() {
        let made = made_instr(alloc, &list[i], changes)?;
        put_instr(alloc, &mut out, &list[..i], made)?;
    }
    finished_cmd(alloc, out, cmd)
}

#[cycle(walk)]
fn made_instr(alloc: Global, instr: &Instr, changes: &[Change]) -> Result<Option<Instr>, AllocError>
    ensures { IfOk result (λ made. unwrap_or made instr.now ≡ instr_changed instr.now changes.now) }
{
    match instr {
        Instr::Assign(targets, value) => {
            let value = made_term(alloc, value, changes)?;
            rebuilt_assign(targets, value)
        }
        Instr::Sample(target, d) => {
            let d = made_term(alloc, d, changes)?;
            rebuilt_sample(alloc, target, d)
        }
        Instr::Call(targets, procedure, args) => {
            let args = made_args(alloc, args.as_slice(), changes, changes)?;
            rebuilt_call(targets, procedure, args)
        }
        Instr::If(test, yes, no) => {
            let made_test = made_term(alloc, test, changes)?;
            let made_yes = made_cmd(alloc, yes, changes)?;
            let made_no = made_cmd(alloc, no, changes)?;
            rebuilt_if(test, yes, no, made_test, made_yes, made_no)
        }
        Instr::While(guard, variant, body) => {
            let made_guard = made_term(alloc, guard, changes)?;
            let made_variant = made_term(alloc, variant, changes)?;
            let made_body = made_cmd(alloc, body, changes)?;
            rebuilt_while(guard, variant, body, made_guard, made_variant, made_body)
        }
    }
}
