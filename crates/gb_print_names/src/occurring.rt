// The locals that occur in a judgment.

ghost use Rattle.std.specs.Prelude.{◌≡◌, ◌++◌, ◌∷◌, [], IfOk, OnOk};
ghost use Rattle.gb_terms.specs.Heads.{is_judgment};
ghost use Rattle.gb_print_names.specs.Text.{each};
ghost use Rattle.gb_print_names.specs.Occurring.{local, local_read, is_closed, head_local, term_locals, subject_locals, cmd_locals, instr_locals, spoken_locals, judgment_locals};

use gb_core::name::{Name, Names};
use gb_core::var::Var;
use gb_terms::op::{Read, Side};
use gb_terms::term::{Cmd, Head, Instr, Subject, Term};
use sqlite_items::Items;
use std::alloc::{AllocError, Global};

/// Puts a name behind a list.
pub fn note_name(alloc: Global, names: &mut Names, name: &Name) -> Result<(), AllocError>
    ensures { OnOk result (names.new ≡ names.old ++ name.now ∷ []) }
{
    let name = name.copy(alloc)?;
    names.push(name)
}

fn note_var(alloc: Global, names: &mut Names, x: &Var) -> Result<(), AllocError>
    ensures { OnOk result (names.new ≡ local x.now names.old) }
{
    match x {
        Var::Local { name } => note_name(alloc, names, name),
        _ => Ok(()),
    }
}

fn note_vars(alloc: Global, names: &mut Names, list: &[Var]) -> Result<(), AllocError>
    ensures { OnOk result (names.new ≡ each local list.now names.old) }
{
    for x in list {
        note_var(alloc, names, x)?;
    }
    Ok(())
}

fn note_read(alloc: Global, names: &mut Names, read: &Read) -> Result<(), AllocError>
    ensures { OnOk result (names.new ≡ local_read read.now names.old) }
{
    match read {
        Read::Program {
            var,
            side: Side::Own | Side::Left | Side::Right,
        } => note_var(alloc, names, var),
        _ => Ok(()),
    }
}

/// Whether this is the head of a judgment.
pub fn is_judgment(head: &Head) -> bool
    ensures { result ≡ is_judgment head.now }
{
    matches!(head, Head::Hoare(_) | Head::Phoare(..) | Head::Equiv(..))
}

/// Whether what stands in a form of this head has memories of its own.
fn is_closed(head: &Head) -> bool
    ensures { result ≡ is_closed head.now }
{
    matches!(head, Head::Pr(..)) || is_judgment(head)
}

fn note_head(alloc: Global, names: &mut Names, head: &Head) -> Result<(), AllocError>
    ensures { OnOk result (names.new ≡ head_local head.now names.old) }
{
    match head {
        Head::Read(read) => note_read(alloc, names, read),
        _ => Ok(()),
    }
}

#[cycle(locals)]
#[tactic(auto, using(crate::proofs::LocalSteps::locals_is))]
fn note_term(alloc: Global, names: &mut Names, t: &Term) -> Result<(), AllocError>
    ensures { OnOk result (names.new ≡ term_locals t.now names.old) }
{
    if is_closed(t.head.get()) {
        return Ok(());
    }
    note_head(alloc, names, t.head.get())?;
    note_terms(alloc, names, t.args.as_slice())
}

#[cycle(locals)]
fn note_terms(alloc: Global, names: &mut Names, list: &[Term]) -> Result<(), AllocError>
    ensures { OnOk result (names.new ≡ each term_locals list.now names.old) }
{
    for t in list {
        note_term(alloc, names, t)?;
    }
    Ok(())
}

fn note_cmd(alloc: Global, names: &mut Names, c: &Cmd) -> Result<(), AllocError>
    ensures { OnOk result (names.new ≡ cmd_locals c.now names.old) }
{
    note_instrs(alloc, names, c.list.as_slice())
}

#[cycle(programs)]
fn note_instrs(alloc: Global, names: &mut Names, list: &[Instr]) -> Result<(), AllocError>
    ensures { OnOk result (names.new ≡ each instr_locals list.now names.old) }
{
    for i in list {
        note_instr(alloc, names, i)?;
    }
    Ok(())
}

#[cycle(programs)]
fn note_instr(alloc: Global, names: &mut Names, i: &Instr) -> Result<(), AllocError>
    ensures { OnOk result (names.new ≡ instr_locals i.now names.old) }
{
    match i {
        Instr::Assign(targets, e) => {
            note_vars(alloc, names, targets.as_slice())?;
            note_term(alloc, names, e)
        }
        Instr::Sample(x, d) => {
            note_var(alloc, names, x)?;
            note_term(alloc, names, d)
        }
        Instr::Call(targets, _, args) => {
            note_vars(alloc, names, targets.as_slice())?;
            note_terms(alloc, names, args.as_slice())
        }
        Instr::If(e, a, b) => {
            note_term(alloc, names, e)?;
            note_instrs(alloc, names, a.list.as_slice())?;
            note_instrs(alloc, names, b.list.as_slice())
        }
        Instr::While(e, v, a) => {
            note_term(alloc, names, e)?;
            note_term(alloc, names, v)?;
            note_instrs(alloc, names, a.list.as_slice())
        }
    }
}

fn note_subject(alloc: Global, names: &mut Names, s: &Subject) -> Result<(), AllocError>
    ensures { OnOk result (names.new ≡ subject_locals s.now names.old) }
{
    match s {
        Subject::Proc(_) => Ok(()),
        Subject::Body(c) => note_cmd(alloc, names, c),
    }
}

fn note_spoken(alloc: Global, names: &mut Names, head: &Head) -> Result<(), AllocError>
    ensures { OnOk result (names.new ≡ spoken_locals head.now names.old) }
{
    match head {
        Head::Hoare(s) | Head::Phoare(s, _) => note_subject(alloc, names, s),
        Head::Equiv(s, u) => {
            note_subject(alloc, names, s)?;
            note_subject(alloc, names, u)
        }
        _ => Ok(()),
    }
}

fn copied(alloc: Global, list: &[Name]) -> Result<Names, AllocError>
    ensures { IfOk result (λ names. names ≡ list.now) }
{
    let mut names = Items::new(alloc);
    for name in list {
        note_name(alloc, &mut names, name)?;
    }
    Ok(names)
}

/// These names, and behind them the locals of a judgment.
pub fn names_inside(
    alloc: Global,
    head: &Head,
    args: &[Term],
    around: &[Name],
) -> Result<Names, AllocError>
    ensures { IfOk result (λ names. names ≡ judgment_locals head.now args.now around.now) }
{
    let mut names = copied(alloc, around)?;
    note_spoken(alloc, &mut names, head)?;
    note_terms(alloc, &mut names, args)?;
    Ok(names)
}
