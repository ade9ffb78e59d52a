// Programs with an operator of the script unfolded in their terms.

ghost use Rattle.std.specs.Prelude.{◌≡◌, map, IfOk};
ghost use Rattle.gb_terms.specs.declared.term.Instr.{out-Instr};
ghost use Rattle.gb_rewrite.specs.Rewriting.{unfolded_everywhere};
ghost use Rattle.gb_rewrite.specs.Unfolded.{cmd_unfolded, head_unfolded, programs_unfolded, statement_at, subject_unfolded, unfolded};

use crate::unfolded::{all_unfolded, unfolded};
use gb_core::copy::copy_var;
use gb_core::name::Name;
use gb_core::var::Var;
use gb_core::{Shared, SharedItems};
use gb_terms::module::ProcRef;
use gb_terms::term::{Cmd, Head, Instr, Instrs, Subject, Term};
use sqlite_items::Items;
use std::alloc::{AllocError, Global};

/// A call with an operator unfolded in its arguments.
fn call_unfolded(
    alloc: Global,
    targets: &SharedItems<Var>,
    procedure: &Shared<ProcRef>,
    args: &SharedItems<Term>,
    name: &Name,
    body: &Term,
) -> Result<Instr, AllocError>
    ensures { IfOk result (λ made. made ≡ Instr.Call targets.now procedure.now (map (unfolded name.now body.now) args.now)) }
{
    let made = all_unfolded(alloc, args.as_slice(), name, body)?;
    let targets = targets.share()?;
    let procedure = procedure.share()?;
    let args = SharedItems::new(alloc, made)?;
    Ok(Instr::Call(targets, procedure, args))
}

/// A statement with an operator unfolded in its terms.
#[cycle(statement_unfolded)]
fn statement_unfolded(
    alloc: Global,
    statement: &Instr,
    name: &Name,
    body: &Term,
) -> Result<Instr, AllocError>
    ensures { IfOk result (λ made. made ≡ statement_at name.now body.now (out-Instr statement.now)) }
{
    match statement {
        Instr::Assign(targets, value) => {
            let value = unfolded(alloc, value, name, body)?;
            let targets = targets.share()?;
            Ok(Instr::Assign(targets, value))
        }
        Instr::Sample(target, from) => {
            let from = unfolded(alloc, from, name, body)?;
            let target = copy_var(alloc, target)?;
            Ok(Instr::Sample(target, from))
        }
        Instr::Call(targets, procedure, args) => {
            call_unfolded(alloc, targets, procedure, args, name, body)
        }
        Instr::If(test, yes, no) => {
            let test = unfolded(alloc, test, name, body)?;
            let yes = cmd_unfolded(alloc, yes, name, body)?;
            let no = cmd_unfolded(alloc, no, name, body)?;
            Ok(Instr::If(test, yes, no))
        }
        Instr::While(guard, variant, inside) => {
            let guard = unfolded(alloc, guard, name, body)?;
            let variant = unfolded(alloc, variant, name, body)?;
            let inside = cmd_unfolded(alloc, inside, name, body)?;
            Ok(Instr::While(guard, variant, inside))
        }
    }
}

#[cycle(statement_unfolded)]
#[tactic(auto, using(crate::proofs::Statements::statements_out))]
fn cmd_unfolded(alloc: Global, cmd: &Cmd, name: &Name, body: &Term) -> Result<Cmd, AllocError>
    ensures { IfOk result (λ made. made ≡ cmd_unfolded name.now body.now cmd.now) }
{
    let made = all_statements_unfolded(alloc, cmd.list.as_slice(), name, body)?;
    let list = SharedItems::new(alloc, made)?;
    Ok(Cmd { list })
}

#[cycle(statement_unfolded)]
fn all_statements_unfolded(
    alloc: Global,
    list: &[Instr],
    name: &Name,
    body: &Term,
) -> Result<Instrs, AllocError>
    ensures { IfOk result (λ made. made ≡ map (λ i. statement_at name.now body.now (out-Instr i)) list.now) }
{
    let mut made = Items::new(alloc);
    for i in list {
        let i = statement_unfolded(alloc, i, name, body)?;
        made.push(i)?;
    }
    Ok(made)
}

/// What a judgment speaks of, with an operator unfolded in its body.
#[tactic(auto, using(crate::proofs::Statements::body_unfolded_is))]
fn subject_unfolded(
    alloc: Global,
    subject: &Subject,
    name: &Name,
    body: &Term,
) -> Result<Subject, AllocError>
    ensures { IfOk result (λ made. made ≡ subject_unfolded name.now body.now subject.now) }
{
    match subject {
        Subject::Proc(procedure) => {
            let procedure = procedure.share()?;
            Ok(Subject::Proc(procedure))
        }
        Subject::Body(statements) => {
            let statements = cmd_unfolded(alloc, statements, name, body)?;
            Ok(Subject::Body(statements))
        }
    }
}

fn head_unfolded(
    alloc: Global,
    head: &Shared<Head>,
    name: &Name,
    body: &Term,
) -> Result<Shared<Head>, AllocError>
    ensures { IfOk result (λ made. made ≡ head_unfolded name.now body.now head.now) }
{
    match head.get() {
        Head::Hoare(s) => {
            let s = subject_unfolded(alloc, s, name, body)?;
            Shared::new(alloc, Head::Hoare(s))
        }
        Head::Phoare(s, rel) => {
            let s = subject_unfolded(alloc, s, name, body)?;
            Shared::new(alloc, Head::Phoare(s, *rel))
        }
        Head::Equiv(left, right) => {
            let left = subject_unfolded(alloc, left, name, body)?;
            let right = subject_unfolded(alloc, right, name, body)?;
            Shared::new(alloc, Head::Equiv(left, right))
        }
        _ => head.share(),
    }
}

/// A judgment of bodies with an operator unfolded in its programs.
#[tactic(auto, using(crate::proofs::Statements::programs_out))]
fn programs_unfolded(alloc: Global, t: &Term, name: &Name, body: &Term) -> Result<Term, AllocError>
    ensures { IfOk result (λ made. made ≡ programs_unfolded name.now body.now t.now) }
{
    let head = head_unfolded(alloc, &t.head, name, body)?;
    let args = t.args.share()?;
    let ty = t.ty.share()?;
    Ok(Term { head, args, ty })
}

/// A conclusion with an operator's body in place of each application of it, in its programs too.
pub fn unfolded_everywhere(
    alloc: Global,
    t: &Term,
    name: &Name,
    body: &Term,
) -> Result<Term, AllocError>
    ensures { IfOk result (λ made. made ≡ unfolded_everywhere name.now body.now t.now) }
{
    let t = unfolded(alloc, t, name, body)?;
    programs_unfolded(alloc, &t, name, body)
}
