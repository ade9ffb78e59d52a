//! Which procedures a procedure calls.

ghost use Rattle.std.specs.Prelude.{◌≡◌, [], ◌∷◌, ◌++◌, IfOk};
ghost use Rattle.gb_mods.specs.Called.{added, all_reached, called, called_by, calls, is_among, same_procedure, statement_calls};

use crate::meant::{Meant, meant_by};
use gb_core::Shared;
use gb_core::same::same_name;
use gb_goal::scope::Scope;
use gb_terms::module::ProcRef;
use gb_terms::same::same_module;
use gb_terms::term::Instr;
use sqlite_items::Items;
use std::alloc::{AllocError, Global};

pub type Procedures = Items<Shared<ProcRef>>;

/// A procedure behind others.
fn with_procedure(found: Procedures, procedure: &Shared<ProcRef>) -> Result<Procedures, AllocError>
    ensures { IfOk result (λ made. made ≡ found ++ procedure.now ∷ []) }
{
    let procedure = procedure.share()?;
    let mut all = found;
    all.push(procedure)?;
    Ok(all)
}

/// Procedures behind others, with those that a statement calls itself, and those of the statements in it.
#[cycle(calls)]
#[tactic(auto, using(crate::proofs::CalledSteps::calls_if, crate::proofs::CalledSteps::calls_while))]
fn statement_calls(
    alloc: Global,
    found: Procedures,
    statement: &Instr,
) -> Result<Procedures, AllocError>
    ensures { IfOk result (λ made. made ≡ found ++ statement_calls statement.now) }
{
    match statement {
        Instr::Call(_, procedure, _) => with_procedure(found, procedure),
        Instr::If(_, yes, no) => {
            let found = calls(alloc, found, yes.list.as_slice())?;
            calls(alloc, found, no.list.as_slice())
        }
        Instr::While(_, _, body) => calls(alloc, found, body.list.as_slice()),
        _ => Ok(found),
    }
}

/// The same of statements one after another.
#[cycle(calls)]
pub fn calls(alloc: Global, found: Procedures, list: &[Instr]) -> Result<Procedures, AllocError>
    ensures { IfOk result (λ made. made ≡ found ++ calls list.now) }
{
    let mut all = found;
    for statement in list {
        all = statement_calls(alloc, all, statement)?;
    }
    Ok(all)
}

/// Whether both name the same procedure of the same module.
pub fn same_procedure(a: &ProcRef, b: &ProcRef) -> bool
    ensures { result ≡ same_procedure a.now b.now }
{
    same_module(&a.module, &b.module) && same_name(&a.name, &b.name)
}

pub fn is_among(list: &[Shared<ProcRef>], procedure: &ProcRef) -> bool
    ensures { result ≡ is_among list.now procedure.now }
{
    for x in list {
        if same_procedure(x.get(), procedure) {
            return true;
        }
    }
    false
}

/// Procedures, and behind them those others that aren't among them, each once.
pub fn added(found: Procedures, list: &[Shared<ProcRef>]) -> Result<Procedures, AllocError>
    ensures { IfOk result (λ made. made ≡ added found list.now) }
{
    let mut all = found;
    for x in list {
        if !is_among(all.as_slice(), x.get()) {
            all = with_procedure(all, x)?;
        }
    }
    Ok(all)
}

/// Procedures behind others.
fn with_procedures(found: Procedures, list: &[Shared<ProcRef>]) -> Result<Procedures, AllocError>
    ensures { IfOk result (λ made. made ≡ found ++ list.now) }
{
    let mut all = found;
    for x in list {
        all = with_procedure(all, x)?;
    }
    Ok(all)
}

/// Procedures behind others, with those that a procedure calls itself; one of an abstract module calls its oracles.
fn called_by(alloc: Global, found: Procedures, meant: &Meant) -> Result<Procedures, AllocError>
    ensures { IfOk result (λ made. made ≡ found ++ called_by meant.now) }
{
    match meant {
        Meant::Unknown => Ok(found),
        Meant::Declared(f) => calls(alloc, found, f.get().body.list.as_slice()),
        Meant::Any(_, oracles) => with_procedures(found, oracles.as_slice()),
    }
}

/// The procedures that procedures call themselves.
fn called(alloc: Global, scope: &Scope, list: &[Shared<ProcRef>]) -> Result<Procedures, AllocError>
    ensures { IfOk result (λ made. made ≡ called scope.now list.now) }
{
    let mut all = Items::new(alloc);
    for x in list {
        let meant = meant_by(alloc, scope, x.get())?;
        all = called_by(alloc, all, &meant)?;
    }
    Ok(all)
}

/// Procedures, and behind them all that they call, through every procedure.
#[tactic(auto, using(crate::proofs::CalledSteps::added_longer, crate::proofs::CalledSteps::reached_end, crate::proofs::CalledSteps::reached_next))]
pub fn all_reached(
    alloc: Global,
    scope: &Scope,
    first: Procedures,
) -> Result<Option<Procedures>, AllocError>
    ensures { IfOk result (λ made. made ≡ all_reached scope.now first) }
{
    let mut all = first;
    let mut followed = 0usize;
    for level in 0..0x1_0000_0000usize {
        let count = all.len();
        if followed == count {
            return Ok(Some(all));
        }
        let called = called(alloc, scope, &all.as_slice()[followed..])?;
        all = added(all, called.as_slice())?;
        followed = count;
    }
    Ok(None)
}
