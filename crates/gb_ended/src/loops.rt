//! Which procedures have loops that aren't proved.

ghost use Rattle.std.specs.Prelude.{◌≡◌, IfOk};
ghost use Rattle.gb_goal.specs.Views.{code_seen, goal_seen};
ghost use Rattle.gb_ended.specs.Loops.{has_loop, loops, named, unproved, unproved_code, unproved_in, unproved_of};

use gb_core::name::Name;
use gb_goal::goal::{Code, Goal};
use gb_goal::instance::name_of;
use gb_goal::scope::{ProcName, Scope};
use gb_terms::decl::Proc;
use gb_terms::module::ProcRef;
use gb_terms::term::Instr;
use std::alloc::{AllocError, Global};

/// Whether a statement is a loop, or has one in it.
#[cycle(loops)]
#[tactic(auto, using(crate::proofs::LoopSteps::loops_if))]
fn loops(statement: &Instr) -> bool
    ensures { result ≡ loops statement.now }
{
    match statement {
        Instr::If(_, yes, no) => has_loop(yes.list.as_slice()) || has_loop(no.list.as_slice()),
        Instr::While(..) => true,
        _ => false,
    }
}

/// Whether some statement is a loop, or has one in it.
#[cycle(loops)]
pub fn has_loop(list: &[Instr]) -> bool
    ensures { result ≡ has_loop list.now }
{
    for statement in list {
        if loops(statement) {
            return true;
        }
    }
    false
}

/// A procedure of the module of this name, by both names.
fn named(alloc: Global, module: &Name, procedure: &Proc) -> Result<ProcName, AllocError>
    ensures { IfOk result (λ made. made ≡ named «module».now procedure.now) }
{
    let module = module.copy(alloc)?;
    let name = procedure.name.copy(alloc)?;
    Ok(ProcName { module, name })
}

/// A procedure of the module of this name, if it has a loop of its own and isn't proved.
pub fn unproved(
    alloc: Global,
    scope: &Scope,
    module: &Name,
    procedure: &Proc,
) -> Result<Option<ProcName>, AllocError>
    ensures { IfOk result (λ found. found ≡ unproved scope.now «module».now procedure.now) }
{
    if !has_loop(procedure.body.list.as_slice()) {
        return Ok(None);
    }
    let named = named(alloc, module, procedure)?;
    if scope.is_proved(alloc, &named)? {
        return Ok(None);
    }
    Ok(Some(named))
}

/// The same of the procedure that a reference means. That of a module with arguments goes by the module's name, whatever these are.
pub fn unproved_of(
    alloc: Global,
    scope: &Scope,
    reference: &ProcRef,
) -> Result<Option<ProcName>, AllocError>
    ensures { IfOk result (λ found. found ≡ unproved_of scope.now reference.now) }
{
    match scope.procedure(alloc, reference)? {
        Some(procedure) => unproved(alloc, scope, name_of(&reference.module), procedure.get()),
        None => Ok(None),
    }
}

fn unproved_code(
    alloc: Global,
    scope: &Scope,
    code: Code<'_>,
) -> Result<Option<ProcName>, AllocError>
    ensures { IfOk result (λ found. found ≡ unproved_code scope.now (code_seen code.entry)) }
{
    match code {
        Code::Body(_) => Ok(None),
        Code::Procedure(reference) => unproved_of(alloc, scope, reference),
    }
}

/// The first such procedure of which a goal speaks.
pub fn unproved_in(
    alloc: Global,
    scope: &Scope,
    goal: Goal<'_>,
) -> Result<Option<ProcName>, AllocError>
    ensures { IfOk result (λ found. found ≡ unproved_in scope.now (goal_seen goal.entry)) }
{
    match goal {
        Goal::Hoare(code, _, _) | Goal::Phoare(code, _, _, _, _) => {
            unproved_code(alloc, scope, code)
        }
        Goal::Equiv(left, right, _, _) => match unproved_code(alloc, scope, left)? {
            Some(found) => Ok(Some(found)),
            None => unproved_code(alloc, scope, right),
        },
        Goal::Ambient(_) => Ok(None),
    }
}
