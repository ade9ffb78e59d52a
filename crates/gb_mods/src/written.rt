//! Which variables statements and procedures write.

ghost use Rattle.std.specs.Prelude.{◌≡◌, ◌++◌, IfOk};
ghost use Rattle.gb_meaning.specs.Footprints.{globals_among};
ghost use Rattle.gb_mods.specs.Written.{statement_targets, targets, written_by, written_itself};

use crate::meant::{Meant, meant_by};
use crate::order::{all_of, globals_among, with_variable, with_variables};
use gb_core::Shared;
use gb_core::var::Vars;
use gb_goal::scope::Scope;
use gb_terms::decl::Proc;
use gb_terms::module::ProcRef;
use gb_terms::term::Instr;
use sqlite_items::Items;
use std::alloc::{AllocError, Global};

/// Variables behind others, with those that a statement assigns or samples itself, and those of the statements in it.
#[cycle(targets)]
#[tactic(auto, using(crate::proofs::WrittenSteps::targets_if, crate::proofs::WrittenSteps::targets_while))]
fn statement_targets(alloc: Global, found: Vars, statement: &Instr) -> Result<Vars, AllocError>
    ensures { IfOk result (λ made. made ≡ found ++ statement_targets statement.now) }
{
    match statement {
        Instr::Assign(targets, _) => with_variables(alloc, found, targets.as_slice()),
        Instr::Call(targets, _, _) => with_variables(alloc, found, targets.as_slice()),
        Instr::Sample(target, _) => with_variable(alloc, found, target),
        Instr::If(_, yes, no) => {
            let found = targets(alloc, found, yes.list.as_slice())?;
            targets(alloc, found, no.list.as_slice())
        }
        Instr::While(_, _, body) => targets(alloc, found, body.list.as_slice()),
    }
}

/// The same of statements one after another.
#[cycle(targets)]
pub fn targets(alloc: Global, found: Vars, list: &[Instr]) -> Result<Vars, AllocError>
    ensures { IfOk result (λ made. made ≡ found ++ targets list.now) }
{
    let mut all = found;
    for statement in list {
        all = statement_targets(alloc, all, statement)?;
    }
    Ok(all)
}

/// The globals that a declared procedure writes itself.
fn written_in(alloc: Global, procedure: &Proc) -> Result<Vars, AllocError>
    ensures { IfOk result (λ made. made ≡ globals_among (targets procedure.now.body.list)) }
{
    let found = targets(alloc, Items::new(alloc), procedure.body.list.as_slice())?;
    globals_among(alloc, found.as_slice())
}

/// The globals that a procedure writes itself; one of an abstract module writes all that is the module's own. None where it isn't known
/// what it stands for.
fn written_itself(alloc: Global, meant: &Meant) -> Result<Option<Vars>, AllocError>
    ensures { IfOk result (λ made. made ≡ written_itself meant.now) }
{
    match meant {
        Meant::Unknown => Ok(None),
        Meant::Declared(procedure) => Ok(Some(written_in(alloc, procedure.get())?)),
        Meant::Any(module, _) => Ok(Some(all_of(alloc, module)?)),
    }
}

/// The globals that procedures write themselves. None where it isn't known what one stands for.
pub fn written_by(
    alloc: Global,
    scope: &Scope,
    list: &[Shared<ProcRef>],
) -> Result<Option<Vars>, AllocError>
    ensures { IfOk result (λ made. made ≡ written_by scope.now list.now) }
{
    let mut all = Items::new(alloc);
    for x in list {
        let meant = meant_by(alloc, scope, x.get())?;
        let Some(own) = written_itself(alloc, &meant)? else {
            return Ok(None);
        };
        all = with_variables(alloc, all, own.as_slice())?;
    }
    Ok(Some(all))
}
