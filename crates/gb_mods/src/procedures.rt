//! What commands and procedures read and write, and what a procedure is linked to.

ghost use Rattle.std.specs.Prelude.{◌≡◌, [], ◌∷◌, IfOk};
ghost use Rattle.gb_goal.specs.Answers.{Answers};
ghost use Rattle.gb_mods.specs.Called.{all_reached};
ghost use Rattle.gb_mods.specs.Link.{link, linked};
ghost use Rattle.gb_mods.specs.Order.{joined};
ghost use Rattle.gb_mods.specs.Read.{each_read, read};
ghost use Rattle.gb_mods.specs.Written.{targets, written};

use crate::called::{Procedures, all_reached};
use crate::order::joined;
use crate::read::{each_read, read_by};
use crate::written::{targets, written_by};
use gb_core::Shared;
use gb_core::place::Place;
use gb_core::refusal::{Refused, Why};
use gb_core::var::Vars;
use gb_goal::scope::Scope;
use gb_terms::decl::{Proc, Typed};
use gb_terms::module::ProcRef;
use gb_terms::share::copy_typed;
use gb_terms::term::{Cmd, Term};
use sqlite_items::Items;
use std::alloc::{AllocError, Global};

/// The variables that a command reads, without those of the procedures that it calls, in order, each once.
pub fn cmd_reads(alloc: Global, command: &Cmd) -> Result<Vars, AllocError>
    ensures { IfOk result (λ made. made ≡ joined (each_read command.now.list) []) }
{
    let found = each_read(alloc, Items::new(alloc), command.list.as_slice())?;
    joined(alloc, found.as_slice(), Items::new(alloc))
}

/// The variables that a command assigns or samples, without those of the procedures that it calls, in order, each once.
pub fn cmd_writes(alloc: Global, command: &Cmd) -> Result<Vars, AllocError>
    ensures { IfOk result (λ made. made ≡ joined (targets command.now.list) []) }
{
    let found = targets(alloc, Items::new(alloc), command.list.as_slice())?;
    joined(alloc, found.as_slice(), Items::new(alloc))
}

/// A procedure, and behind it all that it calls, through every procedure.
fn reached_from(
    alloc: Global,
    scope: &Scope,
    procedure: &Shared<ProcRef>,
) -> Result<Option<Procedures>, AllocError>
    ensures { IfOk result (λ made. made ≡ all_reached scope.now (procedure.now ∷ [])) }
{
    let procedure = procedure.share()?;
    let first = Items::from_vec(vec![in alloc; procedure]?);
    all_reached(alloc, scope, first)
}

/// The globals that a procedure reads, through every procedure that it calls, in order. None where it isn't known what one of
/// these stands for.
#[tactic(auto, unfolding(crate::specs::Read::read))]
pub fn proc_reads(
    alloc: Global,
    scope: &Scope,
    procedure: &Shared<ProcRef>,
) -> Result<Option<Vars>, AllocError>
    ensures { IfOk result (λ made. made ≡ read scope.now procedure.now) }
{
    let Some(all) = reached_from(alloc, scope, procedure)? else {
        return Ok(None);
    };
    let Some(found) = read_by(alloc, scope, all.as_slice())? else {
        return Ok(None);
    };
    let ordered = joined(alloc, found.as_slice(), Items::new(alloc))?;
    Ok(Some(ordered))
}

/// The globals that a procedure writes, through every procedure that it calls, in order. None where it isn't known what one of
/// these stands for.
#[tactic(auto, unfolding(crate::specs::Written::written))]
pub fn proc_writes(
    alloc: Global,
    scope: &Scope,
    procedure: &Shared<ProcRef>,
) -> Result<Option<Vars>, AllocError>
    ensures { IfOk result (λ made. made ≡ written scope.now procedure.now) }
{
    let Some(all) = reached_from(alloc, scope, procedure)? else {
        return Ok(None);
    };
    let Some(found) = written_by(alloc, scope, all.as_slice())? else {
        return Ok(None);
    };
    let ordered = joined(alloc, found.as_slice(), Items::new(alloc))?;
    Ok(Some(ordered))
}

/// What a procedure is linked to: what it takes, what it keeps for itself, what it does and what it returns. Each call in the body
/// names the procedure that it is linked to in turn.
pub struct Linked {
    pub params: Typed,
    pub locals: Typed,
    pub body: Cmd,
    pub result: Term,
}

impl Drop for Linked {
    fn drop(self) {
        let Linked {
            params,
            locals,
            body,
            result,
        } = self;
        drop(params);
        drop(locals);
        drop(body);
        drop(result);
    }
}

/// A declared procedure, linked.
fn linked_tree(alloc: Global, procedure: &Proc) -> Result<Linked, AllocError>
    ensures { IfOk result (λ made. made ≡ linked procedure.now) }
{
    let params = copy_typed(alloc, procedure.params.as_slice())?;
    let locals = copy_typed(alloc, procedure.locals.as_slice())?;
    let body = procedure.body.share()?;
    let result = procedure.value.share()?;
    Ok(Linked {
        params,
        locals,
        body,
        result,
    })
}

/// The procedure that a reference means, linked.
///
/// # Errors
///
/// `Shape` where it means no procedure of a declared module, as that of an abstract one.
pub fn link(alloc: Global, scope: &Scope, procedure: &ProcRef) -> Result<Linked, Refused>
    ensures { Answers (link scope.now procedure.now) result }
{
    let Some(declared) = scope.procedure(alloc, procedure)? else {
        let place = Place {
            file: 0,
            line: 0,
            col: 0,
        };
        return Err(Refused::Script {
            why: Why::Shape,
            place,
        });
    };
    let made = linked_tree(alloc, declared.get())?;
    Ok(made)
}
