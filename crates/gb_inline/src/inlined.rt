//! Bodies in place of calls.

ghost use Rattle.std.specs.Prelude.{◌≡◌, ◌++◌, ◌∷◌, [], IfOk};
ghost use Rattle.gb_inline.specs.Inlined.{asked, each_inlined, inlined, is_asked, statement_inlined, used, without_calls};
ghost use Rattle.gb_walk.specs.Clash.{variables_read};
ghost use Rattle.gb_inline.specs.Asking.{expansion, once_asked};

use crate::expanded::expanded;
use gb_call::reads::variables_read;
use gb_core::var::{Var, Vars};
use gb_core::{Shared, SharedItems};
use gb_ended::loops::unproved_of;
use gb_goal::scope::Scope;
use gb_mods::called::same_procedure;
use gb_mods::order::with_variables;
use gb_mods::touched::touched;
use gb_steps::step::Calls;
use gb_terms::decl::Proc;
use gb_terms::module::ProcRef;
use gb_terms::op::Side;
use gb_terms::term::{Cmd, Form, Instr, Instrs, Term};
use gb_trans::swap::with_statements;
use sqlite_items::Items;
use std::alloc::{AllocError, Global};

/// Which calls are asked for, of procedures that are declared here; and the conditions of the body in which they stand, with the memory
/// in which it runs.
#[derive(Clone, Copy)]
pub struct Asking<'a> {
    pub scope: &'a Scope,
    pub calls: &'a Calls,
    pub side: Side,
    pub pre: &'a Form,
    pub post: &'a Form,
}

/// Whether a call is one of those that are asked for.
fn is_asked(calls: &Calls, procedure: &ProcRef) -> bool
    ensures { result ≡ is_asked calls.now procedure.now }
{
    match calls {
        Calls::Of(other) => same_procedure(other.get(), procedure),
        Calls::All => true,
    }
}

/// The declared procedure of a call that is asked for, unless it has loops that aren't proved.
fn asked(
    alloc: Global,
    scope: &Scope,
    calls: &Calls,
    procedure: &ProcRef,
) -> Result<Option<Shared<Proc>>, AllocError>
    ensures { IfOk result (λ made. made ≡ asked scope.now calls.now procedure.now) }
{
    if !is_asked(calls, procedure) {
        return Ok(None);
    }
    match unproved_of(alloc, scope, procedure)? {
        Some(_) => Ok(None),
        None => scope.procedure(alloc, procedure),
    }
}

/// A list of one statement.
fn alone(alloc: Global, statement: Instr) -> Result<Instrs, AllocError>
    ensures { IfOk result (λ made. made ≡ statement ∷ []) }
{
    let mut list = Items::new(alloc);
    list.push(statement)?;
    Ok(list)
}

/// A branch with another body where its guard is true.
fn with_true_side(alloc: Global, test: &Term, yes: Instrs, no: &Cmd) -> Result<Instrs, AllocError>
    ensures { IfOk result (λ made. made ≡ Instr.If test.now (record { list = yes }) no.now ∷ []) }
{
    let list = SharedItems::new(alloc, yes)?;
    let test = test.share()?;
    let no = no.share()?;
    alone(alloc, Instr::If(test, Cmd { list }, no))
}

/// The same where it is false.
fn with_false_side(alloc: Global, test: &Term, yes: &Cmd, no: Instrs) -> Result<Instrs, AllocError>
    ensures { IfOk result (λ made. made ≡ Instr.If test.now yes.now (record { list = no }) ∷ []) }
{
    let list = SharedItems::new(alloc, no)?;
    let test = test.share()?;
    let yes = yes.share()?;
    alone(alloc, Instr::If(test, yes, Cmd { list }))
}

/// A loop with another body.
fn with_turn(
    alloc: Global,
    guard: &Term,
    variant: &Term,
    body: Instrs,
) -> Result<Instrs, AllocError>
    ensures { IfOk result (λ made. made ≡ Instr.While guard.now variant.now (record { list = body }) ∷ []) }
{
    let list = SharedItems::new(alloc, body)?;
    let guard = guard.share()?;
    let variant = variant.share()?;
    alone(alloc, Instr::While(guard, variant, Cmd { list }))
}

/// Statements between others.
fn between(
    alloc: Global,
    before: &[Instr],
    made: &[Instr],
    rest: &[Instr],
) -> Result<Instrs, AllocError>
    ensures { IfOk result (λ all. all ≡ before.now ++ (made.now ++ rest.now)) }
{
    let found = with_statements(alloc, Items::new(alloc), before)?;
    let found = with_statements(alloc, found, made)?;
    with_statements(alloc, found, rest)
}

/// The statements that a statement becomes where the first call in it that is asked for is inlined, under new names that none of these
/// variables has. None where there is no such call.
#[cycle(inlined)]
fn statement_inlined(
    alloc: Global,
    statement: &Instr,
    asks: &Asking<'_>,
    used: &[Var],
) -> Result<Option<Instrs>, AllocError>
    ensures { IfOk result (λ made. made ≡ statement_inlined (expansion asks.now used.now) statement.now) }
{
    match statement {
        Instr::Call(targets, procedure, args) => {
            let found = asked(alloc, asks.scope, asks.calls, procedure.get())?;
            expanded(alloc, used, found, targets, args.as_slice())
        }
        Instr::If(test, yes, no) => {
            if let Some(made) = each_inlined(alloc, yes.list.as_slice(), asks, used)? {
                return Ok(Some(with_true_side(alloc, test, made, no)?));
            }
            match each_inlined(alloc, no.list.as_slice(), asks, used)? {
                Some(made) => Ok(Some(with_false_side(alloc, test, yes, made)?)),
                None => Ok(None),
            }
        }
        Instr::While(guard, variant, body) => {
            match each_inlined(alloc, body.list.as_slice(), asks, used)? {
                Some(made) => Ok(Some(with_turn(alloc, guard, variant, made)?)),
                None => Ok(None),
            }
        }
        _ => Ok(None),
    }
}

/// The same of statements one after another.
#[cycle(inlined)]
#[tactic(auto, using(crate::proofs::InlinedSteps::inlined_here, crate::proofs::InlinedSteps::inlined_later))]
fn each_inlined(
    alloc: Global,
    list: &[Instr],
    asks: &Asking<'_>,
    used: &[Var],
) -> Result<Option<Instrs>, AllocError>
    ensures { IfOk result (λ made. made ≡ each_inlined (expansion asks.now used.now) list.now) }
{
    for i in 0..list.len() {
        if let Some(made) = statement_inlined(alloc, &list[i], asks, used)? {
            let all = between(alloc, &list[..i], made.as_slice(), &list[i + 1..])?;
            return Ok(Some(all));
        }
    }
    Ok(None)
}

/// Variables behind others, with those that a form reads through a memory.
fn with_read(alloc: Global, found: Vars, form: &Form, side: Side) -> Result<Vars, AllocError>
    ensures { IfOk result (λ made. made ≡ found ++ variables_read side form.now) }
{
    let more = variables_read(alloc, form, side)?;
    with_variables(alloc, found, more.as_slice())
}

/// The variables of a memory in which a body runs that it or its conditions read or write.
fn used(alloc: Global, asks: &Asking<'_>, list: &[Instr]) -> Result<Vars, AllocError>
    ensures { IfOk result (λ made. made ≡ used asks.now.side asks.now.pre.now asks.now.post.now list.now) }
{
    let found = touched(alloc, Items::new(alloc), list)?;
    let found = with_read(alloc, found, asks.pre, asks.side)?;
    with_read(alloc, found, asks.post, asks.side)
}

/// The body with the first call inlined that is asked for. None where there is no such call.
fn once(alloc: Global, asks: &Asking<'_>, list: &[Instr]) -> Result<Option<Instrs>, AllocError>
    ensures { IfOk result (λ made. made ≡ once_asked asks.now list.now) }
{
    let used = used(alloc, asks, list)?;
    each_inlined(alloc, list, asks, used.as_slice())
}

/// The body without such calls.
#[tactic(auto, using(crate::proofs::InlinedSteps::repeated_next, crate::proofs::InlinedSteps::repeated_end, crate::proofs::InlinedSteps::repeated_over))]
fn without_calls(alloc: Global, asks: &Asking<'_>, list: Instrs) -> Result<Instrs, AllocError>
    ensures { IfOk result (λ made. made ≡ without_calls (once_asked asks.now) list) }
{
    let mut all = list;
    for round in 0..0x1_0000_0000u64 {
        match once(alloc, asks, all.as_slice())? {
            Some(next) => all = next,
            None => return Ok(all),
        }
    }
    Ok(all)
}

/// The body with all calls inlined that are asked for. None where there is no such call.
pub fn inlined(
    alloc: Global,
    asks: &Asking<'_>,
    list: &[Instr],
) -> Result<Option<Instrs>, AllocError>
    ensures { IfOk result (λ made. made ≡ inlined asks.now.scope.now asks.now.calls.now asks.now.side asks.now.pre.now asks.now.post.now list.now) }
{
    let Some(first) = once(alloc, asks, list)? else {
        return Ok(None);
    };
    Ok(Some(without_calls(alloc, asks, first)?))
}
