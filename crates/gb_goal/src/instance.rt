//! Procedures of a functor, where modules are given for its parameters.

ghost use Rattle.std.specs.Prelude.{◌≡◌, ◌++◌, map, IfOk};
ghost use Rattle.gb_terms.specs.declared.module.Mexp.TheVariants.{Apply};
ghost use Rattle.gb_terms.specs.declared.term.Head.TheVariants.{Call};
ghost use Rattle.gb_goal.specs.Instances.{arguments_of, call_with, calls_with, given_more, instance, name_of, put_in, put_in_reference, stands_for};

use gb_core::name::Name;
use gb_core::same::same_name;
use gb_core::var::Var;
use gb_core::{Shared, SharedItems};
use gb_terms::decl::{Param, Proc};
use gb_terms::module::{Mexp, Mexps, ProcRef};
use gb_terms::share::copy_typed;
use gb_terms::term::{Cmd, Instr, Instrs, Term};
use sqlite_items::Items;
use std::alloc::{AllocError, Global};

/// What stands for a name: the argument for the parameter of this name, or else the module of the name.
pub fn stands_for(
    alloc: Global,
    params: &[Param],
    args: &[Mexp],
    name: &Name,
) -> Result<Mexp, AllocError>
    ensures { IfOk result (λ made. made ≡ stands_for params.now args.now name.now) }
{
    let mut others = args;
    for p in params {
        match others {
            [first, rest @ ..] => {
                if same_name(name, &p.name) {
                    return first.share(alloc);
                }
                others = rest;
            }
            _ => return named(alloc, name),
        }
    }
    named(alloc, name)
}

fn named(alloc: Global, name: &Name) -> Result<Mexp, AllocError>
    ensures { IfOk result (λ made. made ≡ Mexp.Name name.now) }
{
    let name = name.copy(alloc)?;
    Ok(Mexp::Name(name))
}

fn applied(alloc: Global, name: &Name, args: Mexps) -> Result<Mexp, AllocError>
    ensures { IfOk result (λ made. made ≡ Apply name.now args) }
{
    let args = SharedItems::new(alloc, args)?;
    let name = name.copy(alloc)?;
    Ok(Mexp::Apply(name, args))
}

/// The name of the module that a module expression applies.
pub fn name_of(e: &Mexp) -> &Name
    ensures { result.now ≡ name_of e.now }
{
    match e {
        Mexp::Name(name) | Mexp::Apply(name, _) => name,
    }
}

/// The modules that it is applied to.
pub fn arguments_of(e: &Mexp) -> &[Mexp]
    ensures { result.now ≡ arguments_of e.now }
{
    match e {
        Mexp::Name(_) => &[],
        Mexp::Apply(_, args) => args.as_slice(),
    }
}

/// A module expression that is given further modules.
pub fn given_more(alloc: Global, e: &Mexp, more: Mexps) -> Result<Mexp, AllocError>
    ensures { IfOk result (λ made. made ≡ given_more e.now more) }
{
    if more.is_empty() {
        return e.share(alloc);
    }
    let mut all = share_all(alloc, arguments_of(e))?;
    all.append(more)?;
    applied(alloc, name_of(e), all)
}

fn share_all(alloc: Global, list: &[Mexp]) -> Result<Mexps, AllocError>
    ensures { IfOk result (λ made. made ≡ list.now) }
{
    let mut out = Items::new(alloc);
    for e in list {
        out.push(e.share(alloc)?)?;
    }
    Ok(out)
}

/// A module expression in which modules stand for parameters, all at once.
#[cycle(put_in)]
fn put_in(alloc: Global, e: &Mexp, params: &[Param], args: &[Mexp]) -> Result<Mexp, AllocError>
    ensures { IfOk result (λ made. made ≡ put_in (stands_for params.now args.now) e.now) }
{
    match e {
        Mexp::Name(name) => stands_for(alloc, params, args, name),
        Mexp::Apply(name, inner) => {
            let front = stands_for(alloc, params, args, name)?;
            let more = put_in_all(alloc, inner.as_slice(), params, args)?;
            given_more(alloc, &front, more)
        }
    }
}

#[cycle(put_in)]
fn put_in_all(
    alloc: Global,
    list: &[Mexp],
    params: &[Param],
    args: &[Mexp],
) -> Result<Mexps, AllocError>
    ensures { IfOk result (λ made. made ≡ map (put_in (stands_for params.now args.now)) list.now) }
{
    let mut out = Items::new(alloc);
    for e in list {
        out.push(put_in(alloc, e, params, args)?)?;
    }
    Ok(out)
}

/// A reference to a procedure in which modules stand for parameters, all at once.
pub fn put_in_reference(
    alloc: Global,
    params: &[Param],
    args: &[Mexp],
    p: &ProcRef,
) -> Result<Shared<ProcRef>, AllocError>
    ensures { IfOk result (λ made. made ≡ put_in_reference (stands_for params.now args.now) p.now) }
{
    let module = put_in(alloc, &p.module, params, args)?;
    let name = p.name.copy(alloc)?;
    Shared::new(alloc, ProcRef { module, name })
}

fn call_of(
    alloc: Global,
    params: &[Param],
    args: &[Mexp],
    vars: &SharedItems<Var>,
    procedure: &ProcRef,
    values: &SharedItems<Term>,
) -> Result<Instr, AllocError>
    ensures { IfOk result (λ made. made ≡ Call vars.now (put_in_reference (stands_for params.now args.now) procedure.now) values.now) }
{
    let vars = vars.share()?;
    let values = values.share()?;
    let procedure = put_in_reference(alloc, params, args, procedure)?;
    Ok(Instr::Call(vars, procedure, values))
}

/// A statement whose calls are of the modules that stand for parameters.
#[cycle(call_with)]
fn call_with(
    alloc: Global,
    statement: &Instr,
    params: &[Param],
    args: &[Mexp],
) -> Result<Instr, AllocError>
    ensures { IfOk result (λ made. made ≡ call_with (stands_for params.now args.now) statement.now) }
{
    match statement {
        Instr::Call(vars, procedure, values) => {
            call_of(alloc, params, args, vars, procedure.get(), values)
        }
        Instr::If(test, yes, no) => {
            let yes = body_with(alloc, yes, params, args)?;
            let no = body_with(alloc, no, params, args)?;
            let test = test.share()?;
            Ok(Instr::If(test, yes, no))
        }
        Instr::While(guard, variant, body) => {
            let body = body_with(alloc, body, params, args)?;
            let variant = variant.share()?;
            let guard = guard.share()?;
            Ok(Instr::While(guard, variant, body))
        }
        _ => statement.share(alloc),
    }
}

#[cycle(call_with)]
fn body_with(alloc: Global, body: &Cmd, params: &[Param], args: &[Mexp]) -> Result<Cmd, AllocError>
    ensures { IfOk result (λ made. made ≡ record { list = calls_with (stands_for params.now args.now) body.now.list }) }
{
    let list = calls_with(alloc, body.list.as_slice(), params, args)?;
    let list = SharedItems::new(alloc, list)?;
    Ok(Cmd { list })
}

#[cycle(call_with)]
fn calls_with(
    alloc: Global,
    list: &[Instr],
    params: &[Param],
    args: &[Mexp],
) -> Result<Instrs, AllocError>
    ensures { IfOk result (λ made. made ≡ calls_with (stands_for params.now args.now) list.now) }
{
    let mut out = Items::new(alloc);
    for statement in list {
        out.push(call_with(alloc, statement, params, args)?)?;
    }
    Ok(out)
}

/// The same procedure with this body.
fn with_body(alloc: Global, p: &Proc, body: Cmd) -> Result<Proc, AllocError>
    ensures { IfOk result (λ made. made ≡ record (p.now) { body = body }) }
{
    let params = copy_typed(alloc, p.params.as_slice())?;
    let locals = copy_typed(alloc, p.locals.as_slice())?;
    let name = p.name.copy(alloc)?;
    let result = p.result.share()?;
    let value = p.value.share()?;
    Ok(Proc {
        name,
        params,
        result,
        locals,
        body,
        value,
    })
}

/// A procedure of a module with these parameters, where these modules are given for them, all at once: its calls are of these.
pub fn instance(
    alloc: Global,
    params: &[Param],
    args: &[Mexp],
    p: &Proc,
) -> Result<Proc, AllocError>
    ensures { IfOk result (λ made. made ≡ instance params.now args.now p.now) }
{
    let body = body_with(alloc, &p.body, params, args)?;
    with_body(alloc, p, body)
}
