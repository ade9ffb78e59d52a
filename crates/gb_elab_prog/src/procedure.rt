// Procedures.

ghost use Rattle.std.specs.Prelude.{◌≡◌, ◌++◌, [], IfOk, MatchResult, bytes_eq};
ghost use Rattle.std.specs.List.{list_any};
ghost use Rattle.gb_goal.specs.Answers.{Answers, Fails};
ghost use Rattle.gb_goal.specs.Answers.Answer.{given};
ghost use Rattle.gb_names.specs.Environment.{environment};
ghost use Rattle.gb_elab_prog.specs.Procedures.{declared, formal, formals, is_member, lacks_value, locals, procedure_by, result_of, result_type, undeclared, untaken, value, variables, with_result};

use gb_core::Shared;
use gb_core::name::Name;
use gb_core::place::Place;
use gb_core::refusal::Refused;
use gb_core::same::same_types;
use gb_core::ty::Ty;
use gb_elab::form::typed;
use gb_elab_stmt::statement::body;
use gb_goal::scope::Scope;
use gb_goal::sequent::Sequent;
use gb_names::binders::variable;
use gb_names::names::unit;
use gb_names::refusals::{double, mismatch, not_built};
use gb_names::setting::Setting;
use gb_names::types::type_of;
use gb_script::head::Head;
use gb_script::tree::Node;
use gb_terms::decl::{Module, Proc, Typed, TypedName};
use gb_terms::share::copy_typed;
use gb_terms::term::Term;
use sqlite_items::Items;
use std::alloc::{AllocError, Global};

/// The typed tree of a procedure of a module, which is typed so far: the procedure may name the members before it.
///
/// # Errors
///
/// At its name `DoubleName` where a member has it, `DoubleName` of a parameter and those of its type, that of its result's type,
/// `TypeMismatch` at its name where it returns nothing and has another result than `unit`, `DoubleName` of a local, and
/// those of its statements and of the value that it returns, in the order of the text.
pub fn procedure(
    alloc: Global,
    scope: &Scope,
    around: &Sequent,
    module: &Module,
    head: Head,
    parts: &[Node],
    place: Place,
) -> Result<Proc, Refused>
    ensures { Answers (procedure_by scope.now around.now «module».now head parts.now place) result }
{
    match head {
        Head::Procedure => match parts {
            [name, parameters, ty, locals, body, value] => {
                refuse_taken(alloc, module, name)?;
                let params = formals(alloc, scope, parameters.parts.as_slice())?;
                let (locals, body) = (locals.parts.as_slice(), body.parts.as_slice());
                let value = value.parts.as_slice();
                let ty = result_of(alloc, scope, name, ty.parts.as_slice(), value)?;
                with_result(
                    alloc, scope, around, module, name, params, locals, body, value, ty,
                )
            }
            _ => Err(not_built(place)),
        },
        _ => Err(not_built(place)),
    }
}

/// The parameters and the locals of a procedure.
fn with_locals(
    alloc: Global,
    params: &[TypedName],
    locals: &[TypedName],
) -> Result<Typed, AllocError>
    ensures { IfOk result (λ made. made ≡ params.now ++ locals.now) }
{
    let mut both = copy_typed(alloc, params)?;
    both.append(copy_typed(alloc, locals)?)?;
    Ok(both)
}

/// The typed tree of a procedure of this name, these parameters and this result.
#[tactic(auto, unfolding(crate::specs::Procedures::with_result))]
fn with_result(
    alloc: Global,
    scope: &Scope,
    around: &Sequent,
    module: &Module,
    name: &Node,
    params: Typed,
    lines: &[Node],
    statements: &[Node],
    returned: &[Node],
    ty: Shared<Ty>,
) -> Result<Proc, Refused>
    ensures { Answers (with_result scope.now around.now «module».now name.now params lines.now statements.now returned.now ty) result }
{
    let locals = locals(alloc, scope, params.as_slice(), lines)?;
    let visible = with_locals(alloc, params.as_slice(), locals.as_slice())?;
    let at = Setting::program(scope, module, around, visible.as_slice());
    let body = body(alloc, &at, statements)?;
    let value = value(alloc, &at, returned, ty.get())?;
    let name = name.text.copy(alloc)?;
    Ok(Proc {
        name,
        params,
        result: ty,
        locals,
        body,
        value,
    })
}

fn is_procedure(procs: &[Shared<Proc>], name: &Name) -> bool
    ensures { result ≡ list_any (λ p. bytes_eq p.name name.now) procs.now }
{
    for p in procs {
        if p.get().name == *name {
            return true;
        }
    }
    false
}

/// Whether a global or a procedure of a module has this name.
fn is_member(module: &Module, name: &Name) -> bool
    ensures { result ≡ is_member «module».now name.now }
{
    is_local(module.globals.as_slice(), name) || is_procedure(module.procs.as_slice(), name)
}

/// Refuses a name that a member of a module has.
fn refuse_taken(alloc: Global, module: &Module, name: &Node) -> Result<(), Refused>
    ensures { Answers (untaken «module».now name.now) result }
{
    if is_member(module, &name.text) {
        Err(double(alloc, &name.text, name.place))
    } else {
        Ok(())
    }
}

/// The type of a procedure's result, for which a value is to be returned where it isn't `unit`.
fn result_of(
    alloc: Global,
    scope: &Scope,
    name: &Node,
    written: &[Node],
    value: &[Node],
) -> Result<Shared<Ty>, Refused>
    ensures { Answers (result_of scope.now name.now written.now value.now) result }
{
    let ty = result_type(alloc, scope, written)?;
    if lacks_value(value, ty.get()) {
        Err(mismatch(name.place))
    } else {
        Ok(ty)
    }
}

/// The type of a procedure's result; no type stands for `unit`.
///
/// # Errors
///
/// Those of types.
pub fn result_type(alloc: Global, scope: &Scope, written: &[Node]) -> Result<Shared<Ty>, Refused>
    ensures { Answers (result_type scope.now written.now) result }
{
    match written {
        [] => Ok(Shared::new(alloc, Ty::Unit)?),
        [ty, ..] => type_of(alloc, scope, ty),
    }
}

/// Whether a value of this type is to be returned and none is.
fn lacks_value(value: &[Node], ty: &Ty) -> bool
    ensures { result ≡ lacks_value value.now ty.now }
{
    match value {
        [] => !same_types(ty, &Ty::Unit),
        _ => false,
    }
}

/// What a procedure returns: the value of `unit` where it has no `return`.
fn value(alloc: Global, at: &Setting<'_>, returned: &[Node], want: &Ty) -> Result<Term, Refused>
    ensures { Answers (value (environment at.now) returned.now want.now) result }
{
    match returned {
        [] => unit(alloc),
        [value, ..] => typed(alloc, at, &[], value, Some(want)),
    }
}

/// Whether one of these variables has this name.
pub fn is_local(locals: &[TypedName], name: &Name) -> bool
    ensures { result ≡ list_any (λ v. bytes_eq v.name name.now) locals.now }
{
    for x in locals {
        if x.name == *name {
            return true;
        }
    }
    false
}

/// Refuses a name that one of these locals has.
fn refuse_local(alloc: Global, locals: &[TypedName], name: &Node) -> Result<(), Refused>
    ensures { Answers (undeclared locals.now name.now) result }
{
    if is_local(locals, &name.text) {
        Err(double(alloc, &name.text, name.place))
    } else {
        Ok(())
    }
}

/// The parameters with their types, in the order of the text.
///
/// # Errors
///
/// `DoubleName` at a name that a parameter before it has, and those of types.
pub fn formals(alloc: Global, scope: &Scope, trees: &[Node]) -> Result<Typed, Refused>
    ensures { Answers (formals scope.now [] trees.now) result }
{
    let mut params = Items::new(alloc);
    for tree in trees {
        declare_formal(
            alloc,
            scope,
            &mut params,
            tree.head,
            tree.parts.as_slice(),
            tree.place,
        )?;
    }
    Ok(params)
}

/// Declares a parameter beside those that are declared.
fn declare_formal(
    alloc: Global,
    scope: &Scope,
    params: &mut Typed,
    head: Head,
    parts: &[Node],
    place: Place,
) -> Result<(), Refused>
    ensures { MatchResult result
        (λ _. formal scope.now params.old head parts.now place ≡ given params.new)
        (λ e. Fails (formal scope.now params.old head parts.now place) e) }
{
    match head {
        Head::Formal => match parts {
            [name, ty] => {
                refuse_local(alloc, params.as_slice(), name)?;
                let ty = type_of(alloc, scope, ty)?;
                let param = variable(alloc, &name.text, &ty)?;
                params.push(param)?;
                Ok(())
            }
            _ => Err(not_built(place)),
        },
        _ => Err(not_built(place)),
    }
}

/// The declared locals with their types, in the order of the text.
fn locals(
    alloc: Global,
    scope: &Scope,
    params: &[TypedName],
    lines: &[Node],
) -> Result<Typed, Refused>
    ensures { Answers (locals scope.now params.now [] lines.now) result }
{
    let mut locals = Items::new(alloc);
    for line in lines {
        declare_line(
            alloc,
            scope,
            params,
            &mut locals,
            line.head,
            line.parts.as_slice(),
            line.place,
        )?;
    }
    Ok(locals)
}

/// Declares the locals of a line beside what is declared.
fn declare_line(
    alloc: Global,
    scope: &Scope,
    params: &[TypedName],
    locals: &mut Typed,
    head: Head,
    parts: &[Node],
    place: Place,
) -> Result<(), Refused>
    ensures { MatchResult result
        (λ _. variables scope.now params.now locals.old head parts.now place ≡ given locals.new)
        (λ e. Fails (variables scope.now params.now locals.old head parts.now place) e) }
{
    match head {
        Head::Variables => match parts {
            [names, ty] => {
                let ty = type_of(alloc, scope, ty)?;
                declare(alloc, params, locals, names.parts.as_slice(), &ty)
            }
            _ => Err(not_built(place)),
        },
        _ => Err(not_built(place)),
    }
}

/// Declares locals of one type beside what is declared.
fn declare(
    alloc: Global,
    params: &[TypedName],
    locals: &mut Typed,
    names: &[Node],
    ty: &Shared<Ty>,
) -> Result<(), Refused>
    ensures { MatchResult result
        (λ _. declared params.now locals.old names.now ty.now ≡ given locals.new)
        (λ e. Fails (declared params.now locals.old names.now ty.now) e) }
{
    for x in names {
        refuse_local(alloc, params, x)?;
        refuse_local(alloc, locals.as_slice(), x)?;
        let local = variable(alloc, &x.text, ty)?;
        locals.push(local)?;
    }
    Ok(())
}
