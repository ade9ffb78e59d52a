//! Modules in place of those that a statement binds, in its forms.

ghost use Rattle.std.specs.Prelude.{◌≡◌, map, IfOk};
ghost use Rattle.std.specs.List.{list_any};
ghost use Rattle.std.specs.Option.{option_map};
ghost use Rattle.gb_terms.specs.declared.term.Term.{out-Term};
ghost use Rattle.gb_instances.specs.Put.{agreement_of, equated, equation_put, equation_seen, head_put, head_speaks, is_of, name_put, node_put, of_one, put, stands_alone, subject_put, type_put, type_speaks, variable_put, whole_in, whole_read};

use crate::footprint::footprint_at;
use gb_core::copy::{copy_ty, copy_var};
use gb_core::name::Name;
use gb_core::same::same_name;
use gb_core::ty::Ty;
use gb_core::var::Var;
use gb_core::{Shared, SharedItems};
use gb_elab::globs::{agreement_on, is_abstract};
use gb_goal::instance::{name_of, put_in_reference, stands_for};
use gb_goal::scope::Scope;
use gb_terms::decl::Param;
use gb_terms::module::Mexp;
use gb_terms::op::{Op, Read, Side};
use gb_terms::term::{Head, Subject, Term, Terms};
use sqlite_items::Items;
use std::alloc::{AllocError, Global};

/// The module of which a head reads all globals, and in which memory.
fn whole_in(head: &Head) -> Option<(&Name, Side)>
    ensures { option_map (λ w. (w.0.now, w.1)) result ≡ whole_in head.now }
{
    match head {
        Head::Read(
            Read::Program {
                var: Var::Glob { module },
                side,
            },
        ) => Some((module, *side)),
        _ => None,
    }
}

/// The same of a term.
fn whole_read(t: &Term) -> Option<(&Name, Side)>
    ensures { option_map (λ w. (w.0.now, w.1)) result ≡ whole_read t.now }
{
    whole_in(t.head.get())
}

/// An equation of all globals of a module in two memories.
#[derive(Clone, Copy)]
pub struct Equation<'a> {
    pub module: &'a Name,
    pub left: Side,
    pub right: Side,
}

/// The equation of two terms, where both read all globals of one module.
fn of_one<'a>(left: &'a Term, right: &'a Term) -> Option<Equation<'a>>
    ensures { option_map equation_seen result ≡ of_one (whole_read left.now) (whole_read right.now) }
{
    let (module, left) = whole_read(left)?;
    let (other, right) = whole_read(right)?;
    if same_name(module, other) {
        Some(Equation {
            module,
            left,
            right,
        })
    } else {
        None
    }
}

/// The equation that a term is, by its head and its arguments.
fn equated<'a>(head: &Head, args: &'a [Term]) -> Option<Equation<'a>>
    ensures { option_map equation_seen result ≡ equated head.now args.now }
{
    match (head, args) {
        (Head::Builtin(Op::Equal), [left, right]) => of_one(left, right),
        _ => None,
    }
}

/// Whether it is an equation of all globals of this module.
fn is_of(name: &Name, equation: Option<Equation<'_>>) -> bool
    ensures { result ≡ is_of name.now (option_map equation_seen equation.entry) }
{
    match equation {
        Some(equation) => same_name(name, equation.module),
        None => false,
    }
}

/// Whether a type speaks of the globals of the module of this name.
#[cycle(type_speaks)]
pub fn type_speaks(ty: &Ty, name: &Name) -> bool
    ensures { result ≡ type_speaks name.now ty.now }
{
    match ty {
        Ty::Glob(module) => same_name(name, module),
        Ty::Tuple(parts) => any_speaks(parts.as_slice(), name),
        Ty::Opt(inner) | Ty::Distr(inner) => type_speaks(inner.get(), name),
        Ty::Map(key, value) => type_speaks(key.get(), name) || type_speaks(value.get(), name),
        _ => false,
    }
}

#[cycle(type_speaks)]
fn any_speaks(parts: &[Ty], name: &Name) -> bool
    ensures { result ≡ list_any (λ b. b) (map (type_speaks name.now) parts.now) }
{
    for part in parts {
        if type_speaks(part, name) {
            return true;
        }
    }
    false
}

fn head_speaks(head: &Head, name: &Name) -> bool
    ensures { result ≡ head_speaks name.now head.now }
{
    match head {
        Head::All(ty) | Head::Some(ty) => type_speaks(ty.get(), name),
        _ => false,
    }
}

/// Whether a type in a form speaks of the globals of the module of this name, elsewhere than in an equation of them in two memories.
#[cycle(stands_alone)]
#[tactic(auto, using(crate::proofs::Layers::alone_out))]
pub fn stands_alone(name: &Name, t: &Term) -> bool
    ensures { result ≡ stands_alone name.now t.now }
{
    let (head, args) = (t.head.get(), t.args.as_slice());
    if is_of(name, equated(head, args)) {
        return false;
    }
    type_speaks(t.ty.get(), name) || head_speaks(head, name) || any_stands_alone(name, args)
}

#[cycle(stands_alone)]
fn any_stands_alone(name: &Name, list: &[Term]) -> bool
    ensures { result ≡ list_any (stands_alone name.now) list.now }
{
    for t in list {
        if stands_alone(name, t) {
            return true;
        }
    }
    false
}

/// The name of the module that stands for one of this name.
fn name_put(
    alloc: Global,
    params: &[Param],
    modules: &[Mexp],
    name: &Name,
) -> Result<Name, AllocError>
    ensures { IfOk result (λ made. made ≡ name_put params.now modules.now name.now) }
{
    let module = stands_for(alloc, params, modules, name)?;
    name_of(&module).copy(alloc)
}

/// A type, in which the globals of modules that are put in stand for those of others.
#[cycle(type_put)]
fn type_put(alloc: Global, ty: &Ty, params: &[Param], modules: &[Mexp]) -> Result<Ty, AllocError>
    ensures { IfOk result (λ made. made ≡ type_put (name_put params.now modules.now) ty.now) }
{
    match ty {
        Ty::Glob(module) => Ok(Ty::Glob(name_put(alloc, params, modules, module)?)),
        Ty::Tuple(parts) => {
            let parts = parts_put(alloc, parts.as_slice(), params, modules)?;
            Ok(Ty::Tuple(parts))
        }
        Ty::Opt(inner) => {
            let inner = part_put(alloc, inner, params, modules)?;
            Ok(Ty::Opt(inner))
        }
        Ty::Map(key, value) => {
            let key = part_put(alloc, key, params, modules)?;
            let value = part_put(alloc, value, params, modules)?;
            Ok(Ty::Map(key, value))
        }
        Ty::Distr(inner) => {
            let inner = part_put(alloc, inner, params, modules)?;
            Ok(Ty::Distr(inner))
        }
        _ => copy_ty(alloc, ty),
    }
}

#[cycle(type_put)]
fn parts_put(
    alloc: Global,
    parts: &[Ty],
    params: &[Param],
    modules: &[Mexp],
) -> Result<SharedItems<Ty>, AllocError>
    ensures { IfOk result (λ made. made ≡ map (type_put (name_put params.now modules.now)) parts.now) }
{
    let mut out = Items::new(alloc);
    for part in parts {
        out.push(type_put(alloc, part, params, modules)?)?;
    }
    SharedItems::new(alloc, out)
}

#[cycle(type_put)]
pub fn part_put(
    alloc: Global,
    ty: &Shared<Ty>,
    params: &[Param],
    modules: &[Mexp],
) -> Result<Shared<Ty>, AllocError>
    ensures { IfOk result (λ made. made ≡ type_put (name_put params.now modules.now) ty.now) }
{
    let made = type_put(alloc, ty.get(), params, modules)?;
    Shared::new(alloc, made)
}

/// A variable; all globals of the module that is put in stand for those of another one.
fn variable_put(
    alloc: Global,
    params: &[Param],
    modules: &[Mexp],
    var: &Var,
) -> Result<Var, AllocError>
    ensures { IfOk result (λ made. made ≡ variable_put (name_put params.now modules.now) var.now) }
{
    match var {
        Var::Glob { module } => {
            let module = name_put(alloc, params, modules, module)?;
            Ok(Var::Glob { module })
        }
        _ => copy_var(alloc, var),
    }
}

/// What a judgment speaks of.
fn subject_put(
    alloc: Global,
    params: &[Param],
    modules: &[Mexp],
    subject: &Subject,
) -> Result<Subject, AllocError>
    ensures { IfOk result (λ made. made ≡ subject_put params.now modules.now subject.now) }
{
    match subject {
        Subject::Proc(procedure) => {
            let procedure = put_in_reference(alloc, params, modules, procedure.get())?;
            Ok(Subject::Proc(procedure))
        }
        Subject::Body(_) => subject.share(),
    }
}

/// The head of an equivalence.
fn equivalence(
    alloc: Global,
    params: &[Param],
    modules: &[Mexp],
    left: &Subject,
    right: &Subject,
) -> Result<Head, AllocError>
    ensures { IfOk result (λ made. made ≡ Head.Equiv (subject_put params.now modules.now left.now) (subject_put params.now modules.now right.now)) }
{
    let left = subject_put(alloc, params, modules, left)?;
    let right = subject_put(alloc, params, modules, right)?;
    Ok(Head::Equiv(left, right))
}

/// A head with other modules.
fn head_put(
    alloc: Global,
    params: &[Param],
    modules: &[Mexp],
    head: &Shared<Head>,
) -> Result<Shared<Head>, AllocError>
    ensures { IfOk result (λ made. made ≡ head_put params.now modules.now head.now) }
{
    let made = match head.get() {
        Head::Read(Read::Program { var, side }) => {
            let var = variable_put(alloc, params, modules, var)?;
            Head::Read(Read::Program { var, side: *side })
        }
        Head::All(ty) => Head::All(part_put(alloc, ty, params, modules)?),
        Head::Some(ty) => Head::Some(part_put(alloc, ty, params, modules)?),
        Head::Pr(procedure, side) => {
            Head::Pr(
                put_in_reference(alloc, params, modules, procedure.get())?,
                *side,
            )
        }
        Head::Hoare(subject) => Head::Hoare(subject_put(alloc, params, modules, subject)?),
        Head::Phoare(subject, rel) => {
            Head::Phoare(subject_put(alloc, params, modules, subject)?, *rel)
        }
        Head::Equiv(left, right) => equivalence(alloc, params, modules, left, right)?,
        _ => return head.share(),
    };
    Shared::new(alloc, made)
}

/// A term with other modules in its head and its type, and with these arguments.
fn node_put(
    alloc: Global,
    params: &[Param],
    modules: &[Mexp],
    t: &Term,
    args: Terms,
) -> Result<Term, AllocError>
    ensures { IfOk result (λ made. made ≡ node_put params.now modules.now (out-Term t.now).head args (out-Term t.now).ty) }
{
    let args = SharedItems::new(alloc, args)?;
    let head = head_put(alloc, params, modules, &t.head)?;
    let ty = part_put(alloc, &t.ty, params, modules)?;
    Ok(Term { head, args, ty })
}

/// An equation of all globals of a module in two memories becomes one of each variable of the footprint of the module that is put in, if it
/// is known. It stays one of values, where these are those of an abstract module by itself.
fn agreement_of(
    alloc: Global,
    scope: &Scope,
    form: Term,
    left: Side,
    right: Side,
    module: &Mexp,
) -> Result<Term, AllocError>
    ensures { IfOk result (λ made. made ≡ agreement_of scope.now form left right «module».now) }
{
    if is_abstract(scope, module) {
        return Ok(form);
    }
    match footprint_at(alloc, scope, module)? {
        Some(list) => agreement_on(alloc, scope, left, right, list.as_slice()),
        None => Ok(form),
    }
}

fn equation_put(
    alloc: Global,
    scope: &Scope,
    params: &[Param],
    modules: &[Mexp],
    form: Term,
    equation: Option<Equation<'_>>,
) -> Result<Term, AllocError>
    ensures { IfOk result (λ made. made ≡ equation_put scope.now params.now modules.now form (option_map equation_seen equation.entry)) }
{
    match equation {
        Some(found) => {
            let module = stands_for(alloc, params, modules, found.module)?;
            agreement_of(alloc, scope, form, found.left, found.right, &module)
        }
        None => Ok(form),
    }
}

/// A form with modules in place of those of these names. An equation of all globals of a module becomes one of each variable of the footprint
/// of the module that is put in.
#[cycle(put)]
#[tactic(auto, using(crate::proofs::Layers::put_out))]
pub fn put(
    alloc: Global,
    t: &Term,
    scope: &Scope,
    params: &[Param],
    modules: &[Mexp],
) -> Result<Term, AllocError>
    ensures { IfOk result (λ made. made ≡ put scope.now params.now modules.now t.now) }
{
    let args = all_put(alloc, t.args.as_slice(), scope, params, modules)?;
    let form = node_put(alloc, params, modules, t, args)?;
    let equation = equated(t.head.get(), t.args.as_slice());
    equation_put(alloc, scope, params, modules, form, equation)
}

#[cycle(put)]
fn all_put(
    alloc: Global,
    list: &[Term],
    scope: &Scope,
    params: &[Param],
    modules: &[Mexp],
) -> Result<Terms, AllocError>
    ensures { IfOk result (λ made. made ≡ map (put scope.now params.now modules.now) list.now) }
{
    let mut out = Items::new(alloc);
    for t in list {
        out.push(put(alloc, t, scope, params, modules)?)?;
    }
    Ok(out)
}
