//! What is known of modules from outside: the modules that they lack, and the types of their procedures.

ghost use Rattle.std.specs.Prelude.{◌≡◌, map};
ghost use Rattle.std.specs.Option.{option_copied, option_map};
ghost use Rattle.gb_goal.specs.Interfaces.{fits, found, has_type, interface_at, interface_of, left_over, of_declared, of_inner, of_module, of_type, params_in, procedure_in, procedure_type, procedure_types, provides, same_params, serves, signature_types, signatures_of, suits, takes};
ghost use Rattle.gb_goal.specs.Seen.{seen, typed, types_in};

use crate::module_type::{ModuleType, Signature};
use crate::scope::{Entry, Scope};
use gb_core::Shared;
use gb_core::name::Name;
use gb_core::same::{same_name, same_types};
use gb_core::ty::Ty;
use gb_terms::decl::{Module, Param, Proc, TypedName};
use gb_terms::module::{Mexp, ProcRef};

/// The parameters of a procedure, and the type of its result.
#[derive(Clone, Copy)]
pub struct ProcedureType<'a> {
    pub params: &'a [TypedName],
    pub result: &'a Shared<Ty>,
}

/// The procedures of a module, or those that a module type asks for.
#[derive(Clone, Copy)]
pub enum Procedures<'a> {
    Of(&'a [Shared<Proc>]),
    Asked(&'a [Signature]),
}

/// A module: the parameters for which it still lacks modules, and its procedures.
#[derive(Clone, Copy)]
pub struct Interface<'a> {
    pub lacks: &'a [Param],
    pub procedures: Procedures<'a>,
}

impl<'a> Procedures<'a> {
    /// The type of the procedure of this name.
    pub fn type_of(self, name: &Name) -> Option<ProcedureType<'a>>
        ensures { option_map typed result ≡ found (types_in self.entry) name.now }
    {
        match self {
            Procedures::Of(procs) => type_of_proc(procs, name),
            Procedures::Asked(signatures) => type_of_signature(signatures, name),
        }
    }

    /// Whether there is each procedure of these signatures, at its types.
    pub fn provides(self, signatures: &[Signature]) -> bool
        ensures { result ≡ provides (types_in self.entry) (signature_types signatures.now) }
    {
        for s in signatures {
            if !has_type(self.type_of(&s.name), s) {
                return false;
            }
        }
        true
    }
}

fn type_of_proc<'a>(procs: &'a [Shared<Proc>], name: &Name) -> Option<ProcedureType<'a>>
    ensures { option_map typed result ≡ found (procedure_types procs.now) name.now }
{
    for p in procs {
        let p = p.get();
        if same_name(name, &p.name) {
            return Some(ProcedureType {
                params: p.params.as_slice(),
                result: &p.result,
            });
        }
    }
    None
}

fn type_of_signature<'a>(signatures: &'a [Signature], name: &Name) -> Option<ProcedureType<'a>>
    ensures { option_map typed result ≡ found (signature_types signatures.now) name.now }
{
    for s in signatures {
        if same_name(name, &s.name) {
            return Some(ProcedureType {
                params: s.params.as_slice(),
                result: &s.result,
            });
        }
    }
    None
}

/// Whether parameters have the same types, in order, whatever their names.
fn same_params(left: &[TypedName], right: &[TypedName]) -> bool
    ensures { result ≡ same_params left.now right.now }
{
    let mut others = right;
    for x in left {
        match others {
            [y, rest @ ..] if same_types(x.ty.get(), y.ty.get()) => others = rest,
            _ => return false,
        }
    }
    others.is_empty()
}

/// Whether a procedure is there, of a signature's types.
pub fn has_type(found: Option<ProcedureType<'_>>, signature: &Signature) -> bool
    ensures { result ≡ has_type (option_map typed found.entry) (record { params = signature.now.params; result = signature.now.result }) }
{
    match found {
        Some(ty) => {
            same_params(ty.params, signature.params.as_slice())
                && same_types(ty.result.get(), signature.result.get())
        }
        None => false,
    }
}

/// The signatures of a module type, none where it isn't there.
pub fn signatures_of(ty: Option<&ModuleType>) -> &[Signature]
    ensures { result.now ≡ signatures_of (option_copied ty.entry) }
{
    match ty {
        Some(ty) => ty.signatures.as_slice(),
        None => &[],
    }
}

fn params_in(ty: Option<&ModuleType>) -> &[Param]
    ensures { result.now ≡ params_in (option_copied ty.entry) }
{
    match ty {
        Some(ty) => ty.params.as_slice(),
        None => &[],
    }
}

/// Whether any module of the first type, where its parameters are given, may stand where one of the second is lacking.
fn serves(given: Option<&ModuleType>, lacking: Option<&ModuleType>) -> bool
    ensures { result ≡ serves (option_copied given.entry) (option_copied lacking.entry) }
{
    params_in(lacking).is_empty()
        && Procedures::Asked(signatures_of(given)).provides(signatures_of(lacking))
}

/// Whether the parameters of a module type give what a module lacks, one for each.
pub fn takes(scope: &Scope, lacks: &[Param], params: &[Param]) -> bool
    ensures { result ≡ takes scope.now lacks.now params.now }
{
    let mut others = params;
    for p in lacks {
        match others {
            [q, rest @ ..] if serves(scope.module_type(&q.ty), scope.module_type(&p.ty)) => {
                others = rest;
            }
            _ => return false,
        }
    }
    others.is_empty()
}

impl<'a> Interface<'a> {
    pub fn of_module(module: &'a Module) -> Interface<'a>
        ensures { seen result ≡ of_module «module».now }
    {
        Interface {
            lacks: module.params.as_slice(),
            procedures: Procedures::Of(module.procs.as_slice()),
        }
    }

    /// Any module of a module type.
    pub fn of_type(ty: &'a ModuleType) -> Interface<'a>
        ensures { seen result ≡ of_type ty.now }
    {
        Interface {
            lacks: ty.params.as_slice(),
            procedures: Procedures::Asked(ty.signatures.as_slice()),
        }
    }
}

/// A declared module; of an abstract one it is known that it is one of its module type.
fn of_declared<'a>(scope: &'a Scope, name: &Name) -> Option<Interface<'a>>
    ensures { option_map seen result ≡ of_declared scope.now name.now }
{
    match scope.entry(name) {
        Some(Entry::Module(module)) => Some(Interface::of_module(module)),
        Some(Entry::AbstractModule(bind)) => of_asked(scope.module_type(&bind.ty)),
        _ => None,
    }
}

fn of_asked(ty: Option<&ModuleType>) -> Option<Interface<'_>>
    ensures { option_map seen result ≡ option_map of_type (option_copied ty.entry) }
{
    match ty {
        Some(ty) => Some(Interface::of_type(ty)),
        None => None,
    }
}

/// What a name stands for inside of a module with these parameters.
fn of_inner<'a>(
    scope: &'a Scope,
    module: &'a Module,
    params: &[Param],
    name: &Name,
) -> Option<Interface<'a>>
    ensures { option_map seen result ≡ of_inner scope.now «module».now params.now name.now }
{
    for p in params {
        if same_name(name, &p.name) {
            return of_asked(scope.module_type(&p.ty));
        }
    }
    if same_name(name, &module.name) {
        Some(Interface::of_module(module))
    } else {
        of_declared(scope, name)
    }
}

/// What a name stands for: a declared module, also an abstract one; inside of a module that is typed also one of its parameters, or the
/// module itself, as far as its procedures are there.
pub fn interface_of<'a>(
    scope: &'a Scope,
    around: Option<&'a Module>,
    name: &Name,
) -> Option<Interface<'a>>
    ensures { option_map seen result ≡ interface_of scope.now (option_copied around.entry) name.now }
{
    match around {
        Some(module) => of_inner(scope, module, module.params.as_slice(), name),
        None => of_declared(scope, name),
    }
}

/// Whether a module fits a module type: what it lacks the type's parameters give, and it has the procedures of the type.
pub fn fits(scope: &Scope, found: Option<Interface<'_>>, ty: Option<&ModuleType>) -> bool
    ensures { result ≡ fits scope.now (option_map seen found.entry) (option_copied ty.entry) }
{
    match (found, ty) {
        (Some(module), Some(ty)) => {
            takes(scope, module.lacks, ty.params.as_slice())
                && module.procedures.provides(ty.signatures.as_slice())
        }
        _ => false,
    }
}

/// What a module expression lacks and has, outside of modules or inside of one: none where a name has no module, or an argument doesn't fit.
#[cycle(interface_at)]
pub fn interface_at<'a>(
    scope: &'a Scope,
    around: Option<&'a Module>,
    e: &Mexp,
) -> Option<Interface<'a>>
    ensures { option_map seen result ≡ interface_at scope.now (option_copied around.entry) e.now }
{
    match e {
        Mexp::Name(name) => interface_of(scope, around, name),
        Mexp::Apply(name, args) => {
            let module = interface_of(scope, around, name)?;
            let lacks = left_over(scope, around, module.lacks, args.as_slice())?;
            let procedures = module.procedures;
            Some(Interface { lacks, procedures })
        }
    }
}

/// What is still lacking of parameters where modules are given in front.
#[cycle(interface_at)]
fn left_over<'a>(
    scope: &'a Scope,
    around: Option<&'a Module>,
    params: &'a [Param],
    args: &[Mexp],
) -> Option<&'a [Param]>
    ensures { option_copied result ≡ left_over scope.now params.now (map (interface_at scope.now (option_copied around.entry)) args.now) }
{
    let mut left = params;
    for e in args {
        match left {
            [p, rest @ ..] => {
                if !fits(
                    scope,
                    interface_at(scope, around, e),
                    scope.module_type(&p.ty),
                ) {
                    return None;
                }
                left = rest;
            }
            _ => return None,
        }
    }
    Some(left)
}

/// Whether modules may stand for parameters, outside of modules, one for each.
pub fn suits(scope: &Scope, params: &[Param], args: &[Mexp]) -> bool
    ensures { result ≡ suits scope.now params.now args.now }
{
    let mut others = args;
    for p in params {
        match others {
            [e, rest @ ..] => {
                if !fits(
                    scope,
                    interface_at(scope, None, e),
                    scope.module_type(&p.ty),
                ) {
                    return false;
                }
                others = rest;
            }
            _ => return false,
        }
    }
    others.is_empty()
}

/// The type of the procedure of this name, of a module that lacks nothing.
pub fn procedure_in<'a>(found: Option<Interface<'a>>, name: &Name) -> Option<ProcedureType<'a>>
    ensures { option_map typed result ≡ procedure_in (option_map seen found.entry) name.now }
{
    match found {
        Some(module) if module.lacks.is_empty() => module.procedures.type_of(name),
        _ => None,
    }
}

/// The type of the procedure that a reference means, of a module that lacks nothing, outside of modules or inside of one.
pub fn procedure_type<'a>(
    scope: &'a Scope,
    around: Option<&'a Module>,
    reference: &ProcRef,
) -> Option<ProcedureType<'a>>
    ensures { option_map typed result ≡ procedure_type scope.now (option_copied around.entry) reference.now }
{
    procedure_in(
        interface_at(scope, around, &reference.module),
        &reference.name,
    )
}
