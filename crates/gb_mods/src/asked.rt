//! What procedures of any module of a module type call: the oracles that their signatures name, of the modules that are given for the
//! type's parameters.

ghost use Rattle.std.specs.Prelude.{◌≡◌, ◌++◌, IfOk};
ghost use Rattle.std.specs.Option.{option_copied};
ghost use Rattle.gb_mods.specs.Asked.{all_oracles, asked_by, asked_for, asked_of, oracles_if, oracles_in, signature_of};

use crate::called::Procedures;
use gb_core::Shared;
use gb_core::name::Name;
use gb_core::same::same_name;
use gb_goal::instance::stands_for;
use gb_goal::interface::signatures_of;
use gb_goal::module_type::{MayCall, ModuleType, Oracle, Signature};
use gb_goal::scope::Scope;
use gb_terms::decl::Param;
use gb_terms::module::{Mexp, ProcRef};
use std::alloc::{AllocError, Global};

/// A procedure of this name, of the module that is given for the parameter of this name.
fn asked(
    alloc: Global,
    params: &[Param],
    args: &[Mexp],
    parameter: &Name,
    name: &Name,
) -> Result<Shared<ProcRef>, AllocError>
    ensures { IfOk result (λ made. made ≡ asked_of params.now args.now (record { parameter = parameter.now; name = name.now })) }
{
    let module = stands_for(alloc, params, args, parameter)?;
    let name = name.copy(alloc)?;
    Shared::new(alloc, ProcRef { module, name })
}

/// Procedures behind others: these of the module that is given for the parameter of this name.
fn all_asked(
    alloc: Global,
    found: Procedures,
    params: &[Param],
    args: &[Mexp],
    parameter: &Name,
    signatures: &[Signature],
) -> Result<Procedures, AllocError>
    ensures { IfOk result (λ made. made ≡ found ++ asked_for params.now args.now (oracles_in parameter.now signatures.now)) }
{
    let mut all = found;
    for s in signatures {
        all.push(asked(alloc, params, args, parameter, &s.name)?)?;
    }
    Ok(all)
}

/// Procedures behind others: all those of the modules that are given for parameters.
fn every(
    alloc: Global,
    scope: &Scope,
    found: Procedures,
    params: &[Param],
    args: &[Mexp],
) -> Result<Procedures, AllocError>
    ensures { IfOk result (λ made. made ≡ found ++ asked_for params.now args.now (all_oracles scope.now params.now)) }
{
    let mut all = found;
    for q in params {
        let signatures = signatures_of(scope.module_type(&q.ty));
        all = all_asked(alloc, all, params, args, &q.name, signatures)?;
    }
    Ok(all)
}

/// Procedures behind others: these, of the modules that are given for parameters.
fn those(
    alloc: Global,
    found: Procedures,
    params: &[Param],
    args: &[Mexp],
    oracles: &[Oracle],
) -> Result<Procedures, AllocError>
    ensures { IfOk result (λ made. made ≡ found ++ asked_for params.now args.now oracles.now) }
{
    let mut all = found;
    for o in oracles {
        all.push(asked(alloc, params, args, &o.parameter, &o.name)?)?;
    }
    Ok(all)
}

/// The signature of this name.
pub fn signature_named<'a>(signatures: &'a [Signature], name: &Name) -> Option<&'a Signature>
    ensures { option_copied result ≡ signature_of signatures.now name.now }
{
    for s in signatures {
        if same_name(&s.name, name) {
            return Some(s);
        }
    }
    None
}

/// Procedures behind others: those that a procedure of this signature calls, of the modules that are given for parameters.
fn asked_if(
    alloc: Global,
    scope: &Scope,
    found: Procedures,
    params: &[Param],
    args: &[Mexp],
    signature: Option<&Signature>,
) -> Result<Procedures, AllocError>
    ensures { IfOk result (λ made. made ≡ found ++ asked_for params.now args.now (oracles_if scope.now params.now (option_copied signature.entry))) }
{
    let Some(signature) = signature else {
        return Ok(found);
    };
    match &signature.oracles {
        MayCall::Every => every(alloc, scope, found, params, args),
        MayCall::Those(oracles) => those(alloc, found, params, args, oracles.as_slice()),
    }
}

/// Procedures behind others: what a procedure of any module of a module type calls, where these modules are given for the type's
/// parameters.
pub fn asked_by(
    alloc: Global,
    scope: &Scope,
    found: Procedures,
    ty: Option<&ModuleType>,
    args: &[Mexp],
    name: &Name,
) -> Result<Procedures, AllocError>
    ensures { IfOk result (λ made. made ≡ found ++ asked_by scope.now (option_copied ty.entry) args.now name.now) }
{
    let Some(ty) = ty else {
        return Ok(found);
    };
    let signature = signature_named(ty.signatures.as_slice(), name);
    asked_if(alloc, scope, found, ty.params.as_slice(), args, signature)
}
