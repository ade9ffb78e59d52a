// Module types.

ghost use Rattle.std.specs.Prelude.{◌≡◌, [], None, IfOk, MatchResult, bytes_eq};
ghost use Rattle.std.specs.List.{list_any};
ghost use Rattle.std.specs.Option.{option_copied};
ghost use Rattle.gb_goal.specs.Answers.{Answers, Fails, Gives};
ghost use Rattle.gb_goal.specs.Answers.Answer.{given};
ghost use Rattle.gb_elab_prog.specs.ModuleTypes.{may_call, module_type_at, module_type_entries, oracle, oracle_among, oracles, param, parameter, parameters, signature, signatures, signatures_named, signed, unsigned, without_parameters};

use crate::bound::refuse_parameter;
use crate::fresh::refuse_declared;
use crate::procedure::{formals, result_type};
use crate::types::only;
use gb_core::name::Name;
use gb_core::place::Place;
use gb_core::refusal::Refused;
use gb_goal::interface::signatures_of;
use gb_goal::module_type::{MayCall, ModuleType, Oracle, Oracles, Signature, Signatures};
use gb_goal::scope::{Entries, Entry, Scope};
use gb_mods::asked::signature_named;
use gb_names::globals::no_declared;
use gb_names::names::spelled;
use gb_names::refusals::{argument, double, not_built, unknown};
use gb_script::head::Head;
use gb_script::tree::Node;
use gb_terms::decl::{Param, Params};
use sqlite_items::{Boxed, Items};
use std::alloc::{AllocError, Global};

/// The module type that a path names.
///
/// # Errors
///
/// `UnknownName` of a name that nothing has, `Argument` of another thing.
pub fn module_type_at<'a>(
    alloc: Global,
    scope: &'a Scope,
    tree: &Node,
) -> Result<&'a ModuleType, Refused>
    ensures { Gives (λ t. t.now) (module_type_at scope.now tree.now) result }
{
    let name = spelled(alloc, tree)?;
    match scope.module_type(&name) {
        Some(ty) => Ok(ty),
        None => Err(no_declared(alloc, None, scope, &name, tree.place)),
    }
}

/// What a module type of this name declares, from its parameters and its procedures.
///
/// # Errors
///
/// `DoubleName` at its name where it is taken. Then, in the order of the text, at a parameter: `DoubleName` where a declared module
/// or a parameter before it has its name, `UnknownName` and `Argument` of a module type that isn't declared, and `Argument` of one that
/// has parameters itself; at a procedure: `DoubleName` where one before it has its name, those of its parameters and of its result's
/// type, and `UnknownName` in braces at the name of no parameter and at that of no procedure of it. `Syntax` of trees of another shape.
#[tactic(auto, unfolding(crate::specs::ModuleTypes::module_type_entries))]
pub fn module_type_entries(
    alloc: Global,
    scope: &Scope,
    name: &Node,
    parameter_trees: &[Node],
    signature_trees: &[Node],
) -> Result<Entries, Refused>
    ensures { Answers (module_type_entries scope.now name.now parameter_trees.now signature_trees.now) result }
{
    refuse_declared(alloc, scope, name)?;
    let params = parameters(alloc, scope, parameter_trees)?;
    let signatures = signatures(alloc, scope, params.as_slice(), signature_trees)?;
    let entry = Boxed::new(alloc, Entry::ModuleType(ModuleType { params, signatures }))?;
    Ok(only(alloc, name, entry)?)
}

/// Refuses parameters of a module type that a parameter has.
fn refuse_parameters(params: &[Param], place: Place) -> Result<(), Refused>
    ensures { Answers (without_parameters params.now place) result }
{
    match params {
        [] => Ok(()),
        _ => Err(argument(place)),
    }
}

/// A parameter of this name and of the module type that this path names.
pub fn param(alloc: Global, name: &Node, ty: &Node) -> Result<Param, AllocError>
    ensures { IfOk result (λ q. q ≡ param name.now ty.now) }
{
    let name = name.text.copy(alloc)?;
    let ty = spelled(alloc, ty)?;
    Ok(Param { name, ty })
}

/// The parameters of a module type, in the order of the text.
fn parameters(alloc: Global, scope: &Scope, trees: &[Node]) -> Result<Params, Refused>
    ensures { Answers (parameters scope.now [] trees.now) result }
{
    let mut params = Items::new(alloc);
    for tree in trees {
        declare_parameter(
            alloc,
            scope,
            &mut params,
            tree.head,
            tree.parts.as_slice(),
            tree.place,
        )?;
    }
    Ok(params)
}

/// Declares a parameter beside those before it.
fn declare_parameter(
    alloc: Global,
    scope: &Scope,
    params: &mut Params,
    head: Head,
    parts: &[Node],
    place: Place,
) -> Result<(), Refused>
    ensures { MatchResult result
        (λ _. parameter scope.now params.old head parts.now place ≡ given params.new)
        (λ e. Fails (parameter scope.now params.old head parts.now place) e) }
{
    match head {
        Head::ModuleParameter => match parts {
            [name, ty] => {
                refuse_parameter(alloc, scope, None, params.as_slice(), name)?;
                let asked = module_type_at(alloc, scope, ty)?;
                refuse_parameters(asked.params.as_slice(), ty.place)?;
                let param = param(alloc, name, ty)?;
                params.push(param)?;
                Ok(())
            }
            _ => Err(not_built(place)),
        },
        _ => Err(not_built(place)),
    }
}

/// The procedures of the parameter of this name.
fn signatures_named<'a>(scope: &'a Scope, params: &[Param], name: &Name) -> Option<&'a [Signature]>
    ensures { option_copied result ≡ signatures_named scope.now params.now name.now }
{
    for q in params {
        if q.name == *name {
            return Some(signatures_of(scope.module_type(&q.ty)));
        }
    }
    None
}

/// The procedure of this name among those of a parameter.
fn oracle_among(
    alloc: Global,
    signatures: &[Signature],
    parameter: &Node,
    name: &Node,
) -> Result<Oracle, Refused>
    ensures { Answers (oracle_among signatures.now parameter.now name.now) result }
{
    if signature_named(signatures, &name.text).is_none() {
        return Err(unknown(alloc, &name.text, name.place));
    }
    let parameter = parameter.text.copy(alloc)?;
    let name = name.text.copy(alloc)?;
    Ok(Oracle { parameter, name })
}

/// A procedure of a parameter.
fn oracle(
    alloc: Global,
    scope: &Scope,
    params: &[Param],
    head: Head,
    parts: &[Node],
    place: Place,
) -> Result<Oracle, Refused>
    ensures { Answers (oracle scope.now params.now head parts.now place) result }
{
    match head {
        Head::Oracle => match parts {
            [parameter, name] => match signatures_named(scope, params, &parameter.text) {
                None => Err(unknown(alloc, &parameter.text, parameter.place)),
                Some(signatures) => oracle_among(alloc, signatures, parameter, name),
            },
            _ => Err(not_built(place)),
        },
        _ => Err(not_built(place)),
    }
}

/// The procedures of parameters, in the order of the text.
fn oracles(
    alloc: Global,
    scope: &Scope,
    params: &[Param],
    trees: &[Node],
) -> Result<Oracles, Refused>
    ensures { Answers (oracles scope.now params.now [] trees.now) result }
{
    let mut all = Items::new(alloc);
    for tree in trees {
        let added = oracle(
            alloc,
            scope,
            params,
            tree.head,
            tree.parts.as_slice(),
            tree.place,
        )?;
        all.push(added)?;
    }
    Ok(all)
}

/// Which procedures of the parameters a procedure may call: those in braces, or without them all.
fn may_call(
    alloc: Global,
    scope: &Scope,
    params: &[Param],
    head: Head,
    parts: &[Node],
    place: Place,
) -> Result<MayCall, Refused>
    ensures { Answers (may_call scope.now params.now head parts.now place) result }
{
    match head {
        Head::AllOracles => Ok(MayCall::Every),
        Head::Oracles => {
            let oracles = oracles(alloc, scope, params, parts)?;
            Ok(MayCall::Those(oracles))
        }
        _ => Err(not_built(place)),
    }
}

/// Whether one of these procedures has this name.
fn is_signed(signatures: &[Signature], name: &Name) -> bool
    ensures { result ≡ list_any (λ s. bytes_eq s.name name.now) signatures.now }
{
    for s in signatures {
        if s.name == *name {
            return true;
        }
    }
    false
}

/// Refuses the name of a procedure that one before it has.
fn refuse_signed(alloc: Global, signatures: &[Signature], name: &Node) -> Result<(), Refused>
    ensures { Answers (unsigned signatures.now name.now) result }
{
    if is_signed(signatures, &name.text) {
        Err(double(alloc, &name.text, name.place))
    } else {
        Ok(())
    }
}

/// The procedures of a module type, in the order of the text.
fn signatures(
    alloc: Global,
    scope: &Scope,
    params: &[Param],
    trees: &[Node],
) -> Result<Signatures, Refused>
    ensures { Answers (signatures scope.now params.now [] trees.now) result }
{
    let mut all = Items::new(alloc);
    for tree in trees {
        declare_signature(
            alloc,
            scope,
            params,
            &mut all,
            tree.head,
            tree.parts.as_slice(),
            tree.place,
        )?;
    }
    Ok(all)
}

/// A procedure of this name.
fn signature(
    alloc: Global,
    scope: &Scope,
    params: &[Param],
    name: &Node,
    typed: &Node,
    ty: &Node,
    oracles: &Node,
) -> Result<Signature, Refused>
    ensures { Answers (signed scope.now params.now name.now typed.now ty.now oracles.now) result }
{
    let typed = formals(alloc, scope, typed.parts.as_slice())?;
    let result = result_type(alloc, scope, ty.parts.as_slice())?;
    let oracles = may_call(
        alloc,
        scope,
        params,
        oracles.head,
        oracles.parts.as_slice(),
        oracles.place,
    )?;
    let name = name.text.copy(alloc)?;
    Ok(Signature {
        name,
        params: typed,
        result,
        oracles,
    })
}

/// Declares a procedure beside those before it.
fn declare_signature(
    alloc: Global,
    scope: &Scope,
    params: &[Param],
    signatures: &mut Signatures,
    head: Head,
    parts: &[Node],
    place: Place,
) -> Result<(), Refused>
    ensures { MatchResult result
        (λ _. signature scope.now params.now signatures.old head parts.now place ≡ given signatures.new)
        (λ e. Fails (signature scope.now params.now signatures.old head parts.now place) e) }
{
    match head {
        Head::Signature => match parts {
            [name, formals, ty, oracles] => {
                refuse_signed(alloc, signatures.as_slice(), name)?;
                let added = signature(alloc, scope, params, name, formals, ty, oracles)?;
                signatures.push(added)?;
                Ok(())
            }
            _ => Err(not_built(place)),
        },
        _ => Err(not_built(place)),
    }
}
