//! When a module meets a module type.

ghost use Rattle.std.specs.Prelude.{◌≡◌, [], ◌∷◌, Some, IfOk};
ghost use Rattle.std.specs.Option.{option_copied};
ghost use Rattle.gb_goal.specs.Answers.{Answers, Refuses};
ghost use Rattle.gb_goal.specs.Seen.{seen, types_in};
ghost use Rattle.gb_mods.specs.Reach.{all_from as reached_from};
ghost use Rattle.gb_mods.specs.Meets.{all_named, ask_named, calls_named, each_calls_named, first_of, first_unmet, is_named, is_open, is_oracle, known_seen, left_open, meets, meets_named, named_if, open_name, open_parameter, unless_unmet, unmet, with_open};

use crate::reach::all_from;
use gb_core::Shared;
use gb_core::name::Name;
use gb_core::place::Place;
use gb_core::refusal::{Refused, Why};
use gb_core::same::same_name;
use gb_goal::instance::given_more;
use gb_goal::interface::{Interface, Procedures, has_type, takes};
use gb_goal::module_type::{MayCall, ModuleType, Oracle, Signature};
use gb_goal::scope::{ProcName, Scope};
use gb_terms::decl::{Module, Param};
use gb_terms::module::{Mexp, Mexps, ProcRef};
use sqlite_items::Items;
use std::alloc::{AllocError, Global};

/// A module as a text names it: the module expression, and what is known of the module.
#[derive(Drop)]
pub struct Known<'a> {
    pub module: Mexp,
    pub interface: Interface<'a>,
}

/// The name of the first signature that no procedure meets.
fn first_unmet<'a>(procedures: Procedures<'_>, signatures: &'a [Signature]) -> Option<&'a Name>
    ensures { option_copied result ≡ first_unmet (types_in procedures.entry) signatures.now }
{
    for s in signatures {
        if !has_type(procedures.type_of(&s.name), s) {
            return Some(&s.name);
        }
    }
    None
}

/// The name of the first procedure of a module type, or its own where it has none.
fn first_of<'a>(name: &'a Name, signatures: &'a [Signature]) -> &'a Name
    ensures { result.now ≡ first_of name.now signatures.now }
{
    match signatures {
        [] => name,
        [first, ..] => &first.name,
    }
}

/// What a module lacks of a module type of this name: the first procedure of these names and types that it hasn't; where it doesn't lack
/// what the type's parameters give, one by one, the type's first procedure, or the type itself if it has none.
fn unmet<'a>(
    scope: &Scope,
    interface: Interface<'_>,
    name: &'a Name,
    ty: &'a ModuleType,
) -> Option<&'a Name>
    ensures { option_copied result ≡ unmet scope.now (seen interface.entry) name.now ty.now }
{
    let signatures = ty.signatures.as_slice();
    if takes(scope, interface.lacks, ty.params.as_slice()) {
        first_unmet(interface.procedures, signatures)
    } else {
        Some(first_of(name, signatures))
    }
}

/// The refusal of a module that lacks this procedure of a module type.
fn lacking(alloc: Global, name: &Name, place: Place) -> Refused
    ensures { Refuses (Why.ModuleType name.now) place result }
{
    match name.copy(alloc) {
        Ok(name) => Refused::Script {
            why: Why::ModuleType(name),
            place,
        },
        Err(_) => Refused::NoMemory,
    }
}

fn refuse_unmet(alloc: Global, found: Option<&Name>, place: Place) -> Result<(), Refused>
    ensures { Answers (unless_unmet (option_copied found.entry) place) result }
{
    match found {
        None => Ok(()),
        Some(name) => Err(lacking(alloc, name, place)),
    }
}

/// The name of a module in place of a parameter that is left open. No script spells it, so that nothing is declared under it.
fn open_name(alloc: Global, name: &Name) -> Result<Name, AllocError>
    ensures { IfOk result (λ made. made ≡ open_name name.now) }
{
    let mut text = String::from_str(alloc, " ")?;
    text.push_str(name.as_str())?;
    Ok(Name::new(text))
}

/// Modules in place of these parameters.
pub fn left_open(alloc: Global, params: &[Param]) -> Result<Mexps, AllocError>
    ensures { IfOk result (λ made. made ≡ left_open params.now) }
{
    let mut all = Items::new(alloc);
    for q in params {
        all.push(Mexp::Name(open_name(alloc, &q.name)?))?;
    }
    Ok(all)
}

/// A procedure of a module, with these parameters left open.
fn with_open(
    alloc: Global,
    module: &Mexp,
    params: &[Param],
    name: &Name,
) -> Result<Shared<ProcRef>, AllocError>
    ensures { IfOk result (λ made. made ≡ with_open «module».now params.now name.now) }
{
    let open = left_open(alloc, params)?;
    let module = given_more(alloc, module, open)?;
    let name = name.copy(alloc)?;
    Shared::new(alloc, ProcRef { module, name })
}

/// Whether a module stands in place of the parameter of this name.
fn is_open(alloc: Global, parameter: &Name, module: &Mexp) -> Result<bool, AllocError>
    ensures { IfOk result (λ found. found ≡ is_open parameter.now «module».now) }
{
    match module {
        Mexp::Name(name) => {
            let open = open_name(alloc, parameter)?;
            Ok(same_name(name, &open))
        }
        Mexp::Apply(..) => Ok(false),
    }
}

/// The parameter in whose place a module stands.
fn open_parameter<'a>(
    alloc: Global,
    params: &'a [Param],
    module: &Mexp,
) -> Result<Option<&'a Name>, AllocError>
    ensures { IfOk result (λ found. option_copied found ≡ open_parameter params.now «module».now) }
{
    for q in params {
        if is_open(alloc, &q.name, module)? {
            return Ok(Some(&q.name));
        }
    }
    Ok(None)
}

/// Whether an oracle is a procedure of a parameter, by the names of both.
fn is_oracle(oracle: &Oracle, parameter: &Name, name: &Name) -> bool
    ensures { result ≡ is_oracle parameter.now name.now oracle.now }
{
    same_name(&oracle.parameter, parameter) && same_name(&oracle.name, name)
}

/// Whether a procedure of a parameter is among oracles.
fn is_named(oracles: &[Oracle], parameter: &Name, name: &Name) -> bool
    ensures { result ≡ is_named oracles.now parameter.now name.now }
{
    for o in oracles {
        if is_oracle(o, parameter, name) {
            return true;
        }
    }
    false
}

/// The refusal of a procedure of a parameter that may not be called.
fn stranger(alloc: Global, parameter: &Name, name: &Name, place: Place) -> Result<(), Refused>
    ensures { Answers (ask_named [] (Some parameter.now) name.now place) result }
{
    let module = parameter.copy(alloc)?;
    let name = name.copy(alloc)?;
    let why = Why::Oracle(ProcName { module, name }.path(alloc)?);
    Err(Refused::Script { why, place })
}

/// Refuses a procedure of a parameter, if it is one, that isn't among oracles.
fn ask_named(
    alloc: Global,
    oracles: &[Oracle],
    parameter: Option<&Name>,
    name: &Name,
    place: Place,
) -> Result<(), Refused>
    ensures { Answers (ask_named oracles.now (option_copied parameter.entry) name.now place) result }
{
    match parameter {
        Some(parameter) if !is_named(oracles, parameter, name) => {
            stranger(alloc, parameter, name, place)
        }
        _ => Ok(()),
    }
}

/// Refuses the first of these procedures that is one of a parameter, and not among oracles.
fn all_named(
    alloc: Global,
    params: &[Param],
    oracles: &[Oracle],
    list: &[Shared<ProcRef>],
    place: Place,
) -> Result<(), Refused>
    ensures { Answers (all_named params.now oracles.now list.now place) result }
{
    for x in list {
        let parameter = open_parameter(alloc, params, &x.get().module)?;
        ask_named(alloc, oracles, parameter, &x.get().name, place)?;
    }
    Ok(())
}

/// Refuses a procedure of a module that calls one of these parameters' procedures, through every procedure that it calls, but for oracles.
fn only_named(
    alloc: Global,
    scope: &Scope,
    around: Option<&Module>,
    module: &Mexp,
    params: &[Param],
    name: &Name,
    oracles: &[Oracle],
    place: Place,
) -> Result<(), Refused>
    ensures { Answers (named_if params.now oracles.now (reached_from scope.now (option_copied around.entry) (with_open «module».now params.now name.now ∷ [])) place) result }
{
    let procedure = with_open(alloc, module, params, name)?;
    let first = Items::from_vec(vec![in alloc; procedure]?);
    match all_from(alloc, scope, around, first)? {
        Some(all) => all_named(alloc, params, oracles, all.as_slice(), place),
        None => Err(Refused::Script {
            why: Why::Syntax,
            place,
        }),
    }
}

/// The same of those that a signature of this name doesn't let it call.
fn calls_named(
    alloc: Global,
    scope: &Scope,
    around: Option<&Module>,
    module: &Mexp,
    params: &[Param],
    signature: &Signature,
    place: Place,
) -> Result<(), Refused>
    ensures { Answers (calls_named scope.now (option_copied around.entry) «module».now params.now signature.now.name signature.now.oracles place) result }
{
    match &signature.oracles {
        MayCall::Every => Ok(()),
        MayCall::Those(oracles) => {
            let (name, oracles) = (&signature.name, oracles.as_slice());
            only_named(alloc, scope, around, module, params, name, oracles, place)
        }
    }
}

/// The same of each procedure that a module type asks for.
fn each_calls_named(
    alloc: Global,
    scope: &Scope,
    around: Option<&Module>,
    module: &Mexp,
    ty: &ModuleType,
    place: Place,
) -> Result<(), Refused>
    ensures { Answers (each_calls_named scope.now (option_copied around.entry) «module».now ty.now.params ty.now.signatures place) result }
{
    for s in ty.signatures.as_slice() {
        calls_named(alloc, scope, around, module, ty.params.as_slice(), s, place)?;
    }
    Ok(())
}

/// Refuses a module, inside of another one or outside, that doesn't meet a module type of this name.
///
/// # Errors
///
/// `ModuleType` of the type's first procedure, or of its own name if it has none, where the module doesn't lack what the type's
/// parameters give, one by one; of the first procedure that the module hasn't with these types; and `Oracle` of the first procedure of the
/// type's parameters that a procedure of the module calls, through every procedure that it calls, and that its signature doesn't name.
pub fn meets(
    alloc: Global,
    scope: &Scope,
    around: Option<&Module>,
    known: &Known<'_>,
    name: &Name,
    ty: &ModuleType,
    place: Place,
) -> Result<(), Refused>
    ensures { Answers (meets scope.now (option_copied around.entry) (known_seen known.now) name.now ty.now place) result }
{
    let lacking = unmet(scope, known.interface, name, ty);
    refuse_unmet(alloc, lacking, place)?;
    each_calls_named(alloc, scope, around, &known.module, ty, place)
}

/// The same of the module type that a name stands for: `ModuleType` of the name, if it stands for none.
pub fn meets_named(
    alloc: Global,
    scope: &Scope,
    around: Option<&Module>,
    known: &Known<'_>,
    name: &Name,
    place: Place,
) -> Result<(), Refused>
    ensures { Answers (meets_named scope.now (option_copied around.entry) (known_seen known.now) name.now place) result }
{
    match scope.module_type(name) {
        Some(ty) => meets(alloc, scope, around, known, name, ty, place),
        None => Err(lacking(alloc, name, place)),
    }
}
