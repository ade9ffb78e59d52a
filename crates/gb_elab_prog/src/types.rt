// What commands `type` declare.

ghost use Rattle.std.specs.Prelude.{◌≡◌, ◌≤◌, [], ◌++◌, length, take, drop, is_some, IfOk, OnOk, MatchResult};
ghost use Rattle.gb_goal.specs.Scope.{entry_of};
ghost use Rattle.gb_goal.specs.Answers.{Answers, Fails};
ghost use Rattle.gb_goal.specs.Answers.Answer.{given};
ghost use Rattle.gb_elab_prog.specs.Types.{constants, enumeration, enumeration_type, new, only, type_entries, without};

use gb_core::Shared;
use gb_core::name::Name;
use gb_core::place::Place;
use gb_core::refusal::Refused;
use gb_core::ty::Ty;
use gb_goal::scope::{Constant, Entries, Entry, Scope};
use gb_names::refusals::{argument, double, not_built};
use gb_names::types::type_of;
use gb_script::head::Head;
use gb_script::tree::Node;
use sqlite_items::{Boxed, Items};
use std::alloc::{AllocError, Global};

/// The most constants of an enumeration.
const CONSTANTS: usize = 256;

/// A thing under the name that a word is.
pub fn only(alloc: Global, name: &Node, entry: Boxed<Entry>) -> Result<Entries, AllocError>
    ensures { IfOk result (λ added. added ≡ only name.now entry) }
{
    let mut added = Items::new(alloc);
    push(alloc, &mut added, name, entry)?;
    Ok(added)
}

fn push(
    alloc: Global,
    added: &mut Entries,
    name: &Node,
    entry: Boxed<Entry>,
) -> Result<(), AllocError>
    ensures { OnOk result (added.new ≡ added.old ++ only name.now entry) }
{
    let name = name.text.copy(alloc)?;
    added.push((name, entry))
}

/// What a type of this name declares, from the head and the parts of its definition: any values, another type, or an enumeration.
///
/// # Errors
///
/// Those of a type; of an enumeration `DoubleName` at a constant whose name is taken, and `Argument` at one too many.
pub fn type_entries(
    alloc: Global,
    scope: &Scope,
    name: &Node,
    head: Head,
    parts: &[Node],
    place: Place,
) -> Result<Entries, Refused>
    ensures { Answers (type_entries scope.now name.now head parts.now place) result }
{
    match head {
        Head::AbstractType => {
            let entry = Boxed::new(alloc, Entry::AbstractType)?;
            Ok(only(alloc, name, entry)?)
        }
        Head::TypeAlias => match parts {
            [ty] => {
                let ty = type_of(alloc, scope, ty)?;
                let entry = Boxed::new(alloc, Entry::Type(ty))?;
                Ok(only(alloc, name, entry)?)
            }
            _ => Err(not_built(place)),
        },
        Head::Enumeration => match parts {
            [] => Err(not_built(place)),
            [_, ..] => constants_of(alloc, scope, name, parts),
        },
        _ => Err(not_built(place)),
    }
}

/// An enumeration of these constants, of which there may be too many.
#[tactic(auto, using(crate::proofs::Constants::few_are_all))]
fn constants_of(
    alloc: Global,
    scope: &Scope,
    name: &Node,
    words: &[Node],
) -> Result<Entries, Refused>
    ensures { Answers (enumeration scope.now name.now (take 256 words.now) (drop 256 words.now)) result }
{
    if words.len() > CONSTANTS {
        enumeration(alloc, scope, name, &words[..CONSTANTS], &words[CONSTANTS..])
    } else {
        enumeration(alloc, scope, name, words, &[])
    }
}

/// An enumeration and its constants, behind which none may stand.
fn enumeration(
    alloc: Global,
    scope: &Scope,
    name: &Node,
    words: &[Node],
    more: &[Node],
) -> Result<Entries, Refused>
    requires { length words.now ≤ 256 }
    ensures { Answers (enumeration scope.now name.now words.now more.now) result }
{
    let ty = enumeration_type(alloc, name, words.len())?;
    let entry = Boxed::new(alloc, Entry::Type(ty.share()?))?;
    let mut added = only(alloc, name, entry)?;
    constants(alloc, scope, &ty, words, &mut added)?;
    match more {
        [] => Ok(added),
        [extra, ..] => Err(argument(extra.place)),
    }
}

fn enumeration_type(alloc: Global, name: &Node, size: usize) -> Result<Shared<Ty>, AllocError>
    requires { size ≤ 256 }
    ensures { IfOk result (λ t. t ≡ enumeration_type name.now size) }
{
    let name = name.text.copy(alloc)?;
    Shared::new(
        alloc,
        Ty::Enumeration {
            name,
            size: size as u16,
        },
    )
}

/// Declares constants behind others.
fn constants(
    alloc: Global,
    scope: &Scope,
    ty: &Shared<Ty>,
    words: &[Node],
    added: &mut Entries,
) -> Result<(), Refused>
    requires { length words.now ≤ 256 }
    ensures { MatchResult result
        (λ _. constants scope.now ty.now 0 added.old words.now ≡ given added.new)
        (λ e. Fails (constants scope.now ty.now 0 added.old words.now) e) }
{
    for i in 0..words.len() {
        refuse_taken(alloc, scope, added, &words[i])?;
        let entry = constant(alloc, ty, i)?;
        push(alloc, added, &words[i], entry)?;
    }
    Ok(())
}

fn constant(alloc: Global, ty: &Shared<Ty>, number: usize) -> Result<Boxed<Entry>, AllocError>
    ensures { IfOk result (λ e. e ≡ Entry.Constant (record { ty = ty.now; number = number })) }
{
    let ty = ty.share()?;
    let number = number as u64;
    Boxed::new(alloc, Entry::Constant(Constant { ty, number }))
}

/// Refuses a name that the scope has, or one of these things.
fn refuse_taken(alloc: Global, scope: &Scope, added: &Entries, name: &Node) -> Result<(), Refused>
    ensures { Answers (new scope.now added.now name.now) result }
{
    if !scope.is_free(&name.text) || is_among(added, &name.text) {
        Err(double(alloc, &name.text, name.place))
    } else {
        Ok(())
    }
}

fn is_among(added: &Entries, name: &Name) -> bool
    ensures { result ≡ is_some (entry_of added.now name.now) }
{
    for entry in added.as_slice() {
        if *name == entry.0 {
            return true;
        }
    }
    false
}
