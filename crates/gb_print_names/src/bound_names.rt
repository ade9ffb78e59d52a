// Where a form stands, and the name that a binder gets there.

ghost use Rattle.std.specs.Prelude.{◌≡◌, List, IfOk};
ghost use Rattle.gb_print_names.specs.declared.bound_names.Known.{Known};
ghost use Rattle.gb_print_names.specs.BoundNames.{is_among, is_taken, place, primed, numbered, bound_name};

use gb_core::Stack;
use gb_core::name::{Name, Names};
use gb_goal::scope::Scope;
use gb_terms::decl::TypedName;
use std::alloc::{AllocError, Global};

/// The names of an enumeration's constants, in order.
#[derive(Drop)]
pub struct Enumeration {
    pub name: Name,
    pub constants: Names,
}

/// What a binder binds: its name in the tree where it is a module, and the name that is printed.
#[derive(Drop)]
pub struct Known {
    pub stands: Name,
    pub shown: Name,
}

/// Where a form stands, but for what is bound around: what is declared; the constants of enumerations; the names of the context's
/// variables and memories, in their order; and all names of the context and of enumerations, with those of the program variables of
/// the judgments around.
#[derive(Clone, Copy)]
pub struct Setting<'a> {
    pub scope: &'a Scope,
    pub enumerations: &'a [Enumeration],
    pub logical: &'a [TypedName],
    pub memories: &'a [Name],
    pub taken: &'a [Name],
}

fn is_among(names: &[Name], name: &Name) -> bool
    ensures { result ≡ is_among names.now name.now }
{
    for x in names {
        if *x == *name {
            return true;
        }
    }
    false
}

fn is_taken(at: &Setting<'_>, name: &Name) -> bool
    ensures { (bound : List Known) → result ≡ is_taken (place at.now bound) name.now }
{
    at.scope.entry(name).is_some() || is_among(at.taken, name)
}

/// The name, with a prime behind it while it is one that is taken, and with at most so many.
fn primed(alloc: Global, at: &Setting<'_>, name: Name, most: usize) -> Result<Name, AllocError>
    ensures { IfOk result (λ x. (bound : List Known) → x ≡ primed most (is_taken (place at.now bound)) name) }
{
    let mut name = name;
    for _tried in 0..most {
        if !is_taken(at, &name) {
            return Ok(name);
        }
        name = Name::new(format!(in alloc; "{name}'")?);
    }
    Ok(name)
}

/// A letter, and the number where it isn't 0.
fn numbered(alloc: Global, letter: &str, n: usize) -> Result<Name, AllocError>
    ensures { IfOk result (λ x. x ≡ numbered letter.now n) }
{
    if n == 0 {
        return Name::from_str(alloc, letter);
    }
    let text = format!(in alloc; "{letter}{n}")?;
    Ok(Name::new(text))
}

/// The name that is printed for what a binder binds. Where there are 2^64 names, memory is said to run out.
pub fn bound_name(
    alloc: Global,
    at: &Setting<'_>,
    bound: &Stack<Known>,
    letter: &str,
) -> Result<Name, AllocError>
    ensures { IfOk result (λ x. x ≡ bound_name letter.now (place at.now bound.now)) }
{
    let most = at
        .taken
        .len()
        .checked_add(at.scope.declarations())
        .ok_or(AllocError)?;
    let name = numbered(alloc, letter, bound.len())?;
    primed(alloc, at, name, most)
}
