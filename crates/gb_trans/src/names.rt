// The name of a memory that a rule adds.

ghost use Rattle.std.specs.Prelude.{◌≡◌, ◌++◌, map, IfOk, OnOk};
ghost use Rattle.std.specs.Option.{option_copied};
ghost use Rattle.gb_print_names.specs.BoundNames.{is_among};
ghost use Rattle.gb_print.specs.GoalText.{context_names, typed_names};
ghost use Rattle.gb_trans.specs.Beside.{bound_modules, bound_name, memory_name, names_around, unlike};

use gb_core::name::{Name, Names};
use gb_goal::scope::{Entry, Scope};
use gb_goal::sequent::{Hyp, Sequent};
use gb_print_names::occurring::{names_inside, note_name};
use gb_terms::decl::TypedName;
use gb_terms::module::Bind;
use sqlite_items::Items;
use std::alloc::{AllocError, Global};

fn note_typed(alloc: Global, names: &mut Names, list: &[TypedName]) -> Result<(), AllocError>
    ensures { OnOk result (names.new ≡ names.old ++ typed_names list.now) }
{
    for x in list {
        note_name(alloc, names, &x.name)?;
    }
    Ok(())
}

fn note_names(alloc: Global, names: &mut Names, list: &[Name]) -> Result<(), AllocError>
    ensures { OnOk result (names.new ≡ names.old ++ list.now) }
{
    for x in list {
        note_name(alloc, names, x)?;
    }
    Ok(())
}

fn note_modules(alloc: Global, names: &mut Names, list: &[Bind]) -> Result<(), AllocError>
    ensures { OnOk result (names.new ≡ names.old ++ map (λ b. b.name) list.now) }
{
    for x in list {
        note_name(alloc, names, &x.name)?;
    }
    Ok(())
}

fn note_hypotheses(alloc: Global, names: &mut Names, list: &[Hyp]) -> Result<(), AllocError>
    ensures { OnOk result (names.new ≡ names.old ++ map (λ h. h.name) list.now) }
{
    for x in list {
        note_name(alloc, names, &x.name)?;
    }
    Ok(())
}

/// The names of a context.
fn context_names(alloc: Global, goal: &Sequent) -> Result<Names, AllocError>
    ensures { IfOk result (λ names. names ≡ context_names goal.now) }
{
    let mut names = Items::new(alloc);
    note_typed(alloc, &mut names, goal.logical.as_slice())?;
    note_names(alloc, &mut names, goal.memories.as_slice())?;
    note_modules(alloc, &mut names, goal.modules.as_slice())?;
    note_hypotheses(alloc, &mut names, goal.hyps.as_slice())?;
    Ok(names)
}

/// The name of an abstract module.
fn note_bound(alloc: Global, names: &mut Names, entry: Option<&Entry>) -> Result<(), AllocError>
    ensures { OnOk result (names.new ≡ names.old ++ bound_name (option_copied entry.entry)) }
{
    match entry {
        Some(Entry::AbstractModule(bind)) => note_name(alloc, names, &bind.name),
        _ => Ok(()),
    }
}

/// The names of the modules that the lemma of a goal binds.
fn note_bound_modules(alloc: Global, names: &mut Names, scope: &Scope) -> Result<(), AllocError>
    ensures { OnOk result (names.new ≡ names.old ++ bound_modules scope.now) }
{
    for i in 0..scope.len() {
        note_bound(alloc, names, scope.entry_at(i))?;
    }
    Ok(())
}

/// The names of a context, and of the modules that its lemma binds.
fn names_around(alloc: Global, scope: &Scope, goal: &Sequent) -> Result<Names, AllocError>
    ensures { IfOk result (λ names. names ≡ names_around scope.now goal.now) }
{
    let mut names = context_names(alloc, goal)?;
    note_bound_modules(alloc, &mut names, scope)?;
    Ok(names)
}

fn is_among(names: &[Name], name: &Name) -> bool
    ensures { result ≡ is_among names.now name.now }
{
    for x in names {
        if *x == *name {
            return true;
        }
    }
    false
}

/// A name, with a prime behind it while it is one of these.
fn unlike(alloc: Global, taken: &[Name], name: Name) -> Result<Name, AllocError>
    ensures { IfOk result (λ made. made ≡ unlike taken.now name) }
{
    let mut name = name;
    for _tried in 0..taken.len() {
        if !is_among(taken, &name) {
            return Ok(name);
        }
        name = Name::new(format!(in alloc; "{name}'")?);
    }
    Ok(name)
}

/// The name of the memory that is added: names of the context, of the modules that its lemma binds and of the variables of the programs are others.
pub fn memory_name(alloc: Global, scope: &Scope, goal: &Sequent) -> Result<Name, AllocError>
    ensures { IfOk result (λ made. made ≡ memory_name scope.now goal.now) }
{
    let around = names_around(alloc, scope, goal)?;
    let conclusion = &goal.conclusion;
    let args = conclusion.args.as_slice();
    let taken = names_inside(alloc, conclusion.head.get(), args, around.as_slice())?;
    let letter = Name::from_str(alloc, "m")?;
    unlike(alloc, taken.as_slice(), letter)
}
