// The context that the binders of a lemma make.

ghost use Rattle.std.specs.Prelude.{◌≡◌, [], ◌∷◌, ◌++◌, None, is_some, IfOk, OnOk, MatchResult, bytes_eq};
ghost use Rattle.std.specs.List.{list_any};
ghost use Rattle.gb_goal.specs.Answers.{Answers, Fails};
ghost use Rattle.gb_goal.specs.Answers.Answer.{given};
ghost use Rattle.gb_script.specs.Tree.{text_of};
ghost use Rattle.gb_goal.specs.Binders.{binder_entries};
ghost use Rattle.gb_goal.specs.Scope.{AreNew, entry_of};
ghost use Rattle.gb_elab_prog.specs.Bound.{is_module};
ghost use Rattle.gb_elab_prog.specs.Contexts.{all_bound, all_excluded, binder, bound_by, context_of, excluded, memory_bound, module_bound, nothing_around, nothing_bound, taken, unbounded, untaken, values_bound};
ghost use Rattle.gb_elab_prog.specs.Fresh.{free};

use crate::bound::is_module;
use crate::module_types::module_type_at;
use gb_core::SharedItems;
use gb_core::name::{Name, Names};
use gb_core::place::Place;
use gb_core::refusal::Refused;
use gb_goal::scope::Scope;
use gb_goal::sequent::{Sequent, ambient};
use gb_names::binders::{of_type, variable};
use gb_names::globals::no_declared;
use gb_names::names::spelled;
use gb_names::refusals::{double, not_built};
use gb_names::types::type_of;
use gb_script::head::Head;
use gb_script::tree::Node;
use gb_terms::decl::Typed;
use gb_terms::make;
use gb_terms::module::Bind;
use sqlite_items::Items;
use std::alloc::{AllocError, Global};

/// What binders bind, in order: all names, and of them the values with their types, the memories, and the abstract modules.
#[derive(Drop)]
pub struct Bound {
    pub names: Names,
    pub values: Typed,
    pub memories: Names,
    pub modules: Binds,
}

pub type Binds = Items<Bind>;

impl Bound {
    pub fn nothing(alloc: Global) -> Bound
        ensures { result ≡ nothing_bound }
    {
        Bound {
            names: Items::new(alloc),
            values: Items::new(alloc),
            memories: Items::new(alloc),
            modules: Items::new(alloc),
        }
    }
}

fn is_among(names: &[Name], name: &Name) -> bool
    ensures { result ≡ list_any (bytes_eq name.now) names.now }
{
    for other in names {
        if *name == *other {
            return true;
        }
    }
    false
}

/// Refuses a name that one of these is.
fn refuse_taken(alloc: Global, names: &[Name], word: &Node) -> Result<(), Refused>
    ensures { Answers (untaken names.now word.now) result }
{
    if is_among(names, &word.text) {
        Err(double(alloc, &word.text, word.place))
    } else {
        Ok(())
    }
}

/// Takes names, of which none is taken before.
pub fn take_names(alloc: Global, names: &mut Names, words: &[Node]) -> Result<(), Refused>
    ensures { MatchResult result
        (λ _. taken names.old words.now ≡ given names.new)
        (λ e. Fails (taken names.old words.now) e) }
{
    for word in words {
        refuse_taken(alloc, names.as_slice(), word)?;
        let name = word.text.copy(alloc)?;
        names.push(name)?;
    }
    Ok(())
}

/// Takes a name that isn't taken before.
fn take_name(alloc: Global, names: &mut Names, word: &Node) -> Result<(), Refused>
    ensures { MatchResult result
        (λ _. taken names.old (word.now ∷ []) ≡ given names.new)
        (λ e. Fails (taken names.old (word.now ∷ [])) e) }
{
    refuse_taken(alloc, names.as_slice(), word)?;
    let name = word.text.copy(alloc)?;
    names.push(name)?;
    Ok(())
}

/// What the binders of a lemma bind.
///
/// # Errors
///
/// `DoubleName` at a name that stands twice, and at that of a module which a declaration has; those of types and of module types;
/// `UnknownName` and `Argument` of an excluded module that isn't one; `Syntax` at a bound on calls.
#[tactic(auto, unfolding(crate::specs::Contexts::all_bound))]
pub fn all_bound(alloc: Global, scope: &Scope, binders: &[Node]) -> Result<Bound, Refused>
    ensures answer { Answers (all_bound scope.now nothing_bound binders.now) result }
    ensures new { IfOk result (λ b. AreNew scope.now (binder_entries b.modules)) }
{
    let mut bound = Bound::nothing(alloc);
    for x in binders {
        let parts = x.parts.as_slice();
        bind(alloc, scope, &mut bound, x.head, parts, x.place)?;
    }
    Ok(bound)
}

/// The context of what is bound, with no claim, where its modules are declared; and the modules.
pub fn context_of(alloc: Global, bound: Bound) -> Result<(Sequent, Binds), AllocError>
    ensures context { IfOk result (λ r. r.0 ≡ context_of bound) }
    ensures modules { IfOk result (λ r. r.1 ≡ bound.modules) }
{
    let Bound {
        values,
        memories,
        modules,
        ..
    } = bound;
    let mut around = nothing_around(alloc)?;
    around.logical = SharedItems::new(alloc, values)?;
    around.memories = SharedItems::new(alloc, memories)?;
    Ok((around, modules))
}

/// Binds beside others what a binder of this head and these parts binds.
fn bind(
    alloc: Global,
    scope: &Scope,
    bound: &mut Bound,
    head: Head,
    parts: &[Node],
    place: Place,
) -> Result<(), Refused>
    ensures answer { MatchResult result
        (λ _. bound_by scope.now bound.old head parts.now place ≡ given bound.new)
        (λ e. Fails (bound_by scope.now bound.old head parts.now place) e) }
    ensures new { OnOk result (AreNew scope.now (binder_entries bound.old.modules) → AreNew scope.now (binder_entries bound.new.modules)) }
{
    match head {
        Head::Values => match parts {
            [first, more, ty] => {
                bind_values(alloc, scope, bound, first, more.parts.as_slice(), ty)
            }
            _ => Err(not_built(place)),
        },
        Head::Memory => match parts {
            [name] => bind_memory(alloc, bound, name),
            _ => Err(not_built(place)),
        },
        Head::ModuleBind => match parts {
            [name, ty, excluded, bounds] => bind_module(
                alloc,
                scope,
                bound,
                name,
                ty,
                excluded.parts.as_slice(),
                bounds.parts.as_slice(),
            ),
            _ => Err(not_built(place)),
        },
        _ => Err(not_built(place)),
    }
}

/// Whether an abstract module of this name is bound.
fn is_bound(binds: &[Bind], name: &Name) -> bool
    ensures { result ≡ is_some (entry_of (binder_entries binds.now) name.now) }
{
    for b in binds {
        if *name == b.name {
            return true;
        }
    }
    false
}

/// Whether a module of this name is declared, or bound.
fn is_around(scope: &Scope, binds: &[Bind], name: &Name) -> bool
    ensures { result ≡ is_module (entry_of (scope.now ++ binder_entries binds.now) name.now) }
{
    match scope.entry(name) {
        Some(entry) => is_module(entry),
        None => is_bound(binds, name),
    }
}

/// A module that an abstract one excludes.
fn excluded(alloc: Global, scope: &Scope, binds: &[Bind], tree: &Node) -> Result<Name, Refused>
    ensures { Answers (excluded scope.now binds.now tree.now) result }
{
    let name = spelled(alloc, tree)?;
    if is_around(scope, binds, &name) {
        Ok(name)
    } else {
        Err(no_declared(alloc, None, scope, &name, tree.place))
    }
}

/// Modules that an abstract one excludes.
fn all_excluded(
    alloc: Global,
    scope: &Scope,
    binds: &[Bind],
    trees: &[Node],
) -> Result<Names, Refused>
    ensures { Answers (all_excluded scope.now binds.now [] trees.now) result }
{
    let mut names = Items::new(alloc);
    for tree in trees {
        let name = excluded(alloc, scope, binds, tree)?;
        names.push(name)?;
    }
    Ok(names)
}

/// Refuses bounds on calls, which aren't built yet.
fn refuse_bounds(bounds: &[Node]) -> Result<(), Refused>
    ensures { Answers (unbounded bounds.now) result }
{
    match bounds {
        [] => Ok(()),
        [first, ..] => Err(not_built(first.place)),
    }
}

/// Whether a declaration has this name, or a module that is bound.
fn is_taken(scope: &Scope, binds: &[Bind], name: &Name) -> bool
    ensures { result ≡ is_some (entry_of (scope.now ++ binder_entries binds.now) name.now) }
{
    match scope.entry(name) {
        Some(_) => true,
        None => is_bound(binds, name),
    }
}

/// Refuses the name of an abstract module that a declaration has, or one that is bound before.
fn refuse_named(alloc: Global, scope: &Scope, binds: &[Bind], name: &Node) -> Result<(), Refused>
    ensures answer { Answers (free (scope.now ++ binder_entries binds.now) name.now) result }
    ensures free { OnOk result (entry_of (scope.now ++ binder_entries binds.now) (text_of name.now) ≡ None) }
{
    if is_taken(scope, binds, &name.text) {
        Err(double(alloc, &name.text, name.place))
    } else {
        Ok(())
    }
}

/// Binds an abstract module under a name that nothing has.
fn bind_module(
    alloc: Global,
    scope: &Scope,
    bound: &mut Bound,
    name: &Node,
    ty: &Node,
    excluded: &[Node],
    bounds: &[Node],
) -> Result<(), Refused>
    ensures answer { MatchResult result
        (λ _. module_bound scope.now bound.old name.now ty.now excluded.now bounds.now ≡ given bound.new)
        (λ e. Fails (module_bound scope.now bound.old name.now ty.now excluded.now bounds.now) e) }
    ensures new { OnOk result (AreNew scope.now (binder_entries bound.old.modules) → AreNew scope.now (binder_entries bound.new.modules)) }
{
    take_name(alloc, &mut bound.names, name)?;
    refuse_named(alloc, scope, bound.modules.as_slice(), name)?;
    module_type_at(alloc, scope, ty)?;
    let minus = all_excluded(alloc, scope, bound.modules.as_slice(), excluded)?;
    refuse_bounds(bounds)?;
    let made = binder(alloc, name, ty, minus)?;
    bound.modules.push(made)?;
    Ok(())
}

/// An abstract module of this name and of the module type that this path names, which excludes these modules.
fn binder(alloc: Global, name: &Node, ty: &Node, minus: Names) -> Result<Bind, AllocError>
    ensures { IfOk result (λ b. b ≡ binder name.now ty.now minus) }
{
    let name = name.text.copy(alloc)?;
    let ty = spelled(alloc, ty)?;
    Ok(Bind {
        name,
        ty,
        minus,
        bounds: Items::new(alloc),
    })
}

fn bind_values(
    alloc: Global,
    scope: &Scope,
    bound: &mut Bound,
    first: &Node,
    more: &[Node],
    ty: &Node,
) -> Result<(), Refused>
    ensures answer { MatchResult result
        (λ _. values_bound scope.now bound.old first.now more.now ty.now ≡ given bound.new)
        (λ e. Fails (values_bound scope.now bound.old first.now more.now ty.now) e) }
    ensures modules { OnOk result (bound.new.modules ≡ bound.old.modules) }
{
    take_name(alloc, &mut bound.names, first)?;
    take_names(alloc, &mut bound.names, more)?;
    let ty = type_of(alloc, scope, ty)?;
    let first = variable(alloc, &first.text, &ty)?;
    bound.values.push(first)?;
    let more = of_type(alloc, more, &ty)?;
    bound.values.append(more)?;
    Ok(())
}

fn bind_memory(alloc: Global, bound: &mut Bound, name: &Node) -> Result<(), Refused>
    ensures answer { MatchResult result
        (λ _. memory_bound bound.old name.now ≡ given bound.new)
        (λ e. Fails (memory_bound bound.old name.now) e) }
    ensures modules { OnOk result (bound.new.modules ≡ bound.old.modules) }
{
    take_name(alloc, &mut bound.names, name)?;
    let name = name.text.copy(alloc)?;
    bound.memories.push(name)?;
    Ok(())
}

/// The empty context, with no claim.
pub fn nothing_around(alloc: Global) -> Result<Sequent, AllocError>
    ensures { IfOk result (λ around. around ≡ nothing_around) }
{
    let truth = make::boolean(alloc, true)?;
    ambient(alloc, truth)
}
