// The names that patterns bring.

ghost use Rattle.std.specs.Prelude.{◌≡◌, ◌∷◌, [], ◌++◌, map, IfOk};
ghost use Rattle.std.specs.List.{list_any};
ghost use Rattle.std.specs.Prelude.{bytes_eq};
ghost use Rattle.gb_goal.specs.Answers.{Answers};
ghost use Rattle.gb_theory.specs.Patterns.{added, added_by, all_added, all_new};
ghost use Rattle.gb_theory.specs.Tactics.{each_adds, with_added};

use gb_core::copy::copy_names;
use gb_core::name::{Name, Names};
use gb_core::place::Place;
use gb_core::refusal::Refused;
use gb_core::same::same_name;
use gb_elab_mod::conclusions::is_taken;
use gb_goal::scope::Scope;
use gb_goal::sequent::Sequent;
use gb_names::refusals::double;
use gb_script::head::Head;
use gb_script::tree::Node;
use sqlite_items::Items;
use std::alloc::{AllocError, Global};

/// Refuses the first name of patterns that isn't new at a goal: one that its context has, or that an abstract module has which its
/// lemma binds, or a name that stands twice.
pub fn check_new(
    alloc: Global,
    scope: &Scope,
    goal: &Sequent,
    patterns: &[Node],
) -> Result<(), Refused>
    ensures { Answers (all_new scope.now goal.now patterns.now) result }
{
    all_added(alloc, scope, goal, patterns, &[])?;
    Ok(())
}

/// The names that a pattern adds to those in use.
#[cycle(names)]
fn added(
    alloc: Global,
    scope: &Scope,
    goal: &Sequent,
    pattern: &Node,
    used: &[Name],
) -> Result<Names, Refused>
    ensures { Answers (added scope.now goal.now pattern.now used.now) result }
{
    added_by(
        alloc,
        scope,
        goal,
        pattern.head,
        &pattern.text,
        pattern.parts.as_slice(),
        pattern.place,
        used,
    )
}

/// .. by its head, its text, its parts and its place.
#[cycle(names)]
fn added_by(
    alloc: Global,
    scope: &Scope,
    goal: &Sequent,
    head: Head,
    text: &Name,
    parts: &[Node],
    place: Place,
    used: &[Name],
) -> Result<Names, Refused>
    ensures { Answers (added_by scope.now goal.now head text.now (with_added scope.now goal.now parts.now) place used.now) result }
{
    match head {
        Head::Name => new_name(alloc, scope, goal, text, place, used),
        Head::EitherPattern => match parts {
            [left, right] => {
                let mut names = added(alloc, scope, goal, left, used)?;
                let others = added(alloc, scope, goal, right, used)?;
                names.append(others)?;
                Ok(names)
            }
            _ => all_added(alloc, scope, goal, parts, used),
        },
        _ => all_added(alloc, scope, goal, parts, used),
    }
}

/// The names of patterns one after another.
#[cycle(names)]
fn all_added(
    alloc: Global,
    scope: &Scope,
    goal: &Sequent,
    patterns: &[Node],
    used: &[Name],
) -> Result<Names, Refused>
    ensures { Answers (all_added (each_adds scope.now goal.now patterns.now) used.now []) result }
{
    let mut names = Items::new(alloc);
    for pattern in patterns {
        let known = joined(alloc, used, &names)?;
        let more = added(alloc, scope, goal, pattern, known.as_slice())?;
        names.append(more)?;
    }
    Ok(names)
}

/// A name alone that is new.
fn new_name(
    alloc: Global,
    scope: &Scope,
    goal: &Sequent,
    name: &Name,
    place: Place,
    used: &[Name],
) -> Result<Names, Refused>
    ensures { Answers (added_by scope.now goal.now Head.Name name.now [] place used.now) result }
{
    if is_taken(goal, name) || scope.abstract_module(name).is_some() || is_among(used, name) {
        return Err(double(alloc, name, place));
    }
    let mut one = Items::new(alloc);
    one.push(name.copy(alloc)?)?;
    Ok(one)
}

fn is_among(names: &[Name], name: &Name) -> bool
    ensures { result ≡ list_any (λ x. bytes_eq name.now x) names.now }
{
    names.iter().any(|x| same_name(name, x))
}

/// Names, and more names behind them.
fn joined(alloc: Global, names: &[Name], more: &Names) -> Result<Names, AllocError>
    ensures { IfOk result (λ all. all ≡ names.now ++ more.now) }
{
    let mut all = copy_names(alloc, names)?;
    all.append(copy_names(alloc, more.as_slice())?)?;
    Ok(all)
}
