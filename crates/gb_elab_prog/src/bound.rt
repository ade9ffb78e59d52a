// Modules that are bound.

ghost use Rattle.std.specs.Prelude.{◌≡◌, Some};
ghost use Rattle.std.specs.Option.{option_copied};
ghost use Rattle.gb_goal.specs.Answers.{Answers};
ghost use Rattle.gb_goal.specs.Scope.{entry_of};
ghost use Rattle.gb_elab_prog.specs.Bound.{apart, is_module, is_own, parameter_name};

use gb_core::name::Name;
use gb_core::refusal::Refused;
use gb_goal::scope::{Entry, Scope};
use gb_names::globals::is_parameter;
use gb_names::refusals::double;
use gb_script::tree::Node;
use gb_terms::decl::Param;
use std::alloc::Global;

/// Whether a thing is a module, or an abstract one.
pub fn is_module(entry: &Entry) -> bool
    ensures { result ≡ is_module (Some entry.now) }
{
    matches!(entry, Entry::Module(_) | Entry::AbstractModule(_))
}

/// Whether a module has this name, or an abstract one.
fn names_module(scope: &Scope, name: &Name) -> bool
    ensures { result ≡ is_module (entry_of scope.now name.now) }
{
    match scope.entry(name) {
        Some(entry) => is_module(entry),
        None => false,
    }
}

/// Refuses the name of a bound module that another one has: programs are found by these names.
pub fn refuse_module(alloc: Global, scope: &Scope, name: &Node) -> Result<(), Refused>
    ensures { Answers (apart scope.now name.now) result }
{
    if names_module(scope, &name.text) {
        Err(double(alloc, &name.text, name.place))
    } else {
        Ok(())
    }
}

fn is_own(own: Option<&Name>, name: &Name) -> bool
    ensures { result ≡ is_own (option_copied own.entry) name.now }
{
    match own {
        None => false,
        Some(own) => *name == *own,
    }
}

/// Refuses the name of a parameter that its module has, if a module has it, or one before it, or another module.
pub fn refuse_parameter(
    alloc: Global,
    scope: &Scope,
    own: Option<&Name>,
    params: &[Param],
    name: &Node,
) -> Result<(), Refused>
    ensures { Answers (parameter_name scope.now (option_copied own.entry) params.now name.now) result }
{
    if is_own(own, &name.text) || is_parameter(params, &name.text) {
        Err(double(alloc, &name.text, name.place))
    } else {
        refuse_module(alloc, scope, name)
    }
}
