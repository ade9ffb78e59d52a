// Forms that steps say of programs.

ghost use Rattle.std.specs.Prelude.{[], Some};
ghost use Rattle.gb_goal.specs.Answers.{Answers};
ghost use Rattle.gb_names.specs.Environment.{relational, unary};
ghost use Rattle.gb_elab.specs.Forms.{elaborated};

use gb_core::refusal::Refused;
use gb_core::ty::Ty;
use gb_elab::form::typed;
use gb_goal::scope::Scope;
use gb_goal::sequent::Sequent;
use gb_names::setting::Setting;
use gb_script::tree::Node;
use gb_terms::decl::TypedName;
use gb_terms::term::Form;
use std::alloc::Global;

/// A form on one program with these variables.
pub fn form_on_one(
    alloc: Global,
    scope: &Scope,
    goal: &Sequent,
    variables: &[TypedName],
    tree: &Node,
) -> Result<Form, Refused>
    ensures { Answers (elaborated tree.now (unary scope.now goal.now variables.now) [] (Some Ty.Bool)) result }
{
    let at = Setting::unary(scope, goal, variables);
    typed(alloc, &at, &[], tree, Some(&Ty::Bool))
}

/// A form on two programs with these variables.
pub fn form_on_two(
    alloc: Global,
    scope: &Scope,
    goal: &Sequent,
    left: &[TypedName],
    right: &[TypedName],
    tree: &Node,
) -> Result<Form, Refused>
    ensures { Answers (elaborated tree.now (relational scope.now goal.now left.now right.now) [] (Some Ty.Bool)) result }
{
    let at = Setting::relational(scope, goal, left, right);
    typed(alloc, &at, &[], tree, Some(&Ty::Bool))
}
