// What a statement writes: a variable, or several at once.

ghost use Rattle.std.specs.Prelude.{◌≡◌, [], IfOk};
ghost use Rattle.std.specs.List.{list_any};
ghost use Rattle.gb_terms.specs.Equal.{var_eq};
ghost use Rattle.gb_goal.specs.Answers.{Answers, Gives};
ghost use Rattle.gb_names.specs.Environment.{environment};
ghost use Rattle.gb_elab_stmt.specs.Targets.{next_target, once, pairs, roomy, targets, type_of_all, variables_of};

use gb_core::copy::{copy_ty, copy_var};
use gb_core::refusal::Refused;
use gb_core::same::same_var;
use gb_core::ty::Ty;
use gb_core::var::Var;
use gb_core::{Shared, SharedItems};
use gb_names::globals::Target;
use gb_names::names::{spelled, target};
use gb_names::refusals::{argument, double};
use gb_names::setting::Setting;
use gb_script::tree::Node;
use sqlite_items::Items;
use std::alloc::{AllocError, Global};

/// The most parts of a tuple.
const PARTS: usize = 8;

#[tactic(auto, using(gb_terms::proofs::Equality::var_test))]
fn is_written(targets: &[Target], var: &Var) -> bool
    ensures { result ≡ list_any (λ v. var_eq v.0 var.now) (pairs targets.now) }
{
    match targets {
        [] => false,
        [first, others @ ..] => same_var(&first.var, var) || is_written(others, var),
    }
}

/// Refuses a ninth variable.
fn refuse_ninth(targets: &[Target], tree: &Node) -> Result<(), Refused>
    ensures { Answers (roomy (pairs targets.now) tree.now) result }
{
    if targets.len() < PARTS {
        Ok(())
    } else {
        Err(argument(tree.place))
    }
}

/// Refuses a variable that one of these is.
fn refuse_second(alloc: Global, targets: &[Target], var: &Var, tree: &Node) -> Result<(), Refused>
    ensures { Answers (once (pairs targets.now) var.now tree.now) result }
{
    if is_written(targets, var) {
        let name = spelled(alloc, tree)?;
        Err(double(alloc, &name, tree.place))
    } else {
        Ok(())
    }
}

/// The variable that a path names, which none of these is.
fn next(alloc: Global, at: &Setting<'_>, before: &[Target], tree: &Node) -> Result<Target, Refused>
    ensures { Gives (λ v. (v.var, v.ty)) (next_target (environment at.now) (pairs before.now) tree.now) result }
{
    refuse_ninth(before, tree)?;
    let name = spelled(alloc, tree)?;
    let found = target(alloc, at, &name, tree.place)?;
    refuse_second(alloc, before, &found.var, tree)?;
    Ok(found)
}

/// The variables that paths name, none of them twice.
///
/// # Errors
///
/// `Argument` at a ninth path, `UnknownName` and `Argument` of one that is no variable of the procedure, and `DoubleName` at one
/// that stands before it.
#[tactic(auto, unfolding(crate::specs::Targets::targets))]
pub fn targets(alloc: Global, at: &Setting<'_>, paths: &[Node]) -> Result<Items<Target>, Refused>
    ensures { Gives pairs (targets (environment at.now) [] paths.now) result }
{
    let mut all = Items::new(alloc);
    for tree in paths {
        let found = next(alloc, at, all.as_slice(), tree)?;
        all.push(found)?;
    }
    Ok(all)
}

/// The type of what several variables take together.
pub fn type_of_all(alloc: Global, targets: &[Target]) -> Result<Shared<Ty>, AllocError>
    ensures { IfOk result (λ made. made ≡ type_of_all (pairs targets.now)) }
{
    match targets {
        [alone] => alone.ty.share(),
        _ => {
            let mut types = Items::new(alloc);
            for t in targets {
                let ty = copy_ty(alloc, t.ty.get())?;
                types.push(ty)?;
            }
            let types = SharedItems::new(alloc, types)?;
            Shared::new(alloc, Ty::Tuple(types))
        }
    }
}

/// The variables themselves.
pub fn variables_of(alloc: Global, targets: &[Target]) -> Result<SharedItems<Var>, AllocError>
    ensures { IfOk result (λ made. made ≡ variables_of (pairs targets.now)) }
{
    let mut vars = Items::new(alloc);
    for t in targets {
        let var = copy_var(alloc, &t.var)?;
        vars.push(var)?;
    }
    SharedItems::new(alloc, vars)
}
