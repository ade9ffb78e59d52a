//! Variables in order.

ghost use Rattle.std.specs.Prelude.{◌≡◌, [], ◌∷◌, ◌++◌, IfOk};
ghost use Rattle.gb_core.specs.declared.var.Var.TheVariants.{Glob};
ghost use Rattle.gb_meaning.specs.Footprints.{globals_among};
ghost use Rattle.gb_mods.specs.Order.{joined, placed};

use gb_core::copy::copy_var;
use gb_core::name::Name;
use gb_core::same::same_var;
use gb_core::var::{Var, Vars};
use gb_walk::clash::comes_before;
use sqlite_items::Items;
use std::alloc::{AllocError, Global};

/// A variable behind others.
pub fn with_variable(alloc: Global, found: Vars, variable: &Var) -> Result<Vars, AllocError>
    ensures { IfOk result (λ made. made ≡ found ++ variable.now ∷ []) }
{
    let variable = copy_var(alloc, variable)?;
    let mut all = found;
    all.push(variable)?;
    Ok(all)
}

/// Variables behind others.
pub fn with_variables(alloc: Global, found: Vars, list: &[Var]) -> Result<Vars, AllocError>
    ensures { IfOk result (λ made. made ≡ found ++ list.now) }
{
    let mut all = found;
    for variable in list {
        all = with_variable(alloc, all, variable)?;
    }
    Ok(all)
}

/// The variables that are no locals.
pub fn globals_among(alloc: Global, list: &[Var]) -> Result<Vars, AllocError>
    ensures { IfOk result (λ made. made ≡ globals_among list.now) }
{
    let mut all = Items::new(alloc);
    for variable in list {
        match variable {
            Var::Local { .. } => {}
            _ => all = with_variable(alloc, all, variable)?,
        }
    }
    Ok(all)
}

/// A variable in its place among variables in order.
#[tactic(auto, using(gb_terms::proofs::Equality::var_test))]
fn placed(alloc: Global, variable: &Var, list: &[Var]) -> Result<Vars, AllocError>
    ensures { IfOk result (λ made. made ≡ placed variable.now list.now) }
{
    let mut before = Items::new(alloc);
    for i in 0..list.len() {
        let other = &list[i];
        if comes_before(variable, other) {
            let before = with_variable(alloc, before, variable)?;
            return with_variables(alloc, before, &list[i..]);
        }
        if same_var(variable, other) {
            return with_variables(alloc, before, &list[i..]);
        }
        before = with_variable(alloc, before, other)?;
    }
    with_variable(alloc, before, variable)
}

/// Variables in their places among variables in order.
pub fn joined(alloc: Global, list: &[Var], ordered: Vars) -> Result<Vars, AllocError>
    ensures { IfOk result (λ made. made ≡ joined list.now ordered) }
{
    let mut all = ordered;
    for k in 0..list.len() {
        let at = list.len() - 1 - k;
        all = placed(alloc, &list[at], all.as_slice())?;
    }
    Ok(all)
}

/// All that is the own of the abstract module of this name, as one variable.
pub fn all_of(alloc: Global, module: &Name) -> Result<Vars, AllocError>
    ensures { IfOk result (λ made. made ≡ Glob «module».now ∷ []) }
{
    let module = module.copy(alloc)?;
    Ok(Items::from_vec(vec![in alloc; Var::Glob { module }]?))
}
