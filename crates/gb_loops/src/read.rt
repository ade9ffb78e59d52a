// Variables that forms read, with their types, and forms for all their values.

ghost use Rattle.std.specs.Prelude.{◌≡◌, ◌≤◌, ◌++◌, length, map, take, IfOk};
ghost use Rattle.std.specs.Option.{option_copied};
ghost use Rattle.gb_prog.specs.AllValues.{all_values, for_all, to_bound_values};
ghost use Rattle.gb_loops.specs.Read.{first_of, located_seen, read_in, reads_itself, type_read};

use gb_call::outcomes::bound;
use gb_call::reads::outside;
use gb_core::Shared;
use gb_core::copy::copy_var;
use gb_core::same::same_var;
use gb_core::ty::Ty;
use gb_core::var::Var;
use gb_terms::make::forall;
use gb_terms::op::{Read, Side};
use gb_terms::same::same_side;
use gb_terms::term::{Form, Head, Term};
use gb_walk::change::{Change, Changes};
use gb_walk::walk::changed;
use sqlite_items::Items;
use std::alloc::{AllocError, Global};

/// A variable of a memory, with its type.
#[derive(Drop)]
pub struct Located {
    pub side: Side,
    pub variable: Var,
    pub ty: Shared<Ty>,
}

/// Whether a head itself reads a variable through a memory.
#[tactic(auto, using(gb_terms::proofs::Equality::var_test))]
fn reads_itself(side: &Side, variable: &Var, head: &Head) -> bool
    ensures { result ≡ reads_itself side.now variable.now head.now }
{
    match head {
        Head::Read(Read::Program { var, side: through }) => {
            same_side(side, through) && same_var(variable, var)
        }
        _ => false,
    }
}

/// The type at which a term reads a variable first, where nothing in it binds the memory.
#[cycle(types)]
#[tactic(auto, using(crate::proofs::ReadSteps::type_out))]
fn type_read<'a>(term: &'a Term, side: &Side, variable: &Var) -> Option<&'a Shared<Ty>>
    ensures { option_copied result ≡ type_read side.now variable.now term.now }
{
    if reads_itself(side, variable, term.head.get()) {
        return Some(&term.ty);
    }
    let args = term.args.as_slice();
    let count = outside(term.head.get(), side, args.len());
    first_type(args, count, side, variable)
}

/// The same of the first terms of a list.
#[cycle(types)]
fn first_type<'a>(
    list: &'a [Term],
    count: usize,
    side: &Side,
    variable: &Var,
) -> Option<&'a Shared<Ty>>
    requires { count ≤ length list.now }
    ensures { option_copied result ≡ first_of (map (type_read side.now variable.now) (take count list.now)) }
{
    for i in 0..count {
        if let Some(ty) = type_read(&list[i], side, variable) {
            return Some(ty);
        }
    }
    None
}

/// Variables behind others, those of a list that a form reads through a memory, each with its type.
pub fn read_in(
    alloc: Global,
    found: Items<Located>,
    side: Side,
    form: &Form,
    list: &[Var],
) -> Result<Items<Located>, AllocError>
    ensures { IfOk result (λ made. located_seen made ≡ located_seen found ++ read_in side form.now list.now) }
{
    let mut all = found;
    for variable in list {
        if let Some(ty) = type_read(form, &side, variable) {
            let ty = ty.share()?;
            let variable = copy_var(alloc, variable)?;
            all.push(Located { side, variable, ty })?;
        }
    }
    Ok(all)
}

/// The values that are bound, in place of the variables.
fn to_bound_values(alloc: Global, list: &[Located]) -> Result<Changes, AllocError>
    ensures { IfOk result (λ made. made ≡ to_bound_values (located_seen list.now)) }
{
    let mut changes = Items::new(alloc);
    for i in 0..list.len() {
        let value = bound(alloc, list.len() - 1 - i, &list[i].ty)?;
        let var = copy_var(alloc, &list[i].variable)?;
        let side = list[i].side;
        changes.push(Change::ToTerm(Read::Program { var, side }, value))?;
    }
    Ok(changes)
}

/// A form for all values of the types of variables, those of the first one outermost.
fn for_all(alloc: Global, list: &[Located], form: Form) -> Result<Form, AllocError>
    ensures { IfOk result (λ made. made ≡ for_all (located_seen list.now) form) }
{
    let mut all = form;
    for k in 0..list.len() {
        let at = list.len() - 1 - k;
        let ty = list[at].ty.share()?;
        all = forall(alloc, ty, all)?;
    }
    Ok(all)
}

/// The form for all values of variables.
pub fn all_values(alloc: Global, list: &[Located], form: &Form) -> Result<Form, AllocError>
    ensures { IfOk result (λ made. made ≡ all_values (located_seen list.now) form.now) }
{
    let changes = to_bound_values(alloc, list)?;
    let form = changed(alloc, form, changes.as_slice())?;
    for_all(alloc, list, form)
}
