// Variables that clash with another one where a form reads them.
#![tactic(auto, using(crate::proofs::ClashSteps::reads_out, crate::proofs::ClashSteps::found_before, gb_terms::proofs::Equality::var_test))]

ghost use Rattle.std.specs.Prelude.{◌≡◌, ◌≤◌, bytes_eq, map, length, take};
ghost use Rattle.std.specs.List.{filter, list_any};
ghost use Rattle.gb_terms.specs.Equal.{var_eq};
ghost use Rattle.std.specs.Option.{option_copied};
ghost use Rattle.gb_walk.specs.Clash.{read_by, all_of, outside, variables_read, clashes, excludes, excludes_by, clashes_beside, comes_before, lesser, least_from, first_clash};

use crate::change::{is_left_or_right, is_own};
use gb_core::name::Name;
use gb_core::same::{same_name, same_var};
use gb_core::var::{Var, Vars};
use gb_terms::op::{Read, Side};
use gb_terms::same::same_side;
use gb_terms::term::{Form, Head, Term};
use sqlite_items::Items;

/// The variables that the restriction of an abstract module excludes.
pub struct Excluded {
    pub module: Name,
    pub variables: Vars,
}

impl Drop for Excluded {
    fn drop(self) {
        let Excluded { module, variables } = self;
        drop(module);
        drop(variables);
    }
}

pub type Exclusions = Items<Excluded>;

/// Whether two names are the same.
#[tactic(auto, using(crate::proofs::ClashSteps::name_test))]
fn is_name(a: &Name, b: &Name) -> bool
    ensures { result ≡ bytes_eq a.now b.now }
{
    same_name(a, b)
}

/// Whether two variables are the same.
#[tactic(auto, using(gb_terms::proofs::Equality::var_test))]
fn is_variable(x: &Var, y: &Var) -> bool
    ensures { result ≡ var_eq x.now y.now }
{
    same_var(x, y)
}

/// Whether a variable is among these.
#[tactic(auto)]
fn is_among(list: &[Var], var: &Var) -> bool
    ensures { result ≡ list_any (var_eq var.now) list.now }
{
    for x in list {
        if is_variable(var, x) {
            return true;
        }
    }
    false
}

/// Whether this restriction is that of the module of this name, and excludes a variable.
#[tactic(auto)]
fn excludes_by(excluded: &Excluded, module: &Name, var: &Var) -> bool
    ensures { result ≡ excludes_by «module».now var.now excluded.now }
{
    is_name(module, &excluded.module) && is_among(excluded.variables.as_slice(), var)
}

/// Whether the restriction of the module of this name excludes a variable.
#[tactic(auto)]
fn excludes(exclusions: &[Excluded], module: &Name, var: &Var) -> bool
    ensures { result ≡ excludes exclusions.now «module».now var.now }
{
    for excluded in exclusions {
        if excludes_by(excluded, module, var) {
            return true;
        }
    }
    false
}

/// Whether two variables clash: they are the same; one is all globals of an abstract module and the other a global that the module's
/// restriction doesn't exclude; or they are all globals of two abstract modules and neither excludes the other.
pub fn clashes(exclusions: &[Excluded], x: &Var, y: &Var) -> bool
    ensures { result ≡ clashes exclusions.now x.now y.now }
{
    match (x, y) {
        (Var::Glob { .. }, Var::Local { .. }) | (Var::Local { .. }, Var::Glob { .. }) => false,
        (Var::Glob { module: a }, Var::Glob { module: b }) => {
            is_name(a, b) || !(excludes(exclusions, a, y) || excludes(exclusions, b, x))
        }
        (Var::Glob { module }, _) => !excludes(exclusions, module, y),
        (_, Var::Glob { module }) => !excludes(exclusions, module, x),
        _ => same_var(x, y),
    }
}

/// Whether `y` is another variable that clashes with `x`.
fn clashes_beside(exclusions: &[Excluded], x: &Var, y: &Var) -> bool
    ensures { result ≡ clashes_beside exclusions.now x.now y.now }
{
    !same_var(x, y) && clashes(exclusions, x, y)
}

/// The order of variables.
pub fn comes_before(x: &Var, y: &Var) -> bool
    ensures { result ≡ comes_before x.now y.now }
{
    x < y
}

/// The lesser of a variable and what was found before.
pub fn lesser<'a>(found: Option<&'a Var>, var: &'a Var) -> Option<&'a Var>
    ensures { option_copied result ≡ lesser (option_copied found.entry) var.now }
{
    match found {
        Some(least) if !comes_before(var, least) => Some(least),
        _ => Some(var),
    }
}

/// The lesser of what was found before and the variable that a head reads, if it clashes with `x`.
fn with_head<'a>(
    found: Option<&'a Var>,
    head: &'a Head,
    exclusions: &[Excluded],
    side: &Side,
    x: &Var,
) -> Option<&'a Var>
    ensures { option_copied result ≡ least_from (option_copied found.entry) (filter (clashes_beside exclusions.now x.now) (read_by head.now side.now)) }
{
    match head {
        Head::Read(Read::Program { var, side: through })
            if same_side(side, through) && clashes_beside(exclusions, x, var) => lesser(found, var),
        _ => found,
    }
}

/// How many of `count` arguments of a head, the first ones, see a memory as the head does.
fn outside(head: &Head, side: &Side, count: usize) -> usize
    ensures many { result ≡ outside head.now side.now count }
    ensures within { result ≤ count }
{
    match head {
        Head::Hoare(_) | Head::Phoare(..) if is_own(side) => 0,
        Head::Equiv(..) if is_left_or_right(side) => 0,
        Head::Pr(..) if is_own(side) => count.saturating_sub(1),
        _ => count,
    }
}

/// The least of what was found before and the variables of a term that clash with `x`.
#[cycle(clash)]
fn in_term<'a>(
    found: Option<&'a Var>,
    term: &'a Term,
    exclusions: &[Excluded],
    side: &Side,
    x: &Var,
) -> Option<&'a Var>
    ensures { option_copied result ≡
        least_from (option_copied found.entry) (filter (clashes_beside exclusions.now x.now) (variables_read side.now term.now)) }
{
    let found = with_head(found, term.head.get(), exclusions, side, x);
    let args = term.args.as_slice();
    let count = outside(term.head.get(), side, args.len());
    in_terms(found, args, count, exclusions, side, x)
}

/// The same of the first terms of a list.
#[cycle(clash)]
fn in_terms<'a>(
    found: Option<&'a Var>,
    list: &'a [Term],
    count: usize,
    exclusions: &[Excluded],
    side: &Side,
    x: &Var,
) -> Option<&'a Var>
    requires { count ≤ length list.now }
    ensures { option_copied result ≡
        least_from (option_copied found.entry) (filter (clashes_beside exclusions.now x.now) (all_of (map (variables_read side.now) (take count list.now)))) }
{
    let mut least = found;
    for i in 0..count {
        least = in_term(least, &list[i], exclusions, side, x);
    }
    least
}

/// The least variable that a form reads through a memory and that clashes with `x`, but `x` itself.
pub fn first_clash<'a>(
    exclusions: &[Excluded],
    side: &Side,
    x: &Var,
    form: &'a Form,
) -> Option<&'a Var>
    ensures { option_copied result ≡ first_clash exclusions.now side.now x.now form.now }
{
    in_term(None, form, exclusions, side, x)
}
