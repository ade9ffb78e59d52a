//! The variables that forms read.

ghost use Rattle.std.specs.Prelude.{◌≡◌, ◌≤◌, ◌++◌, map, length, take, IfOk};
ghost use Rattle.gb_walk.specs.Clash.{read_by, all_of, outside, variables_read};

use gb_core::copy::copy_var;
use gb_core::var::Var;
use gb_terms::op::{Read, Side};
use gb_terms::same::same_side;
use gb_terms::term::{Form, Head, Term};
use gb_walk::change::{is_left_or_right, is_own};
use sqlite_items::Items;
use std::alloc::{AllocError, Global};

/// Variables behind others, with the one that a head reads through a memory.
fn with_head(
    alloc: Global,
    found: Items<Var>,
    head: &Head,
    side: &Side,
) -> Result<Items<Var>, AllocError>
    ensures { IfOk result (λ made. made ≡ found ++ read_by head.now side.now) }
{
    let mut found = found;
    match head {
        Head::Read(Read::Program { var, side: through }) if same_side(side, through) => {
            found.push(copy_var(alloc, var)?)?;
        }
        _ => {}
    }
    Ok(found)
}

/// How many of `count` arguments of a head, the first ones, see a memory as the head does.
pub fn outside(head: &Head, side: &Side, count: usize) -> usize
    ensures many { result ≡ outside head.now side.now count }
    ensures within { result ≤ count }
{
    match head {
        Head::Hoare(_) | Head::Phoare(..) if is_own(side) => 0,
        Head::Equiv(..) if is_left_or_right(side) => 0,
        Head::Pr(..) if is_own(side) => count.saturating_sub(1),
        _ => count,
    }
}

/// Variables behind others, with those that a term reads through a memory.
#[cycle(reads)]
#[tactic(auto, using(gb_walk::proofs::ClashSteps::reads_out))]
fn in_term(
    alloc: Global,
    found: Items<Var>,
    term: &Term,
    side: &Side,
) -> Result<Items<Var>, AllocError>
    ensures { IfOk result (λ made. made ≡ found ++ variables_read side.now term.now) }
{
    let found = with_head(alloc, found, term.head.get(), side)?;
    let args = term.args.as_slice();
    let count = outside(term.head.get(), side, args.len());
    in_terms(alloc, found, args, count, side)
}

/// The same of the first terms of a list.
#[cycle(reads)]
fn in_terms(
    alloc: Global,
    found: Items<Var>,
    list: &[Term],
    count: usize,
    side: &Side,
) -> Result<Items<Var>, AllocError>
    requires { count ≤ length list.now }
    ensures { IfOk result (λ made. made ≡ found ++ all_of (map (variables_read side.now) (take count list.now))) }
{
    let mut all = found;
    for i in 0..count {
        all = in_term(alloc, all, &list[i], side)?;
    }
    Ok(all)
}

/// The variables that a form reads through a memory.
pub fn variables_read(alloc: Global, form: &Form, side: Side) -> Result<Items<Var>, AllocError>
    ensures { IfOk result (λ made. made ≡ variables_read side form.now) }
{
    in_term(alloc, Items::new(alloc), form, &side)
}
