// What statements and forms read.

ghost use Rattle.std.specs.Prelude.{◌≡◌, ◌≤◌, ◌++◌, map, length, take, IfOk};
ghost use Rattle.gb_walk.specs.Clash.{all_of, outside, read_by, variables_read};
ghost use Rattle.gb_trans.specs.Kill.{reads_by, reads_of};

use gb_core::Shared;
use gb_core::copy::copy_var;
use gb_core::var::Vars;
use gb_goal::scope::Scope;
use gb_mods::called::{all_reached, calls};
use gb_mods::order::with_variables;
use gb_mods::read::{each_read, read_by};
use gb_terms::module::ProcRef;
use gb_terms::op::{Read, Side};
use gb_terms::same::same_side;
use gb_terms::term::{Head, Instr, Term};
use gb_walk::change::{is_left_or_right, is_own};
use sqlite_items::Items;
use std::alloc::{AllocError, Global};

/// What statements read that call these procedures, through all of them.
fn reads_by(
    alloc: Global,
    scope: &Scope,
    list: &[Instr],
    called: &[Shared<ProcRef>],
) -> Result<Option<Vars>, AllocError>
    ensures { IfOk result (λ made. made ≡ reads_by scope.now list.now called.now) }
{
    let Some(others) = read_by(alloc, scope, called)? else {
        return Ok(None);
    };
    let own = each_read(alloc, Items::new(alloc), list)?;
    let found = with_variables(alloc, own, others.as_slice())?;
    Ok(Some(found))
}

/// The variables that statements read, through every procedure that they call. None where it isn't known what one of these stands for.
#[tactic(auto, unfolding(crate::specs::Kill::reads_of))]
pub fn reads_of(alloc: Global, scope: &Scope, list: &[Instr]) -> Result<Option<Vars>, AllocError>
    ensures { IfOk result (λ made. made ≡ reads_of scope.now list.now) }
{
    let called = calls(alloc, Items::new(alloc), list)?;
    let Some(all) = all_reached(alloc, scope, called)? else {
        return Ok(None);
    };
    reads_by(alloc, scope, list, all.as_slice())
}

/// Variables behind others, with the one that a head reads itself through a memory.
fn with_head(alloc: Global, found: Vars, head: &Head, side: &Side) -> Result<Vars, AllocError>
    ensures { IfOk result (λ made. made ≡ found ++ read_by head.now side.now) }
{
    let mut all = found;
    match head {
        Head::Read(Read::Program { var, side: through }) if same_side(side, through) => {
            all.push(copy_var(alloc, var)?)?;
        }
        _ => {}
    }
    Ok(all)
}

/// How many of `count` arguments of a head, the first ones, see a memory as the head does.
fn outside(head: &Head, side: &Side, count: usize) -> usize
    ensures many { result ≡ outside head.now side.now count }
    ensures within { result ≤ count }
{
    match head {
        Head::Hoare(_) | Head::Phoare(..) if is_own(side) => 0,
        Head::Equiv(..) if is_left_or_right(side) => 0,
        Head::Pr(..) if is_own(side) => count.saturating_sub(1),
        _ => count,
    }
}

/// Variables behind others, with those that a term reads through a memory.
#[cycle(variables)]
pub fn variables_read(
    alloc: Global,
    found: Vars,
    term: &Term,
    side: &Side,
) -> Result<Vars, AllocError>
    ensures { IfOk result (λ made. made ≡ found ++ variables_read side.now term.now) }
{
    let found = with_head(alloc, found, term.head.get(), side)?;
    let args = term.args.as_slice();
    let count = outside(term.head.get(), side, args.len());
    each_variables_read(alloc, found, args, count, side)
}

/// The same of the first terms of a list.
#[cycle(variables)]
fn each_variables_read(
    alloc: Global,
    found: Vars,
    list: &[Term],
    count: usize,
    side: &Side,
) -> Result<Vars, AllocError>
    requires { count ≤ length list.now }
    ensures { IfOk result (λ made. made ≡ found ++ all_of (map (variables_read side.now) (take count list.now))) }
{
    let mut all = found;
    for i in 0..count {
        all = variables_read(alloc, all, &list[i], side)?;
    }
    Ok(all)
}
