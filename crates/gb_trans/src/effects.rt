//! What statements write and touch, through every procedure that they call.

ghost use Rattle.std.specs.Prelude.{◌≡◌, IfOk};
ghost use Rattle.std.specs.Option.{option_copied};
ghost use Rattle.gb_walk.specs.Clash.{least_from};
ghost use Rattle.std.specs.List.{filter};
ghost use Rattle.gb_trans.specs.Effects.{crossing, effects_of, meets};

use gb_core::var::Var;
use gb_forms::effects::{Effects, effects_by};
use gb_goal::scope::Scope;
use gb_mods::called::{all_reached, calls};
use gb_terms::term::Instr;
use gb_walk::clash::{Excluded, clashes, lesser};
use sqlite_items::Items;
use std::alloc::{AllocError, Global};

/// What statements write, and what they read or write, through every procedure that they call. None where it isn't known what one of
/// these stands for.
#[tactic(auto, unfolding(crate::specs::Effects::effects_of))]
pub fn effects_of(
    alloc: Global,
    scope: &Scope,
    list: &[Instr],
) -> Result<Option<Effects>, AllocError>
    ensures { IfOk result (λ made. made ≡ effects_of scope.now list.now) }
{
    let called = calls(alloc, Items::new(alloc), list)?;
    let Some(all) = all_reached(alloc, scope, called)? else {
        return Ok(None);
    };
    effects_by(alloc, scope, list, all.as_slice())
}

/// Whether one of these variables clashes with another one.
fn meets(exclusions: &[Excluded], list: &[Var], x: &Var) -> bool
    ensures { result ≡ meets exclusions.now list.now x.now }
{
    for y in list {
        if clashes(exclusions, x, y) {
            return true;
        }
    }
    false
}

/// The least of what was found and of the variables of the first list with which one of the second list clashes.
pub fn least_met<'a>(
    found: Option<&'a Var>,
    exclusions: &[Excluded],
    list: &'a [Var],
    others: &[Var],
) -> Option<&'a Var>
    ensures { option_copied result ≡ least_from (option_copied found.entry) (filter (meets exclusions.now others.now) list.now) }
{
    let mut least = found;
    for x in list {
        if meets(exclusions, others, x) {
            least = lesser(least, x);
        }
    }
    least
}

/// The least variable that one of two parts writes and with which another one clashes that the other part reads or writes.
pub fn crossing<'a>(
    exclusions: &[Excluded],
    first: &'a Effects,
    second: &'a Effects,
) -> Option<&'a Var>
    ensures { option_copied result ≡ crossing exclusions.now first.now second.now }
{
    let found = least_met(
        None,
        exclusions,
        first.written.as_slice(),
        second.touched.as_slice(),
    );
    least_met(
        found,
        exclusions,
        second.written.as_slice(),
        first.touched.as_slice(),
    )
}
