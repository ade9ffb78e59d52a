//! Turns of loops as statements.

ghost use Rattle.std.specs.Prelude.{◌≡◌, IfOk};
ghost use Rattle.gb_forms.specs.Turns.{turn};

use gb_core::SharedItems;
use gb_terms::term::{Cmd, Instr, Term};
use sqlite_items::Items;
use std::alloc::{AllocError, Global};

/// A turn of a loop, where its guard is true.
pub fn turn(alloc: Global, guard: &Term, body: &Cmd) -> Result<Instr, AllocError>
    ensures { IfOk result (λ made. made ≡ turn guard.now body.now) }
{
    let nothing = SharedItems::new(alloc, Items::new(alloc))?;
    let guard = guard.share()?;
    let body = body.share()?;
    Ok(Instr::If(guard, body, Cmd { list: nothing }))
}
