//! What statements write and touch that call procedures.

ghost use Rattle.std.specs.Prelude.{◌≡◌, ◌++◌, IfOk};
ghost use Rattle.gb_mods.specs.Footprint as footprint;
ghost use Rattle.gb_mods.specs.Touched.{each_touched};
ghost use Rattle.gb_forms.specs.Effects.{effects_by};

use gb_core::Shared;
use gb_core::var::Vars;
use gb_goal::scope::Scope;
use gb_mods::order::with_variables;
use gb_mods::written::{targets, written_by};
use gb_mods::{footprint, touched};
use gb_terms::module::ProcRef;
use gb_terms::term::Instr;
use sqlite_items::Items;
use std::alloc::{AllocError, Global};

/// What statements write, and what they read or write.
pub struct Effects {
    pub written: Vars,
    pub touched: Vars,
}

impl Drop for Effects {
    fn drop(self) {
        let Effects { written, touched } = self;
        drop(written);
        drop(touched);
    }
}

/// What statements read or write that call these procedures, through all of them.
fn touched_by(
    alloc: Global,
    scope: &Scope,
    list: &[Instr],
    called: &[Shared<ProcRef>],
) -> Result<Vars, AllocError>
    ensures { IfOk result (λ made. made ≡ each_touched list.now ++ footprint.touched scope.now called.now) }
{
    let own = touched::touched(alloc, Items::new(alloc), list)?;
    footprint::touched(alloc, scope, own, called)
}

/// The effects of statements that call these procedures, through all of them. None where it isn't known what one of these stands for.
pub fn effects_by(
    alloc: Global,
    scope: &Scope,
    list: &[Instr],
    called: &[Shared<ProcRef>],
) -> Result<Option<Effects>, AllocError>
    ensures { IfOk result (λ made. made ≡ effects_by scope.now list.now called.now) }
{
    let Some(others) = written_by(alloc, scope, called)? else {
        return Ok(None);
    };
    let own = targets(alloc, Items::new(alloc), list)?;
    let written = with_variables(alloc, own, others.as_slice())?;
    let touched = touched_by(alloc, scope, list, called)?;
    Ok(Some(Effects { written, touched }))
}
