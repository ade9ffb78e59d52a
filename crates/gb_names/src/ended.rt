// Modules that forms may name.

ghost use Rattle.std.specs.Prelude.{◌≡◌};
ghost use Rattle.gb_goal.specs.Answers.{Answers};
ghost use Rattle.gb_names.specs.Environment.{environment};
ghost use Rattle.gb_names.specs.Names.{may_name, unless_unproved};

use crate::setting::{Language, Setting};
use gb_core::name::Name;
use gb_core::place::Place;
use gb_core::refusal::{Refused, Why};
use gb_ended::ended::first_unproved;
use gb_goal::scope::ProcName;
use std::alloc::Global;

/// Refuses a form that names a module of which a loop isn't proved to end, or one of a module that it names. Programs name any.
#[tactic(auto, unfolding(crate::specs::Names::may_name))]
pub fn check_ended(
    alloc: Global,
    at: &Setting<'_>,
    module: &Name,
    place: Place,
) -> Result<(), Refused>
    ensures { Answers (may_name (environment at.now) «module».now place) result }
{
    match at.language {
        Language::Formula | Language::Function => {
            let unproved = first_unproved(alloc, at.scope, module)?;
            unless_unproved(alloc, unproved, place)
        }
        Language::Program | Language::Sampled | Language::Operator => Ok(()),
    }
}

/// The refusal of a procedure whose loops aren't proved.
pub fn unless_unproved(alloc: Global, found: Option<ProcName>, place: Place) -> Result<(), Refused>
    ensures { Answers (unless_unproved found place) result }
{
    match found {
        None => Ok(()),
        Some(procedure) => {
            let why = Why::UnprovedLoop(procedure.path(alloc)?);
            Err(Refused::Script { why, place })
        }
    }
}
