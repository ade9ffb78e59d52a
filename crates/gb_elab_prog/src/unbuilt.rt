// What isn't built.

ghost use Rattle.gb_goal.specs.Answers.{Answers};
ghost use Rattle.gb_elab_prog.specs.Unbuilt.{absent};

use gb_core::place::Place;
use gb_core::refusal::Refused;
use gb_names::refusals::not_built;
use gb_script::tree::Node;

/// Refuses parts that aren't built, at this place.
pub fn refuse_any(parts: &[Node], place: Place) -> Result<(), Refused>
    ensures { Answers (absent parts.now place) result }
{
    match parts {
        [] => Ok(()),
        _ => Err(not_built(place)),
    }
}
