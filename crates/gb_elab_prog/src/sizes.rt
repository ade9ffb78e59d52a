// The size of a formula.

ghost use Rattle.gb_goal.specs.Answers.{Answers};
ghost use Rattle.gb_elab_prog.specs.Sizes.{small};

use gb_core::refusal::Refused;
use gb_names::names::NODES;
use gb_names::refusals::too_many;
use gb_terms::nodes::nodes_of;
use gb_terms::term::Term;

/// A form of no more nodes than a formula may have.
pub fn small(form: Term) -> Result<Term, Refused>
    ensures { Answers (small form) result }
{
    if nodes_of(&form) > NODES {
        return Err(too_many(NODES));
    }
    Ok(form)
}
