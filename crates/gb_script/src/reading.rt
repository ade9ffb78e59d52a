// The tree of a text.

ghost use Rattle.std.specs.Prelude.{◌≡◌, [], ◌∷◌, true, IfOk};
ghost use Rattle.gb_script.specs.Parsing.{Spells};
ghost use Rattle.gb_script.specs.declared.value.Value.TheVariants.{Tree};
ghost use Rattle.gb_script.specs.Build.{built};
ghost use Rattle.gb_script.specs.Reading.{Derivation};
ghost use Rattle.gb_script.specs.Sorts.{one, Is};
ghost use Rattle.gb_script.specs.Acts.{sorts_ok};

use crate::action::Rule;
use crate::build::built;
use crate::table::Step;
use crate::text::Text;
use crate::tree::Node;
use crate::value::Value;
use std::alloc::{AllocError, Global};

/// The tree that steps build which derive a text of a part whose trees are of a sort.
pub fn tree_of(alloc: Global, text: &Text, steps: Vec<Step<Rule>>) -> Result<Node, AllocError>
    ghost given: { Derivation }
    requires acting { sorts_ok given.language given.sorts given.grammar ≡ true }
    requires one { given.sorts given.part ≡ one given.sort ∷ [] }
    requires derived { Spells given.grammar given.part given.kinds steps.items }
    ensures built { IfOk result (λ x. built text.now steps.items ≡ Tree x ∷ []) }
    // It and its parts are of the sorts that the heads say.
    ensures sorted { IfOk result (λ x. Is given.language given.sort x) }
{
    let mut stack = built(alloc, text, steps)?;
    match stack.pop() {
        None => unreachable!(),
        Some(Value::Trees(_)) => unreachable!(),
        Some(Value::Tree(tree)) => Ok(tree),
    }
}
