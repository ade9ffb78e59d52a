// Names that a command may declare.

ghost use Rattle.std.specs.Prelude.{◌≡◌, None, OnOk};
ghost use Rattle.gb_script.specs.Tree.{text_of};
ghost use Rattle.gb_goal.specs.Scope.{entry_of};
ghost use Rattle.gb_goal.specs.Answers.{Answers};
ghost use Rattle.gb_elab_prog.specs.Fresh.{free};

use gb_core::refusal::Refused;
use gb_goal::scope::Scope;
use gb_names::refusals::double;
use gb_script::tree::Node;
use std::alloc::Global;

/// Refuses a name that the script has declared.
pub fn refuse_declared(alloc: Global, scope: &Scope, name: &Node) -> Result<(), Refused>
    ensures free { OnOk result (entry_of scope.now (text_of name.now) ≡ None) }
    ensures answer { Answers (free scope.now name.now) result }
{
    if scope.is_free(&name.text) {
        Ok(())
    } else {
        Err(double(alloc, &name.text, name.place))
    }
}
