// What commands are read as.

ghost use Rattle.std.specs.Prelude.{◌≡◌, ◌+◌, ◌<◌, ◌^◌, length};
ghost use Rattle.gb_theory.specs.Outcome.{IsReadAs};
ghost use Rattle.gb_theory.specs.Sessions.{Meets};

use gb_core::place::Place;
use gb_core::refusal::Refused;
use gb_lex::lexing::tokens;
use gb_script::tree::Node;
use std::alloc::Global;

/// Reads one command text.
pub fn read_command(alloc: Global, text: &[u8], at: Place) -> Result<Node, Refused>
    requires size { length text.now < 2 ^ 31 }
    requires line { at.line + length text.now < 2 ^ 32 }
    requires column { at.col + length text.now < 2 ^ 32 }
    ensures { Meets (λ c. c) (IsReadAs text.now at) result }
{
    let tokens = tokens(alloc, text, at)?;
    gb_read_script::reading::command(alloc, text, &tokens, at)
}
