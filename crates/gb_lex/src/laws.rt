// Laws of faults and commands.

ghost use Rattle.std.specs.Prelude.{◌≡◌, ◌<◌, ◌≤◌, ◌⊎◌, ℕ, List, None, length};
ghost use Rattle.gb_core.specs.declared.place.Place.{Place};
ghost use Rattle.gb_core.specs.declared.refusal.Refused.TheVariants.{Script};
ghost use Rattle.gb_core.specs.declared.refusal.Why.TheVariants.{Character};
ghost use Rattle.gb_lex.specs.declared.token.Cut.TheVariants.{Command};
ghost use Rattle.gb_lex.specs.Lex.{fault_of, IsCharacterFault, cut_of};

/// Each byte outside comments of a text starts a token, or the first that doesn't is refused at a place.
pub fn each_fault_has_a_place()
    ensures { (text : List ℕ) (at : Place) → (fault_of text ≡ None) ⊎ ((place : Place) × IsCharacterFault text at (Script Character place)) }
{}

/// A command that is cut off has a byte at least, and ends within its text.
pub fn commands_have_bytes()
    ensures { (text : List ℕ) (from to : ℕ) → cut_of text from ≡ Command to → (from < to) × (to ≤ length text) }
{}
