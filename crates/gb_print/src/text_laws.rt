//! What the texts of nodes begin with.

ghost use Rattle.std.specs.Prelude.{ℕ, List};
ghost use Rattle.gb_core.specs.declared.place.Place.{Place};
ghost use Rattle.gb_lex.specs.Lex.{tokens_of};
ghost use Rattle.gb_limits.specs.Lexeme.{text_at};
ghost use Rattle.gb_script.specs.declared.tree.Node.{Node};
ghost use Rattle.gb_script.specs.Each.{Each};
ghost use Rattle.gb_read_script.specs.Reading.{SpellsTree};
ghost use Rattle.gb_print.specs.Blank.{IsUnblank};

use gb_language::laws::texts_are_spelled;

/// The text of no node begins with a blank, in a tree that a text spells.
pub fn texts_begin_with_no_blank()
    ensures { (part : ℕ) (bytes : List ℕ) (at : Place) (x : Node) → SpellsTree part (text_at bytes at (tokens_of bytes)) x → Each IsUnblank x }
{
    texts_are_spelled();
}
