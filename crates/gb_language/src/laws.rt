// The table passes its tests, and so each text spells one tree, which is well-sorted and has the texts of its tokens.

ghost use Rattle.std.specs.Prelude.{◌≡◌, ℕ, List, true};
ghost use Rattle.std.specs.List.{All};
ghost use Rattle.gb_script.specs.declared.table.Step.{Step};
ghost use Rattle.gb_script.specs.Check.{grammar_ok};
ghost use Rattle.gb_script.specs.Parsing.{IsKind, Spells, IsTextOrFault};
ghost use Rattle.gb_script.specs.declared.action.Rule.{Rule};
ghost use Rattle.gb_language.specs.Claims.{claims};
ghost use Rattle.gb_language.specs.Language.{language, goal_language, IsPart, IsLine, IsTextTree, IsLineTree, IsSorted, IsTreeSpelled};
ghost use Rattle.gb_script.specs.declared.text.Text.{Text};
ghost use Rattle.gb_script.specs.declared.tree.Node.{Node};

use crate::bodies::SYMBOLS;
use crate::rows::{GOALS, PLACES, ROWS, SCRIPTS};

/// At each stage one token decides each choice.
pub fn one_token_decides()
    ensures scripts { grammar_ok SCRIPTS (claims SCRIPTS) PLACES ROWS SYMBOLS ≡ true }
    ensures goals { grammar_ok GOALS (claims GOALS) PLACES ROWS SYMBOLS ≡ true }
{}

/// All kinds of token are a text of a part of the language, or have a first fault, with the steps before it; and so it is with
/// lines of goals.
pub fn each_text_or_fault()
    ensures texts { (part : ℕ) (kinds : List ℕ) → IsPart part → All IsKind kinds → IsTextOrFault language part kinds }
    ensures lines { (part : ℕ) (kinds : List ℕ) → IsLine part → All IsKind kinds → IsTextOrFault goal_language part kinds }
{}

/// A text of the language has at most one derivation, and so has a line of a goal.
pub fn steps_are_unique()
    ensures texts { (part : ℕ) (kinds : List ℕ) (a b : List (Step Rule)) → IsPart part → All IsKind kinds →
        Spells language part kinds a → Spells language part kinds b → a ≡ b }
    ensures lines { (part : ℕ) (kinds : List ℕ) (a b : List (Step Rule)) → IsLine part → All IsKind kinds →
        Spells goal_language part kinds a → Spells goal_language part kinds b → a ≡ b }
{}

/// A text of the language spells at most one tree, and so does a line of a goal.
pub fn trees_are_unique()
    ensures texts { (part : ℕ) (kinds : List ℕ) (t : Text) (x y : Node) → IsPart part → All IsKind kinds →
        IsTextTree part kinds t x → IsTextTree part kinds t y → x ≡ y }
    ensures lines { (part : ℕ) (kinds : List ℕ) (t : Text) (x y : Node) → IsLine part → All IsKind kinds →
        IsLineTree part kinds t x → IsLineTree part kinds t y → x ≡ y }
{}

/// What is derived as a text of the language spells a tree, and so does a line of a goal.
pub fn texts_spell_trees()
    ensures texts { (part : ℕ) (kinds : List ℕ) (t : Text) (steps : List (Step Rule)) → IsPart part → Spells language part kinds steps →
        (x : Node) × IsTextTree part kinds t x }
    ensures lines { (part : ℕ) (kinds : List ℕ) (t : Text) (steps : List (Step Rule)) → IsLine part → Spells goal_language part kinds steps →
        (x : Node) × IsLineTree part kinds t x }
{}

/// Trees have parts of the sorts that their heads say.
pub fn trees_are_sorted()
    ensures texts { (part : ℕ) (kinds : List ℕ) (t : Text) (x : Node) → IsPart part → IsTextTree part kinds t x → IsSorted part x }
    ensures lines { (part : ℕ) (kinds : List ℕ) (t : Text) (x : Node) → IsLine part → IsLineTree part kinds t x → IsSorted part x }
{}

/// The text of each node of a tree is that of a token of a kind of its head; names and numbers stand at the token's place.
pub fn texts_are_spelled()
    ensures texts { (part : ℕ) (kinds : List ℕ) (t : Text) (x : Node) → IsTextTree part kinds t x → IsTreeSpelled kinds t x }
    ensures lines { (part : ℕ) (kinds : List ℕ) (t : Text) (x : Node) → IsLineTree part kinds t x → IsTreeSpelled kinds t x }
{}
