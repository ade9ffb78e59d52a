// Laws of what texts spell, and of why they are refused.

ghost use Rattle.std.specs.Prelude.{◌≡◌, ◌⊎◌, ℕ, List};
ghost use Rattle.gb_core.specs.declared.place.Place.{Place};
ghost use Rattle.gb_core.specs.declared.refusal.Why.{Why};
ghost use Rattle.gb_script.specs.declared.text.Text.{Text};
ghost use Rattle.gb_script.specs.declared.tree.Node.{Node};
ghost use Rattle.gb_script.specs.Each.{Each};
ghost use Rattle.gb_language.specs.Language.{IsPart};
ghost use Rattle.gb_limits.specs.Numbers.{NoneOverflow};
ghost use Rattle.gb_read_script.specs.declared.goal_lines.ReadLine.{ReadLine};
ghost use Rattle.gb_read_script.specs.declared.goal_tree.SequentTree.{SequentTree};
ghost use Rattle.gb_read_script.specs.Goal.{goal_text, IsTreeOf, SpellsGoal, IsSortedGoal, IsGoalRefusal, IsGoalAllowed};
ghost use Rattle.gb_read_script.specs.Reading.{SpellsTree, SpellsCommand, SpellsForm, IsRefusal, IsAllowed};
ghost use Rattle.gb_read_script.specs.Words.{IsWord, IsInRange, IsGoalInRange};

use gb_language::laws::{
    each_text_or_fault, steps_are_unique, texts_are_spelled, texts_spell_trees, trees_are_sorted,
    trees_are_unique,
};
use gb_lex::laws::each_fault_has_a_place;
use gb_limits::laws::{first_places_are_unique, kinds_are_kinds, none_or_a_first_place};
use gb_script::action::Rule;
use gb_script::derivation_laws::{first_faults_are_unique, steps_before_are_unique};

/// A text spells one command at most.
pub fn commands_are_unique()
    ensures { (t : Text) (c d : Node) → SpellsCommand t c → SpellsCommand t d → c ≡ d }
{
    trees_are_unique();
    kinds_are_kinds();
}

/// A text spells one form at most.
pub fn forms_are_unique()
    ensures { (t : Text) (f g : Node) → SpellsForm t f → SpellsForm t g → f ≡ g }
{
    trees_are_unique();
    kinds_are_kinds();
}

/// A text of a part is refused for one reason at most, at one place, and not at all where it is read within the limits.
pub fn refusals_are_unique()
    ensures unique { (part : ℕ) (t : Text) (v w : Why) (p q : Place) → IsPart part →
        IsRefusal part t v p → IsRefusal part t w q → (v ≡ w) × (p ≡ q) }
    ensures none { (part : ℕ) (t : Text) (w : Why) (p : Place) → IsPart part → IsAllowed part t → IsRefusal part t w p → ⊥ }
{
    first_faults_are_unique::<Rule>();
    steps_before_are_unique::<Rule>();
    steps_are_unique();
    kinds_are_kinds();
    first_places_are_unique();
}

/// A text of a part spells a tree within the limits, or is refused for a reason, at a place.
pub fn each_text_is_read_or_refused()
    ensures { (part : ℕ) (t : Text) → IsPart part →
        ((x : Node) × SpellsTree part t x × IsAllowed part t) ⊎ ((why : Why) × (place : Place) × IsRefusal part t why place) }
{
    each_text_or_fault();
    texts_spell_trees();
    kinds_are_kinds();
    none_or_a_first_place();
}

/// A text spells one goal at most.
pub fn goals_are_unique()
    ensures { (bytes : List ℕ) (a b : SequentTree) → SpellsGoal bytes a → SpellsGoal bytes b → a ≡ b }
{
    steps_are_unique();
    trees_are_unique();
    kinds_are_kinds();
}

/// The trees of a goal are well-sorted.
pub fn goals_are_sorted()
    ensures { (bytes : List ℕ) (a : SequentTree) → SpellsGoal bytes a → IsSortedGoal a }
{
    trees_are_sorted();
}

/// The text of a goal is refused for one reason at most, at one place, and not at all where it passes no limit.
pub fn goal_refusals_are_unique()
    ensures unique { (bytes : List ℕ) (v w : Why) (p q : Place) →
        IsGoalRefusal bytes v p → IsGoalRefusal bytes w q → (v ≡ w) × (p ≡ q) }
    ensures none { (bytes : List ℕ) (w : Why) (p : Place) → IsGoalAllowed bytes → IsGoalRefusal bytes w p → ⊥ }
{
    steps_are_unique();
    kinds_are_kinds();
    first_faults_are_unique::<Rule>();
    first_places_are_unique();
}

/// The text of a goal spells a goal within the limits, or is refused for a reason, at a place.
pub fn each_goal_is_read_or_refused()
    ensures { (bytes : List ℕ) →
        ((tree : SequentTree) × SpellsGoal bytes tree × IsGoalAllowed bytes) ⊎ ((why : Why) × (place : Place) × IsGoalRefusal bytes why place) }
{
    each_fault_has_a_place();
    each_text_or_fault();
    texts_spell_trees();
    kinds_are_kinds();
    none_or_a_first_place();
}

/// The names and numbers of a tree that a text or a line spells are the name and number tokens of the text; so the numbers of
/// a tree that is read are in range.
pub fn words_are_tokens()
    ensures trees { (part : ℕ) (t : Text) (x : Node) → SpellsTree part t x → Each (IsWord t) x }
    ensures lines { (l : ReadLine) (x : Node) → IsTreeOf l x → Each (IsWord l.text) x }
    ensures range { (part : ℕ) (t : Text) (x : Node) → NoneOverflow t → SpellsTree part t x → Each IsInRange x }
    ensures goals { (bytes : List ℕ) (a : SequentTree) → NoneOverflow (goal_text bytes) → SpellsGoal bytes a → IsGoalInRange a }
{
    texts_are_spelled();
}
