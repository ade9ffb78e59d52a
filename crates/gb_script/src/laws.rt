// Laws of building.

ghost use Rattle.std.specs.Prelude.{◌≡◌, ℕ, List, [], ◌∷◌, length, true};
ghost use Rattle.std.specs.List.{All};
ghost use Rattle.gb_script.specs.declared.table.Step.{Step};
ghost use Rattle.gb_script.specs.declared.table.Symbol.{Symbol as AnySymbol};
ghost use Rattle.gb_script.specs.declared.table.Symbol.TheVariants.{Part};
ghost use Rattle.gb_script.specs.Grammar.{Grammar, Derives, grammar_of};
ghost use Rattle.gb_script.specs.Check.{Claims, grammar_ok, is_start};
ghost use Rattle.gb_script.specs.Parsing.{Spells, IsKind};
ghost use Rattle.gb_script.specs.declared.action.Rule.{Rule as AnyRule};
ghost use Rattle.gb_script.specs.declared.text.Text.{Text as AnyText};
ghost use Rattle.gb_script.specs.declared.tree.Node.{Node as AnyNode};
ghost use Rattle.gb_script.specs.declared.value.Value.{Value};
ghost use Rattle.gb_script.specs.Build.{built, IsTree};
ghost use Rattle.gb_script.specs.Frame.{Frames, actions_ok, width_of};
ghost use Rattle.gb_script.specs.Parse.{Parses, kinds, steps, values};
ghost use Rattle.gb_script.specs.Sorts.{Language, Sort, ValueSort, one, Is};
ghost use Rattle.gb_script.specs.Acts.{sorts_ok, sorts_of};
ghost use Rattle.gb_script.specs.Sorted.{BuildsSorts};

use crate::action::Rule;
use crate::table::{Row, Symbol};

/// The steps of a derivation build as many values as its symbols have, and leave what the steps behind them build.
pub fn derivations_frame()
    ensures { (t : AnyText) (width : ℕ → ℕ) (g : Grammar AnyRule) → actions_ok width g ≡ true → (ss : List AnySymbol) (at : ℕ) (kinds : List ℕ) (steps : List (Step AnyRule)) →
        Derives g ss at kinds steps → Frames t steps (width_of width ss) }
{}

/// The steps of a text of a part with one value build one value.
pub fn one_value()
    ensures { (t : AnyText) (width : ℕ → ℕ) (g : Grammar AnyRule) → actions_ok width g ≡ true → (n : ℕ) → width n ≡ 1 → (kinds : List ℕ) (steps : List (Step AnyRule)) →
        Spells g n kinds steps → (v : Value) × (built t steps ≡ v ∷ []) }
{}

/// A text spells at most one tree.
pub fn trees_are_unique(
    _stage: u8,
    _rows: &[Row<Rule>],
    _symbols: &[Symbol],
    _places: &[u16],
    _start: u8,
)
    ghost claims: { Claims }
    requires checked { grammar_ok _stage claims _places.now _rows.now _symbols.now ≡ true }
    requires start { is_start claims _start ≡ true }
    ensures { (t : AnyText) (kinds : List ℕ) (x y : AnyNode) → All IsKind kinds → IsTree (grammar_of _stage _rows.now _symbols.now) _start kinds t x → IsTree (grammar_of _stage _rows.now _symbols.now) _start kinds t y → x ≡ y }
{}

/// A parse of a part is a derivation of its tokens, and its steps build its values.
pub fn parses_build()
    ensures derived { (g : Grammar AnyRule) (n : ℕ) (d : Parses g (Part n ∷ [])) → Spells g n (kinds g d) (steps g 0 d) }
    ensures builds { (g : Grammar AnyRule) (t : AnyText) (width : ℕ → ℕ) → actions_ok width g ≡ true → (n : ℕ) (d : Parses g (Part n ∷ [])) → built t (steps g 0 d) ≡ values g t 0 d }
{}

/// The steps of a derivation build values of the sorts of its symbols, and leave what the steps behind them build.
pub fn derivations_build_sorts()
    ensures { (l : Language) (t : AnyText) (sorts : ℕ → List ValueSort) (g : Grammar AnyRule) → sorts_ok l sorts g ≡ true → (ss : List AnySymbol) (at : ℕ) (kinds : List ℕ) (steps : List (Step AnyRule)) →
        Derives g ss at kinds steps → BuildsSorts l t steps (sorts_of sorts ss) }
{}

/// A grammar that passes the test of sorts passes that of counts.
pub fn sorts_count()
    ensures { (l : Language) (sorts : ℕ → List ValueSort) (g : Grammar AnyRule) → sorts_ok l sorts g ≡ true → actions_ok (λ n. length (sorts n)) g ≡ true }
{}

/// Each text of a part with one tree of a sort spells a tree, and each tree that it spells is of the sort.
pub fn texts_spell_sorts()
    ensures some { (l : Language) (sorts : ℕ → List ValueSort) (g : Grammar AnyRule) → sorts_ok l sorts g ≡ true → (n : ℕ) (s : Sort) → sorts n ≡ one s ∷ [] → (kinds : List ℕ) (t : AnyText) (steps : List (Step AnyRule)) →
        Spells g n kinds steps → (x : AnyNode) × IsTree g n kinds t x }
    ensures sorted { (l : Language) (sorts : ℕ → List ValueSort) (g : Grammar AnyRule) → sorts_ok l sorts g ≡ true → (n : ℕ) (s : Sort) → sorts n ≡ one s ∷ [] → (kinds : List ℕ) (t : AnyText) (x : AnyNode) →
        IsTree g n kinds t x → Is l s x }
{}
