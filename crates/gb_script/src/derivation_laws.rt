// Laws of grammars that pass the test.

ghost use Rattle.std.specs.Prelude.{◌≡◌, ℕ, List, true};
ghost use Rattle.std.specs.List.{All};
ghost use Rattle.gb_script.specs.declared.table.Step.{Step};
ghost use Rattle.gb_script.specs.Grammar.{Grammar, grammar_of};
ghost use Rattle.gb_script.specs.Check.{Claims, grammar_ok, is_start};
ghost use Rattle.gb_script.specs.Parsing.{Spells, IsKind, FirstFault, StepsBefore, IsTextOrFault};

use crate::table::{Row, Symbol};

/// A text has at most one derivation.
pub fn derivations_are_unique<R: Copy>(
    _stage: u8,
    _rows: &[Row<R>],
    _symbols: &[Symbol],
    _places: &[u16],
    _start: u8,
)
    ghost claims: { Claims }
    requires checked { grammar_ok _stage claims _places.now _rows.now _symbols.now ≡ true }
    requires start { is_start claims _start ≡ true }
    ensures { (kinds : List ℕ) (a b : List (Step R)) → All IsKind kinds → Spells (grammar_of _stage _rows.now _symbols.now) _start kinds a → Spells (grammar_of _stage _rows.now _symbols.now) _start kinds b → a ≡ b }
{}

/// A text has at most one first fault.
pub fn first_faults_are_unique<R: Copy>()
    ensures { (g : Grammar R) (part : ℕ) (kinds : List ℕ) (a b : ℕ) →
        FirstFault g part kinds a → FirstFault g part kinds b → a ≡ b }
{}

/// Of a first fault the steps before it are the only ones.
pub fn steps_before_are_unique<R: Copy>()
    ensures { (g : Grammar R) (part : ℕ) (kinds : List ℕ) (at : ℕ) (a b : List (Step R)) → FirstFault g part kinds at →
        StepsBefore g part kinds at a → StepsBefore g part kinds at b → a ≡ b }
{}

/// All kinds of token are a text, or have a first fault: one of the two.
pub fn each_text_or_fault<R: Copy>(
    _stage: u8,
    _rows: &[Row<R>],
    _symbols: &[Symbol],
    _places: &[u16],
    _start: u8,
)
    ghost claims: { Claims }
    requires checked { grammar_ok _stage claims _places.now _rows.now _symbols.now ≡ true }
    requires start { is_start claims _start ≡ true }
    ensures { (kinds : List ℕ) → All IsKind kinds → IsTextOrFault (grammar_of _stage _rows.now _symbols.now) _start kinds }
{}
