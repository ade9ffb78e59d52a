// Reading by the table, and building trees.

ghost use Rattle.std.specs.Prelude.{◌≡◌, List, true, IfOk, IfErr, MatchResult};
ghost use Rattle.std.specs.List.{All};
ghost use Rattle.gb_script.specs.declared.table.Step.{Step};
ghost use Rattle.gb_script.specs.Check.{grammar_ok, is_start};
ghost use Rattle.gb_script.specs.Grammar.{grammar_of};
ghost use Rattle.gb_script.specs.Parsing.{Spells, IsKind, IsFault};
ghost use Rattle.gb_script.specs.declared.action.Rule.{Rule};
ghost use Rattle.gb_language.specs.Language.{all_rows, all_symbols, all_places, claimed, language, goal_language, IsPart, IsLine, IsTextTree, IsLineTree, IsSorted, Of};

use crate::bodies::SYMBOLS;
use crate::rows::{GOALS, PLACES, ROWS, SCRIPTS};
use gb_script::action::Rule;
use gb_script::error::ReadError;
use gb_script::parsing::read;
use gb_script::reading::tree_of;
use gb_script::table::{Row, Step, Symbol};
use gb_script::text::Text;
use gb_script::tree::Node;
use std::alloc::{AllocError, Global};

// The rows of the table.
#[tactic(auto, unfolding(crate::specs::Language::all_rows))]
fn all_rows() -> &'static [Row<Rule>]
    ensures { result.now ≡ all_rows }
{
    &ROWS
}

// The bodies of the rows.
#[tactic(auto, unfolding(crate::specs::Language::all_symbols))]
fn all_symbols() -> &'static [Symbol]
    ensures { result.now ≡ all_symbols }
{
    &SYMBOLS
}

// Where the rows of each part begin.
#[tactic(auto, unfolding(crate::specs::Language::all_places))]
fn all_places() -> &'static [u16]
    ensures { result.now ≡ all_places }
{
    &PLACES
}

// Reads by tables that pass the test of a stage, as `read` does.
fn read_by(
    alloc: Global,
    stage: u8,
    rows: &[Row<Rule>],
    symbols: &[Symbol],
    places: &[u16],
    part: u8,
    kinds: &[u8],
) -> Result<Vec<Step<Rule>>, ReadError<Rule>>
    requires checked { grammar_ok stage (claimed stage) places.now rows.now symbols.now ≡ true }
    requires start { is_start (claimed stage) part ≡ true }
    requires kinds { All IsKind kinds.now }
    ensures found { IfOk result (λ steps. Spells (grammar_of stage rows.now symbols.now) part kinds.now steps.items) }
    ensures only { (steps : List (Step Rule)) → Spells (grammar_of stage rows.now symbols.now) part kinds.now steps →
        MatchResult result (λ r. r.items ≡ steps) (λ e. e ≡ ReadError.Memory) }
    ensures fault { IfErr result (λ e. IsFault (grammar_of stage rows.now symbols.now) part kinds.now e) }
{
    read(alloc, stage, rows, symbols, places, part, kinds)
}

/// The steps by which these kinds of token are a text of this part of the language, the leftmost part first.
///
/// Errors: `Fault` with the index of the first token with which no text goes on, which is the number of tokens where
/// the text ends too soon, and with the steps before it; `Memory` where memory runs out.
pub fn read_text(alloc: Global, part: u8, kinds: &[u8]) -> Result<Vec<Step<Rule>>, ReadError<Rule>>
    requires part { IsPart part }
    requires kinds { All IsKind kinds.now }
    // What is read is a text by these steps.
    ensures found { IfOk result (λ steps. Spells language part kinds.now steps.items) }
    // Each text is read, unless memory runs out, and its steps are the only ones.
    ensures only { (steps : List (Step Rule)) → Spells language part kinds.now steps →
        MatchResult result (λ r. r.items ≡ steps) (λ e. e ≡ ReadError.Memory) }
    // A fault is the first one, with the steps before it.
    ensures fault { IfErr result (λ e. IsFault language part kinds.now e) }
{
    read_by(
        alloc,
        SCRIPTS,
        all_rows(),
        all_symbols(),
        all_places(),
        part,
        kinds,
    )
}

/// The steps by which these kinds of token are a line of a goal, as [`read_text`] reads texts.
pub fn read_line(alloc: Global, part: u8, kinds: &[u8]) -> Result<Vec<Step<Rule>>, ReadError<Rule>>
    requires part { IsLine part }
    requires kinds { All IsKind kinds.now }
    ensures found { IfOk result (λ steps. Spells goal_language part kinds.now steps.items) }
    ensures only { (steps : List (Step Rule)) → Spells goal_language part kinds.now steps →
        MatchResult result (λ r. r.items ≡ steps) (λ e. e ≡ ReadError.Memory) }
    ensures fault { IfErr result (λ e. IsFault goal_language part kinds.now e) }
{
    read_by(
        alloc,
        GOALS,
        all_rows(),
        all_symbols(),
        all_places(),
        part,
        kinds,
    )
}

/// The tree that steps build which derive a text of this part of the language.
pub fn text_tree(alloc: Global, text: &Text, steps: Vec<Step<Rule>>) -> Result<Node, AllocError>
    ghost given: { Of }
    requires part { IsPart given.part }
    requires steps { Spells language given.part given.kinds steps.items }
    // It is the tree of the text.
    ensures tree { IfOk result (λ x. IsTextTree given.part given.kinds text.now x) }
    // It and its parts are of the sorts that their heads say.
    ensures sorted { IfOk result (λ x. IsSorted given.part x) }
{
    tree_of(alloc, text, steps)
}

/// The tree that steps build which derive a line of a goal.
pub fn line_tree(alloc: Global, text: &Text, steps: Vec<Step<Rule>>) -> Result<Node, AllocError>
    ghost given: { Of }
    requires part { IsLine given.part }
    requires steps { Spells goal_language given.part given.kinds steps.items }
    ensures tree { IfOk result (λ x. IsLineTree given.part given.kinds text.now x) }
    ensures sorted { IfOk result (λ x. IsSorted given.part x) }
{
    tree_of(alloc, text, steps)
}
