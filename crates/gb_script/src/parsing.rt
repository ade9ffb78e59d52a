// Reading a whole text.

ghost use Rattle.std.specs.Prelude.{◌≡◌, List, [], true, length, IfOk, IfErr, MatchOption, MatchResult};
ghost use Rattle.std.specs.List.{All};
ghost use Rattle.gb_script.specs.declared.table.Step.{Step};
ghost use Rattle.gb_script.specs.Grammar.{grammar_of};
ghost use Rattle.gb_script.specs.Check.{Claims, grammar_ok, is_start};
ghost use Rattle.gb_script.specs.Parsing.{Spells, IsKind, FirstFault, StepsBefore, IsFault};

use crate::error::ReadError;
use crate::machine::advance;
use crate::table::{Row, Step, Symbol};
use std::alloc::{AllocError, Global};

// How many steps these are.
fn count<R: Copy>(steps: &Vec<Step<R>>) -> usize
    ensures { result ≡ length steps.now.items }
{
    steps.as_slice().len()
}

// Reads these kinds of token by the machine, from an empty stack. Answers the index of the first token with which nothing
// goes on, if there is one, and leaves the steps before it.
fn run<R: Copy>(
    stage: u8,
    rows: &[Row<R>],
    symbols: &[Symbol],
    places: &[u16],
    start: u8,
    kinds: &[u8],
    stack: &mut Vec<Symbol>,
    steps: &mut Vec<Step<R>>,
) -> Result<Option<usize>, AllocError>
    ghost claims: { Claims }
    requires checked { grammar_ok stage claims places.now rows.now symbols.now ≡ true }
    requires start { is_start claims start ≡ true }
    requires kinds { All IsKind kinds.now }
    requires no_stack { stack.old.items ≡ [] }
    requires no_steps { steps.old.items ≡ [] }
    ensures { IfOk result (λ stop. MatchOption stop (Spells (grammar_of stage rows.now symbols.now) start kinds.now steps.new.items) (λ at. FirstFault (grammar_of stage rows.now symbols.now) start kinds.now at × StepsBefore (grammar_of stage rows.now symbols.now) start kinds.now at steps.new.items)) }
{
    stack.push(Symbol::Token(0))?;
    stack.push(Symbol::Part(start))?;
    for (at, kind) in kinds.iter().enumerate() {
        let before = count(steps);
        let moved = advance(stage, rows, symbols, places, stack, steps, *kind, at)?;
        if !moved {
            steps.truncate(before);
            return Ok(Some(at));
        }
    }
    let before = count(steps);
    let ended = advance(stage, rows, symbols, places, stack, steps, 0, kinds.len())?;
    if !ended {
        steps.truncate(before);
        return Ok(Some(kinds.len()));
    }
    Ok(None)
}

/// The steps by which these kinds of token are a text of the part `start` up to a stage of the table, the leftmost part
/// first.
///
/// `places` says where the rows of each part begin, and has the number of rows as its last item. The claims of the
/// table, which `grammar_ok` tests, are given in the proof.
pub fn read<R: Copy>(
    alloc: Global,
    stage: u8,
    rows: &[Row<R>],
    symbols: &[Symbol],
    places: &[u16],
    start: u8,
    kinds: &[u8],
) -> Result<Vec<Step<R>>, ReadError<R>>
    ghost claims: { Claims }
    requires checked { grammar_ok stage claims places.now rows.now symbols.now ≡ true }
    requires start { is_start claims start ≡ true }
    requires kinds { All IsKind kinds.now }
    // What is read is a text by these steps.
    ensures found { IfOk result (λ steps. Spells (grammar_of stage rows.now symbols.now) start kinds.now steps.items) }
    // Each text is read, unless memory runs out, and its steps are the only ones.
    ensures only { (steps : List (Step R)) → Spells (grammar_of stage rows.now symbols.now) start kinds.now steps → MatchResult result (λ r. r.items ≡ steps) (λ e. e ≡ ReadError.Memory) }
    // A fault is the first one, with the steps before it.
    ensures fault { IfErr result (λ e. IsFault (grammar_of stage rows.now symbols.now) start kinds.now e) }
{
    let mut stack = Vec::new(alloc);
    let mut steps = Vec::new(alloc);
    let stop = run(
        stage, rows, symbols, places, start, kinds, &mut stack, &mut steps,
    )?;
    match stop {
        None => Ok(steps),
        Some(at) => Err(ReadError::Fault { at, steps }),
    }
}
