// The stack machine that reads.

ghost use Rattle.std.specs.Prelude.{◌≡◌, ◌<◌, ◌++◌, true, drop, reverse, MatchOption, OnOk, IfOk};
ghost use Rattle.gb_script.specs.Grammar.{has, body_of, grammar_of};
ghost use Rattle.gb_script.specs.Check.{Claims, grammar_ok, IsPlaced, pick_row};
ghost use Rattle.gb_script.specs.Stack.{Good, Advanced};

use crate::table::{Row, Step, Symbol};
use std::alloc::AllocError;

fn is_in(set: u128, kind: u8) -> bool
    requires { kind < 128 }
    ensures { result ≡ has set kind }
{
    (set >> kind) % 2 == 1
}

// The first row of this part that is chosen at this kind of token.
fn pick_among<R: Copy>(stage: u8, rows: &[Row<R>], part: u8, kind: u8) -> Option<&Row<R>>
    requires { kind < 128 }
    ensures { MatchOption result (pick_row stage rows.now part kind ≡ None) (λ r. pick_row stage rows.now part kind ≡ Some r.now) }
{
    for row in rows {
        if row.stage <= stage && row.part == part && is_in(row.starts, kind) {
            return Some(row);
        }
    }
    None
}

// The row of this part that is chosen at this kind of token.
fn pick<'a, R: Copy>(
    stage: u8,
    rows: &'a [Row<R>],
    places: &[u16],
    part: u8,
    kind: u8,
) -> Option<&'a Row<R>>
    requires placed { IsPlaced stage rows.now places.now part }
    requires kind { kind < 128 }
    ensures { MatchOption result (pick_row stage rows.now part kind ≡ None) (λ r. pick_row stage rows.now part kind ≡ Some r.now) }
{
    let start = usize::from(places[usize::from(part)]);
    let end = usize::from(places[usize::from(part) + 1]);
    pick_among(stage, &rows[start..end], part, kind)
}

// Puts the body that begins here on the stack, its first symbol on top.
fn push_body(stack: &mut Vec<Symbol>, symbols: &[Symbol], start: usize) -> Result<(), AllocError>
    ensures { OnOk result (reverse stack.new.items ≡ body_of (drop start symbols.now) ++ reverse stack.old.items) }
{
    match symbols.get(start) {
        None | Some(Symbol::Token(0)) => Ok(()),
        Some(symbol) => {
            push_body(stack, symbols, start + 1)?;
            stack.push(*symbol)?;
            Ok(())
        }
    }
}

/// Opens parts until this token stands on top of the stack, and takes it off. Answers `false` where nothing goes on
/// with the token.
pub fn advance<R: Copy>(
    stage: u8,
    rows: &[Row<R>],
    symbols: &[Symbol],
    places: &[u16],
    stack: &mut Vec<Symbol>,
    steps: &mut Vec<Step<R>>,
    kind: u8,
    at: usize,
) -> Result<bool, AllocError>
    ghost claims: { Claims }
    requires checked { grammar_ok stage claims places.now rows.now symbols.now ≡ true }
    requires kind { kind < 128 }
    requires good { Good (grammar_of stage rows.now symbols.now) claims (reverse stack.old.items) }
    ensures { IfOk result (λ moved. Advanced moved (grammar_of stage rows.now symbols.now) claims kind at (reverse stack.old.items) steps.old.items (reverse stack.new.items) steps.new.items) }
{
    while let Some(top) = stack.pop() {
        match top {
            Symbol::Token(token) => return Ok(token == kind),
            Symbol::Part(part) => match pick(stage, rows, places, part, kind) {
                None => return Ok(false),
                Some(row) => {
                    steps.push(Step { rule: row.rule, at })?;
                    push_body(stack, symbols, usize::from(row.body))?;
                }
            },
        }
    }
    Ok(false)
}
