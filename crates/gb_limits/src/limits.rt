// Texts that are nested too deep, and chains that are too long.

ghost use Rattle.std.specs.Prelude.{◌≡◌, ℕ, ◌≤◌, ◌<◌, length, IfOk, MatchOption};
ghost use Rattle.gb_limits.specs.Level.{brackets_after, open_brackets, top_is_long};
ghost use Rattle.gb_limits.specs.Limits.{begun, stepped, begin_too_many, over, walked, brackets_behind, depth_at, IsFirstTooDeep, NoneTooDeep, IsFirstLong, NoneLong};

use crate::level::{
    Bracket, Levels, Opening, bracket_of, counted, enclose, fresh, is_long, nest, terminal_before,
};
use gb_core::Stack;
use gb_script::action::Rule;
use gb_script::table::Step;
use gb_script::text::{Text, terminal_at};
use std::alloc::{AllocError, Global};

/// How many levels a token may stand in.
pub const LEVELS: usize = 64;

// What was found on the way over a token: the steps behind it, and whether an operand too many begins with it.
#[derive(Clone, Copy)]
struct Passed<'a> {
    rest: &'a [Step<Rule>],
    long: bool,
}

// Takes a step; answers whether an operand too many begins by it in the innermost level.
fn take_step(text: &Text, step: Step<Rule>, levels: &mut Levels) -> Result<bool, AllocError>
    ensures { IfOk result (λ long. (levels.new ≡ stepped text.now step levels.old) × (long ≡ top_is_long (begun text.now step levels.old))) }
{
    let mut long = false;
    if let Some(level) = levels.pop() {
        let level = counted(step.rule.mark, terminal_before(text, step.at), level);
        levels.push(level)?;
        long = is_long(level);
    }
    nest(step.rule.mark, levels)?;
    Ok(long)
}

// Goes over a token: takes the steps up to its position, then opens or closes a bracket.
fn pass<'a>(
    text: &Text,
    at: usize,
    steps: &'a [Step<Rule>],
    levels: &mut Levels,
) -> Result<Passed<'a>, AllocError>
    ensures levels { IfOk result (λ _. levels.new ≡ (over text.now at (record { levels = levels.old; rest = steps.now })).levels) }
    ensures rest { IfOk result (λ p. p.rest.now ≡ (over text.now at (record { levels = levels.old; rest = steps.now })).rest) }
    ensures long { IfOk result (λ p. p.long ≡ begin_too_many text.now at levels.old steps.now) }
{
    let mut long = false;
    let mut rest = steps;
    while let [step, more @ ..] = rest {
        if step.at > at {
            break;
        }
        long |= take_step(text, *step, levels)?;
        rest = more;
    }
    enclose(bracket_of(terminal_at(text, at)), levels)?;
    Ok(Passed { rest, long })
}

// The level of a text itself.
fn start(alloc: Global, text: &Text, steps: &[Step<Rule>]) -> Result<Levels, AllocError>
    ensures { IfOk result (λ levels. levels ≡ (walked text.now steps.now 0).levels) }
{
    let mut levels = Stack::new(alloc);
    levels.push(fresh(Opening::Bracket))?;
    Ok(levels)
}

/// The first token with which an operand too many of a chain begins, of a text that these steps derive.
pub fn first_long(
    alloc: Global,
    text: &Text,
    steps: &[Step<Rule>],
) -> Result<Option<usize>, AllocError>
    ensures { IfOk result (λ found. MatchOption found (NoneLong text.now steps.now) (λ at. IsFirstLong text.now steps.now at)) }
{
    let mut levels = start(alloc, text, steps)?;
    let mut rest = steps;
    for at in 0..text.lexemes.len() {
        let passed = pass(text, at, rest, &mut levels)?;
        if passed.long {
            return Ok(Some(at));
        }
        rest = passed.rest;
    }
    Ok(None)
}

// How many brackets are open in these levels, but that of the text itself.
fn open_brackets(levels: Levels) -> usize
    ensures { result ≡ open_brackets levels }
{
    let total = levels.len();
    let mut levels = levels;
    let mut count: usize = 0;
    while let Some(level) = levels.pop() {
        if matches!(level.opening, Opening::Bracket) && count < total {
            count += 1;
        }
    }
    count.saturating_sub(1)
}

// How many brackets are open behind a token.
fn brackets_after(bracket: Bracket, depth: usize) -> usize
    requires { depth ≤ LEVELS }
    ensures { result ≡ brackets_after bracket depth }
{
    match bracket {
        Bracket::Opens => depth + 1,
        Bracket::Closes => depth.saturating_sub(1),
        Bracket::Neither => depth,
    }
}

// The first token from a fault on that stands in too many brackets, of which these many are open before the fault.
fn first_in_brackets(
    text: &Text,
    _steps: &[Step<Rule>],
    fault: usize,
    depth: usize,
) -> Option<usize>
    requires fault { fault ≤ length text.now.lexemes }
    requires depth { depth ≡ brackets_behind text.now _steps.now fault 0 }
    requires few { depth ≤ LEVELS }
    requires before { (j : ℕ) → j < fault → depth_at text.now _steps.now fault j ≤ LEVELS }
    ensures { MatchOption result (NoneTooDeep text.now _steps.now fault) (λ at. IsFirstTooDeep text.now _steps.now fault at) }
{
    let mut depth = depth;
    for at in fault..text.lexemes.len() {
        depth = brackets_after(bracket_of(terminal_at(text, at)), depth);
        if depth > LEVELS {
            return Some(at);
        }
    }
    None
}

/// The first token that stands in too many levels, of a text that these steps read up to a fault. A token that opens a
/// level stands in it; from the fault on brackets alone count.
pub fn first_too_deep(
    alloc: Global,
    text: &Text,
    steps: &[Step<Rule>],
    fault: usize,
) -> Result<Option<usize>, AllocError>
    requires { fault ≤ length text.now.lexemes }
    ensures { IfOk result (λ found. MatchOption found (NoneTooDeep text.now steps.now fault) (λ at. IsFirstTooDeep text.now steps.now fault at)) }
{
    let mut levels = start(alloc, text, steps)?;
    let mut rest = steps;
    for at in 0..fault {
        let passed = pass(text, at, rest, &mut levels)?;
        if levels.len() > LEVELS + 1 {
            return Ok(Some(at));
        }
        rest = passed.rest;
    }
    let depth = open_brackets(levels);
    Ok(first_in_brackets(text, steps, fault, depth))
}
