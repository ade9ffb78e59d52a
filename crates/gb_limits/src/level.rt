// Levels of nesting, and the operands of the chains in them.

ghost use Rattle.std.specs.Prelude.{◌≡◌, OnOk};
ghost use Rattle.gb_limits.specs.Level.{fresh, operand_behind, counted, terminal_before, extent, ended, nested, bracket_of, bracketed, is_long};

use gb_core::Stack;
use gb_script::action::Mark;
use gb_script::terminal::Terminal;
use gb_script::text::{Text, terminal_at};
use std::alloc::AllocError;

/// What opens a level.
#[derive(Clone, Copy)]
pub enum Opening {
    /// A prefix `-`, before the end of its operand.
    Minus,
    /// A prefix `-` whose operand has a bound.
    BoundedMinus,
    /// A quantifier, `if`, `fun`, `?`, `!` or a bar, up to a mark in the derivation, the end of the form of a `have`,
    /// or a closing bracket.
    Form,
    Bracket,
}

/// A level, and how many operands of the chains of `=>`, `\/`, `/\`, `+` and `*` have begun in it that are still open.
#[derive(Clone, Copy)]
pub struct Level {
    pub opening: Opening,
    pub implied: u32,
    pub disjuncts: u32,
    pub conjuncts: u32,
    pub summands: u32,
    pub factors: u32,
}

pub type Levels = Stack<Level>;

/// How many operands a chain may have.
pub const CHAIN: u32 = 256;

/// What a token does to brackets.
#[derive(Clone, Copy)]
pub enum Bracket {
    Opens,
    Closes,
    Neither,
}

/// A level in which no operand has begun.
pub fn fresh(opening: Opening) -> Level
    ensures { result ≡ fresh opening }
{
    Level {
        opening,
        implied: 0,
        disjuncts: 0,
        conjuncts: 0,
        summands: 0,
        factors: 0,
    }
}

// The first operand of a sum is counted where the sum begins.
fn operand_behind(terminal: Terminal, level: Level) -> Level
    ensures { result ≡ operand_behind terminal level }
{
    match terminal {
        Terminal::Plus | Terminal::Minus | Terminal::Xor => Level {
            summands: level.summands.saturating_add(1),
            factors: 1,
            ..level
        },
        Terminal::Times | Terminal::Slash | Terminal::PowerTimes => Level {
            factors: level.factors.saturating_add(1),
            ..level
        },
        _ => level,
    }
}

/// A level, with what a mark begins in it behind this token.
pub fn counted(mark: Mark, before: Terminal, level: Level) -> Level
    ensures { result ≡ counted mark before level }
{
    match mark {
        Mark::Implication => Level {
            implied: 0,
            ..level
        },
        Mark::Disjunction => Level {
            implied: level.implied.saturating_add(1),
            disjuncts: 0,
            ..level
        },
        Mark::Conjunction => Level {
            disjuncts: level.disjuncts.saturating_add(1),
            conjuncts: 0,
            ..level
        },
        Mark::Conjunct => Level {
            conjuncts: level.conjuncts.saturating_add(1),
            ..level
        },
        Mark::Sum => Level {
            summands: 1,
            factors: 1,
            ..level
        },
        Mark::Operand | Mark::Negative => operand_behind(before, level),
        // The bound of a `phoare` belongs to the operand of a prefix `-` before it.
        Mark::Bounded if matches!(level.opening, Opening::Minus) => Level {
            opening: Opening::BoundedMinus,
            ..level
        },
        _ => level,
    }
}

/// The token before a position; `Other` where there is none.
pub fn terminal_before(text: &Text, at: usize) -> Terminal
    ensures { result ≡ terminal_before text.now at }
{
    if at == 0 {
        Terminal::Other
    } else {
        terminal_at(text, at - 1)
    }
}

/// Whether some chain of a level has an operand too many.
pub fn is_long(level: Level) -> bool
    ensures { result ≡ is_long level }
{
    level.implied > CHAIN
        || level.disjuncts > CHAIN
        || level.conjuncts > CHAIN
        || level.summands > CHAIN
        || level.factors > CHAIN
}

// How much a level holds: it ends where one ends that holds as much or more.
fn extent(opening: Opening) -> u8
    ensures { result ≡ extent opening }
{
    match opening {
        Opening::Minus => 0,
        Opening::BoundedMinus => 1,
        Opening::Form => 2,
        Opening::Bracket => 3,
    }
}

// Takes off the innermost levels that end where one of this opening does.
fn end(levels: &mut Levels, opening: Opening) -> Result<(), AllocError>
    ensures { OnOk result (levels.new ≡ ended opening levels.old) }
{
    while let Some(level) = levels.pop() {
        if extent(level.opening) > extent(opening) {
            return levels.push(level);
        }
    }
    Ok(())
}

/// Begins and ends levels as a mark says.
pub fn nest(mark: Mark, levels: &mut Levels) -> Result<(), AllocError>
    ensures { OnOk result (levels.new ≡ nested mark levels.old) }
{
    match mark {
        Mark::Begin => levels.push(fresh(Opening::Form)),
        Mark::End => {
            levels.pop();
            Ok(())
        }
        Mark::Negative => levels.push(fresh(Opening::Minus)),
        Mark::Operator => end(levels, Opening::Minus),
        Mark::SumEnd => end(levels, Opening::BoundedMinus),
        Mark::FormEnd => end(levels, Opening::Form),
        _ => Ok(()),
    }
}

/// What a token does to brackets.
pub fn bracket_of(terminal: Terminal) -> Bracket
    ensures { result ≡ bracket_of terminal }
{
    match terminal {
        Terminal::OpenRound
        | Terminal::OpenSquare
        | Terminal::OpenBrace
        | Terminal::OpenEqual
        | Terminal::OpenGet => Bracket::Opens,
        Terminal::CloseRound | Terminal::CloseSquare | Terminal::CloseBrace => Bracket::Closes,
        _ => Bracket::Neither,
    }
}

/// Opens or closes a bracket.
pub fn enclose(bracket: Bracket, levels: &mut Levels) -> Result<(), AllocError>
    ensures { OnOk result (levels.new ≡ bracketed bracket levels.old) }
{
    match bracket {
        Bracket::Opens => levels.push(fresh(Opening::Bracket)),
        Bracket::Closes => {
            end(levels, Opening::Form)?;
            levels.pop();
            Ok(())
        }
        Bracket::Neither => Ok(()),
    }
}
