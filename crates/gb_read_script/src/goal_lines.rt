// The lines of a goal, read to the steps that derive them.

ghost use Rattle.std.specs.Prelude.{◌≡◌, ◌∷◌, [], IfOk, IfErr, MatchResult, max, min};
ghost use Rattle.gb_core.specs.declared.refusal.Why.TheVariants.{Syntax};
ghost use Rattle.gb_core.specs.declared.refusal.Refused.TheVariants.{NoMemory, Script};
ghost use Rattle.gb_script.specs.Text.{place_at};
ghost use Rattle.gb_read_script.specs.Line.{line_texts};
ghost use Rattle.gb_read_script.specs.GoalLines.{part_of, IsAttempt, IsNoEntry, IsLine, IsAt, IsSyntax, IsConclusion, is_dash, dashes, IsRuler, IsContext, IsGoal, IsLineFault, IsEndingFault, IsSyntaxPlace, IsRefusedFor};

use crate::line::line_texts;
use gb_core::Stack;
use gb_core::place::Place;
use gb_core::refusal::{Refused, Why};
use gb_language::reading::read_line;
use gb_language::rows::{ENTRY, FORM, HYPOTHESIS};
use gb_limits::lexeme::kinds;
use gb_script::action::Rule;
use gb_script::error::ReadError;
use gb_script::table::Step;
use gb_script::terminal::Terminal;
use gb_script::text::{Lexeme, Text, place_at};
use sqlite_items::Items;
use std::alloc::Global;

/// What a line of a goal is read as.
#[derive(Clone, Copy)]
pub enum LineSort {
    /// A variable, a memory or a module.
    Binder,
    Hypothesis,
    Conclusion,
}

/// A line of a goal, and the steps that derive it.
pub struct ReadLine {
    pub sort: LineSort,
    pub text: Text,
    pub steps: Items<Step<Rule>>,
}

impl Drop for ReadLine {
    fn drop(self) {
        let ReadLine {
            sort: _,
            text,
            steps,
        } = self;
        drop(text);
        drop(steps);
    }
}

pub type ReadLines = Items<ReadLine>;

/// The lines of a goal but `---`.
pub struct ReadGoal {
    pub context: ReadLines,
    pub conclusion: ReadLine,
}

impl Drop for ReadGoal {
    fn drop(self) {
        let ReadGoal {
            context,
            conclusion,
        } = self;
        drop(context);
        drop(conclusion);
    }
}

/// The steps of a line, or the token at which it stops.
#[derive(Drop)]
pub enum Attempt {
    Steps(Items<Step<Rule>>),
    Stop(usize),
}

/// A line before the conclusion.
#[derive(Drop)]
pub enum Line {
    Entry(ReadLine),
    /// `---`.
    Ruler,
}

// The part of the grammar by which lines of a sort are read.
fn part(sort: LineSort) -> u8
    ensures { result ≡ part_of sort }
{
    match sort {
        LineSort::Binder => ENTRY,
        LineSort::Hypothesis => HYPOTHESIS,
        LineSort::Conclusion => FORM,
    }
}

// Reads a text as a line of this sort.
fn read_as(alloc: Global, text: &Text, sort: LineSort) -> Result<Attempt, Refused>
    ensures { MatchResult result (IsAttempt sort text.now) (λ e. e ≡ NoMemory) }
{
    let Ok(kinds) = kinds(alloc, text) else {
        return Err(Refused::NoMemory);
    };
    match read_line(alloc, part(sort), kinds.as_slice()) {
        Ok(steps) => Ok(Attempt::Steps(Items::from_vec(steps))),
        Err(ReadError::Fault { at, .. }) => Ok(Attempt::Stop(at)),
        Err(ReadError::Memory) => Err(Refused::NoMemory),
    }
}

#[tactic(auto, unfolding(crate::specs::GoalLines::is_minus))]
fn is_dash(token: &Lexeme) -> bool
    ensures { result ≡ is_dash token.now }
{
    token.terminal == Terminal::Minus
}

// How many tokens `-` a line begins with.
#[tactic(auto, using(crate::proofs::Lines::dashes_at))]
fn dashes(line: &Text) -> usize
    ensures { result ≡ dashes line.now }
{
    let mut count = 0;
    for token in line.lexemes.as_slice() {
        if !is_dash(token) {
            return count;
        }
        count += 1;
    }
    count
}

fn syntax(place: Place) -> Refused
    ensures { result ≡ Script Syntax place }
{
    Refused::Script {
        why: Why::Syntax,
        place,
    }
}

// `---`, of a text that is no entry; the last of the ways to read it as one stops at a token.
fn ruler(text: &Text, stop: usize) -> Result<Line, Refused>
    requires { IsNoEntry text.now }
    ensures found { IfOk result (IsLine text.now) }
    ensures fault { IfErr result (λ e. (IsRuler text.now → ⊥) × (e ≡ Script Syntax (place_at text.now (max stop (min (dashes text.now) 3))))) }
{
    let dashes = dashes(text);
    if dashes == 3 && text.lexemes.len() == 3 {
        Ok(Line::Ruler)
    } else {
        Err(syntax(place_at(text, stop.max(dashes.min(3)))))
    }
}

// What a text before the conclusion is.
fn entry_or_ruler(alloc: Global, text: Text) -> Result<Line, Refused>
    ensures found { IfOk result (IsLine text) }
    ensures fault { IfErr result (IsRefusedFor (IsSyntax (IsAt (IsLineFault text) text))) }
{
    match read_as(alloc, &text, LineSort::Binder)? {
        Attempt::Steps(steps) => Ok(Line::Entry(ReadLine {
            sort: LineSort::Binder,
            text,
            steps,
        })),
        Attempt::Stop(binder) => match read_as(alloc, &text, LineSort::Hypothesis)? {
            Attempt::Steps(steps) => Ok(Line::Entry(ReadLine {
                sort: LineSort::Hypothesis,
                text,
                steps,
            })),
            Attempt::Stop(hypothesis) => ruler(&text, binder.max(hypothesis)),
        },
    }
}

// The entries that lines begin with which end at a place; the lines behind `---` are left.
#[tactic(auto, using(crate::proofs::Walk::one_more, crate::proofs::Walk::at_ruler, crate::proofs::Walk::line_fault))]
fn context(alloc: Global, lines: &mut Stack<Text>, end: Place) -> Result<ReadLines, Refused>
    ensures found { IfOk result (λ entries. IsContext lines.old entries lines.new) }
    ensures fault { IfErr result (IsRefusedFor (IsSyntax (IsSyntaxPlace lines.old end))) }
{
    let mut entries = Items::new(alloc);
    while let Some(text) = lines.pop() {
        match entry_or_ruler(alloc, text)? {
            Line::Entry(entry) => entries.push(entry)?,
            Line::Ruler => return Ok(entries),
        }
    }
    Err(syntax(end))
}

// The conclusion, which is the only one of lines that end at a place.
fn conclusion(alloc: Global, lines: Stack<Text>, end: Place) -> Result<ReadLine, Refused>
    ensures found { IfOk result (λ line. (lines ≡ line.text ∷ []) × IsConclusion line) }
    ensures fault { IfErr result (IsRefusedFor (IsSyntax (IsEndingFault lines end))) }
{
    let mut lines = lines;
    let Some(text) = lines.pop() else {
        return Err(syntax(end));
    };
    match read_as(alloc, &text, LineSort::Conclusion)? {
        Attempt::Stop(at) => Err(syntax(place_at(&text, at))),
        Attempt::Steps(_) if lines.len() > 0 => Err(syntax(text.end)),
        Attempt::Steps(steps) => Ok(ReadLine {
            sort: LineSort::Conclusion,
            text,
            steps,
        }),
    }
}

/// The goal that the lines of a text are.
///
/// Refused with `Syntax` at the first token with which no goal goes on, or at the end.
pub fn read_goal(alloc: Global, text: Text) -> Result<ReadGoal, Refused>
    ensures found { IfOk result (IsGoal (line_texts text)) }
    ensures fault { IfErr result (IsRefusedFor (IsSyntax (IsSyntaxPlace (line_texts text) text.end))) }
{
    let end = text.end;
    let mut lines = line_texts(alloc, text)?;
    let context = context(alloc, &mut lines, end)?;
    let conclusion = conclusion(alloc, lines, end)?;
    Ok(ReadGoal {
        context,
        conclusion,
    })
}
