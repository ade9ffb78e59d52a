// What is answered to a text.

use gb_core::place::Place;
use gb_core::refusal::{Refused, Why, code};
use gb_lex::lexing::tokens;
use gb_read_script::goal::goal;
use gb_read_script::goal_tree::SequentTree;
use gb_read_script::reading::{command, form};
use gb_script::head::Head;
use gb_session::script::verdict_on;
use gb_session::session::Session;
use gb_state::verdict::Verdict;
use std::alloc::{AllocError, Global};

/// What a text is read as.
#[derive(Clone, Copy)]
pub enum Part {
    Command,
    Form,
}

/// The first byte of a text.
const START: Place = Place {
    file: 0,
    line: 1,
    col: 1,
};

/// A text of this many bytes is too long to be read.
const LIMIT: usize = 1_048_577;

/// The name of each script.
const NAME: &str = "script";

fn length_refused() -> Refused {
    Refused::Script {
        why: Why::Length,
        place: START,
    }
}

fn read(alloc: Global, part: Part, text: &[u8]) -> Result<(), Refused> {
    if text.len() >= LIMIT {
        return Err(length_refused());
    }
    let tokens = tokens(alloc, text, START)?;
    match part {
        Part::Command => drop(command(alloc, text, &tokens, START)?),
        Part::Form => drop(form(alloc, text, &tokens, START)?),
    }
    Ok(())
}

/// The code of a refusal, and the line and the column.
fn refusal(alloc: Global, refused: Refused) -> Result<String, AllocError> {
    let Some((why, place)) = refused.into_script() else {
        return Err(AllocError);
    };
    let code = code(&why);
    format!(in alloc; "E{code:02} {} {}", place.line, place.col)
}

/// What is read of a text: `ok`, or the code of its refusal, and the line and the column.
pub fn answer(alloc: Global, part: Part, text: &[u8]) -> Result<String, AllocError> {
    match read(alloc, part, text) {
        Ok(()) => String::from_str(alloc, "ok"),
        Err(refused) => refusal(alloc, refused),
    }
}

// `ok`, and a letter for each entry of the context: `b` for a variable, a memory or a module, `h` for a hypothesis.
fn entries(alloc: Global, tree: &SequentTree) -> Result<String, AllocError> {
    let mut answer = String::from_str(alloc, "ok")?;
    if !tree.context.is_empty() {
        answer.push(' ')?;
    }
    for entry in tree.context.as_slice() {
        match entry.head {
            Head::Hypothesis => answer.push('h')?,
            _ => answer.push('b')?,
        }
    }
    Ok(answer)
}

/// What is read of the text of a goal: `ok` and a letter for each entry of the context, or its refusal.
pub fn goal_answer(alloc: Global, text: &[u8]) -> Result<String, AllocError> {
    if text.len() >= LIMIT {
        return refusal(alloc, length_refused());
    }
    match goal(alloc, text) {
        Ok(tree) => entries(alloc, &tree),
        Err(refused) => refusal(alloc, refused),
    }
}

/// What a script comes to: the number of its lemmas, or its first refusal.
pub fn script_answer(alloc: Global, text: &[u8]) -> Result<String, AllocError> {
    if text.len() >= LIMIT {
        return refusal(alloc, length_refused());
    }
    match verdict_on(alloc, NAME, text)? {
        Verdict::Accepted(lemmas) => format!(in alloc; "{}", lemmas.len()),
        Verdict::Refused { why, place } => refusal(alloc, Refused::Script { why, place }),
    }
}

/// Runs commands one after another, which end at `\n`, up to the first refusal.
fn run(alloc: Global, session: &mut Session, script: &str) -> Result<(), Refused> {
    for command in script.lines() {
        let text = command.as_bytes();
        if text.len() >= LIMIT {
            return Err(length_refused());
        }
        session.enter(alloc, text, START)?;
    }
    Ok(())
}

/// What a session shows after the commands of a script, each of which is a line of its own, or the first refusal.
pub fn screen(alloc: Global, script: &str) -> Result<String, AllocError> {
    let mut session = Session::new(alloc, NAME, true)?;
    match run(alloc, &mut session, script) {
        Ok(()) => String::from_utf8_lossy(alloc, session.screen(alloc)?.as_slice()),
        Err(refused) => refusal(alloc, refused),
    }
}
