// The lines of a text.

ghost use Rattle.std.specs.Prelude.{◌≡◌, [], IfOk, OnOk};
ghost use Rattle.gb_read_script.specs.Line.{before, lines_before, text_of, line_texts};

use gb_core::Stack;
use gb_core::place::Place;
use gb_script::text::{Lexeme, Lexemes, Text};
use sqlite_items::Items;
use std::alloc::{AllocError, Global};

/// The tokens of a line, where it starts, and where the next line does.
#[derive(Drop)]
pub struct Line {
    pub tokens: Stack<Lexeme>,
    pub start: Place,
    pub end: Place,
}

// Puts a token before lines.
fn put_before(
    alloc: Global,
    token: Lexeme,
    end: Place,
    lines: &mut Stack<Line>,
) -> Result<(), AllocError>
    ensures { OnOk result (lines.new ≡ before token end lines.old) }
{
    let start = token.place;
    let mut tokens = Stack::new(alloc);
    let mut end = end;
    if let Some(line) = lines.pop() {
        if start.line == line.start.line {
            tokens = line.tokens;
            end = line.end;
        } else {
            end = line.start;
            lines.push(line)?;
        }
    }
    tokens.push(token)?;
    lines.push(Line { tokens, start, end })
}

// The lines of tokens which end at a place.
#[tactic(auto, using(crate::proofs::Lines::lines_more))]
fn lines_of(alloc: Global, tokens: Lexemes, end: Place) -> Result<Stack<Line>, AllocError>
    ensures { IfOk result (λ lines. lines ≡ lines_before end tokens []) }
{
    let mut tokens = tokens;
    let mut lines = Stack::new(alloc);
    while let Some(token) = tokens.pop() {
        put_before(alloc, token, end, &mut lines)?;
    }
    Ok(lines)
}

/// The lines of a text, each a text that ends where the next one begins; blank lines are none.
pub fn line_texts(alloc: Global, text: Text) -> Result<Stack<Text>, AllocError>
    ensures { IfOk result (λ texts. texts ≡ line_texts text) }
{
    let Text { lexemes, end } = text;
    let mut lines = lines_of(alloc, lexemes, end)?;
    let mut texts = Items::new(alloc);
    while let Some(Line { tokens, end, .. }) = lines.pop() {
        texts.push(Text {
            lexemes: tokens.into_items(),
            end,
        })?;
    }
    Stack::from_items(alloc, texts)
}
