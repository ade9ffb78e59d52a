// From tokens to lexemes.

ghost use Rattle.std.specs.Prelude.{◌≡◌, ◌≤◌, ◌<◌, ◌+◌, ◌-◌, ◌^◌, IfOk, OnOk, [], ◌∷◌, ◌++◌, length, take, drop};
ghost use Rattle.std.specs.List.{All};
ghost use Rattle.gb_script.specs.Parsing.{IsKind};
ghost use Rattle.gb_lex.specs.Lex.{AreSpans};
ghost use Rattle.gb_lex.specs.PlaceAfter.{place_after};
ghost use Rattle.gb_limits.specs.Lexeme.{spells, spelled_in, terminal_of, placed, text_at, kinds_of};

use crate::kind::kind;
use crate::spelling::{SPELLINGS, Spelling, WIDTH};
use gb_core::name::Name;
use gb_core::place::Place;
use gb_lex::places::advance;
use gb_lex::token::{Kind, Token, text_of};
use gb_script::terminal::Terminal;
use gb_script::text::{Lexeme, Lexemes, Text};
use sqlite_items::Items;
use std::alloc::{AllocError, Global};

/// Whether these bytes, filled up with spaces, are this text.
#[tactic(auto, unfolding(crate::specs::Lexeme::spells))]
pub fn spells(text: &[u8; WIDTH], bytes: &[u8]) -> bool
    ensures { result ≡ spells text.now bytes.now }
{
    text.starts_with(bytes) && (bytes.len() >= WIDTH || text[bytes.len()] == b' ')
}

fn spelled_in(spellings: &[Spelling], bytes: &[u8]) -> Option<Terminal>
    ensures { result ≡ spelled_in spellings.now bytes.now }
{
    for spelling in spellings {
        if spells(&spelling.text, bytes) {
            return Some(spelling.terminal);
        }
    }
    None
}

// The terminal of a token of this kind.
fn terminal(kind: Kind, bytes: &[u8]) -> Terminal
    ensures { result ≡ terminal_of kind bytes.now }
{
    let unspelled = match kind {
        Kind::Final => return Terminal::Final,
        Kind::Word => Terminal::Name,
        Kind::Number => Terminal::Number,
        Kind::Symbol => Terminal::Other,
    };
    spelled_in(&SPELLINGS, bytes).unwrap_or(unspelled)
}

// Puts a token that stands at a place behind those before it.
fn push_lexeme(
    alloc: Global,
    bytes: &[u8],
    token: &Token,
    place: Place,
    lexemes: &mut Lexemes,
) -> Result<(), AllocError>
    requires ordered { token.now.from ≤ token.now.to }
    requires within { token.now.to ≤ length bytes.now }
    ensures { OnOk result (lexemes.new ≡ lexemes.old ++ placed bytes.now token.now place ∷ []) }
{
    let spelling = text_of(bytes, token);
    let name = Name::new(String::from_utf8_lossy(alloc, spelling)?);
    lexemes.push(Lexeme {
        terminal: terminal(token.kind, spelling),
        name,
        place,
    })
}

// The place of a byte, from that of an earlier one.
fn later_place(place: Place, bytes: &[u8], from: usize, to: usize) -> Place
    requires ordered { from ≤ to }
    requires within { to ≤ length bytes.now }
    requires line { place.line + (to - from) < 2 ^ 32 }
    requires column { place.col + (to - from) < 2 ^ 32 }
    ensures { result ≡ place_after place (take (to - from) (drop from bytes.now)) }
{
    advance(place, &bytes[from..to])
}

/// The text that has these tokens and begins at the place `at`.
pub fn text(alloc: Global, bytes: &[u8], tokens: &[Token], at: Place) -> Result<Text, AllocError>
    requires spans { AreSpans 0 tokens.now (length bytes.now) }
    requires line { at.line + length bytes.now < 2 ^ 32 }
    requires column { at.col + length bytes.now < 2 ^ 32 }
    ensures { IfOk result (λ t. t ≡ text_at bytes.now at tokens.now) }
{
    let mut lexemes = Items::new(alloc);
    let mut place = at;
    let mut reached: usize = 0;
    for token in tokens {
        let from = token.from as usize;
        place = later_place(place, bytes, reached, from);
        reached = from;
        push_lexeme(alloc, bytes, token, place, &mut lexemes)?;
    }
    let end = later_place(place, bytes, reached, bytes.len());
    Ok(Text { lexemes, end })
}

/// The kinds of token of a text.
pub fn kinds(alloc: Global, text: &Text) -> Result<Vec<u8>, AllocError>
    ensures kinds { IfOk result (λ v. v.items ≡ kinds_of text.now) }
    ensures all { IfOk result (λ v. All IsKind v.items) }
{
    let mut kinds = Vec::new(alloc);
    for lexeme in text.lexemes.as_slice() {
        kinds.push(kind(lexeme.terminal))?;
    }
    Ok(kinds)
}
