// Texts as trees are built of them.

ghost use Rattle.std.specs.Prelude.{◌≡◌, IfOk};
ghost use Rattle.gb_script.specs.Text.{name_at, place_at, terminal_at, place_before};

use crate::terminal::Terminal;
use gb_core::name::Name;
use gb_core::place::Place;
use sqlite_items::Items;
use std::alloc::{AllocError, Global};

/// A token: what it is to the grammar, its bytes and its place.
#[derive(Drop)]
pub struct Lexeme {
    pub terminal: Terminal,
    pub name: Name,
    pub place: Place,
}

pub type Lexemes = Items<Lexeme>;

/// The tokens of a text, and the place of its end.
#[derive(Drop)]
pub struct Text {
    pub lexemes: Lexemes,
    pub end: Place,
}

/// The place of a token; that of the end where there is no such token.
pub fn place_at(text: &Text, at: usize) -> Place
    ensures { result ≡ place_at text.now at }
{
    match text.lexemes.get(at) {
        Some(lexeme) => lexeme.place,
        None => text.end,
    }
}

/// The bytes of a token; none where there is no such token.
pub fn name_at(alloc: Global, text: &Text, at: usize) -> Result<Name, AllocError>
    ensures { IfOk result (λ n. n ≡ name_at text.now at) }
{
    match text.lexemes.get(at) {
        Some(lexeme) => lexeme.name.copy(alloc),
        None => Ok(Name::new(String::new(alloc))),
    }
}

/// What a token is to the grammar; `Other` where there is no such token.
pub fn terminal_at(text: &Text, at: usize) -> Terminal
    ensures { result ≡ terminal_at text.now at }
{
    match text.lexemes.get(at) {
        Some(lexeme) => lexeme.terminal,
        None => Terminal::Other,
    }
}

/// The place of the token before.
pub fn place_before(text: &Text, at: usize) -> Place
    ensures { result ≡ place_before text.now at }
{
    if at == 0 {
        return place_at(text, 0);
    }
    place_at(text, at - 1)
}
