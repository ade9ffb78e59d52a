// The piece at the front of a text.

ghost use Rattle.std.specs.Prelude.{◌≡◌, ◌<◌, ◌≤◌, ◌+◌, ◌∷◌, length, drop};
ghost use Rattle.std.specs.List.{prefix_len};
ghost use Rattle.std.specs.Char.{is_ascii_digit};
ghost use Rattle.gb_lex.specs.Byte.{is_word_byte};
ghost use Rattle.gb_lex.specs.Comment.{comment_end};
ghost use Rattle.gb_lex.specs.Piece.{goes_on_path, follows_command, token, comment, symbol, first_piece, pieces_of};

use crate::byte::{is_white, is_word_byte, is_word_start};
use crate::comment::{comment_end, opens_comment};
use crate::symbol::symbol_size;
use crate::token::{Kind, Piece, What};

/// The number of bytes at the front that a word may have.
pub fn word_size(text: &[u8]) -> usize
    ensures { result ≡ prefix_len is_word_byte text.now }
{
    text.iter().take_while(|byte| is_word_byte(**byte)).count()
}

/// The number of digits at the front.
pub fn number_size(text: &[u8]) -> usize
    ensures { result ≡ prefix_len is_ascii_digit text.now }
{
    text.iter().take_while(|byte| byte.is_ascii_digit()).count()
}

/// Whether a `.` before this text joins a path.
pub fn goes_on_path(after: &[u8]) -> bool
    ensures { result ≡ goes_on_path after.now }
{
    match after {
        [byte, ..] => is_word_start(*byte),
        [] => false,
    }
}

/// Whether a `.` before this text ends a command.
pub fn follows_command(after: &[u8]) -> bool
    ensures { result ≡ follows_command after.now }
{
    match after {
        [byte, ..] => is_white(*byte) || opens_comment(after),
        [] => true,
    }
}

fn token(kind: Kind, size: usize) -> Piece
    ensures { result ≡ token kind size }
{
    Piece {
        what: What::Token(kind),
        size,
    }
}

/// The comment at the front of a text.
fn comment(text: &[u8]) -> Piece
    requires { 2 ≤ length text.now }
    ensures piece { result ≡ comment (comment_end 1 0 0 (drop 2 text.now)) (length text.now) }
    ensures within { result.size ≤ length text.now }
{
    match comment_end(&text[2..]) {
        Some(end) => Piece {
            what: What::Blank,
            size: end + 2,
        },
        None => Piece {
            what: What::Unclosed,
            size: text.len(),
        },
    }
}

/// The piece at the front of a text.
#[tactic(auto, using(crate::proofs::PieceLemmas::sizes), unfolding(crate::specs::Piece::first_piece))]
pub fn first_piece(text: &[u8]) -> Piece
    requires { 0 < length text.now }
    ensures piece { result ≡ first_piece text.now }
    ensures some { 0 < result.size }
    ensures within { result.size ≤ length text.now }
{
    let first = text[0];
    let after = &text[1..];
    if is_white(first) {
        Piece {
            what: What::Blank,
            size: 1,
        }
    } else if opens_comment(text) {
        comment(text)
    } else if is_word_start(first) {
        token(Kind::Word, word_size(text))
    } else if first.is_ascii_digit() {
        token(Kind::Number, number_size(text))
    } else if first == b'.' && goes_on_path(after) {
        token(Kind::Symbol, 1)
    } else if first == b'.' && follows_command(after) {
        token(Kind::Final, 1)
    } else {
        symbol(symbol_size(text))
    }
}

/// A symbol of this size, or a faulty byte where it is 0.
fn symbol(size: usize) -> Piece
    ensures { result ≡ symbol size }
{
    if size == 0 {
        Piece {
            what: What::Faulty,
            size: 1,
        }
    } else {
        token(Kind::Symbol, size)
    }
}

/// The piece of a text at the offset `at`, where another piece ended.
#[tactic(auto, using(crate::proofs::PieceLemmas::pieces_of_from))]
pub fn piece_at(text: &[u8], at: usize) -> Piece
    requires { at < length text.now }
    ensures next { pieces_of (drop at text.now) ≡ result ∷ pieces_of (drop (at + result.size) text.now) }
    ensures some { 0 < result.size }
    ensures within { at + result.size ≤ length text.now }
{
    first_piece(&text[at..])
}
