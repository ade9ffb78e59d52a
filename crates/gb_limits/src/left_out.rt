// Words of the language that this prover leaves out.

ghost use Rattle.std.specs.Prelude.{◌≡◌, IfSome, IfNone};
ghost use Rattle.gb_limits.specs.LeftOut.{is_word_of, is_left_out, name_before, IsFirstLeftOut, NoneLeftOut};
ghost use Rattle.gb_script.specs.Text.{name_at};

use crate::lexeme::spells;
use crate::spelling::WIDTH;
use gb_script::text::Text;

/// The words that are left out, filled up with spaces.
pub const LEFT_OUT: [[u8; WIDTH]; 24] = [
    *b"admit       ",
    *b"abort       ",
    *b"dcond       ",
    *b"fission     ",
    *b"fusion      ",
    *b"splitwhile  ",
    *b"alias       ",
    *b"cfold       ",
    *b"ecall       ",
    *b"sp          ",
    *b"auto        ",
    *b"async       ",
    *b"progress    ",
    *b"inductive   ",
    *b"hint        ",
    *b"print       ",
    *b"search      ",
    *b"pragma      ",
    *b"instance    ",
    *b"class       ",
    *b"pred        ",
    *b"include     ",
    *b"export      ",
    *b"nosmt       ",
];

fn is_word_of(words: &[[u8; WIDTH]], bytes: &[u8]) -> bool
    ensures { result ≡ is_word_of words.now bytes.now }
{
    for word in words {
        if spells(word, bytes) {
            return true;
        }
    }
    false
}

// Whether a token with these bytes is left out behind one with those.
fn is_left_out(before: &str, name: &str) -> bool
    ensures { result ≡ is_left_out before.now name.now }
{
    match (before, name) {
        ("{", "+") | ("proc", "*") => true,
        _ => is_word_of(&LEFT_OUT, name.as_bytes()),
    }
}

fn name_at(text: &Text, at: usize) -> &str
    ensures { result.now ≡ name_at text.now at }
{
    match text.lexemes.get(at) {
        Some(lexeme) => lexeme.name.as_str(),
        None => "",
    }
}

fn name_before(text: &Text, at: usize) -> &str
    ensures { result.now ≡ name_before text.now at }
{
    if at == 0 { "" } else { name_at(text, at - 1) }
}

/// The index of the first token that is a word left out, `+` right after `{` or `*` right after `proc`.
pub fn first_left_out(text: &Text) -> Option<usize>
    ensures first { IfSome result (λ at. IsFirstLeftOut text.now at) }
    ensures none { IfNone result (NoneLeftOut text.now) }
{
    for at in 0..text.lexemes.len() {
        if is_left_out(name_before(text, at), name_at(text, at)) {
            return Some(at);
        }
    }
    None
}
