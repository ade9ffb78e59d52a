// The cutting of a text into commands.

ghost use Rattle.std.specs.Prelude.{◌≡◌, ◌<◌, ◌≤◌, ◌^◌, length};
ghost use Rattle.gb_lex.specs.Lex.{is_final, is_blank, cut_of};

use crate::piece::piece_at;
use crate::token::{Cut, Kind, What};

fn is_final(what: What) -> bool
    ensures { result ≡ is_final what }
{
    matches!(what, What::Token(Kind::Final))
}

fn is_blank(what: What) -> bool
    ensures { result ≡ is_blank what }
{
    matches!(what, What::Blank)
}

/// Where the command ends that begins at the offset `from` of a text.
#[tactic(auto, using(crate::proofs::LexLemmas::cutting))]
pub fn cut(text: &[u8], from: u32) -> Cut
    requires size { length text.now < 2 ^ 31 }
    requires within { from ≤ length text.now }
    ensures { result ≡ cut_of text.now from }
{
    let mut at = from as usize;
    let mut blank = true;
    while at < text.len() {
        let piece = piece_at(text, at);
        at += piece.size;
        if is_final(piece.what) {
            return Cut::Command { to: at as u32 };
        }
        if !is_blank(piece.what) {
            blank = false;
        }
    }
    if blank { Cut::End } else { Cut::Rest }
}
