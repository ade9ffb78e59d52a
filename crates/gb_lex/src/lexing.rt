// The tokens of a text.

ghost use Rattle.std.specs.Prelude.{◌≡◌, ◌<◌, ◌≤◌, ◌+◌, ◌^◌, ◌⊎◌, length, take, None, Some, IfOk, IfErr, All};
ghost use Rattle.gb_core.specs.declared.refusal.Refused.TheVariants.{NoMemory, Script};
ghost use Rattle.gb_core.specs.declared.refusal.Why.TheVariants.{Character};
ghost use Rattle.gb_lex.specs.Lex.{tokens_of, fault_of, IsCharacterFault, AreSpans};

use crate::piece::piece_at;
use crate::places::place_of;
use crate::token::{Token, Tokens, What};
use gb_core::place::Place;
use gb_core::refusal::{Refused, Why};
use sqlite_items::Items;
use std::alloc::Global;

/// The tokens of a text that begins at the place `at`, in order. What follows an open comment counts as
/// white space.
///
/// Refused with `Character` at the first byte outside comments that starts no token.
#[tactic(auto, using(crate::proofs::LexLemmas::lexing))]
pub fn tokens(alloc: Global, text: &[u8], at: Place) -> Result<Tokens, Refused>
    requires size { length text.now < 2 ^ 31 }
    requires line { at.line + length text.now < 2 ^ 32 }
    requires column { at.col + length text.now < 2 ^ 32 }
    ensures tokens { IfOk result (λ found. found ≡ tokens_of text.now) }
    ensures faultless { IfOk result (λ found. fault_of text.now ≡ None) }
    ensures character { IfErr result (λ e. (e ≡ NoMemory) ⊎ IsCharacterFault text.now at e) }
    ensures spans { IfOk result (λ found. AreSpans 0 found (length text.now)) }
{
    let mut found = Items::new(alloc);
    let mut from: usize = 0;
    while from < text.len() {
        let piece = piece_at(text, from);
        let to = from + piece.size;
        match piece.what {
            What::Token(kind) => {
                let token = Token {
                    kind,
                    from: from as u32,
                    to: to as u32,
                };
                match found.push(token) {
                    Ok(()) => {}
                    Err(_) => return Err(Refused::NoMemory),
                }
            }
            What::Faulty => {
                return Err(Refused::Script {
                    why: Why::Character,
                    place: place_of(text, at, from as u32),
                });
            }
            What::Blank | What::Unclosed => {}
        }
        from = to;
    }
    Ok(found)
}
