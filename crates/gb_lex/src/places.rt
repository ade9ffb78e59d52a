// The places in a text.

ghost use Rattle.std.specs.Prelude.{◌≡◌, ◌<◌, ◌≤◌, ◌+◌, ◌++◌, ◌^◌, length, take};
ghost use Rattle.gb_lex.specs.PlaceAfter.{next_place, place_after};

use gb_core::place::Place;

/// The place after a byte at `place`: a line feed begins a new line, whose first column is 1.
fn next_place(place: Place, byte: u8) -> Place
    requires line { place.line + 1 < 2 ^ 32 }
    requires column { place.col + 1 < 2 ^ 32 }
    ensures { result ≡ next_place place byte }
{
    if byte == b'\n' {
        Place {
            file: place.file,
            line: place.line + 1,
            col: 1,
        }
    } else {
        Place {
            file: place.file,
            line: place.line,
            col: place.col + 1,
        }
    }
}

/// The place after the bytes of `piece`, which begins at `place`.
#[tactic(auto, unfolding(crate::specs::PlaceAfter::place_after))]
pub fn advance(place: Place, piece: &[u8]) -> Place
    requires line { place.line + length piece.now < 2 ^ 32 }
    requires column { place.col + length piece.now < 2 ^ 32 }
    ensures { result ≡ place_after place piece.now }
{
    let mut here = place;
    for byte in piece {
        here = next_place(here, *byte);
    }
    here
}

/// The place of the byte at `offset` of a text that begins at `at`.
pub fn place_of(text: &[u8], at: Place, offset: u32) -> Place
    requires within { offset ≤ length text.now }
    requires line { at.line + offset < 2 ^ 32 }
    requires column { at.col + offset < 2 ^ 32 }
    ensures { result ≡ place_after at (take offset text.now) }
{
    advance(at, &text[..offset as usize])
}

/// A law: the place after two pieces is the place after the second, from the place after the first.
#[tactic(auto, using(crate::proofs::PlaceLemmas::appended))]
pub fn advance_twice(place: Place, first: &[u8], second: &[u8])
    ensures { place_after place (first.now ++ second.now) ≡ place_after (place_after place first.now) second.now }
{}
