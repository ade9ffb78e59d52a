//! Statements at places of bodies.

ghost use Rattle.std.specs.Prelude.{◌≡◌};
ghost use Rattle.std.specs.Option.{option_map};
ghost use Rattle.gb_trans.specs.Places.{cut_at, placed_seen, statement_at};

use gb_terms::term::Instr;

/// A statement of a body, what stands before it, and what stands behind it.
#[derive(Clone, Copy)]
pub struct Placed<'a> {
    pub before: &'a [Instr],
    pub statement: &'a Instr,
    pub rest: &'a [Instr],
}

/// The first of further statements, behind these.
fn cut_at<'a>(before: &'a [Instr], behind: &'a [Instr]) -> Option<Placed<'a>>
    ensures { option_map placed_seen result ≡ cut_at before.now behind.now }
{
    match behind {
        [statement, rest @ ..] => Some(Placed {
            before,
            statement,
            rest,
        }),
        [] => None,
    }
}

/// The statement at a place, of which the first is 1.
pub fn statement_at(at: u128, list: &[Instr]) -> Option<Placed<'_>>
    ensures { option_map placed_seen result ≡ statement_at at list.now }
{
    if at < 1 || (list.len() as u128) < at {
        return None;
    }
    let (before, behind) = list.split_at((at - 1) as usize);
    cut_at(before, behind)
}
