// The memories that a form reads through.
#![tactic(auto, using(crate::proofs::SideSteps::reads_side_out))]

ghost use Rattle.std.specs.Prelude.{◌≡◌};
ghost use Rattle.std.specs.List.{list_any};
ghost use Rattle.gb_terms.specs.Equal.{side_eq};
ghost use Rattle.gb_walk.specs.Change.{is_read_through};
ghost use Rattle.gb_walk.specs.Sides.{reads_side, head_reads_side};

use crate::change::is_left_or_right;
use gb_terms::op::{Read, Side};
use gb_terms::same::same_side;
use gb_terms::term::{Head, Term};

/// Whether a form reads through a memory, `Left` or `Right`, that no judgment in it binds.
#[cycle(sides)]
pub fn reads_side(term: &Term, side: &Side) -> bool
    ensures { result ≡ reads_side term.now side.now }
{
    let below = any_reads_side(term.args.as_slice(), side);
    head_reads_side(term.head.get(), side, below)
}

#[cycle(sides)]
fn any_reads_side(list: &[Term], side: &Side) -> bool
    ensures { result ≡ list_any (λ t. reads_side t side.now) list.now }
{
    for term in list {
        if reads_side(term, side) {
            return true;
        }
    }
    false
}

/// Whether a term of this head reads through the memory, where `below` says it of the arguments: an equivalence
/// binds both sides.
fn head_reads_side(head: &Head, side: &Side, below: bool) -> bool
    ensures { result ≡ head_reads_side head.now side.now below }
{
    match head {
        Head::Read(read) => reads_through(read, side) || below,
        Head::Glob(_, through) | Head::Pr(_, through) => same_side(side, through) || below,
        Head::Equiv(..) => !is_left_or_right(side) && below,
        _ => below,
    }
}

fn reads_through(read: &Read, side: &Side) -> bool
    ensures { result ≡ is_read_through (side_eq side.now) read.now }
{
    match read {
        Read::Logical(_) => false,
        Read::Program { side: through, .. } => same_side(side, through),
    }
}
