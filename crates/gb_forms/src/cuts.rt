// Bodies that are cut in two.

ghost use Rattle.std.specs.Prelude.{◌≡◌, ◌≤◌, length, take, drop};

use gb_terms::term::Instr;

/// Parts of two bodies.
#[derive(Clone, Copy)]
pub struct Parts<'a> {
    pub left: &'a [Instr],
    pub right: &'a [Instr],
}

/// Two bodies, each of which is cut at a position within it: their first parts, and their rests.
pub fn cut_bodies<'a>(
    left: &'a [Instr],
    right: &'a [Instr],
    here: usize,
    there: usize,
) -> (Parts<'a>, Parts<'a>)
    requires here { here ≤ length left.now }
    requires there { there ≤ length right.now }
    ensures first_left { result.0.left.now ≡ take here left.now }
    ensures first_right { result.0.right.now ≡ take there right.now }
    ensures rest_left { result.1.left.now ≡ drop here left.now }
    ensures rest_right { result.1.right.now ≡ drop there right.now }
{
    let (first_left, rest_left) = left.split_at(here);
    let (first_right, rest_right) = right.split_at(there);
    let first = Parts {
        left: first_left,
        right: first_right,
    };
    let rest = Parts {
        left: rest_left,
        right: rest_right,
    };
    (first, rest)
}
