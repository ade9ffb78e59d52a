// Comments, which nest.

ghost use Rattle.std.specs.Prelude.{◌≡◌, ◌<◌, ◌+◌, ◌^◌, ◌≤◌, length, IfSome};
ghost use Rattle.gb_lex.specs.Comment.{opens_comment, next_depth, next_last, comment_end};

/// Whether a text begins with the mark `(*`.
pub fn opens_comment(text: &[u8]) -> bool
    ensures { result ≡ opens_comment text.now }
{
    text.starts_with(b"(*")
}

/// How many comments are open after `byte`, of `depth` before it. `last` is the byte before it, or 0
/// where that belongs to a mark.
fn next_depth(depth: usize, last: u8, byte: u8) -> usize
    requires { depth + 1 < 2 ^ 64 }
    ensures { result ≡ next_depth depth last byte }
{
    match (last, byte) {
        (b'(', b'*') => depth + 1,
        (b'*', b')') => depth.saturating_sub(1),
        _ => depth,
    }
}

/// The byte with which the next one may be a mark, or 0 where `byte` ends one.
fn next_last(last: u8, byte: u8) -> u8
    ensures { result ≡ next_last last byte }
{
    match (last, byte) {
        (b'(', b'*') | (b'*', b')') => 0,
        _ => byte,
    }
}

/// Where the comment ends that is open where this text begins, or None where it stays open.
#[tactic(auto, using(crate::proofs::CommentLemmas::steps))]
pub fn comment_end(text: &[u8]) -> Option<usize>
    ensures end { result ≡ comment_end 1 0 0 text.now }
    ensures within { IfSome result (λ end. end ≤ length text.now) }
{
    let mut depth = 1;
    let mut last = 0;
    for (at, byte) in text.iter().enumerate() {
        depth = next_depth(depth, last, *byte);
        last = next_last(last, *byte);
        if depth == 0 {
            return Some(at + 1);
        }
    }
    None
}
