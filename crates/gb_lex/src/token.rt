// Tokens, and the pieces that a text falls into.

ghost use Rattle.std.specs.Prelude.{◌≡◌, ◌≤◌, length, slice_range};

use sqlite_items::Items;

/// The kind of a token.
#[derive(Clone, Copy)]
pub enum Kind {
    /// A letter or `_`, then letters, digits, `_` and `'`.
    Word,
    /// Digits.
    Number,
    /// A symbol of the language, or a `.` before a letter or `_`, which joins a path.
    Symbol,
    /// The `.` that ends a command.
    Final,
}

/// A token of a text: the bytes from `from` on, up to but without `to`.
#[derive(Clone, Copy)]
pub struct Token {
    pub kind: Kind,
    pub from: u32,
    pub to: u32,
}

/// Tokens in order; contracts see them as a list.
pub type Tokens = Items<Token>;

/// The bytes of a token of `text`.
pub fn text_of<'a>(text: &'a [u8], token: &Token) -> &'a [u8]
    requires ordered { token.now.from ≤ token.now.to }
    requires within { token.now.to ≤ length text.now }
    ensures { result.now ≡ slice_range text.now token.now.from token.now.to }
{
    &text[token.from as usize..token.to as usize]
}

/// What a piece of a text is.
#[derive(Clone, Copy)]
pub enum What {
    /// A byte of white space, or a comment.
    Blank,
    /// A comment that the text leaves open: the rest of the text.
    Unclosed,
    Token(Kind),
    /// A byte that starts no token.
    Faulty,
}

/// A piece of a text, and how many bytes it has.
#[derive(Clone, Copy)]
pub struct Piece {
    pub what: What,
    pub size: usize,
}

/// What the next command of a text is.
#[derive(Clone, Copy)]
pub enum Cut {
    /// The command ends, with its final dot, before the offset `to`.
    Command { to: u32 },
    /// Something is left, without a final dot.
    Rest,
    /// Only white space and closed comments are left.
    End,
}
