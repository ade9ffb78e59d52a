// Grammars as data.

/// What the body of a production is made of.
///
/// Kinds of token are numbers below 128. Kind 0 is the end of the text: it stands in no text, and it ends each body.
#[derive(Clone, Copy)]
pub enum Symbol {
    Token(u8),
    Part(u8),
}

/// One production of a grammar: it rewrites `part` into its body.
///
/// `starts` is the set of kinds of token at which the row is chosen. `stops` is the set of kinds before which it may
/// not stand, as the empty production of an optional `else` may not stand before `else`. Both sets have bit `k` for
/// kind `k`. The body begins at the index `body` of the table's symbols, and ends before the next `Token(0)`. A text is
/// read by the rows up to a stage, so that one table holds a language with the languages that are cut from it.
pub struct Row<R> {
    pub part: u8,
    pub rule: R,
    pub stage: u8,
    pub starts: u128,
    pub stops: u128,
    pub body: u16,
}

/// A rule that was chosen, and how many tokens stood before it then.
#[derive(Clone, Copy)]
pub struct Step<R> {
    pub rule: R,
    pub at: usize,
}
