// The symbols of the language.

ghost use Rattle.std.specs.Prelude.{◌≡◌};
ghost use Rattle.gb_lex.specs.Symbol.{is_single, is_pair, is_triple, single_size, pair_size, triple_size, symbol_size};

/// Whether this byte alone is a symbol.
pub fn is_single(byte: u8) -> bool
    ensures { result ≡ is_single byte }
{
    b"()[]{},;:|!?*+-/<>=~@&".contains(&byte)
}

const PAIRS: [[u8; 2]; 21] = [
    *b"+^", *b"<-", *b"<$", *b"<@", *b"<:", *b"<=", *b"<>", *b">=", *b"=>", *b"={", *b"->", *b"&&",
    *b"||", *b"/\\", *b"\\/", *b"//", *b"/#", *b"%r", *b".[", *b".`", *b"`|",
];

/// Whether these bytes are a symbol.
pub fn is_pair(first: u8, second: u8) -> bool
    ensures { result ≡ is_pair first second }
{
    PAIRS.contains(&[first, second])
}

const TRIPLES: [[u8; 3]; 4] = [*b"<=>", *b"==>", *b"\\in", *b"`*`"];

/// Whether these bytes are a symbol.
pub fn is_triple(first: u8, second: u8, third: u8) -> bool
    ensures { result ≡ is_triple first second third }
{
    TRIPLES.contains(&[first, second, third])
}

/// The size of the symbol at the front of one byte, or 0 where it is none.
fn single_size(first: u8) -> usize
    ensures { result ≡ single_size first }
{
    if is_single(first) { 1 } else { 0 }
}

/// The size of the longest symbol at the front of two bytes.
fn pair_size(first: u8, second: u8) -> usize
    ensures { result ≡ pair_size first second }
{
    if is_pair(first, second) {
        2
    } else {
        single_size(first)
    }
}

/// The size of the longest symbol at the front of three bytes.
fn triple_size(first: u8, second: u8, third: u8) -> usize
    ensures { result ≡ triple_size first second third }
{
    if is_triple(first, second, third) {
        3
    } else {
        pair_size(first, second)
    }
}

/// The size of the longest symbol at the front of a text, or 0 where none stands there.
#[tactic(auto, using(crate::proofs::SymbolLemmas::by_length))]
pub fn symbol_size(text: &[u8]) -> usize
    ensures { result ≡ symbol_size text.now }
{
    match text {
        [] => 0,
        [a] => single_size(*a),
        [a, b] => pair_size(*a, *b),
        [a, b, c, ..] => triple_size(*a, *b, *c),
    }
}
