// The words after the program's name.

ghost use Rattle.std.specs.Prelude.{◌≡◌, ◌≤◌, None, Some, IfSome, MatchOption, map, string_bytes};
ghost use Rattle.gb_app.specs.Words as asking;

use gb_lex::piece::number_size;
use gb_limits::numbers::number;

/// The greatest number of a script.
const GREATEST: u128 = 200;

/// Whether a word can name a file: it isn't empty and doesn't begin with `-`.
fn names_file(word: &str) -> bool
    ensures { result ≡ asking.names_file word.now }
{
    match word.as_bytes() {
        [] => false,
        [first, ..] => *first != b'-',
    }
}

/// Whether the words ask for a session.
pub fn asks_for_session(words: &[String]) -> bool
    ensures { result ≡ asking.asks_for_session (map string_bytes words.now) }
{
    match words {
        [verb] => verb.as_str() == "step",
        _ => false,
    }
}

/// The file that the words ask to check, as in `check FILE`; nothing where they ask for anything else.
pub fn file_to_check(words: &[String]) -> Option<&str>
    ensures { MatchOption result (asking.file_of (map string_bytes words.now) ≡ None) (λ f. asking.file_of (map string_bytes words.now) ≡ Some f.now) }
{
    match words {
        [verb, file] => {
            if verb.as_str() == "check" && names_file(file.as_str()) {
                Some(file.as_str())
            } else {
                None
            }
        }
        _ => None,
    }
}

/// Whether a word spells a number: digits, the first of which is 0 only if it is alone.
fn spells_number(word: &[u8]) -> bool
    ensures { result ≡ asking.spells_number word.now }
{
    match word {
        [] => false,
        [first, rest @ ..] => {
            (*first != b'0' || rest.len() == 0) && number_size(word) == word.len()
        }
    }
}

/// The number that a word spells, if it is 200 at most.
fn script_number(word: &str) -> Option<usize>
    ensures number { result ≡ asking.script_number word.now }
    ensures most { IfSome result (λ n. n ≤ 200) }
{
    let digits = word.as_bytes();
    if !spells_number(digits) {
        return None;
    }
    match number(digits) {
        Ok(count) if count <= GREATEST => Some(count as usize),
        _ => None,
    }
}

/// The number of the script that the words ask to check, as in `selftest N`; nothing where they ask for anything else.
pub fn number_asked(words: &[String]) -> Option<usize>
    ensures number { result ≡ asking.number_asked (map string_bytes words.now) }
    ensures most { IfSome result (λ n. n ≤ 200) }
{
    match words {
        [verb, number] => {
            if verb.as_str() == "selftest" {
                script_number(number.as_str())
            } else {
                None
            }
        }
        _ => None,
    }
}
