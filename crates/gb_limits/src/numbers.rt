// Numbers that are out of range.

ghost use Rattle.std.specs.Prelude.{◌≡◌, ◌+◌, ◌-◌, ◌*◌, ◌<◌, ◌≤◌, ◌^◌, MatchResult, MatchOption};
ghost use Rattle.gb_limits.specs.Numbers.{number_of, LeadsOut, IsOverflow, is_number, digits_at, IsFirstOverflow, NoneOverflow};

use gb_script::terminal::Terminal;
use gb_script::text::Text;

/// The operands of an operation on whole numbers, which lie between -2^127 and 2^127.
#[derive(Clone, Copy)]
pub struct Operands {
    pub left: i128,
    pub right: i128,
}

/// A number out of range: its position, and the operands of the operation that leads out.
#[derive(Clone, Copy)]
pub struct Overflowing {
    pub at: usize,
    pub operands: Operands,
}

// The number with one more digit, or the operands of the operation that leads out of range.
fn with_digit(number: u128, digit: u8) -> Result<u128, Operands>
    requires { number < 2 ^ 127 }
    ensures { MatchResult result (λ n. (n < 2 ^ 127) × (n ≡ number * 10 + (digit - 48)))
        (λ o. LeadsOut number (digit - 48) o.left o.right) }
{
    let number = number as i128;
    let digit = i128::from(digit.saturating_sub(b'0'));
    let Some(tenfold) = number.checked_mul(10) else {
        return Err(Operands {
            left: number,
            right: 10,
        });
    };
    match tenfold.checked_add(digit) {
        Some(sum) => Ok(sum as u128),
        None => Err(Operands {
            left: tenfold,
            right: digit,
        }),
    }
}

/// The number that decimal digits spell, or the operands of the first operation out of range.
#[tactic(auto, using(crate::proofs::Digits::number_of_more, crate::proofs::Digits::out_of_range))]
pub fn number(digits: &[u8]) -> Result<u128, Operands>
    ensures { MatchResult result (λ n. (n < 2 ^ 127) × (n ≡ number_of digits.now))
        (λ o. (2 ^ 127 ≤ number_of digits.now) × IsOverflow digits.now o.left o.right) }
{
    let mut number = 0;
    for digit in digits {
        number = with_digit(number, *digit)?;
    }
    Ok(number)
}

fn is_number(terminal: Terminal) -> bool
    ensures { result ≡ is_number terminal }
{
    matches!(
        terminal,
        Terminal::Number | Terminal::Zero | Terminal::One | Terminal::Two
    )
}

// The digits of the number at a position; none where another token stands there.
#[tactic(auto, unfolding(crate::specs::Numbers::digits_at))]
fn digits_at(text: &Text, at: usize) -> &[u8]
    ensures { result.now ≡ digits_at text.now at }
{
    match text.lexemes.get(at) {
        Some(lexeme) if is_number(lexeme.terminal) => lexeme.name.as_str().as_bytes(),
        _ => &[],
    }
}

/// The first number of a text that is out of range. Digits are read one by one, as `v * 10 + d`.
pub fn first_overflow(text: &Text) -> Option<Overflowing>
    ensures { MatchOption result (NoneOverflow text.now)
        (λ o. IsFirstOverflow text.now o.at o.operands.left o.operands.right) }
{
    for at in 0..text.lexemes.len() {
        if let Err(operands) = number(digits_at(text, at)) {
            return Some(Overflowing { at, operands });
        }
    }
    None
}
