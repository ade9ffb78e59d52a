// Reading forms and commands.

ghost use Rattle.std.specs.Prelude.{◌≡◌, ◌≢◌, ℕ, ◌≤◌, ◌<◌, ◌+◌, ◌^◌, IfOk, IfErr, OnOk, MatchResult, Err, length};
ghost use Rattle.gb_core.specs.declared.place.Place.{Place};
ghost use Rattle.gb_core.specs.declared.refusal.Why.{Why};
ghost use Rattle.gb_core.specs.declared.refusal.Why.TheVariants.{LeftOut};
ghost use Rattle.gb_core.specs.declared.refusal.Refused.TheVariants.{NoMemory, ReadFault, Script};
ghost use Rattle.gb_lex.specs.Lex.{AreSpans};
ghost use Rattle.gb_language.specs.declared.rows.TheConstants.{COMMAND, FORM};
ghost use Rattle.gb_language.specs.Language.{IsPart, IsSorted};
ghost use Rattle.gb_limits.specs.LeftOut.{NoneLeftOut};
ghost use Rattle.gb_limits.specs.Lexeme.{text_at};
ghost use Rattle.gb_limits.specs.Limits.{NoneTooDeep, NoneLong};
ghost use Rattle.gb_limits.specs.Numbers.{NoneOverflow};
ghost use Rattle.gb_read_script.specs.Reading.{IsText, SpellsTree, SpellsCommand, SpellsForm, IsLeftOutPlace, IsStop, IsLimit, IsFault, IsRefusal, IsWithin, IsAllowed};

use gb_core::place::Place;
use gb_core::refusal::{Refused, Why};
use gb_language::reading::{read_text, text_tree};
use gb_language::rows::{COMMAND, FORM};
use gb_lex::token::Tokens;
use gb_limits::checks::{check_chains, check_depth, check_numbers};
use gb_limits::left_out::first_left_out;
use gb_limits::lexeme::{kinds, text};
use gb_script::action::Rule;
use gb_script::error::ReadError;
use gb_script::table::Step;
use gb_script::text::{Text, place_at};
use gb_script::tree::Node;
use std::alloc::Global;

// Why a text is refused that these steps read up to a token, with which no text goes on.
fn stop(alloc: Global, text: &Text, steps: &[Step<Rule>], at: usize) -> Refused
    requires { at ≤ length text.now.lexemes }
    ensures no_fault { result ≢ ReadFault }
    ensures stop { (why : Why) (place : Place) → result ≡ Script why place → IsStop text.now at steps.now why place }
{
    match check_depth(alloc, text, steps, at) {
        Err(refused) => refused,
        Ok(()) => Refused::Script {
            why: Why::Syntax,
            place: place_at(text, at),
        },
    }
}

// Refuses a text that these steps derive and that passes a limit.
fn check_limits(alloc: Global, text: &Text, steps: &[Step<Rule>]) -> Result<(), Refused>
    ensures shallow { OnOk result (NoneTooDeep text.now steps.now (length text.now.lexemes)) }
    ensures short { OnOk result (NoneLong text.now steps.now) }
    ensures in_range { OnOk result (NoneOverflow text.now) }
    ensures only { NoneTooDeep text.now steps.now (length text.now.lexemes) → NoneLong text.now steps.now → NoneOverflow text.now
        → MatchResult result (λ _. Unit {0}) (λ e. e ≡ NoMemory) }
    ensures no_fault { IfErr result (λ e. e ≢ ReadFault) }
    ensures limit { (why : Why) (place : Place) → result ≡ Err (Script why place) → IsLimit text.now steps.now why place }
{
    check_depth(alloc, text, steps, text.lexemes.len())?;
    check_chains(alloc, text, steps)?;
    check_numbers(text)
}

// The steps by which a text is one of this part, which passes no limit.
fn steps(alloc: Global, text: &Text, part: u8) -> Result<Vec<Step<Rule>>, Refused>
    requires { IsPart part }
    ensures found { IfOk result (λ s. IsText part text.now s.items) }
    ensures within { OnOk result (IsWithin part text.now) }
    ensures only { IsWithin part text.now → MatchResult result (λ _. Unit {0}) (λ e. e ≡ NoMemory) }
    ensures no_fault { IfErr result (λ e. e ≢ ReadFault) }
    ensures fault { (why : Why) (place : Place) → result ≡ Err (Script why place) → IsFault part text.now why place }
{
    let Ok(kinds) = kinds(alloc, text) else {
        return Err(Refused::NoMemory);
    };
    match read_text(alloc, part, kinds.as_slice()) {
        Err(ReadError::Memory) => Err(Refused::NoMemory),
        Err(ReadError::Fault { at, steps }) => Err(stop(alloc, text, steps.as_slice(), at)),
        Ok(steps) => match check_limits(alloc, text, steps.as_slice()) {
            Err(refused) => Err(refused),
            Ok(()) => Ok(steps),
        },
    }
}

/// The text that has these tokens, none of them a word that is left out; refused with `LeftOut` at the first that is.
pub fn checked_text(
    alloc: Global,
    bytes: &[u8],
    tokens: &Tokens,
    at: Place,
) -> Result<Text, Refused>
    requires spans { AreSpans 0 tokens.now (length bytes.now) }
    requires line { at.line + length bytes.now < 2 ^ 32 }
    requires column { at.col + length bytes.now < 2 ^ 32 }
    ensures text { IfOk result (λ t. t ≡ text_at bytes.now at tokens.now) }
    ensures none { IfOk result NoneLeftOut }
    ensures only { NoneLeftOut (text_at bytes.now at tokens.now) → MatchResult result (λ _. Unit {0}) (λ e. e ≡ NoMemory) }
    ensures no_fault { IfErr result (λ e. e ≢ ReadFault) }
    ensures left_out { (why : Why) (place : Place) → result ≡ Err (Script why place) → (why ≡ LeftOut) × IsLeftOutPlace (text_at bytes.now at tokens.now) place }
{
    let Ok(text) = text(alloc, bytes, tokens.as_slice(), at) else {
        return Err(Refused::NoMemory);
    };
    match first_left_out(&text) {
        Some(at) => Err(Refused::Script {
            why: Why::LeftOut,
            place: place_at(&text, at),
        }),
        None => Ok(text),
    }
}

// The tree of the text of these tokens, which is one of this part and passes no limit. `spelled` is the part, as a value
// of the proof alone.
fn tree(alloc: Global, bytes: &[u8], tokens: &Tokens, at: Place, part: u8) -> Result<Node, Refused>
    ghost spelled: { ℕ }
    requires same { part ≡ spelled }
    requires start { IsPart part }
    requires spans { AreSpans 0 tokens.now (length bytes.now) }
    requires line { at.line + length bytes.now < 2 ^ 32 }
    requires column { at.col + length bytes.now < 2 ^ 32 }
    ensures found { IfOk result (λ x. SpellsTree part (text_at bytes.now at tokens.now) x) }
    ensures sorted { IfOk result (λ x. IsSorted part x) }
    ensures allowed { OnOk result (IsAllowed part (text_at bytes.now at tokens.now)) }
    ensures only { IsAllowed part (text_at bytes.now at tokens.now) → MatchResult result (λ _. Unit {0}) (λ e. e ≡ NoMemory) }
    ensures no_fault { IfErr result (λ e. e ≢ ReadFault) }
    ensures refused { (why : Why) (place : Place) → result ≡ Err (Script why place) → IsRefusal part (text_at bytes.now at tokens.now) why place }
{
    let text = checked_text(alloc, bytes, tokens, at)?;
    let steps = steps(alloc, &text, part)?;
    Ok(text_tree(alloc, &text, steps)?)
}

/// The command that these tokens of a text spell; the text begins at the place `at`.
///
/// Refused, in this order: `LeftOut` at the first token that is left out; `Depth` at the first token that stands in more
/// than 64 levels; `Syntax` at the first token with which no command goes on, or at the end where the text ends too
/// soon; `TooMany` at the first token of operand 257 of a chain; `Overflow` at the first number that is out of range.
pub fn command(alloc: Global, text: &[u8], tokens: &Tokens, at: Place) -> Result<Node, Refused>
    requires spans { AreSpans 0 tokens.now (length text.now) }
    requires line { at.line + length text.now < 2 ^ 32 }
    requires column { at.col + length text.now < 2 ^ 32 }
    ensures found { IfOk result (λ c. SpellsCommand (text_at text.now at tokens.now) c) }
    // The tree and its parts are of the sorts that their heads say.
    ensures sorted { IfOk result (λ c. IsSorted COMMAND c) }
    ensures allowed { OnOk result (IsAllowed COMMAND (text_at text.now at tokens.now)) }
    ensures only { IsAllowed COMMAND (text_at text.now at tokens.now) → MatchResult result (λ _. Unit {0}) (λ e. e ≡ NoMemory) }
    ensures no_fault { IfErr result (λ e. e ≢ ReadFault) }
    ensures refused { (why : Why) (place : Place) → result ≡ Err (Script why place) → IsRefusal COMMAND (text_at text.now at tokens.now) why place }
{
    tree(alloc, text, tokens, at, COMMAND)
}

/// The form that these tokens of a text spell, as [`command`] reads commands.
pub fn form(alloc: Global, text: &[u8], tokens: &Tokens, at: Place) -> Result<Node, Refused>
    requires spans { AreSpans 0 tokens.now (length text.now) }
    requires line { at.line + length text.now < 2 ^ 32 }
    requires column { at.col + length text.now < 2 ^ 32 }
    ensures found { IfOk result (λ f. SpellsForm (text_at text.now at tokens.now) f) }
    ensures sorted { IfOk result (λ f. IsSorted FORM f) }
    ensures allowed { OnOk result (IsAllowed FORM (text_at text.now at tokens.now)) }
    ensures only { IsAllowed FORM (text_at text.now at tokens.now) → MatchResult result (λ _. Unit {0}) (λ e. e ≡ NoMemory) }
    ensures no_fault { IfErr result (λ e. e ≢ ReadFault) }
    ensures refused { (why : Why) (place : Place) → result ≡ Err (Script why place) → IsRefusal FORM (text_at text.now at tokens.now) why place }
{
    tree(alloc, text, tokens, at, FORM)
}
