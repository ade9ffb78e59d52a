// The limits of texts as refusals.

ghost use Rattle.std.specs.Prelude.{◌≡◌, ◌≢◌, ◌≤◌, IfErr, OnOk, OnErr, MatchResult, Err, length};
ghost use Rattle.gb_core.specs.declared.place.Place.{Place};
ghost use Rattle.gb_core.specs.declared.refusal.Why.{Why};
ghost use Rattle.gb_core.specs.declared.refusal.Why.TheVariants.{Depth, TooMany};
ghost use Rattle.gb_core.specs.declared.refusal.Refused.TheVariants.{NoMemory, ReadFault, Script};
ghost use Rattle.gb_limits.specs.Limits.{NoneTooDeep, NoneLong};
ghost use Rattle.gb_limits.specs.Numbers.{NoneOverflow};
ghost use Rattle.gb_limits.specs.Places.{IsDepthPlace, IsChainPlace, IsOverflowPlace};

use crate::level::CHAIN;
use crate::limits::{first_long, first_too_deep};
use crate::numbers::first_overflow;
use gb_core::refusal::{Refused, Why};
use gb_script::action::Rule;
use gb_script::table::Step;
use gb_script::text::{Text, place_at};
use std::alloc::Global;

/// Refuses a text that is nested too deep, with `Depth` at the first token that stands in more than 64 levels. The steps
/// are those before the fault up to which the text can be read.
pub fn check_depth(
    alloc: Global,
    text: &Text,
    steps: &[Step<Rule>],
    fault: usize,
) -> Result<(), Refused>
    requires { fault ≤ length text.now.lexemes }
    ensures none { OnOk result (NoneTooDeep text.now steps.now fault) }
    ensures only { NoneTooDeep text.now steps.now fault → MatchResult result (λ _. Unit {0}) (λ e. e ≡ NoMemory) }
    ensures no_fault { IfErr result (λ e. e ≢ ReadFault) }
    ensures deep { (why : Why) (place : Place) → result ≡ Err (Script why place) → (why ≡ Depth) × IsDepthPlace text.now steps.now fault place }
{
    match first_too_deep(alloc, text, steps, fault) {
        Err(_) => Err(Refused::NoMemory),
        Ok(None) => Ok(()),
        Ok(Some(at)) => Err(Refused::Script {
            why: Why::Depth,
            place: place_at(text, at),
        }),
    }
}

/// Refuses a text with a chain that is too long, with `TooMany` at the first token of operand 257. The steps are those
/// that derive the text.
pub fn check_chains(alloc: Global, text: &Text, steps: &[Step<Rule>]) -> Result<(), Refused>
    ensures none { OnOk result (NoneLong text.now steps.now) }
    ensures only { NoneLong text.now steps.now → MatchResult result (λ _. Unit {0}) (λ e. e ≡ NoMemory) }
    ensures no_fault { IfErr result (λ e. e ≢ ReadFault) }
    ensures long { (why : Why) (place : Place) → result ≡ Err (Script why place) → (why ≡ TooMany 256) × IsChainPlace text.now steps.now place }
{
    match first_long(alloc, text, steps) {
        Err(_) => Err(Refused::NoMemory),
        Ok(None) => Ok(()),
        Ok(Some(at)) => Err(Refused::Script {
            why: Why::TooMany(u64::from(CHAIN)),
            place: place_at(text, at),
        }),
    }
}

/// Refuses a text with a number that is out of range, with `Overflow` at the first such number.
pub fn check_numbers(text: &Text) -> Result<(), Refused>
    ensures none { OnOk result (NoneOverflow text.now) }
    ensures only { NoneOverflow text.now → OnErr result ⊥ }
    ensures no_fault { IfErr result (λ e. e ≢ ReadFault) }
    ensures overflow { (why : Why) (place : Place) → result ≡ Err (Script why place) → IsOverflowPlace text.now why place }
{
    match first_overflow(text) {
        None => Ok(()),
        Some(found) => Err(Refused::Script {
            why: Why::Overflow {
                left: found.operands.left,
                right: found.operands.right,
            },
            place: place_at(text, found.at),
        }),
    }
}
