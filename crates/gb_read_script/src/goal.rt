// Goals.

ghost use Rattle.std.specs.Prelude.{◌≡◌, ◌≢◌, ◌<◌, ◌^◌, [], ◌∷◌, IfOk, IfErr, OnOk, MatchResult, Err, None, length};
ghost use Rattle.std.specs.List.{All};
ghost use Rattle.gb_core.specs.declared.place.Place.{Place};
ghost use Rattle.gb_core.specs.declared.refusal.Why.{Why};
ghost use Rattle.gb_core.specs.declared.refusal.Refused.TheVariants.{NoMemory, ReadFault, Script};
ghost use Rattle.gb_lex.specs.Lex.{fault_of};
ghost use Rattle.gb_limits.specs.LeftOut.{NoneLeftOut};
ghost use Rattle.gb_read_script.specs.GoalLines.{IsRefusedFor};
ghost use Rattle.gb_read_script.specs.Goal.{goal_text, SpellsGoal, IsSortedGoal, all_lines, IsShort, IsTooMany, IsWithin, IsTokenRefusal, IsLineRefusal, IsGoalRefusal, IsGoalAllowed};

use crate::goal_lines::{ReadGoal, ReadLine, read_goal};
use crate::goal_tree::{SequentTree, tree};
use crate::laws::{goal_refusals_are_unique, goals_are_sorted};
use crate::reading::checked_text;
use gb_core::place::Place;
use gb_core::refusal::Refused;
use gb_lex::lexing::tokens;
use gb_limits::checks::{check_chains, check_numbers};
use gb_script::text::Text;
use std::alloc::Global;

// The tokens of a goal's text, none of them left out.
#[tactic(auto, using(crate::proofs::Refusals::character))]
fn goal_text(alloc: Global, text: &[u8]) -> Result<Text, Refused>
    requires { length text.now < 2 ^ 31 }
    ensures text { IfOk result (λ t. t ≡ goal_text text.now) }
    ensures faultless { OnOk result (fault_of text.now ≡ None) }
    ensures left_out { IfOk result NoneLeftOut }
    ensures refused { IfErr result (IsRefusedFor (IsTokenRefusal text.now)) }
{
    let start = Place {
        file: 0,
        line: 1,
        col: 1,
    };
    match tokens(alloc, text, start) {
        Err(refused) => Err(refused),
        Ok(tokens) => checked_text(alloc, text, &tokens, start),
    }
}

// Refuses a line with a chain that is too long.
#[tactic(auto, using(crate::proofs::Firsts::long_line))]
fn check_line(alloc: Global, line: &ReadLine) -> Result<(), Refused>
    ensures short { OnOk result (IsShort line.now) }
    ensures long { IfErr result (IsRefusedFor (IsTooMany (line.now ∷ []))) }
{
    check_chains(alloc, &line.text, line.steps.as_slice())
}

// Refuses a goal with a chain that is too long.
#[tactic(auto, using(crate::proofs::Firsts::refused_at))]
fn check_lines(alloc: Global, goal: &ReadGoal) -> Result<(), Refused>
    ensures short { OnOk result (All IsShort (all_lines goal.now)) }
    ensures long { IfErr result (IsRefusedFor (IsTooMany (all_lines goal.now))) }
{
    for line in goal.context.as_slice() {
        check_line(alloc, line)?;
    }
    check_line(alloc, &goal.conclusion)
}

// The goal that the lines of a text are, if it passes no limit. The numbers of the text are looked at before its lines
// are taken from it, and told last.
fn within_limits(alloc: Global, text: Text) -> Result<ReadGoal, Refused>
    ensures within { IfOk result (IsWithin text) }
    ensures refused { IfErr result (IsRefusedFor (IsLineRefusal text)) }
{
    let numbers = check_numbers(&text);
    let goal = read_goal(alloc, text)?;
    check_lines(alloc, &goal)?;
    match numbers {
        Err(refused) => Err(refused),
        Ok(()) => Ok(goal),
    }
}

/// The goal that a text spells: a line for each entry of its context, a line `---`, and a line for its conclusion.
///
/// Refused, in this order: `Character` at the first byte that starts no token; `LeftOut` at the first token that is left
/// out; `Syntax` at the first token with which no goal goes on, or at the end where the text ends too soon; `TooMany`
/// at the first token of operand 257 of a chain; `Overflow` at the first number that is out of range.
#[tactic(auto, using(crate::proofs::Refusals::token_refused, crate::proofs::Refusals::line_refused))]
pub fn goal(alloc: Global, text: &[u8]) -> Result<SequentTree, Refused>
    requires { length text.now < 2 ^ 31 }
    ensures found { IfOk result (λ tree. SpellsGoal text.now tree) }
    ensures sorted { IfOk result IsSortedGoal }
    ensures allowed { OnOk result (IsGoalAllowed text.now) }
    ensures only { IsGoalAllowed text.now → MatchResult result (λ _. Unit {0}) (λ e. e ≡ NoMemory) }
    ensures no_fault { IfErr result (λ e. e ≢ ReadFault) }
    ensures refused { (why : Why) (place : Place) → result ≡ Err (Script why place) → IsGoalRefusal text.now why place }
{
    goal_refusals_are_unique();
    goals_are_sorted();
    match goal_text(alloc, text) {
        Err(refused) => Err(refused),
        Ok(text) => match within_limits(alloc, text) {
            Err(refused) => Err(refused),
            Ok(goal) => Ok(tree(alloc, &goal)?),
        },
    }
}
