// What `try` and `do` make of what their step makes.

ghost use Rattle.std.specs.Prelude.{◌≡◌, [], ◌∷◌, List, IfOk};
ghost use Rattle.gb_goal.specs.Answers.{Answer, Answers};
ghost use Rattle.gb_goal.specs.declared.sequent.Sequent.{Sequent as Goal};
ghost use Rattle.gb_limits.specs.Numbers.{number_of};
ghost use Rattle.gb_script.specs.Tree.{text_of};
ghost use Rattle.gb_theory.specs.Combinators.{or_left, times_allowed};

use gb_core::refusal::Refused;
use gb_goal::sequent::{Sequent, Sequents};
use gb_limits::numbers::number;
use gb_prog::subgoals::one_goal;
use gb_script::tree::Node;
use std::alloc::{AllocError, Global};

/// A goal alone.
pub fn only(alloc: Global, goal: &Sequent) -> Result<Sequents, AllocError>
    ensures { IfOk result (λ made. made ≡ goal.now ∷ []) }
{
    let conclusion = goal.conclusion.share()?;
    one_goal(alloc, goal, conclusion)
}

/// What `try` makes of a goal where its step makes this of it: a refusal leaves the goal. Want of memory isn't caught.
pub fn or_left(
    alloc: Global,
    goal: &Sequent,
    made: Result<Sequents, Refused>,
) -> Result<Sequents, Refused>
    ensures { (x : Answer (List Goal)) → Answers x made → Answers (or_left x goal.now) result }
{
    match made {
        Ok(goals) => Ok(goals),
        Err(refused) if refused.is_script() => Ok(only(alloc, goal)?),
        Err(refused) => Err(refused),
    }
}

/// How often `do` repeats its step, where this is 1 to 64 times.
pub fn times_allowed(digits: &Node) -> Option<u64>
    ensures { result ≡ times_allowed (number_of (text_of digits.now)) }
{
    match number(digits.text.as_str().as_bytes()) {
        Ok(count) if 1 <= count && count <= 64 => Some(count as u64),
        _ => None,
    }
}
