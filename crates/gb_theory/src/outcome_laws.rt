// A script comes to one thing.

ghost use Rattle.std.specs.Prelude.{◌≡◌, ℕ, List};
ghost use Rattle.gb_goal.specs.Answers.{Answer};
ghost use Rattle.gb_theory.specs.Built.{Session};
ghost use Rattle.gb_script.specs.declared.tree.Node.{Node};
ghost use Rattle.gb_goal.specs.Scope.{Declarations};
ghost use Rattle.gb_goal.specs.declared.sequent.Sequent.{Sequent};
ghost use Rattle.gb_theory.specs.Combinators.{Stepping};
ghost use Rattle.gb_core.specs.declared.place.Place.{Place};
ghost use Rattle.gb_theory.specs.Commands.{AreRules, ComesTo, RuleAnswers};
ghost use Rattle.gb_theory.specs.Outcome.{IsOutcome, IsReadAs};

use gb_amb::laws::answers;
use gb_amb::using_laws::answers_of_uses;
use gb_lex::laws::{commands_have_bytes, each_fault_has_a_place};
use gb_read_script::laws::{
    commands_are_unique, each_text_is_read_or_refused, refusals_are_unique,
};
use gb_smt::laws::{there_is_an_answer, there_is_one_answer};

/// A script comes to one thing at most: to one session, or to one refusal at one place.
pub fn one_outcome()
    ensures { (text : List ℕ) (r s : Answer Session) → IsOutcome text r → IsOutcome text s → r ≡ s }
{
    commands_are_unique();
    refusals_are_unique();
    there_is_one_answer();
    answers();
    answers_of_uses();
}

/// Each script comes to something: to a session, or to a refusal at a place.
pub fn each_text_has_an_outcome()
    ensures { (text : List ℕ) → (r : Answer Session) × IsOutcome text r }
{
    there_is_an_answer();
    answers();
    answers_of_uses();
    each_fault_has_a_place();
    each_text_is_read_or_refused();
    commands_have_bytes();
}

/// Each command comes to something at each session, and the text of a command is read as something.
pub fn commands_have_answers()
    ensures runs { (s : Session) (c : Node) → (r : Answer Session) × ComesTo s c r }
    ensures read { (text : List ℕ) (at : Place) → (r : Answer Node) × IsReadAs text at r }
{
    there_is_an_answer();
    answers();
    answers_of_uses();
    each_fault_has_a_place();
    each_text_is_read_or_refused();
    commands_have_bytes();
}

/// Each rule of a text answers something at each goal, and one thing at most.
pub fn rules_have_answers()
    ensures some { (ds : Declarations) → (f : Node → Stepping) × AreRules ds f }
    ensures one { (ds : Declarations) (t : Node) (q : Sequent) (x y : Answer (List Sequent)) → RuleAnswers ds t q x → RuleAnswers ds t q y → x ≡ y }
{
    there_is_an_answer();
    there_is_one_answer();
    answers();
    answers_of_uses();
}
