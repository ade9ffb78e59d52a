// What typing gives to read-back.

ghost use Rattle.std.specs.Prelude.{List};
ghost use Rattle.gb_goal.specs.Scope as scope;
ghost use Rattle.gb_goal.specs.declared.sequent.Sequent.{Sequent};
ghost use Rattle.gb_meaning.specs.Declared.{Declarations};
ghost use Rattle.gb_typing.specs.Sequents.{IsTypedSequent};
ghost use Rattle.gb_typing.specs.Scopes.{context_of};
ghost use Rattle.gb_print_names.specs.declared.bound_names.Enumeration.{Enumeration};
ghost use Rattle.gb_print.specs.GoalText.{place_of_goal, printed_goal};
ghost use Rattle.gb_print.specs.Goals.{IsWrittenGoal, IsGoalReadAs};
ghost use Rattle.gb_shown.specs.Spelt.{IsSpeltGoal};

use gb_print::laws::printed_goals_are_read;

/// A typed goal in which names are names of the language and numbers are in range can be written: its heads have their
/// operands, and the variables, the memories and what is bound of which it speaks are there.
pub fn typed_goals_can_be_written()
    ensures { (ds : Declarations) (ss : scope.Declarations) (es : List Enumeration) (q : Sequent) → IsTypedSequent (context_of ds) q → IsSpeltGoal (place_of_goal ss es q) q →
        IsWrittenGoal (place_of_goal ss es q) q }
{}

/// What is printed of it spells its tree, but for places, and no other, and is read.
pub fn typed_goals_are_read()
    ensures { (ds : Declarations) (ss : scope.Declarations) (es : List Enumeration) (q : Sequent) → IsTypedSequent (context_of ds) q → IsSpeltGoal (place_of_goal ss es q) q →
        IsGoalReadAs (printed_goal ss es q) (place_of_goal ss es q) q }
{
    typed_goals_can_be_written();
    printed_goals_are_read();
}
