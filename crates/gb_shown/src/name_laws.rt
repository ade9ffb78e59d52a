// Names and numbers of goals.

ghost use Rattle.std.specs.Prelude.{List};
ghost use Rattle.std.specs.List.{AllByRecursion};
ghost use Rattle.gb_core.specs.declared.place.Place.{Place};
ghost use Rattle.gb_goal.specs.Answers.Answer.{given};
ghost use Rattle.gb_goal.specs.Scope as scope;
ghost use Rattle.gb_goal.specs.declared.sequent.Sequent.{Sequent};
ghost use Rattle.gb_meaning.specs.Declared.{Declarations};
ghost use Rattle.gb_print_names.specs.declared.bound_names.Enumeration.{Enumeration};
ghost use Rattle.gb_print.specs.GoalText.{place_of_goal, printed_goal};
ghost use Rattle.gb_print.specs.Goals.{IsGoalReadAs};
ghost use Rattle.gb_shown.specs.Spelt.{IsSpeltGoal};
ghost use Rattle.gb_shown.specs.Named.{IsNamedInstr, IsNamedSequent};
ghost use Rattle.gb_shown.specs.Rules.{AreNamedArguments, AreNamedGlobals, AreNamedOperators, AreNamedProcedures};
ghost use Rattle.gb_steps.specs.declared.step.Rule.{Rule};
ghost use Rattle.gb_terms.specs.declared.decl.TypedName.{TypedName};
ghost use Rattle.gb_terms.specs.declared.term.Instr.{Instr};
ghost use Rattle.gb_theory.specs.Commands.{Applied};
ghost use Rattle.gb_typing.specs.Context.{Context};
ghost use Rattle.gb_typing.specs.Programs.{EachStatement};
ghost use Rattle.gb_typing.specs.Scopes.{context_of};
ghost use Rattle.gb_typing.specs.Sequents.{IsTypedSequent};
ghost use Rattle.gb_loops.specs.Variants.{goals_of};

use crate::goal_laws::typed_goals_are_read;

/// A typed goal in which names are names and numbers are in range can be written in the language, wherever its forms stand.
pub fn named_goals_are_spelt()
    ensures { (ds : Declarations) (ss : scope.Declarations) (es : List Enumeration) (q : Sequent) → IsTypedSequent (context_of ds) q → IsNamedSequent es q →
        IsSpeltGoal (place_of_goal ss es q) q }
{}

/// What is printed of it spells its tree, but for places, and no other, and is read.
pub fn named_goals_are_read()
    ensures { (ds : Declarations) (ss : scope.Declarations) (es : List Enumeration) (q : Sequent) → IsTypedSequent (context_of ds) q → IsNamedSequent es q →
        IsGoalReadAs (printed_goal ss es q) (place_of_goal ss es q) q }
{
    named_goals_are_spelt();
    typed_goals_are_read();
}

/// Whatever a rule gives of such a goal is such goals, where the names and forms that it is given, and those of the scope, are such.
pub fn steps()
    ensures { (es : List Enumeration) (ds : scope.Declarations) → AreNamedGlobals ds → AreNamedProcedures es ds → AreNamedOperators es ds → (d : Declarations) (q : Sequent) →
        IsTypedSequent (context_of d) q → IsNamedSequent es q → (r : Rule) → AreNamedArguments es r → (place : Place) (qs : List Sequent) → Applied ds r place q (given qs) →
        AllByRecursion (IsNamedSequent es) qs }
{}

/// So are the goals that show that the loops of a typed body end, where the body is such.
pub fn termination()
    ensures { (es : List Enumeration) (c : Context) (ls : List TypedName) (is : List Instr) → EachStatement c ls is → AllByRecursion (IsNamedInstr es) is → AllByRecursion (IsNamedSequent es) (goals_of is) }
{}
