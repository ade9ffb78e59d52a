// A law of sessions.

ghost use Rattle.std.specs.Prelude.{ℕ, List};
ghost use Rattle.gb_core.specs.declared.place.Place.{Place};
ghost use Rattle.gb_goal.specs.Answers.{Answer};
ghost use Rattle.gb_session.specs.History.{History};
ghost use Rattle.gb_session.specs.Commands.{EntryLeads};

use gb_theory::outcome_laws::commands_have_answers;

/// Each line comes to something at each session.
pub fn each_line_has_an_answer()
    ensures { (h : History) (text : List ℕ) (at : Place) → (r : Answer History) × EntryLeads h text at r }
{
    commands_have_answers();
}
