//! Each lemma of an accepted script holds, and what else is known of its scope.

ghost use Rattle.std.specs.Prelude.{ℕ, List};
ghost use Rattle.gb_goal.specs.Answers.Answer.{given};
ghost use Rattle.gb_elab_laws.specs.Members.{CallsAreDeclared};
ghost use Rattle.gb_theory.specs.Built.{Session};
ghost use Rattle.gb_theory.specs.Outcome.{IsOutcome};
ghost use Rattle.gb_accepted.specs.Holding.{IsPromised};
ghost use Rattle.gb_accepted.specs.Scopes.{EndedLoopsAreGood, FootprintsAreMeant};

use gb_closing_laws::linear_laws::linear_is_sound;
use gb_closing_laws::smt_laws::sound_smt;
use gb_elab_laws::declaration_laws::{entries, lemmas, modules, names, statements};
use gb_elab_laws::promise_laws::{equivalences_give_couplings, typed_scopes_have_models};
use gb_elab_laws::stay_laws::{goals_stay, goals_stay_typed, parts_of_scopes};
use gb_elab_laws::step_laws::{typed_forms, typed_rules};
use gb_meaning::truth_laws::declared_modules;
use gb_typing::goal_laws::{fronts, typing};
use gb_typing::rule_laws::{contexts, sequents};

/// Where a script comes to a session, and to no refusal, the scope of the session is typed, so that each name is
/// declared once; it is sound; and the lemmas that the session names are those of the scope, in their order, each of
/// which is typed and holds over the declarations before it, for all programs within the abstract modules that it binds. These declarations
/// have a model; and an equivalence of two procedures gives, in each model, for all such programs, and from each two related memories, a
/// coupling of both outputs, with its marginals compared at each output.
/// The procedures of the scope call declared ones alone. Each loop that a procedure of ended modules reaches is good in each model, and the
/// footprint of a module expression that lacks nothing, as it is computed, is that of the meaning.
pub fn accepted_scripts()
    ensures promised { (text : List ℕ) (s : Session) → IsOutcome text (given s) → IsPromised s }
    ensures calls { (text : List ℕ) (s : Session) → IsOutcome text (given s) → CallsAreDeclared s.scope }
    ensures ended { (text : List ℕ) (s : Session) → IsOutcome text (given s) → EndedLoopsAreGood s.scope }
    ensures footprints { (text : List ℕ) (s : Session) → IsOutcome text (given s) → FootprintsAreMeant s.scope }
{
    entries();
    modules();
    statements();
    lemmas();
    names();
    gb_print::text_laws::texts_begin_with_no_blank();
    typed_rules();
    typed_forms();
    typing();
    fronts();
    contexts();
    sequents();
    gb_bodies::laws::rules();
    gb_bodies::laws::other_forms();
    gb_equiv::relational_laws::relational_rules();
    gb_equiv::relational_laws::other_goals();
    gb_pr::chance_laws::chance_rules();
    gb_pr::chance_laws::no_judgments();
    gb_pr::laws::probability_rules();
    gb_call_both::laws::call_rules();
    gb_call_both::laws::other_conclusions();
    gb_adv::laws::abstract_rules();
    gb_adv::laws::refused_forms();
    gb_inline::laws::transforming_rules();
    gb_inline::laws::untransformed_forms();
    gb_trans::beside_laws::decided_beside();
    gb_call_both::known_laws::known_calls();
    gb_sim::laws::same_statements();
    crate::end_laws::rows();
    crate::end_laws::sequents();
    crate::end_laws::with_proved_loops();
    crate::end_laws::bodies();
    crate::end_laws::relational();
    crate::end_laws::chances();
    crate::end_laws::calls();
    crate::end_laws::abstract_calls();
    crate::end_laws::known_calls();
    crate::end_laws::conclusions();
    crate::end_laws::equals();
    crate::end_laws::forms();
    gb_elab_laws::loop_laws::entered();
    gb_elab_laws::loop_laws::proved_loops();
    gb_elab_laws::loop_laws::ended_modules();
    gb_elab_laws::footprint_laws::declared_calls();
    gb_elab_laws::footprint_laws::footprints();
    gb_loops::while_loop::while_is_sound();
    gb_amb::laws::steps();
    gb_amb::using_laws::sound_uses();
    gb_amb::using_laws::instances_hold();
    gb_rewrite::laws::sound_rewriting();
    sound_smt();
    linear_is_sound();
    typed_scopes_have_models();
    equivalences_give_couplings();
    goals_stay();
    goals_stay_typed();
    declared_modules();
    gb_elab_laws::lemma_laws::instances();
    parts_of_scopes();
}
