//! What a session shows reads back.

ghost use Rattle.gb_session.specs.History.{History};
ghost use Rattle.gb_shown.specs.Shown.{IsReached, IsReadBack};

use gb_closing_laws::linear_laws::linear_is_sound;
use gb_closing_laws::smt_laws::sound_smt;
use gb_elab_laws::declaration_laws::{entries, lemmas, modules, names, statements};
use gb_elab_laws::promise_laws::{equivalences_give_couplings, typed_scopes_have_models};
use gb_elab_laws::stay_laws::{goals_stay, goals_stay_typed, parts_of_scopes};
use gb_elab_laws::step_laws::{typed_forms, typed_rules};
use gb_meaning::truth_laws::declared_modules;
use gb_typing::goal_laws::{fronts, typing};
use gb_typing::rule_laws::{contexts, sequents};

/// Each goal that a session shows, wherever its lines have led to, is read back as that goal, with the modules that its lemma binds: what is
/// printed of it spells its tree, and no other, and is read wherever it has fewer than 2^31 bytes.
pub fn shown_goals_are_read()
    ensures { (h : History) → IsReached h → IsReadBack h.present }
{
    entries();
    modules();
    statements();
    lemmas();
    names();
    gb_print::text_laws::texts_begin_with_no_blank();
    typed_rules();
    typed_forms();
    typing();
    fronts();
    contexts();
    sequents();
    gb_bodies::laws::rules();
    gb_bodies::laws::other_forms();
    gb_equiv::relational_laws::relational_rules();
    gb_equiv::relational_laws::other_goals();
    gb_pr::chance_laws::chance_rules();
    gb_pr::chance_laws::no_judgments();
    gb_pr::laws::probability_rules();
    gb_call_both::laws::call_rules();
    gb_call_both::laws::other_conclusions();
    gb_adv::laws::abstract_rules();
    gb_adv::laws::refused_forms();
    gb_inline::laws::transforming_rules();
    gb_inline::laws::untransformed_forms();
    gb_trans::beside_laws::decided_beside();
    gb_call_both::known_laws::known_calls();
    gb_sim::laws::same_statements();
    gb_accepted::end_laws::rows();
    gb_accepted::end_laws::sequents();
    gb_accepted::end_laws::with_proved_loops();
    gb_accepted::end_laws::bodies();
    gb_accepted::end_laws::relational();
    gb_accepted::end_laws::chances();
    gb_accepted::end_laws::calls();
    gb_accepted::end_laws::abstract_calls();
    gb_accepted::end_laws::known_calls();
    gb_accepted::end_laws::conclusions();
    gb_accepted::end_laws::equals();
    gb_accepted::end_laws::forms();
    gb_elab_laws::loop_laws::entered();
    gb_elab_laws::loop_laws::proved_loops();
    gb_elab_laws::loop_laws::ended_modules();
    gb_elab_laws::footprint_laws::footprints();
    gb_loops::while_loop::while_is_sound();
    gb_amb::laws::steps();
    gb_amb::using_laws::sound_uses();
    gb_amb::using_laws::instances_hold();
    gb_rewrite::laws::sound_rewriting();
    sound_smt();
    linear_is_sound();
    typed_scopes_have_models();
    equivalences_give_couplings();
    goals_stay();
    goals_stay_typed();
    declared_modules();
    gb_elab_laws::lemma_laws::instances();
    parts_of_scopes();
    crate::name_laws::steps();
    crate::name_laws::termination();
    crate::name_laws::named_goals_are_read();
    gb_read_script::laws::words_are_tokens();
    gb_language::laws::trees_are_sorted();
}
