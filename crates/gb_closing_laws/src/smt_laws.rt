//! `smt` is sound for typed goals.

ghost use Rattle.std.specs.Prelude.{◌≡◌, true, List, [], map};
ghost use Rattle.std.specs.List.{All, AllByRecursion};
ghost use Rattle.gb_core.specs.declared.place.Place.{Place};
ghost use Rattle.gb_core.specs.declared.value.Value.{Value};
ghost use Rattle.gb_terms.specs.declared.term.Term.{Term};
ghost use Rattle.gb_goal.specs.Answers.Answer.{given};
ghost use Rattle.gb_goal.specs.declared.sequent.Sequent.{Sequent};
ghost use Rattle.gb_goal.specs.Scope.{Declarations};
ghost use Rattle.gb_meaning.specs.Memory.{Memory};
ghost use Rattle.gb_meaning.specs.Setting.{Setting};
ghost use Rattle.gb_meaning.specs.Judgments.{Judge, IsFair, den};
ghost use Rattle.gb_meaning.specs.Declared.{declared};
ghost use Rattle.gb_meaning.specs.Holds.{AreValues, context, Holds};
ghost use Rattle.gb_typing.specs.Sequents.{of_sequent, IsTypedSequent};
ghost use Rattle.gb_typing.specs.Fits.{IsSettingOf};
ghost use Rattle.gb_typing.specs.Forms.{IsKeptOff};
ghost use Rattle.gb_mods.specs.Exclusions.{exclusions};
ghost use Rattle.gb_typing.specs.Typing.{IsForm};
ghost use Rattle.gb_typing.specs.Scopes.{context_of, IsTypedScope};
ghost use Rattle.gb_eval.specs.Meant.{AreBodies};
ghost use Rattle.gb_smt.specs.Claims.{claim_of};
ghost use Rattle.gb_smt.specs.Leaves.{leaves_of};
ghost use Rattle.gb_smt.specs.Apply.{Closes, IsClosed};
ghost use Rattle.gb_closing_laws.specs.Step.{IsSmtAnswer};

/// In a typed scope a typed goal whose leaves are all closed holds, where the typed forms that are known besides follow from its
/// hypotheses.
pub fn sound_smt()
    ensures { (ds : Declarations) → IsTypedScope (declared ds) → (q : Sequent) (t : IsTypedSequent (context_of (declared ds)) q) → (known : List Term) →
        AllByRecursion (IsForm (of_sequent (context_of (declared ds)) q t.frames)) known → All (IsClosed ds) (leaves_of known q) →
        AllByRecursion (λ f. Holds (declared ds) (record q { conclusion = f })) known → Holds (declared ds) q }
{}

/// `smt` as a step at the sequent of a typed scope: the sequents that it gives are typed, and if each of them holds, the sequent
/// holds. It gives none.
pub fn smt_is_sound()
    ensures { (ds : Declarations) → IsTypedScope (declared ds) → (q : Sequent) → IsTypedSequent (context_of (declared ds)) q →
        (place : Place) (qs : List Sequent) → IsSmtAnswer ds [] place q (given qs) →
        AllByRecursion (IsTypedSequent (context_of (declared ds))) qs × (AllByRecursion (Holds (declared ds)) qs → Holds (declared ds) q) }
{}

/// A claim of typed forms that is narrow enough, and true under every assignment for each choice of numbers of labels from 1 up to the
/// number of its things, is true in each setting of the context, whatever the globals of its modules: in each state in which its
/// hypotheses are true its conclusion is, under each fair judge, where operators mean their bodies and what restrictions exclude is kept
/// off.
pub fn labels_are_enough()
    ensures { (ds : Declarations) → IsTypedScope (declared ds) → (q : Sequent) (t : IsTypedSequent (context_of (declared ds)) q) → (g : Setting) →
        IsSettingOf (of_sequent (context_of (declared ds)) q t.frames) g → AreBodies g ds → IsKeptOff (exclusions ds) g → (i : Judge) → IsFair g i → (hyps : List Term) (f : Term) →
        AllByRecursion (IsForm (of_sequent (context_of (declared ds)) q t.frames)) hyps → IsForm (of_sequent (context_of (declared ds)) q t.frames) f →
        Closes ds (claim_of hyps f) → (vs : List Value) → AreValues g.types (map (λ x. x.ty) q.logical) vs → (ms : List Memory) →
        AllByRecursion (λ h. den g i h (context vs ms) ≡ true) hyps → den g i f (context vs ms) ≡ true }
{}
