//! Where the loops end that a goal reaches, those end that the subgoals reach which a rule gives.

ghost use Rattle.std.specs.Prelude.{◌≡◌, List};
ghost use Rattle.std.specs.List.{AllByRecursion};
ghost use Rattle.gb_core.specs.declared.place.Place.{Place};
ghost use Rattle.gb_core.specs.declared.ty.Ty.TheVariants as ty;
ghost use Rattle.gb_goal.specs.Answers.Answer.{given};
ghost use Rattle.gb_goal.specs.Goal.{Goal, goal_of};
ghost use Rattle.gb_goal.specs.Rows.{Row, answered};
ghost use Rattle.gb_goal.specs.Scope.{Declarations};
ghost use Rattle.gb_goal.specs.declared.sequent.Sequent.{Sequent};
ghost use Rattle.gb_meaning.specs.Declared.{declared, Declarations as Declared};
ghost use Rattle.gb_meaning.specs.Holds.{Holds, InEachSetting};
ghost use Rattle.gb_meaning.specs.Setting.{Setting};
ghost use Rattle.gb_meaning.specs.Written.{type_of};
ghost use Rattle.gb_steps.specs.declared.step.AbstractRule.{AbstractRule};
ghost use Rattle.gb_steps.specs.declared.step.Acts.{Acts};
ghost use Rattle.gb_steps.specs.declared.step.AmbientRule.{AmbientRule};
ghost use Rattle.gb_steps.specs.declared.step.RewriteRule.{RewriteRule};
ghost use Rattle.gb_steps.specs.declared.step.Rule.{Rule};
ghost use Rattle.gb_steps.specs.declared.step.UseRule.{UseRule};
ghost use Rattle.gb_terms.specs.declared.decl.TypedName.{TypedName};
ghost use Rattle.gb_terms.specs.declared.term.Term.{Term};
ghost use Rattle.gb_typing.specs.Context.{Context};
ghost use Rattle.gb_typing.specs.Goals.{IsGoalOver, IsTypedGoal};
ghost use Rattle.gb_typing.specs.Rules.{IsSettingOver};
ghost use Rattle.gb_typing.specs.Scopes.{context_of, IsTypedScope};
ghost use Rattle.gb_typing.specs.Sequents.{of_sequent, IsTypedSequent};
ghost use Rattle.gb_typing.specs.Typing.{IsForm, IsTyped};
ghost use Rattle.gb_amb.specs.Steps.{IsAnswer, IsTypedStep};
ghost use Rattle.gb_bodies.specs.Rows as bodies;
ghost use Rattle.gb_adv.specs.Rows.{abstract_row};
ghost use Rattle.gb_call_both.specs.Rows as call_rows;
ghost use Rattle.gb_call_both.specs.Known as of_known;
ghost use Rattle.gb_pr.specs.ChanceRows as chance_rows;
ghost use Rattle.gb_equiv.specs.Rows as equivalences;
ghost use Rattle.gb_rewrite.specs.Rewriting.{IsUsable, rewrite_answer};
ghost use Rattle.gb_amb.specs.Uses as uses;
ghost use Rattle.gb_inline.specs.Proved.{IsSoundOnProved, ProvedEnd};
ghost use Rattle.gb_prog.specs.Ends.{Entered, IsSoundOnLoops, KeepsEnds, LoopsEnd, SequentEnds};

/// The rules on programs: what they give is made of statements of the goal; by `proc`, of those of a procedure that the goal names.
pub fn bodies()
    ensures { (ds : Declarations) → IsTypedScope (declared ds) → (r : Rule) (G : Goal) (Gs : List Goal) → bodies.rule_row ds r G ≡ given Gs →
        (g : Setting) → IsSettingOver (declared ds) g → Entered ds g r G → LoopsEnd g G → AllByRecursion (LoopsEnd g) Gs }
{}

/// The rules on equivalences, at typed goals.
pub fn relational()
    ensures { (ds : Declarations) (c : Context) (ls rs : List TypedName) (r : Rule) (G : Goal) → IsGoalOver c ls rs G → (Gs : List Goal) →
        equivalences.rule_row ds r G ≡ given Gs → KeepsEnds (declared ds) Gs G }
{}

/// The rules on judgments with a probability, at typed goals.
pub fn chances()
    ensures { (ds : Declarations) (c : Context) (ls rs : List TypedName) (r : Rule) (G : Goal) → IsGoalOver c ls rs G → (Gs : List Goal) →
        chance_rows.rule_row ds r G ≡ given Gs → KeepsEnds (declared ds) Gs G }
{}

/// The rules on calls, at typed goals.
pub fn calls()
    ensures { (ds : Declarations) (c : Context) (ls rs : List TypedName) (r : Rule) (G : Goal) → IsGoalOver c ls rs G → (Gs : List Goal) →
        call_rows.rule_row ds r G ≡ given Gs → KeepsEnds (declared ds) Gs G }
{}

/// The rules on procedures of abstract modules, at typed goals.
pub fn abstract_calls()
    ensures { (ds : Declarations) (c : Context) (ls rs : List TypedName) (r : AbstractRule) (G : Goal) → IsGoalOver c ls rs G → (Gs : List Goal) →
        abstract_row ds r G ≡ given Gs → KeepsEnds (declared ds) Gs G }
{}

/// The law of a rule on loops is one on sequents: typed subgoals, whose loops end where those of the sequent do; and where they hold too, so does
/// the sequent.
pub fn sequents()
    ensures { (ds : Declared) → IsTypedScope ds → (q : Sequent) (t : IsTypedSequent (context_of ds) q) → type_of q.conclusion ≡ ty.Bool → (ls rs : List TypedName) →
        IsGoalOver (of_sequent (context_of ds) q t.frames) ls rs (goal_of q.conclusion) → (row : Row) →
        ((Gs : List Goal) → row (goal_of q.conclusion) ≡ given Gs → IsSoundOnLoops ds (of_sequent (context_of ds) q t.frames) Gs (goal_of q.conclusion)) →
        (qs : List Sequent) → answered row q ≡ given qs →
        AllByRecursion (IsTypedSequent (context_of ds)) qs × (SequentEnds ds q → AllByRecursion (SequentEnds ds) qs × (AllByRecursion (Holds ds) qs → Holds ds q)) }
{}

/// So is that of a rule that puts bodies of procedures into goals, where those loops are good that are proved.
pub fn with_proved_loops()
    ensures { (ds : Declarations) → IsTypedScope (declared ds) → (q : Sequent) (t : IsTypedSequent (context_of (declared ds)) q) → type_of q.conclusion ≡ ty.Bool → (ls rs : List TypedName) →
        IsGoalOver (of_sequent (context_of (declared ds)) q t.frames) ls rs (goal_of q.conclusion) → InEachSetting (declared ds) q (ProvedEnd ds) → (row : Row) →
        ((Gs : List Goal) → row (goal_of q.conclusion) ≡ given Gs → IsSoundOnProved ds (of_sequent (context_of (declared ds)) q t.frames) Gs (goal_of q.conclusion)) →
        (qs : List Sequent) → answered row q ≡ given qs →
        AllByRecursion (IsTypedSequent (context_of (declared ds))) qs ×
        (SequentEnds (declared ds) q → AllByRecursion (SequentEnds (declared ds)) qs × (AllByRecursion (Holds (declared ds)) qs → Holds (declared ds) q)) }
{}

/// Where the loops of the subgoals that a row gives end in each setting in which those of the goal do, and in which is known what has to be
/// known of the goal besides, those of the sequents end which it gives of a sequent.
pub fn rows()
    ensures { (ds : Declarations) → IsTypedScope (declared ds) → (q : Sequent) (t : IsTypedSequent (context_of (declared ds)) q) → (r : Rule) →
        InEachSetting (declared ds) q (λ g. Entered ds g r (goal_of q.conclusion)) → (row : Row) →
        ((Gs : List Goal) → row (goal_of q.conclusion) ≡ given Gs → AllByRecursion (IsTypedGoal (of_sequent (context_of (declared ds)) q t.frames)) Gs ×
        ((g : Setting) → IsSettingOver (declared ds) g → Entered ds g r (goal_of q.conclusion) → LoopsEnd g (goal_of q.conclusion) → AllByRecursion (LoopsEnd g) Gs)) →
        (qs : List Sequent) → answered row q ≡ given qs → SequentEnds (declared ds) q → AllByRecursion (SequentEnds (declared ds)) qs }
{}

/// The steps on conclusions leave bodies as they are, or give goals without any; so do those that use what is known.
pub fn conclusions()
    ensures steps { (ds : Declared) (q : Sequent) (t : IsTypedSequent (context_of ds) q) (r : AmbientRule) → IsTypedStep (of_sequent (context_of ds) q t.frames) q.conclusion r →
        (place : Place) (qs : List Sequent) → IsAnswer r place q (given qs) → SequentEnds ds q → AllByRecursion (SequentEnds ds) qs }
    ensures uses { (ds : Declared) (q : Sequent) (c : Context) (r : UseRule) → IsForm c (uses.used_by r) → (place : Place) (qs : List Sequent) → uses.IsAnswer r place q (given qs) →
        SequentEnds ds q → AllByRecursion (SequentEnds ds) qs }
{}

/// Where equals are put for equals, the loops of bodies end as before.
pub fn equals()
    ensures { (ds : Declarations) → IsTypedScope (declared ds) → (q : Sequent) (t : IsTypedSequent (context_of (declared ds)) q) (r : RewriteRule) →
        IsUsable (declared ds) q (of_sequent (context_of (declared ds)) q t.frames) r → (place : Place) (qs : List Sequent) → given qs ≡ rewrite_answer ds r place q →
        SequentEnds (declared ds) q → AllByRecursion (SequentEnds (declared ds)) qs }
{}

/// A conclusion that is a typed form has no loops.
pub fn forms()
    ensures { (ds : Declared) (q : Sequent) (c : Context) → IsTyped c q.conclusion → SequentEnds ds q }
{}

/// `call` by a judgment that is known, at a typed goal.
pub fn known_calls()
    ensures { (ds : Declarations) → IsTypedScope (declared ds) → (q : Sequent) (t : IsTypedSequent (context_of (declared ds)) q) (a : Acts) (f : Term) →
        IsForm (of_sequent (context_of (declared ds)) q t.frames) f → Holds (declared ds) (record q { conclusion = f }) →
        (place : Place) (qs : List Sequent) → of_known.IsAnswer ds a f place q (given qs) → SequentEnds (declared ds) q → AllByRecursion (SequentEnds (declared ds)) qs }
{}
