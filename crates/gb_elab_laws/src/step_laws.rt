//! What the typing of a proof step gives.

ghost use Rattle.std.specs.Prelude.{◌≡◌, List, []};
ghost use Rattle.std.specs.List.{AllByRecursion};
ghost use Rattle.gb_terms.specs.declared.decl.TypedName.{TypedName};
ghost use Rattle.gb_terms.specs.declared.module.ProcRef.{ProcRef};
ghost use Rattle.gb_terms.specs.declared.op.Side.{Side};
ghost use Rattle.gb_terms.specs.declared.term.Term.{Term};
ghost use Rattle.gb_script.specs.declared.tree.Node.{Node};
ghost use Rattle.gb_goal.specs.Scope as scope;
ghost use Rattle.gb_goal.specs.declared.sequent.Sequent.{Sequent};
ghost use Rattle.gb_steps.specs.declared.step.AbstractRule.{AbstractRule};
ghost use Rattle.gb_steps.specs.declared.step.AmbientRule.{AmbientRule};
ghost use Rattle.gb_steps.specs.declared.step.Rule.TheVariants.{Abstract, Ambient, Rewrite, Use};
ghost use Rattle.gb_steps.specs.declared.step.EventLaw.TheVariants.{Split};
ghost use Rattle.gb_steps.specs.declared.step.RewriteRule.TheVariants.{Law};
ghost use Rattle.gb_steps.specs.declared.step.UseRule.{UseRule};
ghost use Rattle.gb_steps.specs.Told.{told};
ghost use Rattle.gb_steps.specs.declared.step.Step.{Step};
ghost use Rattle.gb_goal.specs.Answers.Answer.{given};
ghost use Rattle.gb_goal.specs.Goal.{goal_of};
ghost use Rattle.gb_meaning.specs.Declared.{declared};
ghost use Rattle.gb_typing.specs.Context.{Context, frame_of, procedure, with_own};
ghost use Rattle.gb_typing.specs.Typing.{IsForm, IsTyped, after};
ghost use Rattle.gb_typing.specs.Sequents.{of_sequent, IsTypedSequent};
ghost use Rattle.gb_typing.specs.Scopes.{context_of, IsTypedScope};
ghost use Rattle.gb_typing.specs.Goals.{IsGoalOver};
ghost use Rattle.gb_elab_mod.specs.Occurring.{read_locals};
ghost use Rattle.gb_elab_mod.specs.Steps.{step_given};
ghost use Rattle.gb_elab_laws.specs.Procedures.{AreStated};
ghost use Rattle.gb_elab_laws.specs.Reading.{IsOuter, StandIn};
ghost use Rattle.gb_bodies.specs.Rows as bodies;
ghost use Rattle.gb_pr.specs.Rows as probabilities;
ghost use Rattle.gb_equiv.specs.Rows.{IsTypedRule};
ghost use Rattle.gb_call_both.specs.Rows as calls;
ghost use Rattle.gb_adv.specs.Rows as adversaries;
ghost use Rattle.gb_amb.specs.Steps.{IsTypedStep};
ghost use Rattle.gb_amb.specs.Lemmas.{IsKnown};
ghost use Rattle.gb_amb.specs.Uses as uses;

/// The locals that a well-typed term reads through the own memory, the left or the right one are locals of this memory.
pub fn locals_read()
    ensures { (c : Context) (t : Term) → IsTyped c t → (s : Side) → IsOuter s → StandIn (frame_of c s) (read_locals t s) }
{}

/// The arguments of a typed step at a typed goal are typed over the locals of the bodies: the functions of `rnd` between the values of
/// the samplings that end both bodies, the forms of `seq`, `case` and `conseq`, what relates two procedures to the one between, what a
/// called procedure is said to do, what oracles of an abstract one are said to keep, and what is said before and after procedures whose
/// probabilities a goal compares, in a typed scope.
pub fn typed_rules()
    ensures bodies { (ds : scope.Declarations) → IsTypedScope (declared ds) → (q : Sequent) (t : IsTypedSequent (context_of (declared ds)) q) →
        (n : Node) (s : Step) → step_given ds q n ≡ given s →
        (ls rs : List TypedName) → IsGoalOver (of_sequent (context_of (declared ds)) q t.frames) ls rs (goal_of q.conclusion) →
        bodies.IsTypedRule (of_sequent (context_of (declared ds)) q t.frames) s.rule ls rs (goal_of q.conclusion) }
    ensures relational { (ds : scope.Declarations) → IsTypedScope (declared ds) → (q : Sequent) (t : IsTypedSequent (context_of (declared ds)) q) →
        (n : Node) (s : Step) → step_given ds q n ≡ given s →
        (ls rs : List TypedName) → IsGoalOver (of_sequent (context_of (declared ds)) q t.frames) ls rs (goal_of q.conclusion) →
        IsTypedRule (of_sequent (context_of (declared ds)) q t.frames) s.rule ls rs (goal_of q.conclusion) }
    ensures calls { (ds : scope.Declarations) → IsTypedScope (declared ds) → (q : Sequent) (t : IsTypedSequent (context_of (declared ds)) q) →
        (n : Node) (s : Step) → step_given ds q n ≡ given s →
        (ls rs : List TypedName) → IsGoalOver (of_sequent (context_of (declared ds)) q t.frames) ls rs (goal_of q.conclusion) →
        calls.IsTypedRule (of_sequent (context_of (declared ds)) q t.frames) s.rule ls rs (goal_of q.conclusion) }
    ensures adversaries { (ds : scope.Declarations) → IsTypedScope (declared ds) → (q : Sequent) (t : IsTypedSequent (context_of (declared ds)) q) →
        (n : Node) (s : Step) → step_given ds q n ≡ given s → (r : AbstractRule) → s.rule ≡ Abstract r → (ls rs : List TypedName) →
        adversaries.IsTypedRule (of_sequent (context_of (declared ds)) q t.frames) r ls rs (goal_of q.conclusion) }
    ensures probabilities { (ds : scope.Declarations) → IsTypedScope (declared ds) → (q : Sequent) (t : IsTypedSequent (context_of (declared ds)) q) →
        (n : Node) (s : Step) → step_given ds q n ≡ given s →
        (ls rs : List TypedName) → IsGoalOver (of_sequent (context_of (declared ds)) q t.frames) ls rs (goal_of q.conclusion) →
        probabilities.IsTypedRule (of_sequent (context_of (declared ds)) q t.frames) s.rule ls rs (goal_of q.conclusion) }
{}

/// The form that a typed step on a conclusion brings to a typed goal of a typed scope is typed in the goal's context, in which a memory may
/// then have further locals; and so is, in its context as it is, the form that a step uses, which is what a hypothesis of the goal says of
/// typed terms, or a lemma, where lemmas, and what they say of modules, are typed statements about procedures that hold, and the goal has no modules; so are the forms that `smt` is
/// told to use, and those by which equals are put for equals. The event by which a probability is split is typed after its procedure.
pub fn typed_forms()
    ensures conclusions { (ds : scope.Declarations) → IsTypedScope (declared ds) → (q : Sequent) (t : IsTypedSequent (context_of (declared ds)) q) →
        (n : Node) (s : Step) → step_given ds q n ≡ given s → (r : AmbientRule) → s.rule ≡ Ambient r →
        (u : IsTypedSequent (context_of (declared ds)) q) × IsTypedStep (of_sequent (context_of (declared ds)) q u.frames) q.conclusion r }
    ensures uses { (ds : scope.Declarations) → IsTypedScope (declared ds) → AreStated ds → (q : Sequent) (t : IsTypedSequent (context_of (declared ds)) q) → q.modules ≡ [] →
        (n : Node) (s : Step) → step_given ds q n ≡ given s → (r : UseRule) → s.rule ≡ Use r →
        uses.IsTypedStep (declared ds) q (of_sequent (context_of (declared ds)) q t.frames) r }
    ensures hints { (ds : scope.Declarations) → IsTypedScope (declared ds) → AreStated ds → (q : Sequent) (t : IsTypedSequent (context_of (declared ds)) q) → q.modules ≡ [] →
        (n : Node) (s : Step) → step_given ds q n ≡ given s →
        AllByRecursion (λ f. IsForm (of_sequent (context_of (declared ds)) q t.frames) f × IsKnown (declared ds) q (of_sequent (context_of (declared ds)) q t.frames) f) (told s.rule) }
    ensures events { (ds : scope.Declarations) → IsTypedScope (declared ds) → (q : Sequent) (t : IsTypedSequent (context_of (declared ds)) q) →
        (n : Node) (s : Step) → step_given ds q n ≡ given s → (p : ProcRef) (f : Term) → s.rule ≡ Rewrite (Law (Split p f)) →
        IsForm (with_own (of_sequent (context_of (declared ds)) q t.frames) (after (procedure (of_sequent (context_of (declared ds)) q t.frames) p))) f }
{}
