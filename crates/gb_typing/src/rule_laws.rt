//! The law of a rule on goals is one on sequents.

ghost use Rattle.std.specs.Prelude.{◌≡◌, List};
ghost use Rattle.std.specs.List.{AllByRecursion};
ghost use Rattle.gb_core.specs.declared.ty.Ty.TheVariants as ty;
ghost use Rattle.gb_terms.specs.declared.decl.TypedName.{TypedName};
ghost use Rattle.gb_goal.specs.declared.sequent.Sequent.{Sequent};
ghost use Rattle.gb_meaning.specs.Written.{type_of};
ghost use Rattle.gb_meaning.specs.Declared.{Declarations};
ghost use Rattle.gb_meaning.specs.Holds.{Holds};
ghost use Rattle.gb_typing.specs.Context.{Context};
ghost use Rattle.gb_typing.specs.Sequents.{of_sequent, IsTypedSequent};
ghost use Rattle.gb_typing.specs.Scopes.{context_of, IsTypedScope};
ghost use Rattle.gb_goal.specs.Goal.{Goal, goal_of};
ghost use Rattle.gb_typing.specs.Goals.{IsGoalOver};
ghost use Rattle.gb_goal.specs.Rows.{Row};
ghost use Rattle.gb_typing.specs.Rules.{outermost, IsSoundAt, IsSoundIn};
ghost use Rattle.gb_goal.specs.Answers.Answer.{given};
ghost use Rattle.gb_goal.specs.Rows.{answered};

/// No binder is around the goal of a sequent over declarations, and no memory but named ones.
pub fn contexts()
    ensures { (ds : Declarations) (q : Sequent) (fs : List (List TypedName)) → of_sequent (context_of ds) q fs ≡ outermost (of_sequent (context_of ds) q fs) }
{}

/// What is sound in each setting is sound in those of declarations.
pub fn declared_settings()
    ensures { (ds : Declarations) (c : Context) (row : Row) (G : Goal) → IsSoundAt c row G → IsSoundIn ds c row G }
{}

/// Where the law of a rule stands at the goal of a typed sequent in a typed scope, it stands at the sequent: the sequents that the
/// rule gives, in the same context and under the same hypotheses, are typed, and if each of them holds, the sequent holds.
pub fn sequents()
    ensures { (ds : Declarations) → IsTypedScope ds → (q : Sequent) (t : IsTypedSequent (context_of ds) q) → type_of q.conclusion ≡ ty.Bool →
        (ls rs : List TypedName) → IsGoalOver (of_sequent (context_of ds) q t.frames) ls rs (goal_of q.conclusion) →
        (row : Row) → IsSoundIn ds (of_sequent (context_of ds) q t.frames) row (goal_of q.conclusion) →
        (qs : List Sequent) → answered row q ≡ given qs →
        AllByRecursion (IsTypedSequent (context_of ds)) qs × (AllByRecursion (Holds ds) qs → Holds ds q) }
{}
