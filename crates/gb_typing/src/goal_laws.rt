//! Laws of goals.

ghost use Rattle.std.specs.Prelude.{◌≡◌, true, false, ◌↔◌, List};
ghost use Rattle.gb_core.specs.declared.ty.Ty.TheVariants as ty;
ghost use Rattle.gb_terms.specs.declared.decl.TypedName.{TypedName};
ghost use Rattle.gb_terms.specs.declared.term.Term.{Term};
ghost use Rattle.gb_meaning.specs.Setting.{Setting};
ghost use Rattle.gb_meaning.specs.State.{State};
ghost use Rattle.gb_meaning.specs.Judgments.{Judge, IsFair, den};
ghost use Rattle.gb_meaning.specs.Written.{type_of};
ghost use Rattle.gb_meaning.specs.Truth.{has_module};
ghost use Rattle.gb_typing.specs.Context.{Context};
ghost use Rattle.gb_typing.specs.Sequents.{IsConclusion};
ghost use Rattle.gb_typing.specs.Fits.{IsSettingOf};
ghost use Rattle.gb_goal.specs.Goal.{Goal, form_of, goal_of, IsJudgment};
ghost use Rattle.gb_goal.specs.Goal.Goal.{ambient};
ghost use Rattle.gb_typing.specs.Goals.{IsGoalOver, IsTypedGoal};
ghost use Rattle.gb_typing.specs.Meaning.{Stands};

/// A form of type `bool` is the form of its goal, and a judgment is the goal of its form.
pub fn views()
    ensures form { (f : Term) → type_of f ≡ ty.Bool → form_of (goal_of f) ≡ f }
    ensures goal { (G : Goal) → IsJudgment G → goal_of (form_of G) ≡ G }
{}

/// A typed conclusion without a quantifier over modules in front is a form of a typed goal, and the form of a typed goal is such a
/// conclusion.
pub fn typing()
    ensures goal { (c : Context) (f : Term) → IsConclusion c f → has_module f ≡ false → IsTypedGoal c (goal_of f) × (type_of f ≡ ty.Bool) }
    ensures conclusion { (c : Context) (ls rs : List TypedName) (G : Goal) → IsGoalOver c ls rs G → IsConclusion c (form_of G) }
    ensures front { (c : Context) (ls rs : List TypedName) (G : Goal) → IsGoalOver c ls rs G → has_module (form_of G) ≡ false }
{}

/// A conclusion in front of which a module is quantified is no judgment.
pub fn fronts()
    ensures { (f : Term) → has_module f ≡ true → goal_of f ≡ ambient f }
{}

/// The form of a typed goal is true, under a fair judge, exactly where the goal stands.
pub fn truth()
    ensures { (c : Context) (g : Setting) → IsSettingOf c g → (j : Judge) → IsFair g j → (s : State) (ls rs : List TypedName) (G : Goal) →
        IsGoalOver c ls rs G → (den g j (form_of G) s ≡ true) ↔ Stands g j s G }
{}
