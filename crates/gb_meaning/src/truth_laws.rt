//! The laws of settings and of truth.

ghost use Rattle.std.specs.Prelude.{◌≡◌, ◌↔◌, ◌++◌, false, List, [], ◌∷◌, map};
ghost use Rattle.gb_terms.specs.declared.term.Term.{Term};
ghost use Rattle.gb_meaning.specs.Names.{Name};
ghost use Rattle.gb_meaning.specs.State.{State};
ghost use Rattle.gb_meaning.specs.Judgments.{IsTrueIn};
ghost use Rattle.gb_goal.specs.Binders.{binder_entries, with_declared_modules};
ghost use Rattle.gb_goal.specs.Scope as scope;
ghost use Rattle.gb_goal.specs.Scope.{ClaimNothing};
ghost use Rattle.gb_goal.specs.declared.scope.Binder.{Binder};
ghost use Rattle.gb_goal.specs.declared.scope.Entry.TheVariants as entry;
ghost use Rattle.gb_goal.specs.declared.scope.ProcName.{ProcName};
ghost use Rattle.gb_goal.specs.declared.sequent.Sequent.{Sequent};
ghost use Rattle.gb_meaning.specs.Declared.{Declarations, Declaration, declared};
ghost use Rattle.gb_meaning.specs.Settings.{Interpretation, types_of, setting};
ghost use Rattle.gb_meaning.specs.Truth.{has_module, Truth};
ghost use Rattle.gb_meaning.specs.Holds.{Holds, IsSound, IsSoundAfter, IsTerminating, AreSilent};

/// The types of a setting don't depend on operators and procedures.
pub fn types()
    ensures { (ds : Declarations) (i : Interpretation) → (setting ds i).types ≡ types_of ds i }
{}

/// A formula without a quantifier over modules in front is true exactly where each fair judge makes it true.
pub fn without_modules()
    ensures { (ds : Declarations) (f : Term) (i : Interpretation) (s : State) → has_module f ≡ false →
        Truth ds f i s ↔ IsTrueIn (setting ds i) f s }
{}

/// A scope that gains a declaration stays sound exactly where it was sound and the declaration is sound after those before.
pub fn sound_scopes()
    ensures { (ds : Declarations) (n : Name) (d : Declaration) →
        IsSound (ds ++ (n, d) ∷ []) ↔ (IsSound ds × IsSoundAfter ds n d) }
{}

/// A sound scope that gains a lemma which holds is sound, and so is one that gains that good loops are proved, or things
/// that claim nothing.
pub fn scopes_of_scripts()
    ensures lemma { (ds : scope.Declarations) (n : Name) (q : Sequent) (bs : List Binder) → IsSound (declared ds) → Holds (declared ds) q →
        IsSound (declared (ds ++ (n, entry.Lemma q bs) ∷ [])) }
    ensures proof { (ds : scope.Declarations) (n : Name) (p : ProcName) → IsSound (declared ds) →
        IsTerminating (declared ds) p.module p.name → IsSound (declared (ds ++ (n, entry.Terminating p) ∷ [])) }
    ensures others { (ds added : scope.Declarations) → ClaimNothing added → IsSound (declared ds) → IsSound (declared (ds ++ added)) }
{}

/// What holds goes on to hold when types, axioms, lemmas and proved loops are declared: these leave what names mean as it is.
pub fn later_statements()
    ensures settings { (ds ls : Declarations) → AreSilent ls → (i : Interpretation) → setting (ds ++ ls) i ≡ setting ds i }
    ensures holds { (ds ls : Declarations) → AreSilent ls → (q : Sequent) → Holds ds q → Holds (ds ++ ls) q }
    ensures loops { (ds ls : Declarations) → AreSilent ls → (n f : Name) → IsTerminating ds n f → IsTerminating (ds ++ ls) n f }
{}

/// Sequents that differ in the names of their variables and memories alone hold alike: forms name these by their places.
pub fn renamed_contexts()
    ensures { (ds : Declarations) (q r : Sequent) → q.modules ≡ r.modules → q.hyps ≡ r.hyps → q.conclusion ≡ r.conclusion →
        map (λ x. x.ty) q.logical ≡ map (λ x. x.ty) r.logical → Holds ds q ↔ Holds ds r }
{}

/// What is true for all programs within abstract modules that are declared is true for all programs within the modules of a goal: a goal
/// holds where, its modules declared behind the scope, it holds without them.
pub fn declared_modules()
    ensures { (ds : scope.Declarations) (q : Sequent) → Holds (declared (ds ++ binder_entries q.modules)) (with_declared_modules q) →
        Holds (declared ds) q }
{}
