//! What holds goes on to hold as a typed scope grows.

ghost use Rattle.std.specs.Prelude.{◌≡◌, ◌++◌, ◌↔◌, true, List, Some};
ghost use Rattle.gb_terms.specs.declared.decl.Proc.{Proc};
ghost use Rattle.gb_terms.specs.declared.module.Bind.{Bind};
ghost use Rattle.gb_goal.specs.Binders.{binder_entries};
ghost use Rattle.gb_goal.specs.declared.scope.ProcName.{ProcName};
ghost use Rattle.gb_goal.specs.declared.sequent.Sequent.{Sequent};
ghost use Rattle.gb_goal.specs.Scope as scope;
ghost use Rattle.gb_goal.specs.Scope.{is_proved, module_of, proc_in};
ghost use Rattle.gb_meaning.specs.Commands.{statements};
ghost use Rattle.gb_meaning.specs.Names.{Name};
ghost use Rattle.gb_meaning.specs.Declared.{Declarations, declared};
ghost use Rattle.gb_meaning.specs.Holds.{EachDeclared, Holds, InEachModel, IsSound, IsTerminating, LoopsAreGood};
ghost use Rattle.gb_meaning.specs.Naming.{IsFresh};
ghost use Rattle.gb_meaning.specs.Settings.{setting};
ghost use Rattle.gb_typing.specs.Naming.{NoName};
ghost use Rattle.gb_typing.specs.Sequents.{IsTypedSequent};
ghost use Rattle.gb_typing.specs.Scopes.{context_of, IsTypedScope};
ghost use Rattle.gb_arguments.specs.Firm.{IsFirm};
ghost use Rattle.gb_elab_laws.specs.Speaking.{ScopeSpeaks, GoalSpeaks, IsWithoutModules, IsFirmScope, IsModuleOrLemma};

/// A typed goal without quantifiers over modules that holds over the declarations before it goes on to hold as the scope grows by
/// declarations of any kind but axioms and modules of open sections; so all goals of scripts stay. Neither the goal nor the
/// modules of the scope may speak, in a type `glob A`, of a module that is declared later: this type has one value before A is
/// declared, and may have more with it. Most speak of no such type at all. Goals of scripts stay with the abstract modules that a lemma
/// binds, too.
pub fn goals_stay()
    ensures kinds { (ds es : Declarations) → IsTypedScope (ds ++ es) → EachDeclared IsFirm (ds ++ es) →
        (q : Sequent) → IsTypedSequent (context_of ds) q → IsWithoutModules q →
        ScopeSpeaks NoName (ds ++ es) → GoalSpeaks NoName q → Holds ds q → Holds (ds ++ es) q }
    ensures modules { (ds es : Declarations) → IsTypedScope (ds ++ es) → EachDeclared IsFirm ds → EachDeclared IsModuleOrLemma es →
        (q : Sequent) → IsTypedSequent (context_of ds) q → IsWithoutModules q →
        ScopeSpeaks (IsFresh es) ds → GoalSpeaks (IsFresh es) q → Holds ds q → Holds (ds ++ es) q }
    ensures scripts { (ds es : scope.Declarations) → IsTypedScope (declared (ds ++ es)) → IsFirmScope (ds ++ es) →
        (q : Sequent) → IsTypedSequent (context_of (declared ds)) q → IsWithoutModules q →
        ScopeSpeaks NoName (declared (ds ++ es)) → GoalSpeaks NoName q → Holds (declared ds) q → Holds (declared (ds ++ es)) q }
    ensures binders { (ds : scope.Declarations) (bs : List Bind) → IsTypedScope (declared (ds ++ binder_entries bs)) → IsFirmScope ds →
        (q : Sequent) → IsTypedSequent (context_of (declared ds)) q → IsWithoutModules q →
        ScopeSpeaks NoName (declared ds) → GoalSpeaks NoName q → Holds (declared ds) q → Holds (declared (ds ++ binder_entries bs)) q }
{}

/// A typed goal without quantifiers over modules stays typed as the scope of a script grows, also by abstract modules.
pub fn goals_stay_typed()
    ensures { (ds es : scope.Declarations) → IsTypedScope (declared (ds ++ es)) →
        (q : Sequent) → IsTypedSequent (context_of (declared ds)) q → IsWithoutModules q → IsTypedSequent (context_of (declared (ds ++ es))) q }
{}

/// The modules of a scope speak of no module's globals together where those of its parts don't.
pub fn parts_of_scopes()
    ensures { (ds es : scope.Declarations) →
        ScopeSpeaks NoName (declared (ds ++ es)) ↔ ScopeSpeaks NoName (declared ds) × ScopeSpeaks NoName (declared es) }
{}

/// The loops of a declared procedure that are good stay good as the scope of a script grows, and with the abstract modules that a lemma
/// binds; so those that are proved are good in each model of all that a sound scope declares, and of these modules.
pub fn loops_stay_good()
    ensures stay { (es ds : scope.Declarations) → IsTypedScope (declared (ds ++ es)) → IsFirmScope (ds ++ es) → ScopeSpeaks NoName (declared (ds ++ es)) →
        (n f : Name) (a : Proc) → proc_in (module_of ds n) f ≡ Some a → IsTerminating (declared ds) n f → IsTerminating (declared (ds ++ es)) n f }
    ensures binders { (ds : scope.Declarations) (bs : List Bind) → IsTypedScope (declared (ds ++ binder_entries bs)) → IsFirmScope ds → ScopeSpeaks NoName (declared ds) →
        (n f : Name) (a : Proc) → proc_in (module_of ds n) f ≡ Some a → IsTerminating (declared ds) n f → IsTerminating (declared (ds ++ binder_entries bs)) n f }
    ensures proved { (ds : scope.Declarations) (bs : List Bind) → let es : scope.Declarations = ds ++ binder_entries bs in
        IsTypedScope (declared es) → IsFirmScope ds → IsSound (declared ds) → ScopeSpeaks NoName (declared ds) →
        (p : ProcName) (a : Proc) → proc_in (module_of es p.module) p.name ≡ Some a → is_proved es p ≡ true →
        InEachModel (declared es) (λ i. LoopsAreGood (setting (declared es) i) (statements (setting (declared es) i) a.body.list)) }
{}
