//! Loops that procedures reach are good where no procedure is unproved.

ghost use Rattle.std.specs.Prelude.{◌≡◌, Bool, true, List, [], ◌++◌, Some, None};
ghost use Rattle.gb_ended.specs.Ended.{first_unproved};
ghost use Rattle.gb_ended.specs.Loops.{unproved_in, unproved_of};
ghost use Rattle.gb_goal.specs.Binders.{binder_entries};
ghost use Rattle.gb_goal.specs.Goal.{goal_of};
ghost use Rattle.gb_goal.specs.declared.sequent.Sequent.{Sequent};
ghost use Rattle.gb_goal.specs.Scope.{procedure_of, Declarations};
ghost use Rattle.gb_meaning.specs.Declared.{declared};
ghost use Rattle.gb_meaning.specs.Holds.{InEachModel, InEachSetting, IsSound, LoopsAreGood};
ghost use Rattle.gb_meaning.specs.Naming.{EachName};
ghost use Rattle.gb_meaning.specs.Settings.{setting};
ghost use Rattle.gb_typing.specs.Naming.{NoName};
ghost use Rattle.gb_meaning.specs.Commands.{statements};
ghost use Rattle.gb_meaning.specs.Setting.{Setting};
ghost use Rattle.gb_elab_laws.specs.Speaking.{IsFirmScope, ScopeSpeaks};
ghost use Rattle.gb_terms.specs.declared.decl.Proc.{Proc};
ghost use Rattle.gb_terms.specs.declared.module.Bind.{Bind};
ghost use Rattle.gb_terms.specs.declared.module.ProcRef.{ProcRef};
ghost use Rattle.gb_prog.specs.Ends.{AreEnded, ProceduresEnd, ReachesGoodLoops};
ghost use Rattle.gb_typing.specs.Rules.{IsSettingOver};
ghost use Rattle.gb_typing.specs.Scopes.{IsTypedScope, context_of};
ghost use Rattle.gb_typing.specs.Sequents.{IsTypedSequent};

/// Where a declared procedure isn't unproved, its own loops are good in each model of a sound scope, and of the abstract modules that a lemma
/// binds: it has none, or they are proved. Those of a module with parameters are never proved.
pub fn own_loops()
    ensures { (ds : Declarations) (bs : List Bind) → let es : Declarations = ds ++ binder_entries bs in
        IsTypedScope (declared es) → IsFirmScope ds → IsSound (declared ds) → ScopeSpeaks NoName (declared ds) →
        (p : ProcRef) (a : Proc) → procedure_of es p ≡ Some a → unproved_of es p ≡ None →
        InEachModel (declared es) (λ i. LoopsAreGood (setting (declared es) i) (statements (setting (declared es) i) a.body.list)) }
{}

/// So are those of the procedures of which a typed goal without modules speaks, where none of them is unproved.
pub fn entered()
    ensures { (ds : Declarations) (bs : List Bind) → let es : Declarations = ds ++ binder_entries bs in
        IsTypedScope (declared es) → IsFirmScope ds → IsSound (declared ds) → ScopeSpeaks NoName (declared ds) →
        (q : Sequent) → IsTypedSequent (context_of (declared es)) q → q.modules ≡ [] → unproved_in es (goal_of q.conclusion) ≡ None →
        InEachSetting (declared es) q (λ g. ProceduresEnd es g (goal_of q.conclusion)) }
{}

/// So are those of each procedure that isn't unproved, in each setting of a typed goal without modules.
pub fn proved_loops()
    ensures { (ds : Declarations) (bs : List Bind) → let es : Declarations = ds ++ binder_entries bs in
        IsTypedScope (declared es) → IsFirmScope ds → IsSound (declared ds) → ScopeSpeaks NoName (declared ds) →
        (q : Sequent) → IsTypedSequent (context_of (declared es)) q → q.modules ≡ [] →
        InEachSetting (declared es) q (λ g. (p : ProcRef) (a : Proc) → procedure_of es p ≡ Some a → unproved_of es p ≡ None → LoopsAreGood g (statements g a.body.list)) }
{}

/// Each loop that a procedure of an ended module reaches, through all that it calls, is good in each model of a sound scope without abstract
/// modules. So is each that a procedure of a module with arguments reaches, where all modules that the module expression names are ended.
pub fn ended_modules()
    ensures { (ds : Declarations) → IsTypedScope (declared ds) → IsFirmScope ds → IsSound (declared ds) → ScopeSpeaks NoName (declared ds) →
        (p : ProcRef) → EachName (λ n. first_unproved ds n ≡ None) p.«module» → (a : Proc) → procedure_of ds p ≡ Some a →
        InEachModel (declared ds) (λ i. ReachesGoodLoops (setting (declared ds) i) ((setting (declared ds) i).procedure p)) }
{}

/// Procedures that call each other alone reach good loops alone, in a setting of the declarations in which each of them has good loops
/// itself.
pub fn procedures()
    ensures { (ds : Declarations) → IsTypedScope (declared ds) → (g : Setting) → IsSettingOver (declared ds) g → (test : ProcRef → Bool) → AreEnded ds g (λ p. test p ≡ true) →
        (p : ProcRef) → test p ≡ true → ReachesGoodLoops g (g.procedure p) }
{}
