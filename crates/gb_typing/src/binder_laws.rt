//! Modules that a goal binds, declared behind the scope: so the steps of a proof see them.

ghost use Rattle.std.specs.Prelude.{◌≡◌, ◌++◌, List};
ghost use Rattle.gb_terms.specs.declared.module.Bind.{Bind};
ghost use Rattle.gb_goal.specs.Binders.{binder_entries, with_declared_modules};
ghost use Rattle.gb_goal.specs.declared.sequent.Sequent.{Sequent};
ghost use Rattle.gb_goal.specs.Scope.{AreNew, Declarations};
ghost use Rattle.gb_meaning.specs.Declared.{declared};
ghost use Rattle.gb_typing.specs.Scopes.{context_of, IsTypedScope};
ghost use Rattle.gb_typing.specs.Sequents.{AreBinders, with_modules, IsTypedSequent};

/// The context of a scope with modules of binders behind it is that of a goal which binds them.
pub fn contexts()
    ensures { (ds : Declarations) (bs : List Bind) →
        context_of (declared (ds ++ binder_entries bs)) ≡ with_modules (context_of (declared ds)) bs }
{}

/// A typed scope stays typed with modules of binders behind it, under new names; and only binders may stand there.
pub fn scopes()
    ensures typed { (ds : Declarations) (bs : List Bind) → IsTypedScope (declared ds) → AreBinders (context_of (declared ds)) bs →
        AreNew ds (binder_entries bs) → IsTypedScope (declared (ds ++ binder_entries bs)) }
    ensures binders { (ds : Declarations) (bs : List Bind) → IsTypedScope (declared (ds ++ binder_entries bs)) →
        AreBinders (context_of (declared ds)) bs }
    ensures before { (ds : Declarations) (bs : List Bind) → IsTypedScope (declared (ds ++ binder_entries bs)) → IsTypedScope (declared ds) }
{}

/// A goal is typed with the modules that it binds where it is typed without them over their declarations.
pub fn goals()
    ensures declared { (ds : Declarations) (q : Sequent) → IsTypedSequent (context_of (declared ds)) q →
        IsTypedSequent (context_of (declared (ds ++ binder_entries q.modules))) (with_declared_modules q) }
    ensures bound { (ds : Declarations) (q : Sequent) → IsTypedScope (declared (ds ++ binder_entries q.modules)) →
        IsTypedSequent (context_of (declared (ds ++ binder_entries q.modules))) (with_declared_modules q) →
        IsTypedSequent (context_of (declared ds)) q }
{}
