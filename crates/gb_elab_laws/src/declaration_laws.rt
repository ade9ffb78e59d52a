//! What the typing of declarations gives.

ghost use Rattle.std.specs.Prelude.{◌≡◌, false, List, [], ◌∷◌, ◌++◌};
ghost use Rattle.gb_core.specs.declared.ty.Ty.TheVariants as ty;
ghost use Rattle.gb_terms.specs.declared.decl.Module.{Module};
ghost use Rattle.gb_script.specs.declared.tree.Node.{Node};
ghost use Rattle.gb_script.specs.Each.{Each};
ghost use Rattle.gb_print.specs.Blank.{IsUnblank, begins_blank};
ghost use Rattle.gb_goal.specs.Binders.{binder_entries, with_declared_modules};
ghost use Rattle.gb_goal.specs.Scope as scope;
ghost use Rattle.gb_goal.specs.Scope.{ClaimNothing};
ghost use Rattle.gb_goal.specs.declared.scope.Binder.{Binder};
ghost use Rattle.gb_goal.specs.declared.scope.Entry.TheVariants as entry;
ghost use Rattle.gb_goal.specs.declared.sequent.Sequent.{Sequent};
ghost use Rattle.gb_goal.specs.Answers.Answer.{given};
ghost use Rattle.gb_meaning.specs.Names.{Name};
ghost use Rattle.gb_meaning.specs.Written.{type_of};
ghost use Rattle.gb_meaning.specs.Declared.{concrete_module, declared};
ghost use Rattle.gb_typing.specs.Naming.{NoName};
ghost use Rattle.gb_elab_laws.specs.Speaking.{DeclarationSpeaks, IsFirmScope, ScopeSpeaks};
ghost use Rattle.gb_elab_laws.specs.Procedures.{IsOfProcedures};
ghost use Rattle.gb_arguments.specs.Unblank.{AreUnblank};
ghost use Rattle.gb_meaning.specs.Truth.{has_module};
ghost use Rattle.gb_typing.specs.Sequents.{IsTypedSequent};
ghost use Rattle.gb_typing.specs.Scopes.{context_of, is_declared, IsModule, IsTypedScope};
ghost use Rattle.gb_elab_prog.specs.Entries.{entries_given};
ghost use Rattle.gb_elab_mod.specs.Lemmas.{lemma_name, statement_given};
ghost use Rattle.gb_elab_prog.specs.Modules.{module_given};

/// A typed scope stays typed with what a command `type`, `op` or `module type` declares, none of which is a lemma or an abstract module. It
/// speaks of no module's globals together.
pub fn entries()
    ensures added { (ds : scope.Declarations) → IsTypedScope (declared ds) → (t : Node) (added : scope.Declarations) → entries_given ds t ≡ given added →
        IsTypedScope (declared (ds ++ added)) }
    ensures others { (ds : scope.Declarations) → (t : Node) (added : scope.Declarations) → entries_given ds t ≡ given added → ClaimNothing added }
    ensures speaks { (ds : scope.Declarations) → IsTypedScope (declared ds) → (t : Node) (added : scope.Declarations) → entries_given ds t ≡ given added →
        ScopeSpeaks NoName (declared added) }
    ensures firm { (ds : scope.Declarations) → IsTypedScope (declared ds) → (t : Node) (added : scope.Declarations) → entries_given ds t ≡ given added →
        IsFirmScope added }
{}

/// What a module is typed to in a typed scope is a well-typed module under a free name, with which the scope stays typed.
/// It speaks of no module's globals together.
pub fn modules()
    ensures typed { (ds : scope.Declarations) → IsTypedScope (declared ds) → (t : Node) (m : Module) → module_given ds t ≡ given m → IsModule (context_of (declared ds)) m.name m }
    ensures free { (ds : scope.Declarations) → (t : Node) (m : Module) → module_given ds t ≡ given m → is_declared (declared ds) m.name ≡ false }
    ensures speaks { (ds : scope.Declarations) → IsTypedScope (declared ds) → (t : Node) (m : Module) → module_given ds t ≡ given m → DeclarationSpeaks NoName (concrete_module m) }
    ensures added { (ds : scope.Declarations) → IsTypedScope (declared ds) → (t : Node) (m : Module) → module_given ds t ≡ given m →
        IsTypedScope (declared (ds ++ (m.name, entry.Module m) ∷ [])) }
{}

/// In a typed scope, the goal that a lemma states is a typed goal, its conclusion is a truth in front of which no module is
/// quantified, and the lemma's name is free. The goal has no hypotheses and judges no bodies; in a script without abstract modules, it
/// speaks of the globals of the modules that it binds alone together. These modules may be declared behind the scope, which stays
/// typed, and there it is a typed goal without them.
pub fn statements()
    ensures typed { (ds : scope.Declarations) → IsTypedScope (declared ds) → (t : Node) (q : Sequent) → statement_given ds t ≡ given q →
        IsTypedSequent (context_of (declared ds)) q }
    ensures scope { (ds : scope.Declarations) → IsTypedScope (declared ds) → (t : Node) (q : Sequent) → statement_given ds t ≡ given q →
        IsTypedScope (declared (ds ++ binder_entries q.modules)) }
    ensures goal { (ds : scope.Declarations) → IsTypedScope (declared ds) → (t : Node) (q : Sequent) → statement_given ds t ≡ given q →
        IsTypedSequent (context_of (declared (ds ++ binder_entries q.modules))) (with_declared_modules q) }
    ensures truth { (ds : scope.Declarations) → IsTypedScope (declared ds) → (t : Node) (q : Sequent) → statement_given ds t ≡ given q →
        type_of q.conclusion ≡ ty.Bool }
    ensures front { (ds : scope.Declarations) → IsTypedScope (declared ds) → (t : Node) (q : Sequent) → statement_given ds t ≡ given q →
        has_module q.conclusion ≡ false }
    ensures free { (ds : scope.Declarations) → (t : Node) (q : Sequent) → statement_given ds t ≡ given q →
        is_declared (declared ds) (lemma_name t) ≡ false }
    ensures procedures { (ds : scope.Declarations) → IsTypedScope (declared ds) → IsFirmScope ds → (t : Node) (q : Sequent) → statement_given ds t ≡ given q →
        IsOfProcedures q }
{}

/// A typed scope stays typed with a lemma of a typed goal, under a free name.
pub fn lemmas()
    ensures { (ds : scope.Declarations) → IsTypedScope (declared ds) → (n : Name) → is_declared (declared ds) n ≡ false → (q : Sequent) (bs : List Binder) →
        IsTypedSequent (context_of (declared ds)) q → IsTypedScope (declared (ds ++ (n, entry.Lemma q bs) ∷ [])) }
{}

/// The names that commands declare begin with no blank, where no text of a node of theirs does: those of types, constants, operators and module
/// types, of modules, of lemmas and of the modules that these bind.
pub fn names()
    ensures entries { (ds : scope.Declarations) (t : Node) (added : scope.Declarations) → Each IsUnblank t → entries_given ds t ≡ given added → AreUnblank added }
    ensures modules { (ds : scope.Declarations) (t : Node) (m : Module) → Each IsUnblank t → module_given ds t ≡ given m → begins_blank m.name ≡ false }
    ensures lemmas { (t : Node) → Each IsUnblank t → begins_blank (lemma_name t) ≡ false }
    ensures statements { (ds : scope.Declarations) (t : Node) (q : Sequent) → Each IsUnblank t → statement_given ds t ≡ given q → AreUnblank (binder_entries q.modules) }
{}
