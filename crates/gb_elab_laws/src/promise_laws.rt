//! What lemmas that hold promise: their scope has a model, and equivalences give couplings.

ghost use Rattle.std.specs.Prelude.{◌≡◌, List, []};
ghost use Rattle.gb_terms.specs.declared.decl.TypedName.{TypedName};
ghost use Rattle.gb_terms.specs.declared.module.Bind.{Bind};
ghost use Rattle.gb_terms.specs.declared.module.ProcRef.{ProcRef};
ghost use Rattle.gb_terms.specs.declared.term.Term.{Term};
ghost use Rattle.gb_goal.specs.Scope as scope;
ghost use Rattle.gb_meaning.specs.Names.{Name};
ghost use Rattle.gb_meaning.specs.Memory.{Memory};
ghost use Rattle.gb_meaning.specs.Declared.{declared};
ghost use Rattle.gb_meaning.specs.Holds.{declared_modules, Holds};
ghost use Rattle.gb_typing.specs.Sequents.{IsTypedSequent};
ghost use Rattle.gb_typing.specs.Scopes.{context_of, IsTypedScope};
ghost use Rattle.gb_elab_laws.specs.Falsehood.{falsehood};
ghost use Rattle.gb_elab_laws.specs.Promised.{HasModel, equivalence, stated, AreCoupledInEachModel};
ghost use Rattle.gb_elab_laws.specs.Speaking.{IsFirmScope};

/// A typed scope has a model. Without abstract modules no section is open in it either, so no lemma holds in it for want of one: `false`
/// doesn't.
pub fn typed_scopes_have_models()
    ensures model { (ds : scope.Declarations) → IsTypedScope (declared ds) → HasModel ds }
    ensures no_section { (ds : scope.Declarations) → IsFirmScope ds → declared_modules (declared ds) ≡ [] }
    ensures no_falsehood { (ds : scope.Declarations) → IsTypedScope (declared ds) → IsFirmScope ds → ¬ (Holds (declared ds) falsehood) }
{}

/// An equivalence of two procedures that is typed in a typed scope, in a context of values, memories and abstract modules, and holds
/// there, gives in each model, for all programs within these modules, all these values and memories, and from each two memories in its
/// precondition, a coupling of both outputs on its postcondition. Memories are told apart by a test, so that "at each output" means
/// something.
pub fn equivalences_give_couplings()
    ensures coupled { (ds : scope.Declarations) → IsTypedScope (declared ds) → (xs : List TypedName) (ms : List Name) (bs : List Bind) (f h : ProcRef) (P Q : Term) →
        IsTypedSequent (context_of (declared ds)) (stated xs ms bs (equivalence f h P Q)) → Holds (declared ds) (stated xs ms bs (equivalence f h P Q)) →
        AreCoupledInEachModel ds xs bs f h P Q }
    ensures told_apart { Discrete Memory }
{}
