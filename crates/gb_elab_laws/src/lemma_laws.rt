//! What lemmas that bind modules say of modules.

ghost use Rattle.std.specs.Prelude.{◌≡◌, ◌++◌, [], List};
ghost use Rattle.gb_core.specs.declared.place.Place.{Place};
ghost use Rattle.gb_goal.specs.Answers.Answer.{given};
ghost use Rattle.gb_goal.specs.Scope as scope;
ghost use Rattle.gb_goal.specs.declared.sequent.Sequent.{Sequent};
ghost use Rattle.gb_meaning.specs.Declared.{declared};
ghost use Rattle.gb_meaning.specs.Holds.{Holds};
ghost use Rattle.gb_typing.specs.Naming.{NoName};
ghost use Rattle.gb_typing.specs.Scopes.{context_of, IsTypedScope};
ghost use Rattle.gb_typing.specs.Sequents.{IsTypedSequent};
ghost use Rattle.gb_typing.specs.Speaking.{ScopeSpeaks};
ghost use Rattle.gb_instances.specs.Instance.{GivenModule, instance_of};
ghost use Rattle.gb_arguments.specs.Instance.{AreModulesOf};
ghost use Rattle.gb_arguments.specs.Facts.{IsFact};
ghost use Rattle.gb_arguments.specs.Unblank.{AreUnblank};
ghost use Rattle.gb_elab_laws.specs.Procedures.{IsOfProcedures};
ghost use Rattle.gb_elab_laws.specs.Speaking.{IsFirmScope};

/// A lemma that binds modules holds over declarations of a script. Then what it says of modules that fit the binders is typed and holds, over
/// all that is declared, also where modules of lemmas are declared behind. Names that are declared begin with no blank, as those of scripts do.
pub fn instances()
    ensures { (ds es : scope.Declarations) → IsTypedScope (declared (ds ++ es)) → IsFirmScope ds → ScopeSpeaks NoName (declared (ds ++ es)) → AreUnblank (ds ++ es) →
        (q : Sequent) → IsTypedSequent (context_of (declared ds)) q → IsOfProcedures q → Holds (declared ds) q →
        (ks : List GivenModule) → AreModulesOf (ds ++ es) ks → (p : Place) (r : Sequent) → instance_of (ds ++ es) q ks p ≡ given r →
        (r.modules ≡ []) × IsFact (ds ++ es) r }
{
    gb_arguments::lemma_laws::instances();
}
