//! Instances of lemmas.

ghost use Rattle.std.specs.Prelude.{◌≡◌, ◌++◌, [], List};
ghost use Rattle.gb_core.specs.declared.place.Place.{Place};
ghost use Rattle.gb_goal.specs.Answers.Answer.{given};
ghost use Rattle.gb_goal.specs.Scope as scope;
ghost use Rattle.gb_goal.specs.declared.sequent.Sequent.{Sequent};
ghost use Rattle.gb_meaning.specs.Declared.{declared};
ghost use Rattle.gb_meaning.specs.Holds.{EachDeclared, Holds};
ghost use Rattle.gb_typing.specs.Naming.{NoName};
ghost use Rattle.gb_typing.specs.Scopes.{context_of, IsTypedScope};
ghost use Rattle.gb_typing.specs.Sequents.{IsTypedSequent, with_modules};
ghost use Rattle.gb_typing.specs.Speaking.{ScopeSpeaks};
ghost use Rattle.gb_arguments.specs.Firm.{IsFirm};
ghost use Rattle.gb_arguments.specs.Facts.{AreModulesOf, IsAboutModules, IsFact};
ghost use Rattle.gb_instances.specs.Instance.{GivenModule, instance_of, modules_of, params_of, put_in_statement};
ghost use Rattle.gb_arguments.specs.Unblank.{AreUnblank};
ghost use Rattle.gb_arguments.specs.LedScopes.{IsLedScope, StatementMayStand};

/// A lemma that binds modules holds over declarations of which none is an axiom or of an open section. Then what it says of modules that fit the
/// binders is typed and holds, over all that is declared. Names that are declared begin with no blank, as those of scripts do, and modules speak of
/// no module's globals together.
pub fn instances()
    ensures { (ds es : scope.Declarations) → IsTypedScope (declared (ds ++ es)) → EachDeclared IsFirm (declared ds) → ScopeSpeaks NoName (declared (ds ++ es)) → AreUnblank (ds ++ es) →
        (q : Sequent) → IsTypedSequent (context_of (declared ds)) q → IsAboutModules q → Holds (declared ds) q →
        (ks : List GivenModule) → AreModulesOf (ds ++ es) ks → (p : Place) (r : Sequent) → instance_of (ds ++ es) q ks p ≡ given r →
        (r.modules ≡ []) × IsFact (ds ++ es) r }
{}

/// What a statement says of modules is typed where its context leads to that of all declarations, and the modules may be put in its conclusion.
pub fn typed_instances()
    ensures { (ds es : scope.Declarations) (q : Sequent) (t : IsTypedSequent (context_of (declared ds)) q) → IsAboutModules q → (ks : List GivenModule) →
        IsLedScope (params_of q.modules) (modules_of ks) (with_modules (context_of (declared ds)) q.modules) (context_of (declared (ds ++ es))) → StatementMayStand ds (ds ++ es) q t ks →
        IsTypedSequent (context_of (declared (ds ++ es))) (put_in_statement (ds ++ es) (params_of q.modules) (modules_of ks) q) }
{}
