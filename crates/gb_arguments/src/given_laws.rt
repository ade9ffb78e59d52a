//! Modules that fit the binders of a lemma may be given for them.

ghost use Rattle.std.specs.Prelude.{◌≡◌, ◌++◌, map, List, []};
ghost use Rattle.gb_terms.specs.declared.module.Bind.{Bind};
ghost use Rattle.gb_goal.specs.Scope as scope;
ghost use Rattle.gb_meaning.specs.Declared.{declared};
ghost use Rattle.gb_meaning.specs.Holds.{declared_modules};
ghost use Rattle.gb_typing.specs.Scopes.{IsTypedScope, context_of};
ghost use Rattle.gb_typing.specs.Sequents.{AreBinders};
ghost use Rattle.gb_arguments.specs.Arguments.{AreGivenFor, InEachChoice, param_of};
ghost use Rattle.gb_arguments.specs.Covers.{AreOpenFree};
ghost use Rattle.gb_instances.specs.Instance.{GivenModule, modules_of};
ghost use Rattle.gb_arguments.specs.Instance.{AreModulesOf, EachFits};

/// Modules that fit the binders of a statement over the first declarations, none of which is of an open section, may be given for them, in each model and
/// for all programs within the abstract modules that are declared. Nothing is declared under a name that stands for a parameter which is left open.
pub fn given_where_fit()
    ensures { (ds es : scope.Declarations) → IsTypedScope (declared (ds ++ es)) → declared_modules (declared ds) ≡ [] → AreOpenFree (ds ++ es) →
        (bs : List Bind) → AreBinders (context_of (declared ds)) bs → (ks : List GivenModule) → AreModulesOf (ds ++ es) ks → EachFits (ds ++ es) (map param_of bs) (modules_of ks) bs ks →
        InEachChoice (declared (ds ++ es)) (λ i. AreGivenFor (declared ds) (declared (ds ++ es)) i [] bs (modules_of ks)) }
{}
