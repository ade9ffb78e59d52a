//! What it says that no loss is found in a module that is given for a binder.

ghost use Rattle.std.specs.Prelude.{◌≡◌, None, Some};
ghost use Rattle.gb_core.specs.declared.place.Place.{Place};
ghost use Rattle.gb_terms.specs.declared.module.Mexp.{Mexp};
ghost use Rattle.gb_goal.specs.Answers.Answer.{given};
ghost use Rattle.gb_goal.specs.Interfaces.{Interface, interface_at};
ghost use Rattle.gb_goal.specs.Scope as scope;
ghost use Rattle.gb_goal.specs.Scope.{module_type_of};
ghost use Rattle.gb_mods.specs.Meets.{meets_named};
ghost use Rattle.gb_full.specs.Loss.{nowhere};
ghost use Rattle.gb_meaning.specs.Declared.{ModuleType, declared};
ghost use Rattle.gb_meaning.specs.Names.{Name};
ghost use Rattle.gb_meaning.specs.Programs.{AreFull};
ghost use Rattle.gb_meaning.specs.Settings.{Interpretation, setting};
ghost use Rattle.gb_laws.specs.Context.{IsSettingOf};
ghost use Rattle.gb_typing.specs.Chosen.{IsChosenOver};
ghost use Rattle.gb_typing.specs.Context.{erased};
ghost use Rattle.gb_typing.specs.Scopes.{context_of, IsTypedScope};
ghost use Rattle.gb_arguments.specs.Opened.{open_program};
ghost use Rattle.gb_arguments.specs.Covers.{IsUnspelt};
ghost use Rattle.gb_instances.specs.Lossless.{first_loss};

/// The open program of a module that meets a module type loses no weight but by its oracles, where no loss is found in the module.
pub fn full()
    ensures { (ds : scope.Declarations) → IsTypedScope (declared ds) → IsUnspelt ds → (i : Interpretation) → IsChosenOver (declared ds) i →
        IsSettingOf (erased (context_of (declared ds))) (setting (declared ds) i) → (m : Mexp) (k : Interface) → interface_at ds None m ≡ Some k → (n : Name) (t : ModuleType) →
        module_type_of ds n ≡ Some t → (p : Place) → meets_named ds None (m, k) n p ≡ given tt → first_loss ds (m, k) n ≡ nowhere →
        AreFull (setting (declared ds) i) (open_program (declared ds) i t m) t.signatures }
{}
