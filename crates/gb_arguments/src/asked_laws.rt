//! What the open program of a module asks that meets a module type.

ghost use Rattle.std.specs.Prelude.{◌≡◌, None, Some};
ghost use Rattle.gb_core.specs.declared.place.Place.{Place};
ghost use Rattle.gb_terms.specs.declared.module.Mexp.{Mexp};
ghost use Rattle.gb_goal.specs.Answers.Answer.{given};
ghost use Rattle.gb_goal.specs.Interfaces.{Interface, interface_at};
ghost use Rattle.gb_goal.specs.Scope as scope;
ghost use Rattle.gb_goal.specs.Scope.{module_type_of};
ghost use Rattle.gb_mods.specs.Meets.{meets_named};
ghost use Rattle.gb_meaning.specs.Declared.{ModuleType, declared};
ghost use Rattle.gb_meaning.specs.Names.{Name};
ghost use Rattle.gb_meaning.specs.Settings.{Interpretation};
ghost use Rattle.gb_typing.specs.Chosen.{IsChosenOver};
ghost use Rattle.gb_typing.specs.Scopes.{IsTypedScope};
ghost use Rattle.gb_arguments.specs.Opened.{open_program};
ghost use Rattle.gb_arguments.specs.Programs.{AskNamed};
ghost use Rattle.gb_arguments.specs.Covers.{AreTypesSigned, IsUnspelt};

/// The open program of a module that is found to meet a module type asks those oracles alone that the type's signatures name.
pub fn asks()
    ensures { (ds : scope.Declarations) → IsTypedScope (declared ds) → IsUnspelt ds → (i : Interpretation) → IsChosenOver (declared ds) i →
        (m : Mexp) (k : Interface) → interface_at ds None m ≡ Some k → (n : Name) (t : ModuleType) → module_type_of ds n ≡ Some t → (p : Place) → meets_named ds None (m, k) n p ≡ given tt →
        AskNamed (open_program (declared ds) i t m) t.signatures }
{}

/// The oracles that procedures of the module types of a typed scope name have signatures.
pub fn signed_types()
    ensures { (ds : scope.Declarations) → IsTypedScope (declared ds) → AreTypesSigned ds }
{}
