//! What procedures speak of.

ghost use Rattle.std.specs.Prelude.{◌≡◌, List, Some};
ghost use Rattle.gb_terms.specs.declared.module.Bind.{Bind};
ghost use Rattle.gb_terms.specs.declared.module.ProcRef.{ProcRef};
ghost use Rattle.gb_meaning.specs.Declared.{Declarations};
ghost use Rattle.gb_meaning.specs.Modules.{procedure_at};
ghost use Rattle.gb_meaning.specs.Naming.{AnyName};
ghost use Rattle.gb_meaning.specs.Setting.{Setting};
ghost use Rattle.gb_meaning.specs.Settings.{Interpretation, linked_modules};
ghost use Rattle.gb_typing.specs.Chosen.{AreChosen, IsChosenOver};
ghost use Rattle.gb_typing.specs.Context.{procedure};
ghost use Rattle.gb_typing.specs.Modules.{ProcedureType};
ghost use Rattle.gb_typing.specs.Naming.{NamesIfThere, NoName};
ghost use Rattle.gb_typing.specs.Scopes.{context_of, IsTypedScope};
ghost use Rattle.gb_typing.specs.Sequents.{AreBinders, with_modules};
ghost use Rattle.gb_typing.specs.Speaking.{ScopeSpeaks};

/// Where the modules of a typed scope speak of no module's globals together, neither does a procedure that has a type, linked: whatever programs
/// of their types are chosen for abstract modules, those that the scope declares, and those of binders behind it.
pub fn linked_procedures()
    ensures { (ds : Declarations) → IsTypedScope ds → ScopeSpeaks NoName ds → (i : Interpretation) → IsChosenOver ds i → (h : Setting) → (bs : List Bind) →
        AreBinders (context_of ds) bs → AreChosen ds i bs → (r : ProcRef) (t : ProcedureType) → procedure (with_modules (context_of ds) bs) r ≡ Some t →
        NamesIfThere NoName AnyName (procedure_at (linked_modules ds h i.programs) r) }
{}
