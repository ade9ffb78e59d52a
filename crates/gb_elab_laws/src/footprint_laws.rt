//! The footprints of modules, and what procedures read and write.

ghost use Rattle.std.specs.Prelude.{◌≡◌, false, List, [], None, Some};
ghost use Rattle.gb_core.specs.declared.value.Value.{Value};
ghost use Rattle.gb_core.specs.declared.var.Var.{Var};
ghost use Rattle.gb_dist.specs.WeightedList.{Every};
ghost use Rattle.gb_terms.specs.declared.module.Mexp.{Mexp};
ghost use Rattle.gb_terms.specs.declared.module.ProcRef.{ProcRef};
ghost use Rattle.gb_goal.specs.Answers.Answer.{given};
ghost use Rattle.gb_goal.specs.Interfaces.{Interface, interface_at};
ghost use Rattle.gb_goal.specs.Scope as scope;
ghost use Rattle.gb_meaning.specs.Commands.{statements};
ghost use Rattle.gb_meaning.specs.Names.{Map, Path, get};
ghost use Rattle.gb_meaning.specs.Program.{Routine};
ghost use Rattle.gb_meaning.specs.Program.Routine.{routine};
ghost use Rattle.gb_meaning.specs.Runs.{outcomes};
ghost use Rattle.gb_meaning.specs.Setting.{Setting};
ghost use Rattle.gb_laws.specs.Cells.Key.{global};
ghost use Rattle.gb_laws.specs.Pairs.{SameOutcome, Zip};
ghost use Rattle.gb_laws.specs.Writes.{Spares};
ghost use Rattle.gb_meaning.specs.Declared.{declared};
ghost use Rattle.gb_meaning.specs.Footprints.{footprint_read};
ghost use Rattle.gb_meaning.specs.Footprints as meant;
ghost use Rattle.gb_meaning.specs.Modules.{modules_of, no_module};
ghost use Rattle.gb_typing.specs.Rules.{IsSettingOver};
ghost use Rattle.gb_typing.specs.Scopes.{IsTypedScope};
ghost use Rattle.gb_elab_laws.specs.Speaking.{IsFirmScope};
ghost use Rattle.gb_mods.specs.Footprint.{footprint};
ghost use Rattle.gb_mods.specs.Link.{link};
ghost use Rattle.gb_mods.specs.Read.{read};
ghost use Rattle.gb_mods.specs.Written.{written};
ghost use Rattle.gb_mods.specs.declared.procedures.Linked.{Linked};
ghost use Rattle.gb_elab_laws.specs.Agree.{HoldSame};
ghost use Rattle.gb_elab_laws.specs.Members.{CallsAreDeclared, Has};

/// Declared procedures of a typed scope without abstract modules call declared ones alone.
pub fn declared_calls()
    ensures { (ds : scope.Declarations) → IsTypedScope (declared ds) → IsFirmScope ds → CallsAreDeclared ds }
{}

/// The footprint of a module expression that lacks nothing, as it is computed in a typed scope without abstract modules, has the variables
/// of its footprint in the meaning, and no others.
pub fn footprints()
    ensures { (ds : scope.Declarations) → IsTypedScope (declared ds) → IsFirmScope ds → (m : Mexp) (i : Interface) → interface_at ds None m ≡ Some i → i.lacks ≡ [] →
        (xs : List Var) → footprint ds m ≡ Some xs → (x : Var) →
        (Has xs x → Has (meant.footprint (modules_of footprint_read (λ k. no_module) (declared ds)) (λ k. false) m) x)
        × (Has (meant.footprint (modules_of footprint_read (λ k. no_module) (declared ds)) (λ k. false) m) x → Has xs x) }
{}

/// What a reference is linked to in a typed scope is the procedure that its calls run, in each setting over the declarations.
pub fn linked_procedures()
    ensures { (ds : scope.Declarations) → IsTypedScope (declared ds) → (g : Setting) → IsSettingOver (declared ds) g → (p : ProcRef) (l : Linked) → link ds p ≡ given l →
        g.procedure p ≡ Some (routine l.params l.locals (statements g l.body.list) l.result) }
{}

/// A procedure of a typed scope leaves each global that it isn't found to write.
pub fn written_globals()
    ensures { (ds : scope.Declarations) → IsTypedScope (declared ds) → (g : Setting) → IsSettingOver (declared ds) g → (p : ProcRef) (xs : List Var) → written ds p ≡ Some xs →
        (r : Routine) → g.procedure p ≡ Some r → (x : Path) → Spares g.types xs (global x) → (vs : List Value) (m : Map) → Every (λ n. get n.globals x ≡ get m x) (outcomes g r vs m) }
{}

/// A procedure of a typed scope depends on the globals that it is found to read, and on no others. From globals that hold the same there
/// come the same results with the same weights, one by one, and each global is the same behind both, or holds what it held.
pub fn read_globals()
    ensures { (ds : scope.Declarations) → IsTypedScope (declared ds) → (g : Setting) → IsSettingOver (declared ds) g → (p : ProcRef) (xs : List Var) → read ds p ≡ Some xs →
        (r : Routine) → g.procedure p ≡ Some r → (m n : Map) → HoldSame g.types xs m n → (vs : List Value) → Zip (SameOutcome m n) (outcomes g r vs m) (outcomes g r vs n) }
{}
