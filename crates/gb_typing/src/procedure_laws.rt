//! The concrete procedures of a script.

ghost use Rattle.std.specs.Option.{option_map};
ghost use Rattle.std.specs.Prelude.{◌≡◌, List, [], None, Some};
ghost use Rattle.gb_goal.specs.declared.sequent.Sequent.{Sequent};
ghost use Rattle.gb_goal.specs.Interfaces.{procedure_type};
ghost use Rattle.gb_goal.specs.Scope.{Declarations, module_of, proc_in, procedure_of};
ghost use Rattle.gb_terms.specs.declared.decl.Proc.{Proc};
ghost use Rattle.gb_terms.specs.declared.decl.TypedName.{TypedName};
ghost use Rattle.gb_terms.specs.declared.module.Mexp.TheVariants.{Name as named};
ghost use Rattle.gb_terms.specs.declared.module.ProcRef.{ProcRef};
ghost use Rattle.gb_meaning.specs.Names.{Name};
ghost use Rattle.gb_meaning.specs.Commands.{statements};
ghost use Rattle.gb_meaning.specs.Program.Routine.{routine};
ghost use Rattle.gb_meaning.specs.Declared as holds;
ghost use Rattle.gb_meaning.specs.Declared.{declared};
ghost use Rattle.gb_meaning.specs.Holds.{declared_modules};
ghost use Rattle.gb_meaning.specs.Modules.{Reading, procedure_at, modules_of};
ghost use Rattle.gb_meaning.specs.Modules as linked;
ghost use Rattle.gb_meaning.specs.Naming.{EachCallOf};
ghost use Rattle.gb_meaning.specs.Settings.{Interpretation, setting};
ghost use Rattle.gb_typing.specs.Alike.{AreAbstractAlike, LooksAtCalls};
ghost use Rattle.gb_typing.specs.Chosen.{IsChosenOver};
ghost use Rattle.gb_typing.specs.Context.{procedure};
ghost use Rattle.gb_typing.specs.Modules.{ProcedureType};
ghost use Rattle.gb_typing.specs.Programs.{IsProcedure, type_of_procedure};
ghost use Rattle.gb_typing.specs.Scopes.{nothing, context_of, with_each, AreTypedAfter, IsTypedScope};
ghost use Rattle.gb_typing.specs.Sequents.{AreBinders, of_sequent};

/// A concrete procedure of a typed scope is typed in the context of each goal over the scope, and has its type there.
pub fn typed_procedures()
    ensures typed { (ds : Declarations) → IsTypedScope (declared ds) → (q : Sequent) → AreBinders (context_of (declared ds)) q.modules →
        (fs : List (List TypedName)) (r : ProcRef) (p : Proc) → procedure_of ds r ≡ Some p → IsProcedure (of_sequent (context_of (declared ds)) q fs) p }
    ensures of_type { (ds : Declarations) → IsTypedScope (declared ds) → (q : Sequent) → AreBinders (context_of (declared ds)) q.modules →
        (fs : List (List TypedName)) (r : ProcRef) (p : Proc) → procedure_of ds r ≡ Some p →
        procedure (of_sequent (context_of (declared ds)) q fs) r ≡ Some (type_of_procedure p) }
{}

/// In the context of a typed scope a reference to a procedure has the type that is known by declarations, and none where none is known. So
/// what a declared procedure calls has a type. Without abstract modules it has one where it means a declared procedure, namely that
/// procedure's, and nowhere else.
pub fn known_procedures()
    ensures types { (ds : Declarations) → IsTypedScope (declared ds) → (r : ProcRef) →
        procedure (context_of (declared ds)) r ≡ procedure_type ds None r }
    ensures calls { (ds : Declarations) → IsTypedScope (declared ds) → (r : ProcRef) (p : Proc) → procedure_of ds r ≡ Some p →
        EachCallOf (λ q. (t : ProcedureType) × (procedure_type ds None q ≡ Some t)) p.body.list }
    ensures declared { (ds : Declarations) → IsTypedScope (declared ds) → declared_modules (declared ds) ≡ [] → (r : ProcRef) →
        procedure (context_of (declared ds)) r ≡ option_map type_of_procedure (procedure_of ds r) }
{}

/// In a setting of a typed scope, where programs of their types are chosen for abstract modules and none hides a declared module, a concrete
/// procedure is its body, in which each call carries what it names in the setting.
pub fn linked_procedures()
    ensures { (ds : Declarations) → IsTypedScope (declared ds) → (i : Interpretation) → IsChosenOver (declared ds) i →
        (r : ProcRef) (p : Proc) → procedure_of ds r ≡ Some p →
        (setting (declared ds) i).procedure r ≡ Some (routine p.params p.locals (statements (setting (declared ds) i) p.body.list) p.value) }
{}

/// What a reference to a procedure means over declarations, also of a module that is given modules, has its type where more is declared,
/// and in the context of each goal, which may have abstract modules.
pub fn growing_contexts()
    ensures later { (ds es : holds.Declarations) → IsTypedScope ds → AreTypedAfter (context_of ds) ds es →
        (r : ProcRef) (t : ProcedureType) → procedure (context_of ds) r ≡ Some t → procedure (with_each (context_of ds) es) r ≡ Some t }
    ensures goals { (ds : holds.Declarations) (q : Sequent) → AreBinders (context_of ds) q.modules → (fs : List (List TypedName)) →
        (r : ProcRef) (t : ProcedureType) → procedure (context_of ds) r ≡ Some t → procedure (of_sequent (context_of ds) q fs) r ≡ Some t }
{}

/// A procedure of a module without parameters is read where each call in it means what it means in the whole scope, also where its module
/// is given to another one. Abstract modules give the same for arguments that are alike.
pub fn whole_readings<X>()
    ensures { (read : Reading X) → LooksAtCalls read → (base : linked.Modules X) → (ds : Declarations) → IsTypedScope (declared ds) →
        AreAbstractAlike nothing (declared ds) base base →
        (n f : Name) (p : Proc) → proc_in (module_of ds n) f ≡ Some p →
        procedure_at (modules_of read base (declared ds)) (record { «module» = named n; name = f }) ≡
        Some (read (procedure_at (modules_of read base (declared ds))) p) }
{}
