//! What a procedure of a module with parameters stands for, over any modules that give the same for arguments that are alike.

ghost use Rattle.std.specs.Prelude.{◌≡◌, List, Some};
ghost use Rattle.gb_terms.specs.declared.decl.Module.{Module};
ghost use Rattle.gb_terms.specs.declared.decl.Proc.{Proc};
ghost use Rattle.gb_terms.specs.declared.decl.TypedName.{TypedName};
ghost use Rattle.gb_terms.specs.declared.module.Mexp.TheVariants.{Name as named};
ghost use Rattle.gb_terms.specs.declared.module.ProcRef.{ProcRef};
ghost use Rattle.gb_goal.specs.declared.sequent.Sequent.{Sequent};
ghost use Rattle.gb_goal.specs.Scope.{proc_of};
ghost use Rattle.gb_meaning.specs.Commands.{statements};
ghost use Rattle.gb_meaning.specs.Names.{Name};
ghost use Rattle.gb_meaning.specs.Program.Routine.{routine};
ghost use Rattle.gb_meaning.specs.Setting.{Setting};
ghost use Rattle.gb_meaning.specs.Declared.{Declarations, module_named};
ghost use Rattle.gb_meaning.specs.Footprints.{footprint_read};
ghost use Rattle.gb_meaning.specs.Linking.{linked_procedure};
ghost use Rattle.gb_meaning.specs.Modules.{Modules, Reading, modules_of, procedure_at};
ghost use Rattle.gb_meaning.specs.Settings.{Interpretation, types_of, bare, with_operators, linked_modules, setting};
ghost use Rattle.gb_typing.specs.Chosen.{AreUnchosen};
ghost use Rattle.gb_typing.specs.Context.{Context, procedure};
ghost use Rattle.gb_typing.specs.Modules.{ProcedureType, Interface};
ghost use Rattle.gb_typing.specs.Scopes.{context_of, IsTypedScope};
ghost use Rattle.gb_typing.specs.Sequents.{AreBinders, of_sequent};
ghost use Rattle.gb_goal.specs.Instances.{arguments_of, instance, name_of};
ghost use Rattle.gb_typing.specs.Alike.{AreClosed, LooksAtCalls};
ghost use Rattle.gb_typing.specs.Following.{FollowsCalls};

/// In a typed scope, a procedure of a declared module with arguments that fit is what its instance is, read in the modules of the whole
/// scope: the instance calls the arguments' procedures where the procedure calls those of its module's parameters. The modules may be others
/// than the declarations make under names that the scope doesn't know, as those that a goal binds; each that is seen gives the same for
/// arguments that are alike.
pub fn linked_instances<X>()
    ensures { (read : Reading X) → LooksAtCalls read → FollowsCalls read → (base : Modules X) (ds : Declarations) → IsTypedScope ds → (final : Modules X) →
        ((n : Name) (i : Interface) → (context_of ds).modules.interfaces n ≡ Some i → final n ≡ modules_of read base ds n) →
        (c : Context) → ((n : Name) (i : Interface) → (context_of ds).modules.interfaces n ≡ Some i → c.modules.interfaces n ≡ Some i) →
        AreClosed c.modules final →
        (r : ProcRef) (t : ProcedureType) → procedure c r ≡ Some t → (m : Module) → module_named ds (name_of r.«module») ≡ Some m →
        (p : Proc) → proc_of m.procs r.name ≡ Some p → procedure_at final r ≡ Some (read (procedure_at final) (instance m.params (arguments_of r.«module») p)) }
{}

/// .. and a procedure of a declared module that lacks none is read as it stands.
pub fn plain_procedures<X>()
    ensures { (read : Reading X) → LooksAtCalls read → (base : Modules X) (ds : Declarations) → IsTypedScope ds → (final : Modules X) →
        ((n : Name) (i : Interface) → (context_of ds).modules.interfaces n ≡ Some i → final n ≡ modules_of read base ds n) →
        (c : Context) → ((n : Name) (i : Interface) → (context_of ds).modules.interfaces n ≡ Some i → c.modules.interfaces n ≡ Some i) →
        AreClosed c.modules final →
        (n f : Name) (t : ProcedureType) → procedure c (record { «module» = named n; name = f }) ≡ Some t → (m : Module) → module_named ds n ≡ Some m →
        (p : Proc) → proc_of m.procs f ≡ Some p → procedure_at final (record { «module» = named n; name = f }) ≡ Some (read (procedure_at final) p) }
{}

/// In a setting of a typed scope, where no chosen program hides a declared module, a procedure of a declared module with arguments that fit
/// is the body of its instance, in which each call carries what it names in the setting.
pub fn instances_in_settings()
    ensures { (ds : Declarations) → IsTypedScope ds → (i : Interpretation) → AreUnchosen i.programs ds →
        (c : Context) → ((n : Name) (j : Interface) → (context_of ds).modules.interfaces n ≡ Some j → c.modules.interfaces n ≡ Some j) →
        AreClosed c.modules (linked_modules ds (with_operators i.table (bare (types_of ds i) i.table) ds) i.programs) →
        (r : ProcRef) (t : ProcedureType) → procedure c r ≡ Some t → (m : Module) → module_named ds (name_of r.«module») ≡ Some m →
        (p : Proc) → proc_of m.procs r.name ≡ Some p →
        let q : Proc = instance m.params (arguments_of r.«module») p in
        (setting ds i).procedure r ≡ Some (routine q.params q.locals (statements (setting ds i) q.body.list) q.value) }
{}

/// A goal sees all modules of its scope.
pub fn seen_in_goals()
    ensures { (ds : Declarations) (q : Sequent) (fs : List (List TypedName)) → AreBinders (context_of ds) q.modules → (n : Name) (i : Interface) →
        (context_of ds).modules.interfaces n ≡ Some i → (of_sequent (context_of ds) q fs).modules.interfaces n ≡ Some i }
{}

/// Linking and footprints look at what the procedures that are called mean, and not at how they are named.
pub fn readings()
    ensures linking { (g : Setting) → FollowsCalls (linked_procedure g) }
    ensures footprints { FollowsCalls footprint_read }
{}
