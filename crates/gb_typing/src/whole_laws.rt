//! What the procedures of a declared module stand for, with arguments in the places of its parameters: in scripts, and in the settings of goals.

ghost use Rattle.std.specs.Prelude.{◌≡◌, List, Some};
ghost use Rattle.gb_terms.specs.declared.decl.Module.{Module};
ghost use Rattle.gb_terms.specs.declared.decl.Proc.{Proc};
ghost use Rattle.gb_terms.specs.declared.decl.TypedName.{TypedName};
ghost use Rattle.gb_terms.specs.declared.module.ProcRef.{ProcRef};
ghost use Rattle.gb_goal.specs.declared.sequent.Sequent.{Sequent};
ghost use Rattle.gb_goal.specs.Scope as scope;
ghost use Rattle.gb_goal.specs.Scope.{module_of, proc_of};
ghost use Rattle.gb_meaning.specs.Commands.{statements};
ghost use Rattle.gb_meaning.specs.Program.Routine.{routine};
ghost use Rattle.gb_meaning.specs.Declared.{Declarations, declared, module_named};
ghost use Rattle.gb_meaning.specs.Footprints.{footprint_read};
ghost use Rattle.gb_meaning.specs.Modules.{Modules, Reading, modules_of, procedure_at};
ghost use Rattle.gb_meaning.specs.Settings.{Interpretation, footprints, setting};
ghost use Rattle.gb_typing.specs.Chosen.{AreChosen, IsChosenOver};
ghost use Rattle.gb_typing.specs.Context.{procedure};
ghost use Rattle.gb_typing.specs.Modules.{ProcedureType};
ghost use Rattle.gb_typing.specs.Scopes.{nothing, context_of, IsTypedScope};
ghost use Rattle.gb_typing.specs.Sequents.{AreBinders, of_sequent};
ghost use Rattle.gb_typing.specs.Alike.{AreAbstractAlike, LooksAtCalls};
ghost use Rattle.gb_typing.specs.Following.{FollowsCalls};
ghost use Rattle.gb_goal.specs.Instances.{arguments_of, instance, name_of};

/// In the scope of a script, over abstract modules that give the same for arguments that are alike, a procedure of a declared module with
/// arguments that fit is what its instance is, read in the modules of the whole scope.
pub fn instances_in_scripts<X>()
    ensures { (read : Reading X) → LooksAtCalls read → FollowsCalls read → (ds : scope.Declarations) → IsTypedScope (declared ds) → (base : Modules X) →
        AreAbstractAlike nothing (declared ds) base base →
        (r : ProcRef) (t : ProcedureType) → procedure (context_of (declared ds)) r ≡ Some t → (m : Module) → module_of ds (name_of r.«module») ≡ Some m →
        (p : Proc) → proc_of m.procs r.name ≡ Some p →
        procedure_at (modules_of read base (declared ds)) r ≡ Some (read (procedure_at (modules_of read base (declared ds))) (instance m.params (arguments_of r.«module») p)) }
{}

/// .. and in a setting over it, where programs of their types are chosen for abstract modules and none hides a declared module, it is the
/// body of its instance, in which each call carries what it names in the setting.
pub fn script_settings()
    ensures { (ds : scope.Declarations) → IsTypedScope (declared ds) → (i : Interpretation) → IsChosenOver (declared ds) i →
        (r : ProcRef) (t : ProcedureType) → procedure (context_of (declared ds)) r ≡ Some t → (m : Module) → module_of ds (name_of r.«module») ≡ Some m →
        (p : Proc) → proc_of m.procs r.name ≡ Some p →
        let s : Proc = instance m.params (arguments_of r.«module») p in
        (setting (declared ds) i).procedure r ≡ Some (routine s.params s.locals (statements (setting (declared ds) i) s.body.list) s.value) }
{}

/// In a setting of a goal, a procedure of a declared module with arguments that fit, modules that the goal binds among them, is the body of
/// its instance, in which each call carries what it names in the setting.
pub fn instances_in_goals()
    ensures { (ds : Declarations) → IsTypedScope ds → (i : Interpretation) → IsChosenOver ds i →
        (q : Sequent) (fs : List (List TypedName)) → AreBinders (context_of ds) q.modules → AreChosen ds i q.modules →
        (r : ProcRef) (t : ProcedureType) → procedure (of_sequent (context_of ds) q fs) r ≡ Some t → (m : Module) → module_named ds (name_of r.«module») ≡ Some m →
        (p : Proc) → proc_of m.procs r.name ≡ Some p →
        let s : Proc = instance m.params (arguments_of r.«module») p in
        (setting ds i).procedure r ≡ Some (routine s.params s.locals (statements (setting ds i) s.body.list) s.value) }
{}

/// .. and its footprint is that of its instance, among the footprints of all modules.
pub fn footprints_in_goals()
    ensures { (ds : Declarations) → IsTypedScope ds → (i : Interpretation) → IsChosenOver ds i →
        (q : Sequent) (fs : List (List TypedName)) → AreBinders (context_of ds) q.modules → AreChosen ds i q.modules →
        (r : ProcRef) (t : ProcedureType) → procedure (of_sequent (context_of ds) q fs) r ≡ Some t → (m : Module) → module_named ds (name_of r.«module») ≡ Some m →
        (p : Proc) → proc_of m.procs r.name ≡ Some p →
        procedure_at (footprints ds i.programs) r ≡ Some (footprint_read (procedure_at (footprints ds i.programs)) (instance m.params (arguments_of r.«module») p)) }
{}
