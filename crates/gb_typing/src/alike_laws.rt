//! What is alike, and what a functor makes of arguments that are open or closed.

ghost use Rattle.std.specs.Prelude.{◌≡◌, ◌++◌, [], true, map, List, Option, Some};
ghost use Rattle.gb_terms.specs.declared.decl.Module.{Module};
ghost use Rattle.gb_terms.specs.declared.decl.Proc.{Proc};
ghost use Rattle.gb_terms.specs.declared.module.Bind.{Bind};
ghost use Rattle.gb_terms.specs.declared.module.Mexp.{Mexp};
ghost use Rattle.gb_terms.specs.declared.module.ProcRef.{ProcRef};
ghost use Rattle.gb_goal.specs.Scope as scope;
ghost use Rattle.gb_meaning.specs.Names.{Name};
ghost use Rattle.gb_meaning.specs.Setting.{Setting};
ghost use Rattle.gb_meaning.specs.Values.{World};
ghost use Rattle.gb_meaning.specs.Adversary.{Adversary, with_oracles, abstract_footprint};
ghost use Rattle.gb_meaning.specs.Declared.{Declarations, ModuleType, declared};
ghost use Rattle.gb_meaning.specs.Footprints.{footprint_read};
ghost use Rattle.gb_meaning.specs.Holds.{declared_modules};
ghost use Rattle.gb_meaning.specs.Linking.{linked_procedure};
ghost use Rattle.gb_meaning.specs.Modules.{Procedures, Functor, Reading, closed, argument, module_at, procedure_at, no_module, with_procedures, module_read, modules_of};
ghost use Rattle.gb_meaning.specs.Modules as linked;
ghost use Rattle.gb_meaning.specs.Programs.{IsProgramFor};
ghost use Rattle.gb_meaning.specs.Settings.{Chosen, Interpretation, types_of, bare, with_operators, footprints, linked_modules};
ghost use Rattle.gb_meaning.specs.Settings.{with_abstract_footprints, with_abstract_programs};
ghost use Rattle.gb_typing.specs.Chosen.{AreChosen, AreUnchosen, IsChosenOver};
ghost use Rattle.gb_typing.specs.Context.{Context};
ghost use Rattle.gb_typing.specs.Modules.{ProcedureType, FunctorType, Interface, Modules, functor_type, of_functor_type};
ghost use Rattle.gb_typing.specs.Modules.{fits, interface_at, procedure_type};
ghost use Rattle.gb_typing.specs.Scopes.{nothing, interface_with, procedure_types, AreProcedures, context_of, IsTypedScope};
ghost use Rattle.gb_typing.specs.Sequents.{AreBinders, with_modules};
ghost use Rattle.gb_typing.specs.Alike.{LooksAtCalls, StandAlike, AreOpenAlike, AreAlike, AreAllAlike, AreAbstractAlike, AreClosed};
ghost use Rattle.gb_typing.specs.Alike.{SameParams, NameSigned, applied_at};

/// A module expression takes what it lacks as modules that lack nothing. Over modules that are alike, module expressions are alike,
/// with further arguments or with what they lack, and a reference to a procedure that has a type means the same.
pub fn alike_expressions<X>()
    ensures opened { (ms : linked.Modules X) (m : Mexp) (xs : List (Procedures X)) →
        module_at ms m xs ≡ applied_at ms m (map closed xs) }
    ensures applied { (ms : Modules) (ks ls : linked.Modules X) → AreAllAlike ms ks ls → (m : Mexp) (i : Interface) →
        interface_at ms m ≡ Some i → StandAlike i (applied_at ks m) (applied_at ls m) }
    ensures expressions { (ms : Modules) (ks ls : linked.Modules X) → AreAllAlike ms ks ls → (m : Mexp) (i : Interface) →
        interface_at ms m ≡ Some i → AreOpenAlike i (module_at ks m) (module_at ls m) }
    ensures procedures { (ms : Modules) (ks ls : linked.Modules X) → AreAllAlike ms ks ls → (p : ProcRef) (t : ProcedureType) →
        procedure_type ms p ≡ Some t → procedure_at ks p ≡ procedure_at ls p }
{}

/// A module that stands for a parameter gives the same whether it closes its own arguments or keeps them open.
pub fn closed_arguments<X>()
    ensures { (ms : Modules) (ks ls : linked.Modules X) → AreAllAlike ms ks ls → (m : Mexp) (t : FunctorType) →
        fits (interface_at ms m) t ≡ true → StandAlike (of_functor_type t) (argument (module_at ks m)) (applied_at ls m) }
{}

/// A typed module gives the same procedures for alike arguments, over modules that are alike; and in the course of its own
/// declaration it is alike what it is in the end, as far as it has procedures already.
pub fn alike_modules<X>()
    ensures whole { (read : Reading X) → LooksAtCalls read → (c : Context) (m : Module) → AreProcedures c m [] m.procs →
        (ks ls : linked.Modules X) → AreAllAlike c.modules ks ls → (fs gs : List (Functor X)) →
        AreAlike (map (λ p. functor_type c.modules.types (c.modules.types p.ty)) m.params) fs gs →
        module_read read ks m fs ≡ module_read read ls m gs }
    ensures own { (read : Reading X) → LooksAtCalls read → (c : Context) (m : Module) → AreProcedures c m [] m.procs →
        (ps qs : List Proc) → m.procs ≡ ps ++ qs → (ks ls : linked.Modules X) → AreAllAlike c.modules ks ls →
        StandAlike (interface_with c.modules.types m.params (procedure_types ps))
        (with_procedures read ks m no_module ps) (module_read read ls m) }
{}

/// The modules of a typed scope are alike over alike abstract modules; so each gives the same for arguments that are alike at what it
/// lacks, also where names that the scope doesn't know stand for something else. Without abstract modules nothing is asked.
pub fn closed_scopes<X>()
    ensures alike { (read : Reading X) → LooksAtCalls read → (ds : Declarations) → IsTypedScope ds → (ks ls : linked.Modules X) →
        AreAbstractAlike nothing ds ks ls → AreAllAlike (context_of ds).modules (modules_of read ks ds) (modules_of read ls ds) }
    ensures closed { (read : Reading X) → LooksAtCalls read → (ds : Declarations) → IsTypedScope ds → (base : linked.Modules X) →
        AreAbstractAlike nothing ds base base → (final : linked.Modules X) →
        ((k : Name) (i : Interface) → (context_of ds).modules.interfaces k ≡ Some i → final k ≡ modules_of read base ds k) →
        AreClosed (context_of ds).modules final }
    ensures scripts { (read : Reading X) → LooksAtCalls read → (ds : scope.Declarations) → IsTypedScope (declared ds) →
        declared_modules (declared ds) ≡ [] → (base final : linked.Modules X) →
        ((k : Name) (i : Interface) → (context_of (declared ds)).modules.interfaces k ≡ Some i →
        final k ≡ modules_of read base (declared ds) k) →
        AreClosed (context_of (declared ds)).modules final }
{}

/// In a setting, and in its footprints, names mean what the declarations make of them over the abstract modules: no program is chosen
/// under the name of a declared module.
pub fn modules_of_settings()
    ensures linked { (ds : Declarations) (g : Setting) (cs : List Chosen) → AreUnchosen cs ds → (n : Name) →
        linked_modules ds g cs n ≡ modules_of (linked_procedure g) (with_abstract_programs ds cs (λ k. no_module)) ds n }
    ensures touched { (ds : Declarations) (cs : List Chosen) → AreUnchosen cs ds → (n : Name) →
        footprints ds cs n ≡ modules_of footprint_read (with_abstract_footprints ds cs (λ k. no_module)) ds n }
{}

/// A program for a module type gives the same for arguments that are alike at what it lacks. So do all modules of a setting that a
/// typed scope knows, those of open sections among them, and those that a goal binds.
pub fn closed_settings()
    ensures programs { (g : Setting) (ds : Declarations) (types : Name → Option ModuleType) (t : ModuleType) → SameParams ds types t.params →
        (w : World) (a : Adversary) → IsProgramFor ds g w t a →
        StandAlike (of_functor_type (functor_type types (Some t))) (with_oracles t a) (with_oracles t a) }
    ensures scripts { (ds : scope.Declarations) → IsTypedScope (declared ds) → declared_modules (declared ds) ≡ [] →
        (g : Setting) (cs : List Chosen) → AreUnchosen cs (declared ds) →
        AreClosed (context_of (declared ds)).modules (linked_modules (declared ds) g cs) }
    ensures scopes { (ds : Declarations) → IsTypedScope ds → (i : Interpretation) → IsChosenOver ds i →
        AreClosed (context_of ds).modules (linked_modules ds (with_operators i.table (bare (types_of ds i) i.table) ds) i.programs) }
    ensures goals { (ds : Declarations) → IsTypedScope ds → (i : Interpretation) → IsChosenOver ds i →
        (bs : List Bind) → AreBinders (context_of ds) bs → AreChosen ds i bs →
        AreClosed (with_modules (context_of ds) bs).modules
        (linked_modules ds (with_operators i.table (bare (types_of ds i) i.table) ds) i.programs) }
{}

/// The same of footprints: an abstract module touches what the oracles do that its signatures name, and these have signatures.
pub fn closed_footprints()
    ensures abstract_modules { (ds : Declarations) (types : Name → Option ModuleType) (t : ModuleType) → SameParams ds types t.params →
        NameSigned ds t t.signatures → (a : Name) →
        StandAlike (of_functor_type (functor_type types (Some t))) (abstract_footprint ds a t) (abstract_footprint ds a t) }
    ensures scripts { (ds : scope.Declarations) → IsTypedScope (declared ds) → declared_modules (declared ds) ≡ [] →
        (cs : List Chosen) → AreUnchosen cs (declared ds) → AreClosed (context_of (declared ds)).modules (footprints (declared ds) cs) }
    ensures scopes { (ds : Declarations) → IsTypedScope ds → (i : Interpretation) → IsChosenOver ds i →
        AreClosed (context_of ds).modules (footprints ds i.programs) }
    ensures goals { (ds : Declarations) → IsTypedScope ds → (i : Interpretation) → IsChosenOver ds i →
        (bs : List Bind) → AreBinders (context_of ds) bs → AreChosen ds i bs →
        AreClosed (with_modules (context_of ds) bs).modules (footprints ds i.programs) }
{}
