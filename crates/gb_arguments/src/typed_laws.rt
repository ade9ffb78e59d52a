//! Open programs are typed.

ghost use Rattle.std.specs.Prelude.{◌≡◌, true, List, Option, Some};
ghost use Rattle.gb_terms.specs.declared.module.Mexp.{Mexp};
ghost use Rattle.gb_meaning.specs.Names.{Name};
ghost use Rattle.gb_meaning.specs.Program.{Routine, Oracle};
ghost use Rattle.gb_meaning.specs.Setting.{Setting};
ghost use Rattle.gb_meaning.specs.Values.{Global, World};
ghost use Rattle.gb_laws.specs.Finite.{IsInhabited};
ghost use Rattle.gb_meaning.specs.Adversary.{callable, may_call, oracle_signature};
ghost use Rattle.gb_meaning.specs.Declared.{Declarations, ModuleType, Signature};
ghost use Rattle.gb_meaning.specs.Footprints.{footprint_read};
ghost use Rattle.gb_meaning.specs.Holds.{GiveResults};
ghost use Rattle.gb_meaning.specs.Programs.{AreIn, HasProcedures};
ghost use Rattle.gb_meaning.specs.Settings.{Interpretation, declared_globals, setting, types_of};
ghost use Rattle.gb_meaning.specs.Typing.{IsTypedRoutine};
ghost use Rattle.gb_typing.specs.Chosen.{IsChosenOver, IsFittingWorld};
ghost use Rattle.gb_typing.specs.Modules.{fits, functor_type, interface_at};
ghost use Rattle.gb_typing.specs.Naming.{NoName};
ghost use Rattle.gb_typing.specs.Scopes.{context_of, IsTypedScope};
ghost use Rattle.gb_typing.specs.Speaking.{ScopeSpeaks};
ghost use Rattle.gb_arguments.specs.Opened.{Callee, open_procedure, open_program, relink_routine};
ghost use Rattle.gb_arguments.specs.Programs.{AskNamed, RoutineAsks};
ghost use Rattle.gb_arguments.specs.Reading.{KeepAlike};
ghost use Rattle.gb_arguments.specs.Related.{IsNarrow};
ghost use Rattle.gb_arguments.specs.Typed.{AnswersTyped, AreExpressed, IsKnownIn, IsPlainIn, IsTypedBy};

/// An expression of a typed program that takes no module's globals together is typed within the globals that it reads, where each abstract type has a value.
pub fn typed_expressions()
    ensures { (g : Setting) (ss : Oracle → Option Signature) (w : World) (pf : Name → List Global) (gs : List Global) → IsInhabited g.types →
        AreExpressed g ss w pf gs (IsKnownIn g w) }
{}

/// Where expressions are typed that read some globals alone, and none of a module together, reading with open parameters gives procedures that are typed within these globals, as
/// far as their footprints are within them.
pub fn typed_readings()
    ensures narrow { (g : Setting) (ss : Oracle → Option Signature) (w : World) (pf : Name → List Global) (gs : List Global) → IsNarrow (IsTypedBy g ss w pf gs) }
    ensures keeps { (g : Setting) (ss : Oracle → Option Signature) (w : World) (pf : Name → List Global) (gs : List Global) → AreExpressed g ss w pf gs (IsKnownIn g w) →
        KeepAlike (IsTypedBy g ss w pf gs) (IsPlainIn g w) open_procedure footprint_read }
{}

/// A typed open program, whose oracles are answered by typed procedures that may ask in their turn, is typed.
pub fn relinked_programs()
    ensures { (g : Setting) (few ss : Oracle → Option Signature) (gs : List Global) (f : Oracle → Option Callee) →
        ((o : Oracle) (u : Signature) → few o ≡ Some u → AnswersTyped g ss gs u (f o)) → (r : Routine) → IsTypedRoutine g few gs r → IsTypedRoutine g ss gs (relink_routine f r) }
{}

/// A typed open program that asks those oracles alone that a signature names is typed by the signature.
pub fn named_oracles()
    ensures { (ds : Declarations) (t : ModuleType) (s : Signature) (g : Setting) (gs : List Global) (r : Routine) → IsTypedRoutine g (oracle_signature ds t.params) gs r →
        RoutineAsks (λ o. may_call s.oracles o ≡ true) r → IsTypedRoutine g (callable ds t s) gs r }
{}

/// In a typed scope whose modules take no module's globals together, where abstract operators have results of their types, the world has the
/// declared globals and programs of their types are chosen for abstract modules, the open program of a module expression that fits a module type
/// is typed by the type's signatures, within the globals of the expression's footprint, where it asks those oracles alone that these name.
pub fn typed_programs()
    ensures { (ds : Declarations) → IsTypedScope ds → ScopeSpeaks NoName ds → (i : Interpretation) → IsChosenOver ds i → IsFittingWorld i →
        GiveResults ds (types_of ds i) i.table → AreIn i.world (declared_globals ds) → (m : Mexp) (n : Name) (t : ModuleType) → (context_of ds).modules.types n ≡ Some t →
        fits (interface_at (context_of ds).modules m) (functor_type (context_of ds).modules.types (Some t)) ≡ true →
        AskNamed (open_program ds i t m) t.signatures → HasProcedures ds (setting ds i) t (open_program ds i t m) t.signatures }
{}
