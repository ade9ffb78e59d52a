//! The open programs of module expressions.

ghost use Rattle.std.specs.Prelude.{◌≡◌, true, List, Option, Some};
ghost use Rattle.gb_terms.specs.declared.module.Mexp.{Mexp};
ghost use Rattle.gb_terms.specs.declared.module.ProcRef.{ProcRef};
ghost use Rattle.gb_terms.specs.declared.term.Instr.{Instr};
ghost use Rattle.gb_meaning.specs.Commands.{statements};
ghost use Rattle.gb_meaning.specs.Names.{Name};
ghost use Rattle.gb_meaning.specs.Program.{Routine, Oracle};
ghost use Rattle.gb_meaning.specs.Setting.{Setting};
ghost use Rattle.gb_meaning.specs.Values.{Global};
ghost use Rattle.gb_meaning.specs.Adversary.{with_oracles};
ghost use Rattle.gb_meaning.specs.Declared.{Declarations, ModuleType, Signature};
ghost use Rattle.gb_meaning.specs.Linking.{Oracles, calling, link, link_routine};
ghost use Rattle.gb_meaning.specs.Naming.{EachCallOf};
ghost use Rattle.gb_meaning.specs.Settings.{Interpretation, linked_modules};
ghost use Rattle.gb_meaning.specs.Typing.{IsTypedRoutine};
ghost use Rattle.gb_typing.specs.Alike.{applied_at};
ghost use Rattle.gb_typing.specs.Chosen.{IsChosenOver};
ghost use Rattle.gb_typing.specs.Modules.{fits, functor_type, interface_at, of_functor_type};
ghost use Rattle.gb_typing.specs.Scopes.{context_of, IsTypedScope};
ghost use Rattle.gb_arguments.specs.Opened.{Callee, open_program, relink_routine, statements_over};
ghost use Rattle.gb_arguments.specs.Programs.{AreSame, IsLinkedBy, IsLinked};
ghost use Rattle.gb_arguments.specs.Related.{StandAlike};

/// The program of statements whose calls may be open, linked, is the program in which each call carries what it is linked to; and an open
/// program whose oracles are answered by procedures that are open in their turn, linked, is the program linked with what these are linked to.
pub fn linking()
    ensures statements { (g : Setting) (os : Oracles) (f : ProcRef → Option Callee) (h : ProcRef → Option Routine) (is : List Instr) →
        EachCallOf (λ r. IsLinked os (f r) (h r)) is → link os (statements_over f is) ≡ statements (calling g h) is }
    ensures oracles { (g : Setting) (ss : Oracle → Option Signature) (os qs : Oracles) (f : Oracle → Option Callee) →
        ((o : Oracle) (s : Signature) → ss o ≡ Some s → IsLinked os (f o) (qs o)) → (gs : List Global) (r : Routine) → IsTypedRoutine g ss gs r →
        link_routine os (relink_routine f r) ≡ link_routine qs r }
{}

/// In a typed scope, where programs of their types are chosen for abstract modules, the open program of a module expression that fits a module
/// type is the module: linked with modules for the type's parameters it has the procedures that the expression has with these.
pub fn open_programs()
    ensures { (ds : Declarations) → IsTypedScope ds → (i : Interpretation) → IsChosenOver ds i → (h : Setting) → (m : Mexp) (n : Name) (t : ModuleType) →
        (context_of ds).modules.types n ≡ Some t → fits (interface_at (context_of ds).modules m) (functor_type (context_of ds).modules.types (Some t)) ≡ true →
        StandAlike AreSame (of_functor_type (functor_type (context_of ds).modules.types (Some t)))
        (with_oracles t (open_program ds i t m)) (applied_at (linked_modules ds h i.programs) m) }
{}
