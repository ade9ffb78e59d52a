//! Open programs, linked with oracles on two sides that are coupled.

ghost use Rattle.std.specs.Prelude.{◌≡◌, Bool, true, List, Option};
ghost use Rattle.gb_core.specs.declared.value.Value.{Value};
ghost use Rattle.gb_dist.specs.Coupling.{Coupling};
ghost use Rattle.gb_meaning.specs.Memory.{Memory};
ghost use Rattle.gb_meaning.specs.Names.{Map};
ghost use Rattle.gb_meaning.specs.Program.{Program, Routine, Oracle};
ghost use Rattle.gb_meaning.specs.Runs.{out, outcomes, run_denominator, routine_denominator};
ghost use Rattle.gb_meaning.specs.Setting.{Setting};
ghost use Rattle.gb_meaning.specs.State.{State};
ghost use Rattle.gb_meaning.specs.Values.{Global};
ghost use Rattle.gb_meaning.specs.Declared.{Signature};
ghost use Rattle.gb_meaning.specs.Linking.{Oracles, link, link_routine};
ghost use Rattle.gb_meaning.specs.Typing.{Names, IsTyped, IsTypedRoutine};
ghost use Rattle.gb_prog.specs.Coupled.{values_of, IsKept, Alike, OraclesAlike};

/// An open program that is typed within some globals is linked with two lists of oracles. Those that answer for one oracle write none of these
/// globals, and are coupled on the same result and a relation of globals, from the same arguments and globals in the relation; and the relation
/// stays where one of these globals gets the same value on both sides. Then the two programs are coupled on the same frame, the same values of
/// these globals and the relation, from memories where all this is so. Neither has to have good loops or full weight.
pub fn coupled_programs()
    ensures program { (g : Setting) (ss : Oracle → Option Signature) (names : Names) (R : Map → Map → Bool) (os qs : Oracles) →
        IsKept names.globals R → OraclesAlike g ss names.globals R os qs → (c : Program) → IsTyped g ss names c →
        (s : State) (m n : Memory) → Alike g.types names.globals R m n → Coupling (Alike g.types names.globals R)
        (out g s (link os c) m) (run_denominator g (link os c)) (out g s (link qs c) n) (run_denominator g (link qs c)) }
    ensures procedure { (g : Setting) (ss : Oracle → Option Signature) (gs : List Global) (R : Map → Map → Bool) (os qs : Oracles) →
        IsKept gs R → OraclesAlike g ss gs R os qs → (r : Routine) → IsTypedRoutine g ss gs r →
        (vs : List Value) (G H : Map) → values_of g.types gs G ≡ values_of g.types gs H → R G H ≡ true → Coupling (Alike g.types gs R)
        (outcomes g (link_routine os r) vs G) (routine_denominator g (link_routine os r))
        (outcomes g (link_routine qs r) vs H) (routine_denominator g (link_routine qs r)) }
{}
