//! Open programs, linked with oracles on two sides that are coupled until an event has come about.

ghost use Rattle.std.specs.Prelude.{◌≡◌, Bool, true, false, List, Option};
ghost use Rattle.gb_core.specs.declared.value.Value.{Value};
ghost use Rattle.gb_dist.specs.Coupling.{Coupling};
ghost use Rattle.gb_meaning.specs.Memory.{Memory};
ghost use Rattle.gb_meaning.specs.Names.{Map};
ghost use Rattle.gb_meaning.specs.Program.{Program, Routine, Oracle};
ghost use Rattle.gb_meaning.specs.Runs.{out, outcomes, run_denominator, routine_denominator};
ghost use Rattle.gb_meaning.specs.Setting.{Setting};
ghost use Rattle.gb_meaning.specs.Sound.{Full, FullRoutine};
ghost use Rattle.gb_meaning.specs.State.{State};
ghost use Rattle.gb_meaning.specs.Values.{Global};
ghost use Rattle.gb_meaning.specs.Declared.{Signature};
ghost use Rattle.gb_meaning.specs.Linking.{Oracles, link, link_routine};
ghost use Rattle.gb_meaning.specs.Typing.{Names, IsTyped, IsTypedRoutine};
ghost use Rattle.gb_prog.specs.Coupled.{values_of, IsKept};
ghost use Rattle.gb_prog.specs.KeptProperty.{IsApartFrom};
ghost use Rattle.gb_prog.specs.Until.{AlikeUntil, OraclesUntil};

/// An open program that is typed within some globals is linked with two lists of oracles, and loses no weight on either side. Those that answer
/// for one oracle write none of these globals, and from the same arguments and globals in a relation, where an event hasn't come about in the
/// right ones, they are coupled on the same result and the relation, as long as the event still hasn't; and the right ones keep the event. The
/// relation stays where one of these globals gets the same value on both sides, and the event where one gets a value. Then, from memories with
/// the same frame, the same values of these globals and the relation, unless the event has come about, the two programs are coupled on all
/// this, unless it has. So are its procedures, from arguments that are the same unless it has. Where it has, what goes on is coupled by the product of both runs, which have one total.
pub fn coupled_until()
    ensures program { (g : Setting) (ss : Oracle → Option Signature) (names : Names) (B : Map → Bool) (R : Map → Map → Bool) (os qs : Oracles) →
        IsKept names.globals R → IsApartFrom names.globals B → OraclesUntil g ss names.globals B R os qs →
        (c : Program) → IsTyped g ss names c → Full g (link os c) → Full g (link qs c) →
        (s : State) (m n : Memory) → AlikeUntil g.types names.globals B R m n → Coupling (AlikeUntil g.types names.globals B R)
        (out g s (link os c) m) (run_denominator g (link os c)) (out g s (link qs c) n) (run_denominator g (link qs c)) }
    ensures procedure { (g : Setting) (ss : Oracle → Option Signature) (gs : List Global) (B : Map → Bool) (R : Map → Map → Bool) (os qs : Oracles) →
        IsKept gs R → IsApartFrom gs B → OraclesUntil g ss gs B R os qs →
        (r : Routine) → IsTypedRoutine g ss gs r → FullRoutine g (link_routine os r) → FullRoutine g (link_routine qs r) →
        (vs us : List Value) (G H : Map) → (B H ≡ false → (vs ≡ us) × (values_of g.types gs G ≡ values_of g.types gs H) × (R G H ≡ true)) →
        Coupling (AlikeUntil g.types gs B R)
        (outcomes g (link_routine os r) vs G) (routine_denominator g (link_routine os r))
        (outcomes g (link_routine qs r) us H) (routine_denominator g (link_routine qs r)) }
{}
