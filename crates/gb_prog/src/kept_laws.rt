//! Open programs, linked with oracles that keep a property of globals.

ghost use Rattle.std.specs.Prelude.{◌≡◌, Bool, true, List, Option};
ghost use Rattle.gb_core.specs.declared.value.Value.{Value};
ghost use Rattle.gb_dist.specs.WeightedList.{Every};
ghost use Rattle.gb_meaning.specs.Memory.{Memory};
ghost use Rattle.gb_meaning.specs.Names.{Map};
ghost use Rattle.gb_meaning.specs.Program.{Program, Routine, Oracle};
ghost use Rattle.gb_meaning.specs.Runs.{out, outcomes};
ghost use Rattle.gb_meaning.specs.Setting.{Setting};
ghost use Rattle.gb_meaning.specs.State.{State};
ghost use Rattle.gb_meaning.specs.Values.{Global};
ghost use Rattle.gb_meaning.specs.Declared.{Signature};
ghost use Rattle.gb_meaning.specs.Linking.{Oracles, link, link_routine};
ghost use Rattle.gb_meaning.specs.Typing.{Names, IsTyped, IsTypedRoutine};
ghost use Rattle.gb_prog.specs.KeptProperty.{IsApartFrom, OraclesKeep};

/// An open program that is typed within some globals is linked with oracles that keep a property of globals, which stays where one of these
/// globals gets a value. Then each outcome of the program has the property, from memories that have it.
pub fn kept_properties()
    ensures program { (g : Setting) (ss : Oracle → Option Signature) (names : Names) (I : Map → Bool) (os : Oracles) →
        IsApartFrom names.globals I → OraclesKeep g ss I os → (c : Program) → IsTyped g ss names c →
        (s : State) (m : Memory) → I m.globals ≡ true → Every (λ n. I n.globals ≡ true) (out g s (link os c) m) }
    ensures procedure { (g : Setting) (ss : Oracle → Option Signature) (gs : List Global) (I : Map → Bool) (os : Oracles) →
        IsApartFrom gs I → OraclesKeep g ss I os → (r : Routine) → IsTypedRoutine g ss gs r →
        (vs : List Value) (G : Map) → I G ≡ true → Every (λ n. I n.globals ≡ true) (outcomes g (link_routine os r) vs G) }
{}
