//! The laws of declarations and of linking.

ghost use Rattle.std.specs.Prelude.{◌≡◌, ◌++◌, List, Option, Some};
ghost use Rattle.gb_goal.specs.Scope.{Declarations, module_of};
ghost use Rattle.gb_meaning.specs.Names.{Name};
ghost use Rattle.gb_meaning.specs.Program.{Program, Routine, Oracle, IsLinked, IsLinkedRoutine};
ghost use Rattle.gb_meaning.specs.Values.{Global, World};
ghost use Rattle.gb_meaning.specs.Setting.{Setting};
ghost use Rattle.gb_meaning.specs.Sound.{IsSoundRoutine, FullRoutine};
ghost use Rattle.gb_meaning.specs.Declared.{Signature, declared, module_named};
ghost use Rattle.gb_meaning.specs.Linking.{Oracles, link, link_routine};
ghost use Rattle.gb_meaning.specs.Typing.{IsTypedRoutine};
ghost use Rattle.gb_meaning.specs.Programs.{AreIn, HasTypes, IfThere};
ghost use Rattle.gb_meaning.specs.Bounds.{IsAnswer};

/// A declaration that a scope gains stands behind those before it, and the scope's module of a name is the declared one.
pub fn declarations()
    ensures gained { (ds es : Declarations) → declared (ds ++ es) ≡ declared ds ++ declared es }
    ensures modules { (ds : Declarations) (n : Name) → module_named (declared ds) n ≡ module_of ds n }
{}

/// Linking leaves a program as it is in which no call of an oracle is open, and where a linked procedure answers for each
/// oracle, the linked program has no open call.
pub fn linked_programs()
    ensures unchanged { (os : Oracles) (c : Program) → IsLinked c → link os c ≡ c }
    ensures linked { (os : Oracles) → ((o : Oracle) → (r : Routine) × (os o ≡ Some r) × IsLinkedRoutine r) →
        (c : Program) → IsLinked (link os c) }
{}

/// A well-typed procedure that is linked with procedures which draw from distributions does so too; and one whose
/// samplings are of full weight keeps this if those that answer for its oracles have it.
pub fn linked_distributions()
    ensures sound { (g : Setting) (ss : Oracle → Option Signature) (os : Oracles) →
        ((o : Oracle) → IfThere (IsSoundRoutine g) (os o)) →
        (gs : List Global) (r : Routine) → IsTypedRoutine g ss gs r → IsSoundRoutine g (link_routine os r) }
    ensures full { (g : Setting) (os : Oracles) → ((o : Oracle) → IfThere (FullRoutine g) (os o)) →
        (r : Routine) → FullRoutine g r → FullRoutine g (link_routine os r) }
{}

/// A procedure that is well typed within a footprint is so within each world that has it; and an open procedure, linked
/// with procedures that answer for its oracles, answers itself for an oracle of its types.
pub fn programs_as_oracles()
    ensures typed { (g : Setting) (ss : Oracle → Option Signature) (w : World) (gs : List Global) → AreIn w gs →
        (r : Routine) → IsTypedRoutine g ss gs r → IsTypedRoutine g ss w r }
    ensures answers { (g : Setting) (ss : Oracle → Option Signature) (w : World) (os : Oracles) →
        ((o : Oracle) → IsAnswer g w (ss o) (os o)) → (s : Signature) (gs : List Global) → AreIn w gs →
        (r : Routine) → HasTypes s r → IsTypedRoutine g ss gs r → IsAnswer g w (Some s) (Some (link_routine os r)) }
{}
