//! Procedures of abstract modules, by what their oracles keep.

ghost use Rattle.std.specs.Prelude.{◌≡◌, Bool, true, false, List, Some};
ghost use Rattle.std.specs.List.{AllByRecursion};
ghost use Rattle.gb_core.specs.declared.value.Value.{Value};
ghost use Rattle.gb_dist.specs.Coupling.{Coupling};
ghost use Rattle.gb_dist.specs.WeightedList.{Every};
ghost use Rattle.gb_terms.specs.declared.module.Mexp.TheVariants.{Name as named};
ghost use Rattle.gb_terms.specs.declared.module.ProcRef.{ProcRef};
ghost use Rattle.gb_goal.specs.Scope.{Declarations};
ghost use Rattle.gb_meaning.specs.Names.{Name, Map};
ghost use Rattle.gb_meaning.specs.Program.{Routine};
ghost use Rattle.gb_meaning.specs.Runs.{outcomes, routine_denominator};
ghost use Rattle.gb_meaning.specs.Setting.{Setting};
ghost use Rattle.gb_meaning.specs.Sound.{FullRoutine};
ghost use Rattle.gb_prog.specs.BothAnyOf.{AreBothAnyOf, EachPair};
ghost use Rattle.gb_prog.specs.Coupled.{values_of, IsKept, Alike};
ghost use Rattle.gb_prog.specs.KeptProperty.{IsApartFrom};
ghost use Rattle.gb_prog.specs.Kept.{AreKeeping, IsKeeping, AreKeepingUntil};
ghost use Rattle.gb_prog.specs.Until.{AlikeUntil};

/// Two references mean one procedure of an abstract module, and each pair of their oracles keeps a relation of globals, which stays where one
/// global of the module gets the same value on both sides. Then from equal arguments, where all that is the module's own is the same and the
/// relation holds, the two procedures are coupled on the same result, the same of all that is the module's own, and the relation. So, where neither
/// loses weight, until an event of the right globals has come about, which the right oracles keep and which doesn't look at the module's. And a
/// property of globals that all oracles of one reference keep, and which doesn't look at the module's globals, is kept.
pub fn abstract_calls()
    ensures coupled { (ds : Declarations) (g : Setting) (a : Name) (os ps : List ProcRef) (p q : ProcRef) → AreBothAnyOf ds g a os ps p q →
        (R : Map → Map → Bool) → IsKept (g.types.footprint (named a)) R → EachPair (AreKeeping ds g (g.types.footprint (named a)) R) os ps →
        (r k : Routine) → g.procedure p ≡ Some r → g.procedure q ≡ Some k → (vs : List Value) (G H : Map) →
        values_of g.types (g.types.footprint (named a)) G ≡ values_of g.types (g.types.footprint (named a)) H → R G H ≡ true →
        Coupling (Alike g.types (g.types.footprint (named a)) R) (outcomes g r vs G) (routine_denominator g r) (outcomes g k vs H) (routine_denominator g k) }
    ensures until { (ds : Declarations) (g : Setting) (a : Name) (os ps : List ProcRef) (p q : ProcRef) → AreBothAnyOf ds g a os ps p q →
        (B : Map → Bool) (R : Map → Map → Bool) → IsKept (g.types.footprint (named a)) R → IsApartFrom (g.types.footprint (named a)) B →
        EachPair (AreKeepingUntil ds g (g.types.footprint (named a)) B R) os ps →
        (r k : Routine) → g.procedure p ≡ Some r → g.procedure q ≡ Some k → FullRoutine g r → FullRoutine g k → (vs us : List Value) (G H : Map) →
        (B H ≡ false → (vs ≡ us) × (values_of g.types (g.types.footprint (named a)) G ≡ values_of g.types (g.types.footprint (named a)) H) × (R G H ≡ true)) →
        Coupling (AlikeUntil g.types (g.types.footprint (named a)) B R) (outcomes g r vs G) (routine_denominator g r) (outcomes g k us H) (routine_denominator g k) }
    ensures kept { (ds : Declarations) (g : Setting) (a : Name) (os : List ProcRef) (p : ProcRef) → AreBothAnyOf ds g a os os p p →
        (I : Map → Bool) → IsApartFrom (g.types.footprint (named a)) I → AllByRecursion (IsKeeping ds g I) os →
        (r : Routine) → g.procedure p ≡ Some r → (vs : List Value) (G : Map) → I G ≡ true → Every (λ n. I n.globals ≡ true) (outcomes g r vs G) }
{}
