//! The law of counted runs.

ghost use Rattle.std.specs.Prelude.{◌≡◌, ◌≤◌, List};
ghost use Rattle.gb_core.specs.declared.value.Value.{Value};
ghost use Rattle.gb_terms.specs.declared.module.Bound.{Bound};
ghost use Rattle.gb_dist.specs.WeightedList.{dmap, Every};
ghost use Rattle.gb_meaning.specs.Names.{Map};
ghost use Rattle.gb_meaning.specs.Values.{World};
ghost use Rattle.gb_meaning.specs.Memory.{Memory};
ghost use Rattle.gb_meaning.specs.Program.{Program, Routine, Oracle};
ghost use Rattle.gb_meaning.specs.Setting.{Setting};
ghost use Rattle.gb_meaning.specs.State.{closed};
ghost use Rattle.gb_meaning.specs.Runs.{out, outcomes};
ghost use Rattle.gb_meaning.specs.Declared.{Declarations, ModuleType};
ghost use Rattle.gb_meaning.specs.Adversary.{Adversary};
ghost use Rattle.gb_meaning.specs.Linking.{Oracles, link, link_routine};
ghost use Rattle.gb_meaning.specs.Counted.{counted, counted_outcomes};
ghost use Rattle.gb_meaning.specs.Bounds.{IsBounded};
ghost use Rattle.gb_meaning.specs.Asked.{most_asked, most_asked_by, IsBoundedByText};

/// A counted run without its tallies is the run of the program that is linked with what answers for its oracles.
pub fn run_without_tallies()
    ensures of_program { (g : Setting) (os : Oracles) (o : Oracle) (c : Program) (m : Memory) →
        dmap (λ p. p.0) (counted g os o c m) ≡ out g closed (link os c) m }
    ensures of_procedure { (g : Setting) (os : Oracles) (o : Oracle) (r : Routine) (vs : List Value) (globals : Map) →
        dmap (λ p. p.0) (counted_outcomes g os o r vs globals) ≡ outcomes g (link_routine os r) vs globals }
{}

/// No counted run makes more calls than the text of its program allows.
pub fn calls_by_text()
    ensures of_program { (g : Setting) (os : Oracles) (o : Oracle) (c : Program) (m : Memory) →
        Every (λ p. p.1 ≤ most_asked o c) (counted g os o c m) }
    ensures of_procedure { (g : Setting) (os : Oracles) (o : Oracle) (r : Routine) (vs : List Value) (globals : Map) →
        Every (λ p. p.1 ≤ most_asked_by o r) (counted_outcomes g os o r vs globals) }
{}

/// A program whose texts allow no more calls than the bounds is bounded, in each run of a procedure and in each run of a
/// group.
pub fn bounds_by_text()
    ensures { (ds : Declarations) (g : Setting) (w : World) (t : ModuleType) (a : Adversary) (bs : List Bound) →
        IsBoundedByText a bs → IsBounded ds g w t a bs }
{}
