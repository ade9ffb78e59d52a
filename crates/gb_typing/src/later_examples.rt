//! Examples.

ghost use Rattle.std.specs.Prelude.{◌++◌, [], ◌∷◌};
ghost use Rattle.gb_meaning.specs.Declared.{abstract_module};
ghost use Rattle.gb_meaning.specs.Holds.{Holds};
ghost use Rattle.gb_meaning.specs.HoldingExamples.{any_oracle, oracle_and_adversary, nothing_said};
ghost use Rattle.gb_typing.specs.Added.{AreAddedTo};

/// A lemma on every program of a module type, `forall (A <: T), hoare [A.o : true ==> true]`, goes on to hold when an
/// open section declares a module A of its own: the lemma's A hides it.
pub fn section_beside_a_bound_module()
    ensures added { AreAddedTo oracle_and_adversary ((65 ∷ [], abstract_module any_oracle) ∷ []) nothing_said }
    ensures holds { Holds (oracle_and_adversary ++ (65 ∷ [], abstract_module any_oracle) ∷ []) nothing_said }
{}
