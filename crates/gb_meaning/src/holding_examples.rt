//! The definitions at small scripts.

ghost use Rattle.std.specs.Prelude.{◌≡◌, ℕ, List, [], ◌∷◌, Some};
ghost use Rattle.gb_core.specs.declared.var.Var.TheVariants.{Glob};
ghost use Rattle.gb_terms.specs.declared.module.Mexp.TheVariants.{Name as named};
ghost use Rattle.gb_dist.specs.WeightedList.{dmap};
ghost use Rattle.gb_meaning.specs.Names.{Name, Map, empty};
ghost use Rattle.gb_meaning.specs.Values.{World};
ghost use Rattle.gb_meaning.specs.Setting.{Setting};
ghost use Rattle.gb_meaning.specs.Meanings.{of_number};
ghost use Rattle.gb_meaning.specs.Runs.{routine_denominator};
ghost use Rattle.gb_meaning.specs.Modules.{modules_of, module_at, no_module, found};
ghost use Rattle.gb_meaning.specs.Footprints.{footprint, footprint_read};
ghost use Rattle.gb_meaning.specs.Linking.{linked_procedure, link_routine};
ghost use Rattle.gb_meaning.specs.Counted.{counted_outcomes};
ghost use Rattle.gb_meaning.specs.Settings.{Chosen, is_chosen, Table, Interpretation, with_program, footprints, types_of, setting};
ghost use Rattle.gb_meaning.specs.Within.{IsWithin};
ghost use Rattle.gb_meaning.specs.Holds.{Holds, interpretation, IsSound};
ghost use Rattle.gb_meaning.specs.DeclaredOperators.{three_operators, chosen_name, difference_name, opposite_name};
ghost use Rattle.gb_meaning.specs.Coins.{two_coins, coin_sequent};
ghost use Rattle.gb_meaning.specs.Idling.{idling_is_proved};
ghost use Rattle.gb_meaning.specs.HoldingExamples.{types_and_keeper, adversary_with_keeper, nothing_said, oracle_and_adversary, asking_at_most, curious_program, oracle, curious, asking_keeper, asking_coin};
ghost use Rattle.gb_meaning.specs.HoldingExamples.{kept, main_name, keeper_and_game, game_with_keeper, linked_game, silent_type, silent, owned_world, owner};

/// A functor is linked with its argument: the call of its parameter carries the argument's procedure. The footprint of
/// both together is the argument's global.
pub fn functor_with_argument()
    ensures linked { (g : Setting) →
        found (module_at (modules_of (linked_procedure g) (λ n. no_module) keeper_and_game) game_with_keeper []) main_name
        ≡ Some linked_game }
    ensures touched { footprint (modules_of footprint_read (λ n. no_module) keeper_and_game) (is_chosen []) game_with_keeper ≡ kept ∷ [] }
{}

/// An abstract module stands in the footprint of its application as one entry, beside what its oracle touches.
pub fn abstract_footprint()
    ensures { let cs : List Chosen = record { bind = asking_at_most 2; program = curious_program } ∷ [] in
        footprint (footprints types_and_keeper cs) (is_chosen cs) adversary_with_keeper ≡ kept ∷ Glob (65 ∷ []) ∷ [] }
{}

/// An abstract module whose module type has no procedure has a footprint: the globals of its program, in the order of the
/// world, whatever the order of their names.
pub fn footprint_without_procedures()
    ensures entry { let cs : List Chosen = record { bind = silent; program = owner } ∷ [] in
        footprint (footprints silent_type cs) (is_chosen cs) (named (65 ∷ [])) ≡ Glob (65 ∷ []) ∷ [] }
    ensures globals { (size : Name → ℕ) (table : Table) →
        (types_of silent_type (with_program (interpretation owned_world size table) silent owner)).footprint (named (65 ∷ [])) ≡ owned_world }
{}

/// An open program asks its oracle, and asks again if the answer is true. Linked with a procedure that answers with its
/// argument it makes two calls; linked with one that tosses a coin it makes one call or two, each with probability 1/2.
pub fn calls_of_an_oracle()
    ensures of_keeper { (g : Setting) →
        dmap (λ p. p.1) (counted_outcomes g asking_keeper oracle curious [] empty) ≡ (2, 1) ∷ [] }
    ensures of_coin { (g : Setting) (globals : Map) →
        dmap (λ p. p.1) (counted_outcomes g asking_coin oracle curious [] globals) ≡ (1, 2) ∷ (2, 1) ∷ (2, 1) ∷ [] }
    ensures denominator { (g : Setting) → routine_denominator g (link_routine asking_coin curious) ≡ 4 }
{}

/// The program that asks again if the answer is true is one of its module type that makes at most two calls, in every
/// interpretation. It doesn't make at most one call.
pub fn program_within_bound()
    ensures two { (i : Interpretation) → IsWithin oracle_and_adversary i (asking_at_most 2) curious_program }
    ensures not_one { (i : Interpretation) → ¬ (IsWithin oracle_and_adversary i (asking_at_most 1) curious_program) }
{}

/// An operator with a body means its body, in which it sees the operators before it; one without means the function that
/// is chosen for it, and has the denominator 1, whatever is chosen.
pub fn operators()
    ensures true_and_not_false { (i : Interpretation) →
        (setting three_operators i).operator difference_name (of_number 1 ∷ of_number 0 ∷ []) ≡ of_number 1 }
    ensures false_and_not_true { (i : Interpretation) →
        (setting three_operators i).operator difference_name (of_number 0 ∷ of_number 1 ∷ []) ≡ of_number 0 }
    ensures denominator { (i : Interpretation) → (setting three_operators i).denominator chosen_name ≡ 1 }
    ensures of_chosen { (w : World) (size : Name → ℕ) →
        (setting three_operators (interpretation w size (λ n. record { result = λ xs. of_number 1; denominator = 1 }))).operator opposite_name (of_number 0 ∷ [])
        ≡ of_number 1 }
{}

/// The scope in which nothing is declared is sound.
pub fn empty_scope()
    ensures { IsSound [] }
{}

/// One procedure tosses a coin, the other one tosses a coin and turns it: they are equivalent with equal results.
pub fn lemma_of_two_coins()
    ensures { Holds two_coins coin_sequent }
{}

/// A lemma on every program of a module type.
pub fn lemma_of_each_program()
    ensures { Holds oracle_and_adversary nothing_said }
{}

/// A scope is sound in which the loop of a procedure is proved, whose guard is false.
pub fn loop_without_turns()
    ensures { IsSound idling_is_proved }
{}
