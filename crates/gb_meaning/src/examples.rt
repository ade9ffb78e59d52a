//! The definitions at small programs.

ghost use Rattle.std.specs.Prelude.{◌≡◌, ℕ, ◌^◌, [], ◌∷◌, pos};
ghost use Rattle.gb_core.specs.declared.value.Value.{Value};
ghost use Rattle.gb_core.specs.declared.value.Value.TheVariants.{Num};
ghost use Rattle.gb_core.specs.declared.ty.Ty.TheVariants.{Bool, Bits, Mod, Real};
ghost use Rattle.gb_dist.specs.WeightedList.{dmap, total};
ghost use Rattle.gb_terms.specs.declared.op.Op.TheVariants.{Mu1};
ghost use Rattle.gb_meaning.specs.Values.{Types};
ghost use Rattle.gb_meaning.specs.Memory.{Memory, read_local, write_local};
ghost use Rattle.gb_meaning.specs.Setting.{Setting};
ghost use Rattle.gb_meaning.specs.Setting.Meaning.{finite, fraction, weights};
ghost use Rattle.gb_meaning.specs.State.{State, no_memory, closed, at};
ghost use Rattle.gb_meaning.specs.Terms.{Speaks, val, denominator};
ghost use Rattle.gb_meaning.specs.Runs.{run_denominator, out};
ghost use Rattle.gb_meaning.specs.Judgments.{Judge, speaking, IsSoundForm};
ghost use Rattle.gb_meaning.specs.Examples.{b, i, x, y, number, operator, memory_with, unequal_sides, counting_down, calling, flipping, setting_of, without_procedures};
ghost use Rattle.gb_meaning.specs.Trees.{distributions};
ghost use Rattle.gb_meaning.specs.Examples.{probability_of_result, named_operator, merged, part_of_uniform, chosen_distribution, value_of_none};

/// A local reads as it was written, and as the first value where it has no value of the type.
pub fn reading()
    ensures written { (t : Types) → read_local t (write_local no_memory x (Num 1)) x Bool ≡ Num 1 }
    ensures missing { (t : Types) → read_local t (write_local no_memory x (Num 1)) y Bool ≡ Num 0 }
    ensures of_no_value { (t : Types) → read_local t (write_local no_memory x (Num 2)) x Bool ≡ Num 0 }
{}

/// A sampling behind an `if` whose sides have the denominators 2 and 4: each side's weights are scaled by the other
/// side's denominator.
pub fn unequal_branches()
    ensures denominator { (g : Setting) → run_denominator g unequal_sides ≡ 8 }
    ensures first_side { (g : Setting) →
        dmap (λ n. read_local g.types n x Bool) (out g closed unequal_sides (memory_with b 1)) ≡ (Num 0, 4) ∷ (Num 1, 4) ∷ [] }
    ensures second_side { (g : Setting) →
        dmap (λ n. read_local g.types n x (Bits 2)) (out g closed unequal_sides (memory_with b 0))
        ≡ (Num 0, 2) ∷ (Num 1, 2) ∷ (Num 2, 2) ∷ (Num 3, 2) ∷ [] }
{}

/// A loop with a variant of type `int[3]` makes at most two turns. Where it makes fewer, its weights are scaled by the
/// denominators of the turns that are left.
pub fn loop_with_variant()
    ensures denominator { (g : Setting) → run_denominator g counting_down ≡ 4 }
    ensures no_turn { (g : Setting) →
        dmap (λ n. read_local g.types n i (Mod 3)) (out g closed counting_down (memory_with i 0)) ≡ (Num 0, 4) ∷ [] }
    ensures one_turn { (g : Setting) →
        dmap (λ n. read_local g.types n x Bool) (out g closed counting_down (memory_with i 1)) ≡ (Num 0, 2) ∷ (Num 1, 2) ∷ [] }
    ensures two_turns { (g : Setting) →
        dmap (λ n. read_local g.types n x Bool) (out g closed counting_down (memory_with i 2))
        ≡ (Num 0, 1) ∷ (Num 1, 1) ∷ (Num 0, 1) ∷ (Num 1, 1) ∷ [] }
{}

/// A call runs in a new frame: the procedure's local y has its first value, whatever y is in the caller's frame, which is
/// the same afterwards.
pub fn call_in_new_frame()
    ensures denominator { (g : Setting) → run_denominator g calling ≡ 2 }
    ensures results { (g : Setting) →
        dmap (λ n. read_local g.types n b Bool) (out g closed calling (memory_with y 1)) ≡ (Num 1, 1) ∷ (Num 0, 1) ∷ [] }
    ensures frame { (g : Setting) →
        dmap (λ n. read_local g.types n y Bool) (out g closed calling (memory_with y 1)) ≡ (Num 1, 1) ∷ (Num 1, 1) ∷ [] }
{}

/// A probability is the weight of the outcomes in the event, over the denominator of the procedure.
pub fn probability()
    ensures { (t : Types) (j : Judge) (s : State) →
        val (setting_of t flipping) (speaking (setting_of t flipping) j) probability_of_result (at s (memory_with b 1)) ≡ fraction (pos 1, 2) }
{}

/// The probability of an event after a procedure that isn't there makes no sound form.
pub fn probability_of_no_procedure()
    ensures { (t : Types) → IsSoundForm (without_procedures t) probability_of_result → ⊥ }
{}

/// An operator of the script has the denominator 1, whatever the setting gives it, unless its result is a distribution.
pub fn operator_of_no_distribution()
    ensures value { (g : Setting) → denominator g (named_operator Bool) ≡ 1 }
    ensures distribution { (g : Setting) → denominator g (named_operator (distributions Bool)) ≡ g.denominator x }
{}

/// `oget None` is the first value of its type.
pub fn value_of_no_option()
    ensures { (g : Setting) (j : Speaks) (s : State) → val g j (value_of_none (Bits 2)) s ≡ finite (Num 0) }
{}

/// The image of a distribution keeps its denominator, and a value's weight is the sum over its sources.
pub fn image_that_merges()
    ensures denominator { (g : Setting) → denominator g merged ≡ 4 }
    ensures entries { (g : Setting) (j : Speaks) (s : State) →
        val g j merged s ≡ weights ((Num 1, 1) ∷ (Num 1, 1) ∷ (Num 1, 1) ∷ (Num 0, 1) ∷ []) }
    ensures weight { (g : Setting) (j : Speaks) (s : State) →
        val g j (operator Mu1 (merged ∷ number 1 Bool ∷ []) Real) s ≡ fraction (pos 3, 4) }
{}

/// The part of a distribution on which a test holds keeps its denominator, and loses weight.
pub fn restriction()
    ensures denominator { (g : Setting) → denominator g part_of_uniform ≡ 4 }
    ensures entries { (g : Setting) (j : Speaks) (s : State) →
        val g j part_of_uniform s ≡ weights ((Num 0, 1) ∷ (Num 1, 1) ∷ (Num 2, 1) ∷ []) }
{}

/// A conditional on distributions has the product of both denominators, from either side.
pub fn conditional_distribution()
    ensures denominator { (g : Setting) → denominator g chosen_distribution ≡ 8 }
    ensures first_side { (g : Setting) (j : Speaks) (s : State) →
        val g j chosen_distribution (at s (memory_with b 1)) ≡ weights ((Num 0, 4) ∷ (Num 1, 4) ∷ []) }
    ensures second_side { (g : Setting) (j : Speaks) (s : State) →
        val g j chosen_distribution (at s (memory_with b 0)) ≡ weights ((Num 1, 2) ∷ (Num 1, 2) ∷ (Num 1, 2) ∷ (Num 0, 2) ∷ []) }
{}
