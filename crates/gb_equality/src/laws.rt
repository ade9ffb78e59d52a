//! Each leaf is valid by equality or refuted by a labelling.

ghost use Rattle.std.specs.Prelude.{◌⊎◌, List};
ghost use Rattle.gb_terms.specs.declared.term.Term.{Term};
ghost use Rattle.gb_equality.specs.Labels.{EqualityValid, Labels, Refutes};

/// A leaf is valid by equality, or some labelling makes its hypotheses true and its conclusion false.
pub fn each_leaf_is_valid_or_refuted()
    ensures { (hyps : List Term) (t : Term) → EqualityValid hyps t ⊎ ((L : Labels) × Refutes L hyps t) }
{}
