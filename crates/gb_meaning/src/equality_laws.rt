//! Equality of typed trees is decided.

ghost use Rattle.gb_terms.specs.declared.term.Term.{Term};

/// Any two typed trees are equal or not.
pub fn typed_trees()
    ensures { Discrete Term }
{}
