//! What the laws range over: a law with a parameter `Q: Relation<A, B>` holds of every relation.

/// A relation between outcomes of two kinds.
pub trait Relation<A, B> {
    ghost Related: { A → B → Type 0 };
}

/// A property of outcomes.
pub trait Property<A> {
    ghost Holds: { A → Type 0 };
}
