//! What a lemma is says alone whether it holds.

ghost use Rattle.gb_accepted.specs.Holding.{LemmaHolds};
ghost use Rattle.gb_accepted.specs.Examples.{coins_lemma};

/// A lemma on two modules holds: they are among what was declared before it. No scope in which it stands is spoken of.
pub fn lemma_of_two_modules()
    ensures { LemmaHolds coins_lemma }
{}
