//! Changed trees have the shape of the trees.

ghost use Rattle.gb_terms.specs.declared.term.Term.{Term};
ghost use Rattle.gb_walk.specs.Change.{Changes, term_changed};
ghost use Rattle.gb_meaning.specs.Setting.{Setting};
ghost use Rattle.gb_meaning.specs.Judgments.{IsSoundForm};
ghost use Rattle.gb_laws.specs.Formed.{IsFormed};
ghost use Rattle.gb_laws.specs.Uses.{Uses, IsWithin};
ghost use Rattle.gb_laws.specs.Led.{ArePut};
ghost use Rattle.gb_laws.specs.Fit.{Fits, BindsNone};

/// A tree whose nodes have their arguments keeps them where changes are made, and judgments of sound procedures and bodies stay
/// sound.
pub fn shapes()
    ensures formed { (g : Setting) (t : Term) (cs : Changes) (K : Uses) → ArePut g cs → IsFormed t → IsWithin K t → IsFormed (term_changed t cs) }
    ensures sound { (g : Setting) (t : Term) (cs : Changes) (K : Uses) → ArePut g cs → IsSoundForm g t → IsWithin K t →
        IsSoundForm g (term_changed t cs) }
{}

/// Where changes lead uses within K to uses within W, a tree that uses no more than K, and has no probability and no judgment,
/// uses no more than W once it is changed.
pub fn uses()
    ensures { (g : Setting) (t : Term) (cs : Changes) (K W : Uses) → ArePut g cs → Fits cs K W → BindsNone K → IsWithin K t →
        IsWithin W (term_changed t cs) }
{}
