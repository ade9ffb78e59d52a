//! What lemmas that bind modules say of modules holds.

ghost use Rattle.std.specs.Prelude.{◌≡◌, ◌++◌, [], false, List};
ghost use Rattle.gb_terms.specs.declared.module.Mexp.{Mexp};
ghost use Rattle.gb_terms.specs.declared.term.Term.{out-Term};
ghost use Rattle.gb_goal.specs.Goal.{judges_bodies};
ghost use Rattle.gb_goal.specs.declared.sequent.Sequent.{Sequent};
ghost use Rattle.gb_meaning.specs.Declared.{Declarations};
ghost use Rattle.gb_meaning.specs.Holds.{EachDeclared, Holds};
ghost use Rattle.gb_meaning.specs.Naming.{AnyName};
ghost use Rattle.gb_meaning.specs.Truth.{has_module};
ghost use Rattle.gb_typing.specs.Naming.{EachGlobOf, IsAmong, NoName, TermNames};
ghost use Rattle.gb_typing.specs.Scopes.{context_of, IsTypedScope};
ghost use Rattle.gb_typing.specs.Sequents.{IsTypedSequent};
ghost use Rattle.gb_typing.specs.Speaking.{ScopeSpeaks};
ghost use Rattle.gb_arguments.specs.Arguments.{AreFit, AreGivenFor, AreTypedFor, InEachChoice, IsSaid, SaysOf, names_of};
ghost use Rattle.gb_arguments.specs.Firm.{IsFirm};

/// A lemma over the first declarations, none of which is an axiom or of an open section, holds; its statement binds modules, and speaks of all
/// globals of these alone. Module expressions over all declarations fit the binders, and in each model of all, whatever programs are chosen for
/// abstract modules, their open programs are typed and may be given for the binders. Then a goal without modules that says what the statement
/// says of the module expressions holds.
pub fn facts()
    ensures { (before later : Declarations) → IsTypedScope (before ++ later) → EachDeclared IsFirm before → ScopeSpeaks NoName before →
        (q : Sequent) (t : IsTypedSequent (context_of before) q) → q.hyps ≡ [] → has_module q.conclusion ≡ false → judges_bodies (out-Term q.conclusion).head ≡ false →
        EachGlobOf (IsAmong (names_of q.modules)) q.logical → TermNames (IsAmong (names_of q.modules)) AnyName q.conclusion → Holds before q →
        (es : List Mexp) → AreFit (context_of (before ++ later)) q.modules es →
        InEachChoice (before ++ later) (λ i. AreTypedFor before (before ++ later) i q.modules es) →
        InEachChoice (before ++ later) (λ i. AreGivenFor before (before ++ later) i [] q.modules es) →
        (r : Sequent) → r.modules ≡ [] → has_module r.conclusion ≡ false →
        InEachChoice (before ++ later) (λ i. IsSaid before (before ++ later) es q t.frames i → SaysOf (before ++ later) es q r i) → Holds (before ++ later) r }
{}
