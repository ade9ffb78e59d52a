//! What a lemma says of modules that are given for those that it binds.

ghost use Rattle.std.specs.Prelude.{◌≡◌, ◌++◌, [], false, map, List, Some};
ghost use Rattle.gb_core.specs.declared.value.Value.{Value};
ghost use Rattle.gb_terms.specs.declared.module.Bind.{Bind};
ghost use Rattle.gb_terms.specs.declared.module.Mexp.{Mexp};
ghost use Rattle.gb_terms.specs.declared.module.ProcRef.{ProcRef};
ghost use Rattle.gb_goal.specs.declared.sequent.Sequent.{Sequent};
ghost use Rattle.gb_meaning.specs.Judgments.{IsTrueIn};
ghost use Rattle.gb_meaning.specs.Memory.{Memory};
ghost use Rattle.gb_meaning.specs.Declared.{Declarations};
ghost use Rattle.gb_meaning.specs.Holds.{AreValues, AxiomsAreTrue, GiveResults, HaveVariableTypes, Holds, IsModel, context, declared_modules};
ghost use Rattle.gb_meaning.specs.Naming.{AnyName};
ghost use Rattle.gb_meaning.specs.Programs.{AreIn, AreOnce};
ghost use Rattle.gb_meaning.specs.Settings.{Chosen, Interpretation, declared_globals, setting, types_of};
ghost use Rattle.gb_meaning.specs.Truth.{has_module};
ghost use Rattle.gb_typing.specs.Chosen.{chosen_under, IsChosenOver, IsFittingWorld};
ghost use Rattle.gb_typing.specs.Context.{procedure};
ghost use Rattle.gb_typing.specs.Formulas.{IsKnown};
ghost use Rattle.gb_typing.specs.Modules.{ProcedureType};
ghost use Rattle.gb_typing.specs.Naming.{NamesIfThere, NoName, TermNames};
ghost use Rattle.gb_typing.specs.Scopes.{context_of, IsTypedScope};
ghost use Rattle.gb_typing.specs.Sequents.{AreBinders, IsTypedSequent, of_sequent};
ghost use Rattle.gb_typing.specs.Speaking.{ScopeSpeaks};
ghost use Rattle.gb_typing.specs.Typing.{IsForm};
ghost use Rattle.gb_arguments.specs.Arguments.{AreFit, AreGivenFor, AreTypedFor, AreWithin, all_chosen_for, first_with, given_for, standing};

/// A model of all declarations makes one of the first ones, where undeclared operators mean what all declarations make of them, if the axioms among
/// the first ones are true there.
pub fn first_models()
    ensures { (before later : Declarations) → IsTypedScope (before ++ later) → (i : Interpretation) → IsModel (before ++ later) (record i { programs = [] }) →
        AxiomsAreTrue before before (first_with (before ++ later) i []) →
        IsModel before (first_with (before ++ later) i []) }
{}

/// The open programs of module expressions over all declarations, which fit the binders of a statement over the first ones and may be given for them, are
/// typed by the signatures of the binders' types.
pub fn typed_arguments()
    ensures { (before later : Declarations) → IsTypedScope (before ++ later) → declared_modules before ≡ [] → ScopeSpeaks NoName (before ++ later) →
        (i : Interpretation) → IsChosenOver (before ++ later) i → IsFittingWorld i → GiveResults (before ++ later) (types_of (before ++ later) i) i.table →
        AreIn i.world (declared_globals (before ++ later)) → (bs : List Bind) → AreBinders (context_of before) bs → (es : List Mexp) →
        AreFit (context_of (before ++ later)) bs es → (cs : List Chosen) → AreGivenFor before (before ++ later) i cs bs es → AreTypedFor before (before ++ later) i bs es }
{}

/// The open programs of module expressions over all declarations are within the binders of a statement over the first ones, where they are typed and
/// may be given for the binders.
pub fn arguments_within()
    ensures { (before later : Declarations) → IsTypedScope (before ++ later) → (i : Interpretation) → HaveVariableTypes (types_of (before ++ later) i) i.world → AreOnce i.world →
        (bs : List Bind) → AreBinders (context_of before) bs → (es : List Mexp) → AreTypedFor before (before ++ later) i bs es → AreGivenFor before (before ++ later) i [] bs es →
        AreWithin before (before ++ later) i [] bs es }
{}

/// A lemma over the first declarations, whose statement binds modules, holds. Then it is true of module expressions over all declarations which fit
/// the binders, and whose open programs are within them, in each interpretation of all declarations that makes the first ones true: where the
/// expressions stand for the modules.
pub fn instances()
    ensures { (before later : Declarations) → IsTypedScope (before ++ later) → IsTypedScope before → declared_modules before ≡ [] →
        (i : Interpretation) → IsChosenOver (before ++ later) i → HaveVariableTypes (types_of (before ++ later) i) i.world → IsModel before (first_with (before ++ later) i []) →
        (q : Sequent) (t : IsTypedSequent (context_of before) q) → (es : List Mexp) → AreFit (context_of (before ++ later)) q.modules es → AreWithin before (before ++ later) i [] q.modules es →
        Holds before q → q.hyps ≡ [] → has_module q.conclusion ≡ false → IsForm (of_sequent (context_of before) q t.frames) q.conclusion →
        let cs : List Chosen = all_chosen_for before (before ++ later) i [] q.modules es in
        ((r : ProcRef) (u : ProcedureType) → procedure (of_sequent (context_of before) q t.frames) r ≡ Some u →
        NamesIfThere NoName AnyName ((setting before (first_with (before ++ later) i cs)).procedure r)) →
        TermNames (λ a. IsKnown (chosen_under cs a)) AnyName q.conclusion →
        (vs : List Value) → AreValues (types_of before (first_with (before ++ later) i cs)) (map (λ x. x.ty) q.logical) vs → (ms : List Memory) →
        IsTrueIn (standing (given_for q.modules es) (setting (before ++ later) i)) q.conclusion (context vs ms) }
{}
