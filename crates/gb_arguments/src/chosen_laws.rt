//! Open programs that are chosen for the modules that a statement binds.

ghost use Rattle.std.specs.Prelude.{◌≡◌, ◌↔◌, ◌++◌, [], true, List, Some};
ghost use Rattle.gb_core.specs.declared.var.Var.{Var};
ghost use Rattle.gb_terms.specs.declared.decl.TypedName.{TypedName};
ghost use Rattle.gb_terms.specs.declared.term.Term.{Term};
ghost use Rattle.gb_goal.specs.declared.sequent.Sequent.{Sequent};
ghost use Rattle.gb_meaning.specs.Judgments.{IsSoundForm, IsTrueIn};
ghost use Rattle.gb_meaning.specs.State.{State};
ghost use Rattle.gb_terms.specs.declared.module.Bind.{Bind};
ghost use Rattle.gb_terms.specs.declared.module.Mexp.{Mexp};
ghost use Rattle.gb_terms.specs.declared.module.ProcRef.{ProcRef};
ghost use Rattle.gb_goal.specs.Instances.{put_in_reference};
ghost use Rattle.gb_meaning.specs.Names.{Name};
ghost use Rattle.gb_meaning.specs.Setting.{Setting};
ghost use Rattle.gb_meaning.specs.Values.{Global, World};
ghost use Rattle.gb_meaning.specs.Declared.{Declarations};
ghost use Rattle.gb_meaning.specs.Footprints.{footprint_globals};
ghost use Rattle.gb_meaning.specs.Holds.{HaveVariableTypes, declared_modules};
ghost use Rattle.gb_meaning.specs.Modules.{procedure_at};
ghost use Rattle.gb_meaning.specs.Naming.{AnyName};
ghost use Rattle.gb_meaning.specs.Programs.{AreIn, AreInOrder, AreOnce};
ghost use Rattle.gb_meaning.specs.Settings.{Chosen, Interpretation, linked_modules, setting, types_of};
ghost use Rattle.gb_typing.specs.Chosen.{chosen_under, AreUnchosen, IsChosenOver};
ghost use Rattle.gb_typing.specs.Context.{procedure};
ghost use Rattle.gb_typing.specs.Modules.{ProcedureType};
ghost use Rattle.gb_typing.specs.Naming.{AgreeOn, NamesIfThere, NoName, TermNames};
ghost use Rattle.gb_typing.specs.Scopes.{context_of, IsTypedScope};
ghost use Rattle.gb_typing.specs.Sequents.{AreBinders, of_sequent, with_modules};
ghost use Rattle.gb_typing.specs.Formulas.{IsKnown};
ghost use Rattle.gb_typing.specs.Typing.{IsTyped};
ghost use Rattle.gb_arguments.specs.Arguments.{AreFit, all_chosen_for, first_with, given_for, standing};
ghost use Rattle.gb_arguments.specs.Programs.{AreSame};

/// A statement over the first declarations binds modules, and module expressions over all declarations fit these. Where the open programs of
/// the expressions are chosen for the modules, in a setting of the first declarations, each procedure that has a type is the one that is meant
/// in a setting of all declarations where the expressions stand for the modules.
pub fn chosen_procedures()
    ensures { (before later : Declarations) → IsTypedScope (before ++ later) → declared_modules before ≡ [] →
        (i : Interpretation) → IsChosenOver (before ++ later) i → (g h : Setting) → (bs : List Bind) → AreBinders (context_of before) bs →
        (es : List Mexp) → AreFit (context_of (before ++ later)) bs es →
        AreUnchosen (all_chosen_for before (before ++ later) i [] bs es) before →
        (r : ProcRef) (t : ProcedureType) → procedure (with_modules (context_of before) bs) r ≡ Some t →
        AreSame t (procedure_at (linked_modules before g (all_chosen_for before (before ++ later) i [] bs es)) r)
        (procedure_at (linked_modules (before ++ later) h i.programs) (put_in_reference (given_for bs es) r)) }
{}

/// A setting of the first declarations, in which undeclared operators mean what all declarations make of them, has the sizes of types and the
/// operators of the setting of all.
pub fn first_settings()
    ensures { (before later : Declarations) → IsTypedScope (before ++ later) → (i : Interpretation) (cs : List Chosen) →
        AgreeOn NoName AnyName (setting before (first_with (before ++ later) i cs)) (setting (before ++ later) i) }
{}

/// The globals of a world that a footprint stands for are some of the world's, in its order, each at its type.
pub fn footprints_in_order()
    ensures ordered { (w : World) (f : Name → List Global) (xs : List Var) → AreInOrder w (footprint_globals w f xs) }
    ensures known { (w : World) → AreOnce w → (f : Name → List Global) (xs : List Var) → AreIn w (footprint_globals w f xs) }
{}

/// A form over the first declarations, which speaks of the globals of the modules that a statement binds alone, is true where the open programs
/// of module expressions are chosen for these, exactly where it is true in the setting of all declarations with the expressions for the modules.
/// Procedures name no module for its globals there, as those of scripts do.
pub fn statements_of_arguments()
    ensures { (before later : Declarations) → IsTypedScope (before ++ later) → declared_modules before ≡ [] →
        (i : Interpretation) → IsChosenOver (before ++ later) i → HaveVariableTypes (types_of (before ++ later) i) i.world →
        (q : Sequent) → AreBinders (context_of before) q.modules → (es : List Mexp) → AreFit (context_of (before ++ later)) q.modules es →
        let cs : List Chosen = all_chosen_for before (before ++ later) i [] q.modules es in
        let g : Setting = setting before (first_with (before ++ later) i cs) in
        AreUnchosen cs before → (fs : List (List TypedName)) →
        ((r : ProcRef) (t : ProcedureType) → procedure (of_sequent (context_of before) q fs) r ≡ Some t → NamesIfThere NoName AnyName (g.procedure r)) →
        (f : Term) → IsTyped (of_sequent (context_of before) q fs) f → TermNames (λ a. IsKnown (chosen_under cs a)) AnyName f → IsSoundForm g f →
        (s : State) → IsTrueIn g f s ↔ IsTrueIn (standing (given_for q.modules es) (setting (before ++ later) i)) f s }
{}
