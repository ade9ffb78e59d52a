//! The settings of typed scopes.

ghost use Rattle.std.specs.Prelude.{List};
ghost use Rattle.gb_terms.specs.declared.decl.TypedName.{TypedName};
ghost use Rattle.gb_goal.specs.declared.sequent.Sequent.{Sequent};
ghost use Rattle.gb_laws.specs.Finite.{IsInhabited};
ghost use Rattle.gb_meaning.specs.Declared.{Declarations};
ghost use Rattle.gb_meaning.specs.Holds.{GiveResults, declared_modules, EachProgram, InEachModel, InEachSetting};
ghost use Rattle.gb_meaning.specs.Settings.{Interpretation, types_of, setting};
ghost use Rattle.gb_typing.specs.Fits.{IsSettingOf};
ghost use Rattle.gb_typing.specs.Sequents.{AreBinders, of_sequent};
ghost use Rattle.gb_typing.specs.Scopes.{nothing, context_of, IsTypedScope};
ghost use Rattle.gb_typing.specs.Chosen.{IsFittingWorld, AreChosen, AreUnchosen, IsChosenOver, FitAt};

/// In a world and sizes that fit, each footprint has globals of types of variables. Where each abstract operator has results of its
/// type, the operators of a typed scope are of their types in its setting.
pub fn operators()
    ensures types { (ds : Declarations) (i : Interpretation) → IsFittingWorld i → IsInhabited (types_of ds i) }
    ensures operators { (ds : Declarations) (i : Interpretation) → IsTypedScope ds → IsInhabited (types_of ds i) →
        GiveResults ds (types_of ds i) i.table → FitAt (setting ds i) nothing ds }
{}

/// The setting of a typed scope fits the scope's context, and it fits the context of a goal, where programs are chosen for the modules
/// that open sections declare, and for those of the goal, under names that no declared module has. So each procedure that the context
/// names is there, of its type, through functors and their arguments.
pub fn settings()
    ensures scope { (ds : Declarations) (i : Interpretation) → IsTypedScope ds → IsFittingWorld i → GiveResults ds (types_of ds i) i.table →
        AreUnchosen i.programs ds → AreChosen ds i (declared_modules ds) → IsSettingOf (context_of ds) (setting ds i) }
    ensures goal { (ds : Declarations) (i : Interpretation) → IsTypedScope ds → IsFittingWorld i → GiveResults ds (types_of ds i) i.table →
        AreUnchosen i.programs ds → AreChosen ds i (declared_modules ds) → (q : Sequent) → AreBinders (context_of ds) q.modules →
        AreChosen ds i q.modules → (fs : List (List TypedName)) → IsSettingOf (of_sequent (context_of ds) q fs) (setting ds i) }
{}

/// In each model of a typed scope, and for all programs within the modules that open sections declare and within those of a goal,
/// the setting fits the goal's context.
pub fn models()
    ensures { (ds : Declarations) → IsTypedScope ds → (q : Sequent) → AreBinders (context_of ds) q.modules → (fs : List (List TypedName)) →
        InEachSetting ds q (IsSettingOf (of_sequent (context_of ds) q fs)) }
{}

/// In each model of a typed scope, and for all such programs, those of modules that open sections declare are programs of their types
/// that lose no weight, and none hides a declared module.
pub fn programs()
    ensures { (ds : Declarations) → IsTypedScope ds → (q : Sequent) → AreBinders (context_of ds) q.modules →
        InEachModel ds (λ i. EachProgram ds q.modules i (IsChosenOver ds)) }
{}
