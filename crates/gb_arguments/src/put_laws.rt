//! What a statement says of modules that are put in.

ghost use Rattle.std.specs.Prelude.{◌≡◌, ◌⊎◌, ◌↔◌, false, true, List, Some};
ghost use Rattle.gb_core.specs.declared.var.Var.{Var};
ghost use Rattle.gb_terms.specs.declared.decl.Param.{Param};
ghost use Rattle.gb_terms.specs.declared.module.Mexp.{Mexp};
ghost use Rattle.gb_terms.specs.declared.module.ProcRef.{ProcRef};
ghost use Rattle.gb_terms.specs.declared.term.Term.{Term};
ghost use Rattle.gb_goal.specs.Instances.{put_in_reference, stands_for};
ghost use Rattle.gb_goal.specs.Scope as scope;
ghost use Rattle.gb_elab.specs.Globs.{is_abstract};
ghost use Rattle.gb_meaning.specs.Declared.{Declarations, declared};
ghost use Rattle.gb_meaning.specs.Footprints.{footprint_globals};
ghost use Rattle.gb_meaning.specs.Holds.{HaveVariableTypes};
ghost use Rattle.gb_meaning.specs.Judgments.{IsSoundForm, IsTrueIn};
ghost use Rattle.gb_meaning.specs.Names.{Name};
ghost use Rattle.gb_meaning.specs.Naming.{AnyName};
ghost use Rattle.gb_meaning.specs.Programs.{AreIn, AreOnce};
ghost use Rattle.gb_meaning.specs.Setting.{Setting};
ghost use Rattle.gb_meaning.specs.Settings.{Interpretation, declared_globals, setting, types_of};
ghost use Rattle.gb_meaning.specs.State.{State};
ghost use Rattle.gb_meaning.specs.Values.{Global, World};
ghost use Rattle.gb_typing.specs.Chosen.{IsChosenOver};
ghost use Rattle.gb_typing.specs.Context.{Context, procedure};
ghost use Rattle.gb_typing.specs.Modules.{ProcedureType};
ghost use Rattle.gb_typing.specs.Naming.{NamesIfThere, NoName};
ghost use Rattle.gb_typing.specs.Scopes.{IsTypedScope};
ghost use Rattle.gb_typing.specs.Typing.{IsTyped};
ghost use Rattle.gb_arguments.specs.Arguments.{standing};
ghost use Rattle.gb_instances.specs.Put.{put, stands_alone};
ghost use Rattle.gb_arguments.specs.Said.{AreMeant, equates, IsAgreed, IsComplete, IsEquation, IsName, IsValue};

/// Modules are put in for the names of parameters in a typed form. The form so made is true in a setting exactly where the form is true in the
/// setting in which the modules stand for the names, if it speaks of all globals of a module that isn't given by its name alone in equations of
/// two memories alone, and each of these says the same as those of the variables of the module's footprint. Procedures of the form name no
/// module for its globals there, as those of scripts do.
pub fn statements_put()
    ensures { (ds : scope.Declarations) (ps : List Param) (es : List Mexp) (all : Declarations) (i : Interpretation) → HaveVariableTypes (types_of all i) i.world →
        let g : Setting = setting all i in
        let f : Name → Mexp = stands_for ps es in
        (c : Context) → ((r : ProcRef) (t : ProcedureType) → procedure c r ≡ Some t → NamesIfThere NoName AnyName (g.procedure (put_in_reference f r))) →
        (t : Term) → ((a : Name) → c.has_globals a ≡ true → equates a t ≡ true → IsValue ds (f a) ⊎ IsAgreed ds g (f a)) →
        IsTyped c t → ((a : Name) → IsName (f a) ⊎ (stands_alone a t ≡ false)) → IsSoundForm (standing f g) t →
        (s : State) → IsTrueIn (standing f g) t s ↔ IsTrueIn g (put ds ps es t) s }
{}

/// Equations of the variables of a module's footprint say in a setting that all globals of the module are the same in two memories, where the
/// footprint stands for the module's globals in the setting and its variables for what the setting makes of them.
pub fn equations_of_globals()
    ensures { (ds : scope.Declarations) (g : Setting) (w : World) (F : Name → List Global) → AreOnce w → (e : Mexp) (xs : List Var) → AreMeant ds g w F xs →
        g.types.footprint e ≡ footprint_globals w F xs → IsEquation ds g e xs }
{}

/// In a typed scope, where programs of their types are chosen for abstract modules, and in a world that has what is declared, an equation of all
/// globals of a module says the same as those of the variables of the footprint that is computed of it. Parameters that the module lacks are left
/// open: under their names nothing is declared.
pub fn computed_footprints()
    ensures { (ds : scope.Declarations) (i : Interpretation) → IsTypedScope (declared ds) → IsChosenOver (declared ds) i → AreOnce i.world →
        AreIn i.world (declared_globals (declared ds)) → (e : Mexp) (w : IsComplete ds i.programs e) → IsEquation ds (setting (declared ds) i) e w.footprint }
{}

/// Modules are put in for the names of parameters in a typed form, in a typed scope. The form so made is true in a setting of the scope exactly
/// where the form is true in the setting in which the modules stand for the names, if it speaks of all globals of a module that isn't given by its
/// name alone in equations of two memories alone, and of each module of which it has such an equation, but abstract ones by themselves, it is known what it touches.
/// Procedures of the form name no module for its globals there, as those of scripts do.
pub fn arguments_put()
    ensures { (ds : scope.Declarations) (i : Interpretation) → IsTypedScope (declared ds) → IsChosenOver (declared ds) i → AreOnce i.world →
        AreIn i.world (declared_globals (declared ds)) → HaveVariableTypes (types_of (declared ds) i) i.world → (ps : List Param) (es : List Mexp) →
        let g : Setting = setting (declared ds) i in
        let f : Name → Mexp = stands_for ps es in
        (c : Context) → ((r : ProcRef) (t : ProcedureType) → procedure c r ≡ Some t → NamesIfThere NoName AnyName (g.procedure (put_in_reference f r))) →
        (t : Term) → ((a : Name) → c.has_globals a ≡ true → equates a t ≡ true → (is_abstract ds (f a) ≡ true) ⊎ IsComplete ds i.programs (f a)) →
        IsTyped c t → ((a : Name) → IsName (f a) ⊎ (stands_alone a t ≡ false)) → IsSoundForm (standing f g) t →
        (s : State) → IsTrueIn (standing f g) t s ↔ IsTrueIn g (put ds ps es t) s }
{}
