//! What it says that a module fits a binder.

ghost use Rattle.std.specs.Prelude.{ℕ, ◌≡◌, ◌++◌, map, List, [], Option, None, Some};
ghost use Rattle.gb_core.specs.declared.place.Place.{Place};
ghost use Rattle.gb_core.specs.declared.var.Var.{Var};
ghost use Rattle.gb_terms.specs.declared.decl.Param.{Param};
ghost use Rattle.gb_terms.specs.declared.module.Bind.{Bind};
ghost use Rattle.gb_terms.specs.declared.module.Mexp.{Mexp};
ghost use Rattle.gb_goal.specs.Answers.Answer.{given};
ghost use Rattle.gb_goal.specs.Instances.{stands_for};
ghost use Rattle.gb_goal.specs.Interfaces.{Interface, interface_at};
ghost use Rattle.gb_goal.specs.Scope as scope;
ghost use Rattle.gb_goal.specs.Scope.{module_type_of};
ghost use Rattle.gb_mods.specs.Meets.{Known};
ghost use Rattle.gb_meaning.specs.Declared.{ModuleType, declared};
ghost use Rattle.gb_meaning.specs.Holds.{declared_modules, interpretation};
ghost use Rattle.gb_meaning.specs.Names.{Name};
ghost use Rattle.gb_meaning.specs.Programs.{AreNamed};
ghost use Rattle.gb_meaning.specs.Setting.{Setting};
ghost use Rattle.gb_meaning.specs.Settings.{Chosen, Interpretation, Table, interpreted, setting, types_of};
ghost use Rattle.gb_meaning.specs.Values.{Global, World};
ghost use Rattle.gb_meaning.specs.Within.{AreApart, KeepsOff};
ghost use Rattle.gb_typing.specs.Chosen.{AreUnchosen, IsChosenOver};
ghost use Rattle.gb_typing.specs.Forms.{IsKeptOff};
ghost use Rattle.gb_typing.specs.Scopes.{IsTypedScope, context_of};
ghost use Rattle.gb_typing.specs.Sequents.{AreBinders};
ghost use Rattle.gb_arguments.specs.Arguments.{AreGivenFor, IsChoiceFor, first_with, param_of};
ghost use Rattle.gb_arguments.specs.Opened.{open_program};
ghost use Rattle.gb_arguments.specs.Covers.{AreKept, AreProgramsInOrder, ArePutNames, AskAndAreFull, Covers, IsComputed, IsUnspelt};
ghost use Rattle.gb_instances.specs.Footprint.{footprint};
ghost use Rattle.gb_instances.specs.Fits.{fits, kept_off, restrictions};
ghost use Rattle.gb_instances.specs.Instance.{GivenModule, excluded_put, modules_of};
ghost use Rattle.gb_arguments.specs.Instance.{AreModulesOf, EachFits};

/// No calls are bounded.
pub fn unbounded()
    ensures { (ds : scope.Declarations) (k : Known) (b : Bind) (vs : Option (List Var)) (p : Place) → fits ds k b vs p ≡ given tt → b.bounds ≡ [] }
{}

/// The procedures of the open program have parameters of the names that the signatures give them.
pub fn named()
    ensures { (ds : scope.Declarations) → IsTypedScope (declared ds) → (i : Interpretation) → IsChosenOver (declared ds) i → (m : Mexp) (k : Interface) → interface_at ds None m ≡ Some k →
        (b : Bind) (vs : Option (List Var)) (p : Place) → fits ds (m, k) b vs p ≡ given tt → (t : ModuleType) → module_type_of ds b.ty ≡ Some t → AreNamed (open_program (declared ds) i t m) t.signatures }
{}

/// Where what restrictions exclude is kept off, and no variable of a footprint clashes with one that is excluded, the globals of the footprint
/// are apart from those that are excluded.
pub fn apart()
    ensures { (ds : scope.Declarations) (g : Setting) → IsKeptOff (restrictions ds) g → (vs ys : List Var) (p : Place) → kept_off ds (Some vs) (Some ys) p ≡ given tt →
        (xs zs : List Global) → Covers g ys xs → Covers g vs zs → AreApart xs zs }
{}

/// The footprint that is computed of a module covers the globals of its open program.
pub fn covered()
    ensures { (ds : scope.Declarations) → IsTypedScope (declared ds) → IsUnspelt ds → (i : Interpretation) → IsChosenOver (declared ds) i → AreProgramsInOrder i →
        (m : Mexp) (k : Interface) → interface_at ds None m ≡ Some k → (ys : List Var) → footprint ds (m, k) ≡ Some ys → Covers (setting (declared ds) i) ys ((types_of (declared ds) i).footprint m) }
{}

/// A module that is found to keep off what a restriction over the first declarations excludes, where modules are put in for names, keeps off what the
/// restriction excludes in the setting of the first declarations, where programs are chosen that touch what these modules touch.
pub fn kept_first()
    ensures { (ds es : scope.Declarations) → IsTypedScope (declared (ds ++ es)) → declared_modules (declared ds) ≡ [] → IsUnspelt (ds ++ es) →
        (i : Interpretation) → IsChosenOver (declared (ds ++ es)) i → AreProgramsInOrder i → IsKeptOff (restrictions (ds ++ es)) (setting (declared (ds ++ es)) i) →
        (cs : List Chosen) → AreUnchosen cs (declared ds) → (ps : List Param) (qs : List Mexp) (ns : List Name) → ArePutNames ds es i cs (stands_for ps qs) ns →
        (m : Mexp) (k : Interface) → interface_at (ds ++ es) None m ≡ Some k → (p : Place) →
        kept_off (ds ++ es) (excluded_put (ds ++ es) ps qs ns) (footprint (ds ++ es) (m, k)) p ≡ given tt →
        KeepsOff (declared ds) cs (setting (declared ds) (first_with (declared (ds ++ es)) i cs)) ((types_of (declared (ds ++ es)) i).footprint m) ns }
{}

/// Programs that are chosen for the abstract modules of a scope, one after another, each within its binder, keep to the restrictions in the setting of
/// all of them.
pub fn chosen_kept()
    ensures { (ds : scope.Declarations) → IsTypedScope (declared ds) → (w : World) (size : Name → ℕ) (table : Table) (cs : List Chosen) →
        IsChosenOver (declared ds) (interpreted w size table cs) → IsChoiceFor (declared ds) (declared_modules (declared ds)) (interpretation w size table) (interpreted w size table cs) →
        AreKept (declared ds) (interpreted w size table cs) (declared_modules (declared ds)) }
{}

/// Where the programs of abstract modules keep to the restrictions, what is computed of the restrictions is kept off.
pub fn restrictions_kept()
    ensures { (ds : scope.Declarations) → IsTypedScope (declared ds) → (i : Interpretation) → IsChosenOver (declared ds) i → IsComputed ds i → AreKept (declared ds) i (declared_modules (declared ds)) →
        IsKeptOff (restrictions ds) (setting (declared ds) i) }
{}

/// Modules that fit the binders of a statement over the first declarations may be given for them, where their open programs ask for the oracles that are
/// named alone and lose no weight.
pub fn given_for_binders()
    ensures { (ds es : scope.Declarations) → IsTypedScope (declared (ds ++ es)) → declared_modules (declared ds) ≡ [] → IsUnspelt (ds ++ es) →
        (i : Interpretation) → IsChosenOver (declared (ds ++ es)) i → AreProgramsInOrder i → IsKeptOff (restrictions (ds ++ es)) (setting (declared (ds ++ es)) i) → AskAndAreFull (ds ++ es) i →
        (bs : List Bind) → AreBinders (context_of (declared ds)) bs → (ks : List GivenModule) → AreModulesOf (ds ++ es) ks → EachFits (ds ++ es) (map param_of bs) (modules_of ks) bs ks →
        AreGivenFor (declared ds) (declared (ds ++ es)) i [] bs (modules_of ks) }
{}
