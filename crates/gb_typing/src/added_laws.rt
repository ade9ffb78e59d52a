//! What holds goes on to hold, whatever is declared later, for adversaries that may use it.

ghost use Rattle.std.specs.Prelude.{◌≡◌, ℕ, ◌↔◌, ◌++◌, [], ◌∷◌, List, Option, Some};
ghost use Rattle.gb_terms.specs.declared.module.Bind.{Bind};
ghost use Rattle.gb_goal.specs.declared.scope.ProcName.{ProcName};
ghost use Rattle.gb_goal.specs.declared.sequent.Sequent.{Sequent};
ghost use Rattle.gb_meaning.specs.Names.{Name};
ghost use Rattle.gb_meaning.specs.Values.{Global, World};
ghost use Rattle.gb_meaning.specs.Program.{Routine, Oracle};
ghost use Rattle.gb_meaning.specs.Setting.{Setting};
ghost use Rattle.gb_meaning.specs.Declared.{Declarations, Declaration, Signature, abstract_module, lemma, terminating};
ghost use Rattle.gb_meaning.specs.Linking.{Oracles, link_routine};
ghost use Rattle.gb_meaning.specs.Naming.{AnyName, IsFresh};
ghost use Rattle.gb_meaning.specs.Typing.{IsTypedRoutine};
ghost use Rattle.gb_meaning.specs.Settings.{Table, Interpretation, types_of};
ghost use Rattle.gb_meaning.specs.Holds.{HaveVariableTypes, interpretation, IsTrueSequent, Holds, IsTerminating, IsSound};
ghost use Rattle.gb_typing.specs.Naming.{IsKept, RoutineNames, NamesIfThere, AreModulesOrStatements, OperatorsName};
ghost use Rattle.gb_typing.specs.Formed.{IsSequentApart, IsScopeApart};
ghost use Rattle.gb_typing.specs.Added.{IsOperator, IsNewOperator, AreLoopsApart, IsSequentApartIn, IsNewModule};
ghost use Rattle.gb_typing.specs.Added.{AreAddedTo, AreAddedToLoops};

/// A sequent that holds goes on to hold when an operator is added, and so do proved loops stay good. Adversaries may
/// use the operator.
pub fn later_operators()
    ensures holds { (ds : Declarations) (n : Name) (d : Declaration) → IsOperator d → IsNewOperator ds n d →
        (q : Sequent) → Holds ds q → Holds (ds ++ (n, d) ∷ []) q }
    ensures loops { (ds : Declarations) (n : Name) (d : Declaration) → IsOperator d → IsNewOperator ds n d →
        (m f : Name) → IsTerminating ds m f → IsTerminating (ds ++ (n, d) ∷ []) m f }
{}

/// A well-typed procedure names no module: linked with procedures that name none of some declarations, it names none of
/// them, also where modules of some names hide them. So what adversaries do names no module that is added.
pub fn names_of_adversaries()
    ensures fresh { (es : Declarations) (g : Setting) (ss : Oracle → Option Signature) (os : Oracles) →
        ((o : Oracle) (s : Signature) → ss o ≡ Some s → NamesIfThere (IsFresh es) AnyName (os o)) →
        (gs : List Global) (r : Routine) → IsTypedRoutine g ss gs r →
        RoutineNames (IsFresh es) AnyName (link_routine os r) }
    ensures kept { (es : Declarations) (hs : List Name) (g : Setting) (ss : Oracle → Option Signature) (os : Oracles) →
        ((o : Oracle) (s : Signature) → ss o ≡ Some s → NamesIfThere (IsKept es hs) AnyName (os o)) →
        (gs : List Global) (r : Routine) → IsTypedRoutine g ss gs r →
        RoutineNames (IsKept es hs) AnyName (link_routine os r) }
{}

/// A sequent with abstract modules that holds goes on to hold when modules and module types are added which neither the
/// scope nor the sequent names, but where a module of the sequent's own hides them; and so do loops stay good that are
/// proved of a module, which may have parameters. Where the scope's operators name nothing that is added, the sequent
/// is true with it, in an interpretation without programs, exactly where it is true without it.
pub fn modules_beside_adversaries()
    ensures truth { (ds es : Declarations) → AreModulesOrStatements es → OperatorsName (IsFresh es) AnyName ds →
        (w : World) (size : Name → ℕ) (table : Table) →
        let i : Interpretation = interpretation w size table in
        HaveVariableTypes (types_of ds i) w → (q : Sequent) → IsSequentApart es ds q i →
        IsTrueSequent ds q i ↔ IsTrueSequent (ds ++ es) q i }
    ensures holds { (ds es : Declarations) → AreModulesOrStatements es → IsScopeApart es ds → (q : Sequent) →
        IsSequentApartIn q es ds → Holds ds q → Holds (ds ++ es) q }
    ensures loops { (ds es : Declarations) → AreModulesOrStatements es → IsScopeApart es ds → (m f : Name) →
        AreLoopsApart m f es ds → IsTerminating ds m f → IsTerminating (ds ++ es) m f }
{}

/// A sequent that holds goes on to hold when an open section declares an abstract module, whatever program is chosen
/// for it, if the name is new: neither the scope nor the sequent names it, but where a module of the sequent's own
/// hides it; and so do loops stay good that are proved of a module.
pub fn modules_of_sections()
    ensures holds { (ds : Declarations) (n : Name) (b : Bind) → IsNewModule ds n b →
        IsScopeApart ((n, abstract_module b) ∷ []) ds →
        (q : Sequent) → IsSequentApartIn q ((n, abstract_module b) ∷ []) ds → Holds ds q →
        Holds (ds ++ (n, abstract_module b) ∷ []) q }
    ensures loops { (ds : Declarations) (n : Name) (b : Bind) → IsNewModule ds n b →
        IsScopeApart ((n, abstract_module b) ∷ []) ds →
        (m f : Name) → AreLoopsApart m f ((n, abstract_module b) ∷ []) ds → IsTerminating ds m f →
        IsTerminating (ds ++ (n, abstract_module b) ∷ []) m f }
{}

/// What holds goes on to hold when declarations of every kind are added, one after another: types, operators, module
/// types, modules, abstract modules of open sections, axioms, lemmas and proved loops. And proved loops stay good.
pub fn later_declarations()
    ensures holds { (ds es : Declarations) (q : Sequent) → AreAddedTo ds es q → Holds ds q → Holds (ds ++ es) q }
    ensures loops { (ds es : Declarations) (m f : Name) → AreAddedToLoops ds es m f → IsTerminating ds m f →
        IsTerminating (ds ++ es) m f }
{}

/// In a sound scope a lemma holds in all that the scope declares, and proved loops are good in it.
pub fn whole_scopes()
    ensures lemmas { (ds es : Declarations) (n : Name) (q : Sequent) → IsSound (ds ++ (n, lemma q) ∷ es) →
        AreAddedTo ds ((n, lemma q) ∷ es) q → Holds (ds ++ (n, lemma q) ∷ es) q }
    ensures loops { (ds es : Declarations) (n : Name) (p : ProcName) → IsSound (ds ++ (n, terminating p) ∷ es) →
        AreAddedToLoops ds ((n, terminating p) ∷ es) p.module p.name →
        IsTerminating (ds ++ (n, terminating p) ∷ es) p.module p.name }
{}
