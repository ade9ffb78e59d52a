//! What the procedures of abstract modules write and read, that they lose no weight but by their oracles, and that they keep off what
//! restrictions exclude.

ghost use Rattle.std.specs.Prelude.{◌≡◌, Bool, true, List, None, Some, map};
ghost use Rattle.gb_core.specs.declared.ty.Ty.{Ty};
ghost use Rattle.gb_core.specs.declared.var.Var.TheVariants.{Glob};
ghost use Rattle.gb_terms.specs.declared.module.Mexp.TheVariants.{Name as named};
ghost use Rattle.gb_terms.specs.declared.module.ProcRef.{ProcRef};
ghost use Rattle.gb_goal.specs.Interfaces.{ProcedureType, procedure_type};
ghost use Rattle.gb_goal.specs.Scope.{Declarations};
ghost use Rattle.gb_meaning.specs.Names.{Name, Path};
ghost use Rattle.gb_meaning.specs.Program.{Program, Routine};
ghost use Rattle.gb_meaning.specs.Setting.{Setting};
ghost use Rattle.gb_meaning.specs.Sound.{FullRoutine};
ghost use Rattle.gb_laws.specs.Cells.{Key, Cell, Covers, global_cell};
ghost use Rattle.gb_laws.specs.Cells.Key.{local};
ghost use Rattle.gb_laws.specs.Finite.{IsVariableType};
ghost use Rattle.gb_laws.specs.Reads.{routine_cells};
ghost use Rattle.gb_laws.specs.Writes.{IfGlobal, IsNone, UnwrittenBy, keys_of};
ghost use Rattle.gb_meaning.specs.Declared.{declared};
ghost use Rattle.gb_meaning.specs.Settings.{Interpretation, setting};
ghost use Rattle.gb_typing.specs.Chosen.{IsChosenOver};
ghost use Rattle.gb_typing.specs.Forms.{IsKeptOff};
ghost use Rattle.gb_typing.specs.Programs.{HaveVariableTypes};
ghost use Rattle.gb_typing.specs.Rules.{IsSettingOver};
ghost use Rattle.gb_typing.specs.Scopes.{IsTypedScope};
ghost use Rattle.gb_mods.specs.Exclusions.{exclusions};
ghost use Rattle.gb_mods.specs.Meant.{meant_by};
ghost use Rattle.gb_mods.specs.declared.meant.Meant.TheVariants.{Any};
ghost use Rattle.gb_mods.proofs.Closed.{IsIn};
ghost use Rattle.gb_prog.specs.AnyOf.{IfOneOf, IsAnyOf};
ghost use Rattle.gb_prog.specs.BothAnyOf.{AreBothAnyOf};
ghost use Rattle.gb_prog.specs.Carried.{EachCarried, EachCarriedBy};
ghost use Rattle.gb_prog.specs.Means.{Means};

/// In a setting of a typed scope, where programs of their types are chosen for abstract modules, a reference to a procedure of an abstract
/// module means a procedure of its program, which calls the oracles that the signature names.
pub fn any_there()
    ensures { (ds : Declarations) → IsTypedScope (declared ds) → (i : Interpretation) → IsChosenOver (declared ds) i →
        (p : ProcRef) (a : Name) (qs : List ProcRef) → meant_by ds p ≡ Any a qs → IsAnyOf (setting (declared ds) i) a qs p }
{}

/// There, two references to one procedure of an abstract module mean one procedure of its program, linked with the oracles of each, which answer
/// in pairs.
pub fn both_there()
    ensures { (ds : Declarations) → IsTypedScope (declared ds) → (g : Setting) → IsSettingOver (declared ds) g → (p q : ProcRef) (a : Name) (os ps : List ProcRef) →
        meant_by ds p ≡ Any a os → meant_by ds q ≡ Any a ps → p.name ≡ q.name → AreBothAnyOf ds g a os ps p q }
{}

/// The type that is known of a procedure of an abstract module is that of its signature: its parameters and its result have types that
/// variables may have, and two references to one procedure have one type.
pub fn abstract_types()
    ensures variables { (ds : Declarations) → IsTypedScope (declared ds) → (p : ProcRef) (a : Name) (os : List ProcRef) → meant_by ds p ≡ Any a os →
        (t : ProcedureType) → procedure_type ds None p ≡ Some t → HaveVariableTypes t.params × IsVariableType t.result }
    ensures same { (ds : Declarations) (p q : ProcRef) (a : Name) (os us : List ProcRef) → meant_by ds p ≡ Any a os → meant_by ds q ≡ Any a us → p.name ≡ q.name →
        (t u : ProcedureType) → procedure_type ds None p ≡ Some t → procedure_type ds None q ≡ Some u → t ≡ u }
{}

/// In a setting over a typed scope each reference means what it stands for by declarations.
pub fn meanings()
    ensures { (ds : Declarations) → IsTypedScope (declared ds) → (g : Setting) → IsSettingOver (declared ds) g → (p : ProcRef) → Means g p (meant_by ds p) }
{}

/// What is so of each procedure where it is so of all that the procedure carries, is so of every procedure, and of all that programs carry.
pub fn carried()
    ensures { (p : Routine → Bool) → ((r : Routine) → EachCarriedBy (λ s. p s ≡ true) r → p r ≡ true) →
        ((c : Program) → EachCarried (λ s. p s ≡ true) c) × ((r : Routine) → p r ≡ true) }
{}

/// A procedure of an abstract module writes no global but those of the module, and what its oracles write.
pub fn any_writes()
    ensures { (g : Setting) (a : Name) (qs : List ProcRef) (p : ProcRef) → IsAnyOf g a qs p →
        (S : List ProcRef) → ((q : ProcRef) → IsIn qs q → IsIn S q) → (k : Key) → IsNone k (keys_of g.types (Glob a)) →
        (r : Routine) → g.procedure p ≡ Some r → EachCarriedBy (IfOneOf g S (λ s. IfGlobal k (UnwrittenBy g s k))) r →
        IfGlobal k (UnwrittenBy g r k) }
{}

/// It reads no global but those of the module, each at its type, and what its oracles read.
pub fn any_reads()
    ensures { (g : Setting) (a : Name) (qs : List ProcRef) (p : ProcRef) → IsAnyOf g a qs p →
        (S : List ProcRef) → ((q : ProcRef) → IsIn qs q → IsIn S q) →
        (f : Cell → Bool) → ((x : Path) (t : Ty) → f (record { key = local x; ty = t }) ≡ true) →
        Covers (λ c. f c ≡ true) (map global_cell (g.types.footprint (named a))) →
        (r : Routine) → g.procedure p ≡ Some r → EachCarriedBy (IfOneOf g S (λ s. Covers (λ c. f c ≡ true) (routine_cells g s))) r →
        Covers (λ c. f c ≡ true) (routine_cells g r) }
{}

/// It loses no weight where its oracles lose none.
pub fn any_full()
    ensures { (g : Setting) (a : Name) (qs : List ProcRef) (p : ProcRef) → IsAnyOf g a qs p →
        ((q : ProcRef) → IsIn qs q → (s : Routine) → g.procedure q ≡ Some s → FullRoutine g s) →
        (r : Routine) → g.procedure p ≡ Some r → FullRoutine g r }
{}

/// In a setting over a typed scope, all globals of an abstract module share nothing with what its restriction excludes.
pub fn kept_off()
    ensures { (ds : Declarations) → IsTypedScope (declared ds) → (g : Setting) → IsSettingOver (declared ds) g → IsKeptOff (exclusions ds) g }
{}
