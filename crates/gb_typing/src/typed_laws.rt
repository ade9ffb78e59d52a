//! Procedures of a module with parameters, where other modules are given for these.

ghost use Rattle.std.specs.Prelude.{◌≡◌, true, List, [], ◌∷◌, ◌++◌, Some};
ghost use Rattle.gb_core.specs.declared.ty.Ty.{Ty};
ghost use Rattle.gb_terms.specs.declared.decl.Module.{Module};
ghost use Rattle.gb_terms.specs.declared.decl.Proc.{Proc};
ghost use Rattle.gb_terms.specs.declared.decl.TypedName.{TypedName};
ghost use Rattle.gb_terms.specs.declared.module.Mexp.{Mexp};
ghost use Rattle.gb_terms.specs.declared.module.Mexp.TheVariants.{Name as named, Apply};
ghost use Rattle.gb_terms.specs.declared.module.ProcRef.{ProcRef};
ghost use Rattle.gb_goal.specs.declared.sequent.Sequent.{Sequent};
ghost use Rattle.gb_goal.specs.Scope.{proc_of};
ghost use Rattle.gb_meaning.specs.Names.{Name};
ghost use Rattle.gb_meaning.specs.Written.{local_type};
ghost use Rattle.gb_meaning.specs.Declared.{Declarations, concrete_module};
ghost use Rattle.gb_meaning.specs.Modules.{Procedures, found};
ghost use Rattle.gb_typing.specs.Context.{Context, procedure};
ghost use Rattle.gb_typing.specs.Modules.{ProcedureType, Interface, has_type, provides};
ghost use Rattle.gb_typing.specs.Programs.{IsProcedure, type_of_procedure};
ghost use Rattle.gb_typing.specs.Scopes.{context_of, in_module, interface_with, procedure_types, IsTypedScope};
ghost use Rattle.gb_typing.specs.Sequents.{AreBinders, of_sequent};
ghost use Rattle.gb_goal.specs.Instances.{name_of, arguments_of, stands_for, put_in_reference, instance};
ghost use Rattle.gb_typing.specs.Suits.{suits, lacked, Knows};

/// A procedure that is typed inside of its module is typed outside, where modules that suit the parameters are given for them, in a
/// context that knows the module as a whole, and all that was known where it was declared.
pub fn typed_instances()
    ensures { (a c : Context) (m : Module) (earlier : Procedures ProcedureType) → Knows a m earlier c →
        (es : List Mexp) → suits c.modules (lacked a.modules.types m.params) es ≡ true →
        (p : Proc) → IsProcedure (in_module a m earlier) p → IsProcedure c (instance m.params es p) }
{}

/// A reference that has types inside of a module has the same ones outside, up to the names of parameters, where modules that suit the
/// module's parameters are put for them.
pub fn typed_references()
    ensures { (a c : Context) (m : Module) (earlier : Procedures ProcedureType) → Knows a m earlier c →
        (es : List Mexp) → suits c.modules (lacked a.modules.types m.params) es ≡ true →
        (r : ProcRef) (t : ProcedureType) → procedure (in_module a m earlier) r ≡ Some t →
        has_type (procedure c (put_in_reference (stands_for m.params es) r)) t ≡ true }
{}

/// Where the arguments of a module expression suit what the module that it names lacks, its procedures are of the types that they have
/// in the module; and a procedure has a type only where they do.
pub fn applied_modules()
    ensures procedures { (c : Context) (m : Mexp) (i : Interface) → c.modules.interfaces (name_of m) ≡ Some i →
        (f : Name) → suits c.modules i.lacks (arguments_of m) ≡ true → procedure c (record { «module» = m; name = f }) ≡ found i.procedures f }
    ensures suited { (c : Context) (m : Mexp) (i : Interface) → c.modules.interfaces (name_of m) ≡ Some i →
        (f : Name) (t : ProcedureType) → procedure c (record { «module» = m; name = f }) ≡ Some t → suits c.modules i.lacks (arguments_of m) ≡ true }
    ensures arguments { (n : Name) (es : List Mexp) → arguments_of (Apply n es) ≡ es }
{}

/// What the parameters of a declared module ask for is the same in each later context of a typed scope, as where it was declared.
pub fn lacked_modules()
    ensures { (ds front after : Declarations) (n : Name) (m : Module) → IsTypedScope ds → ds ≡ front ++ (n, concrete_module m) ∷ after →
        (q : Sequent) (fs : List (List TypedName)) → AreBinders (context_of ds) q.modules →
        lacked (context_of front).modules.types m.params ≡ lacked (of_sequent (context_of ds) q fs).modules.types m.params }
{}

/// A context knows a module that it has as a whole.
pub fn known_wholly()
    ensures { (c : Context) (m : Module) (earlier procedures : Procedures ProcedureType) →
        c.modules.interfaces m.name ≡ Some (interface_with c.modules.types m.params procedures) →
        ((f : Name) (t : ProcedureType) → found earlier f ≡ Some t → found procedures f ≡ Some t) →
        ((x : Name) (t : Ty) → local_type m.globals x ≡ Some t → c.global m.name x ≡ Some t) → Knows c m earlier c }
{}

/// What a module provides it provides through others.
pub fn provides_through()
    ensures { (ps qs rs : Procedures ProcedureType) → provides ps qs ≡ true → provides qs rs ≡ true → provides ps rs ≡ true }
{}

/// A procedure of a module without parameters is typed outside as it is inside.
pub fn plain_procedures()
    ensures { (a c : Context) (m : Module) (earlier : Procedures ProcedureType) → Knows a m earlier c → m.params ≡ [] →
        (p : Proc) → IsProcedure (in_module a m earlier) p → IsProcedure c p }
{}

/// The context of a goal over a typed scope knows each declared module as a whole, and all that was known where it was declared; and a
/// procedure of the module is typed there, behind the earlier ones.
pub fn known_modules()
    ensures { (ds front after : Declarations) (n : Name) (m : Module) → IsTypedScope ds → ds ≡ front ++ (n, concrete_module m) ∷ after →
        (q : Sequent) (fs : List (List TypedName)) → AreBinders (context_of ds) q.modules →
        (earlier later : List Proc) (p : Proc) → m.procs ≡ earlier ++ p ∷ later →
        Knows (context_of front) m (procedure_types earlier) (of_sequent (context_of ds) q fs)
        × IsProcedure (in_module (context_of front) m (procedure_types earlier)) p }
{}

/// Where a reference to a procedure of a declared module has a type in a goal over a typed scope, the procedure with the reference's
/// modules for the parameters is typed there, and of this type.
pub fn instances_in_goals()
    ensures typed { (ds front after : Declarations) (m : Module) (r : ProcRef) → IsTypedScope ds →
        ds ≡ front ++ (name_of r.module, concrete_module m) ∷ after → (p : Proc) → proc_of m.procs r.name ≡ Some p →
        (q : Sequent) (fs : List (List TypedName)) → AreBinders (context_of ds) q.modules →
        (t : ProcedureType) → procedure (of_sequent (context_of ds) q fs) r ≡ Some t →
        IsProcedure (of_sequent (context_of ds) q fs) (instance m.params (arguments_of r.module) p) }
    ensures of_type { (ds front after : Declarations) (m : Module) (r : ProcRef) → IsTypedScope ds →
        ds ≡ front ++ (name_of r.module, concrete_module m) ∷ after → (p : Proc) → proc_of m.procs r.name ≡ Some p →
        (q : Sequent) (fs : List (List TypedName)) → AreBinders (context_of ds) q.modules →
        (t : ProcedureType) → procedure (of_sequent (context_of ds) q fs) r ≡ Some t →
        t ≡ type_of_procedure (instance m.params (arguments_of r.module) p) }
{}

/// A procedure of a declared module without parameters is typed in each goal over a typed scope, and has its type there.
pub fn plain_in_goals()
    ensures typed { (ds front after : Declarations) (n : Name) (m : Module) → IsTypedScope ds → ds ≡ front ++ (n, concrete_module m) ∷ after →
        (q : Sequent) (fs : List (List TypedName)) → AreBinders (context_of ds) q.modules → m.params ≡ [] →
        (f : Name) (p : Proc) → proc_of m.procs f ≡ Some p → IsProcedure (of_sequent (context_of ds) q fs) p }
    ensures of_type { (ds front after : Declarations) (n : Name) (m : Module) → IsTypedScope ds → ds ≡ front ++ (n, concrete_module m) ∷ after →
        (q : Sequent) (fs : List (List TypedName)) → AreBinders (context_of ds) q.modules → m.params ≡ [] →
        (f : Name) (p : Proc) → proc_of m.procs f ≡ Some p →
        procedure (of_sequent (context_of ds) q fs) (record { «module» = named n; name = f }) ≡ Some (type_of_procedure p) }
{}
