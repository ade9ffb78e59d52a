//! The laws of modules: what later declarations leave as it is, and what the procedures of a module stand for.

ghost use Rattle.std.specs.Prelude.{◌≡◌, ◌++◌, [], ◌∷◌, List, Some};
ghost use Rattle.gb_terms.specs.declared.decl.Module.{Module};
ghost use Rattle.gb_terms.specs.declared.decl.Proc.{Proc};
ghost use Rattle.gb_terms.specs.declared.module.Mexp.{Mexp};
ghost use Rattle.gb_terms.specs.declared.module.Mexp.TheVariants.{Name};
ghost use Rattle.gb_terms.specs.declared.term.Instr.{Instr};
ghost use Rattle.gb_meaning.specs.Program.Routine.{routine};
ghost use Rattle.gb_meaning.specs.Setting.{Setting};
ghost use Rattle.gb_meaning.specs.Commands.{statements};
ghost use Rattle.gb_meaning.specs.Declared.{Declarations, concrete_module};
ghost use Rattle.gb_meaning.specs.Modules.{Functor, Modules, Reading, found, module_at, modules_of, procedure_at, no_module};
ghost use Rattle.gb_meaning.specs.Modules.{with_module, with_params, with_procedures, module_read};
ghost use Rattle.gb_meaning.specs.Naming.{EachName, EachCallOf, IsFresh, IsFreshAmong, IsUnchosen, IsEarlier};
ghost use Rattle.gb_meaning.specs.Settings.{Interpretation, setting};

/// Later declarations change no module expression that names none of them.
pub fn later_declarations<X>()
    ensures { (read : Reading X) (ms : Modules X) (ds es : Declarations) (m : Mexp) → EachName (IsFresh es) m →
        module_at (modules_of read ms (ds ++ es)) m ≡ module_at (modules_of read ms ds) m }
{}

/// A procedure of a module stands for what its reading gives, where the earlier procedures of the module, its parameters
/// and the modules before are known.
pub fn procedure_of_module<X>()
    ensures { (read : Reading X) (ms : Modules X) (m : Module) (ps qs : List Proc) (p : Proc) → m.procs ≡ ps ++ p ∷ qs →
        IsFreshAmong ps p.name → (args : List (Functor X)) →
        found (module_read read ms m args) p.name
        ≡ Some (read (procedure_at (with_params (with_module ms m.name (with_procedures read ms m no_module ps)) m.params args)) p) }
{}

/// The program of a body depends on the procedures that it calls alone.
pub fn program_of_body()
    ensures { (g h : Setting) (is : List Instr) → EachCallOf (λ p. g.procedure p ≡ h.procedure p) is →
        statements g is ≡ statements h is }
{}

/// In a setting, a procedure of a declared module without parameters is its body, in which each call carries what it names
/// in this setting: the body calls procedures of the modules before and earlier ones of its own module, as every script
/// does.
pub fn procedure_in_setting()
    ensures { (before after : Declarations) (m : Module) (ps qs : List Proc) (p : Proc) (i : Interpretation) →
        let ds : Declarations = before ++ (m.name, concrete_module m) ∷ after in
        m.params ≡ [] → m.procs ≡ ps ++ p ∷ qs → IsFreshAmong ps p.name → IsFresh after m.name → IsUnchosen i.programs m.name →
        EachCallOf (IsEarlier after i.programs m.name ps) p.body.list →
        (setting ds i).procedure (record { «module» = Name m.name; name = p.name })
        ≡ Some (routine p.params p.locals (statements (setting ds i) p.body.list) p.value) }
{}
