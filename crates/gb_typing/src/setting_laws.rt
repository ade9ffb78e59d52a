//! Settings that agree on what names mean.

ghost use Rattle.std.specs.Prelude.{◌≡◌, ℕ, ◌↔◌, ◌++◌, List};
ghost use Rattle.gb_terms.specs.declared.term.Term.{Term};
ghost use Rattle.gb_meaning.specs.Memory.{Memory};
ghost use Rattle.gb_meaning.specs.Program.{Program};
ghost use Rattle.gb_core.specs.declared.value.Value.{Value};
ghost use Rattle.gb_meaning.specs.Names.{Name};
ghost use Rattle.gb_meaning.specs.Values.{World};
ghost use Rattle.gb_meaning.specs.Setting.{Setting, Meaning};
ghost use Rattle.gb_meaning.specs.State.{State};
ghost use Rattle.gb_meaning.specs.Terms.{val, denominator, quiet};
ghost use Rattle.gb_meaning.specs.Runs.{out, run_denominator};
ghost use Rattle.gb_meaning.specs.Judgments.{Judge, IsFair, speaking, IsSoundForm, IsTrueIn};
ghost use Rattle.gb_meaning.specs.Declared.{Declarations};
ghost use Rattle.gb_meaning.specs.Naming.{AnyName, IsFresh};
ghost use Rattle.gb_meaning.specs.Settings.{Table, Interpretation, types_of, setting};
ghost use Rattle.gb_meaning.specs.Holds.{LoopsAreGood, HaveVariableTypes, interpretation};
ghost use Rattle.gb_meaning.specs.Loops.{IsGood};
ghost use Rattle.gb_typing.specs.Agreement.{SameTerm, SameProgram, SameForm};
ghost use Rattle.gb_typing.specs.Naming.{AgreeOn, TermNames, ProgramNames, FormNames, AreModulesOrStatements, OperatorsName};

/// A term of a program means the same in two settings that agree on what it names, and its tree has the same denominator.
pub fn terms()
    ensures meaning { (g h : Setting) (e : Term) → SameTerm g h e → (s : State) → val g quiet e s ≡ val h quiet e s }
    ensures denominator { (g h : Setting) (e : Term) → SameTerm g h e → denominator g e ≡ denominator h e }
{}

/// A program has the same runs in two settings that agree on what it names through every procedure that it carries, over
/// the same denominator.
pub fn programs()
    ensures runs { (g h : Setting) (c : Program) → SameProgram g h c → (s : State) (m : Memory) → out g s c m ≡ out h s c m }
    ensures denominator { (g h : Setting) (c : Program) → SameProgram g h c → run_denominator g c ≡ run_denominator h c }
{}

/// A form whose judgments are of sound subjects means the same, under fair judges, in two settings that agree on what it
/// names; so it is true in both or in none.
pub fn forms()
    ensures meaning { (g h : Setting) (j i : Judge) → IsFair g j → IsFair h i → (f : Term) → SameForm g h f → IsSoundForm g f →
        (s : State) → val g (speaking g j) f s ≡ val h (speaking h i) f s }
    ensures truth { (g h : Setting) (f : Term) → SameForm g h f → IsSoundForm g f → (s : State) → IsTrueIn g f s ↔ IsTrueIn h f s }
    ensures sound { (g h : Setting) (f : Term) → SameForm g h f → IsSoundForm g f → IsSoundForm h f }
{}

/// Settings that agree on all modules but those of some declarations, and on all operators but those of some others, agree
/// on each term, program and form that names none of these.
pub fn names()
    ensures terms { (es os : Declarations) (g h : Setting) → AgreeOn (IsFresh es) (IsFresh os) g h →
        (e : Term) → TermNames (IsFresh es) (IsFresh os) e → SameTerm g h e }
    ensures programs { (es os : Declarations) (g h : Setting) → AgreeOn (IsFresh es) (IsFresh os) g h →
        (c : Program) → ProgramNames (IsFresh es) (IsFresh os) c → SameProgram g h c }
    ensures forms { (es os : Declarations) (g h : Setting) → AgreeOn (IsFresh es) (IsFresh os) g h →
        (f : Term) → FormNames (IsFresh es) (IsFresh os) g f → SameForm g h f }
{}

/// A loop is good in two settings that agree on its guard, its variant and its body, or in none; and so are all loops of a
/// program.
pub fn loops()
    ensures good { (g h : Setting) (s : State) (e v : Term) (a : Program) → SameTerm g h e → SameTerm g h v → SameProgram g h a →
        IsGood g s e v a → IsGood h s e v a }
    ensures all { (g h : Setting) (c : Program) → SameProgram g h c → LoopsAreGood g c → LoopsAreGood h c }
{}

/// The setting of declarations agrees, on all names but those of modules that are added, with the setting in which they are
/// added.
pub fn added_modules()
    ensures { (ds es : Declarations) → AreModulesOrStatements es → OperatorsName (IsFresh es) AnyName ds →
        (w : World) (size : Name → ℕ) (table : Table) →
        let i : Interpretation = interpretation w size table in
        HaveVariableTypes (types_of ds i) w → AgreeOn (IsFresh es) AnyName (setting ds i) (setting (ds ++ es) i) }
{}
