//! Well-typed programs.

ghost use Rattle.std.specs.Prelude.{◌≡◌, false, List};
ghost use Rattle.gb_terms.specs.declared.decl.TypedName.{TypedName};
ghost use Rattle.gb_terms.specs.declared.term.Instr.{Instr};
ghost use Rattle.gb_terms.specs.declared.term.Term.{Term};
ghost use Rattle.gb_meaning.specs.Commands.{statements};
ghost use Rattle.gb_meaning.specs.Memory.{Memory};
ghost use Rattle.gb_meaning.specs.Runs.{out};
ghost use Rattle.gb_meaning.specs.Setting.{Setting};
ghost use Rattle.gb_meaning.specs.Sound.{IsSound};
ghost use Rattle.gb_meaning.specs.State.{State, inside};
ghost use Rattle.gb_meaning.specs.Terms.{quiet, val};
ghost use Rattle.gb_meaning.specs.Judgments.{IsSoundForm};
ghost use Rattle.gb_meaning.specs.Truth.{has_module};
ghost use Rattle.gb_typing.specs.Context.{Context};
ghost use Rattle.gb_typing.specs.Typing.{IsForm};
ghost use Rattle.gb_typing.specs.Formulas.{IsFormula};
ghost use Rattle.gb_typing.specs.Programs.{IsExpression, IsBody};
ghost use Rattle.gb_typing.specs.Sequents.{IsConclusion};
ghost use Rattle.gb_typing.specs.Fits.{IsSettingOf};

/// A well-typed body draws from distributions, through all that it calls.
pub fn bodies()
    ensures { (c : Context) (g : Setting) → IsSettingOf c g → (ls : List TypedName) (is : List Instr) → IsBody c ls is → IsSound g (statements g is) }
{}

/// The judgments of a goal's conclusion are of sound procedures and bodies, where no quantifier over modules stands in front; else
/// what stands behind it is of no setting in which no program is chosen for the module.
pub fn conclusions()
    ensures forms { (c : Context) (f : Term) → IsFormula c f → has_module f ≡ false → IsForm c f }
    ensures sound { (c : Context) (g : Setting) → IsSettingOf c g → (f : Term) → IsConclusion c f → has_module f ≡ false → IsSoundForm g f }
{}

/// A well-typed expression has one value in a memory, and a well-typed body one run, whatever is around of the program.
pub fn states()
    ensures value { (c : Context) (ls : List TypedName) (e : Term) → IsExpression c ls e → (g : Setting) (s q : State) (m : Memory) →
        val g quiet e (inside s m) ≡ val g quiet e (inside q m) }
    ensures run { (c : Context) (g : Setting) (ls : List TypedName) (is : List Instr) → IsBody c ls is → (s q : State) (m : Memory) →
        out g s (statements g is) m ≡ out g q (statements g is) m }
{}
