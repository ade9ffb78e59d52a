// Loops whose goals hold are good.

ghost use Rattle.std.specs.Prelude.{List};
ghost use Rattle.std.specs.List.{AllByRecursion};
ghost use Rattle.gb_terms.specs.declared.term.Instr.{Instr};
ghost use Rattle.gb_meaning.specs.Holds.{LoopsAreGood};
ghost use Rattle.gb_meaning.specs.Commands.{statements};
ghost use Rattle.gb_meaning.specs.Setting.{Setting};
ghost use Rattle.gb_loops.specs.Loops.{loops};
ghost use Rattle.gb_elab_laws.specs.Good.{LoopIsGood};

/// Where each loop of a program is good, its loops are good.
pub fn programs()
    ensures { (g : Setting) (is : List Instr) → AllByRecursion (LoopIsGood g) (loops is) → LoopsAreGood g (statements g is) }
{}
