//! What trees mean, from their parts.

ghost use Rattle.std.specs.Prelude.{◌≡◌, List, map};
ghost use Rattle.gb_core.specs.declared.ty.Ty.{Ty};
ghost use Rattle.gb_core.specs.declared.var.Var.{Var};
ghost use Rattle.gb_terms.specs.declared.module.ProcRef.{ProcRef};
ghost use Rattle.gb_terms.specs.declared.term.Term.{Term};
ghost use Rattle.gb_terms.specs.declared.term.Cmd.{Cmd};
ghost use Rattle.gb_terms.specs.declared.term.Head.{Head};
ghost use Rattle.gb_terms.specs.declared.term.Head.TheVariants as tree;
ghost use Rattle.gb_terms.specs.Make.{node};
ghost use Rattle.gb_meaning.specs.Memory.{Memory};
ghost use Rattle.gb_meaning.specs.Program.{Program};
ghost use Rattle.gb_meaning.specs.Program.Program.{branch, loop};
ghost use Rattle.gb_meaning.specs.Setting.{Setting};
ghost use Rattle.gb_meaning.specs.State.{State};
ghost use Rattle.gb_meaning.specs.Terms.{Speaks, val, at_head, part_of, denominator, denominator_of};
ghost use Rattle.gb_meaning.specs.Runs.{out, run_denominator};
ghost use Rattle.gb_meaning.specs.Commands.{called, statement, statements};
ghost use Rattle.gb_meaning.specs.Judgments.{run_of, subject_denominator};

/// The meaning and the denominator of a term, from its head, its arguments and its type.
pub fn terms()
    ensures meaning { (g : Setting) (j : Speaks) (h : Head) (ts : List Term) (ty : Ty) (s : State) →
        val g j (node h ts ty) s ≡ at_head g j (node h ts ty) h (map (part_of g j) ts) ty s }
    ensures denominator { (g : Setting) (h : Head) (ts : List Term) (ty : Ty) →
        denominator g (node h ts ty) ≡ denominator_of g h (map (denominator g) ts) ty }
{}

/// The run of a body is that of its statements.
pub fn bodies()
    ensures run { (g : Setting) (s : State) (c : Cmd) (m : Memory) → run_of g s (tree.Body c) m ≡ out g s (statements g c.list) m }
    ensures denominator { (g : Setting) (c : Cmd) → subject_denominator g (tree.Body c) ≡ run_denominator g (statements g c.list) }
    ensures call { (g : Setting) (xs : List Var) (p : ProcRef) (es : List Term) (c : Program) →
        statement g (tree.Call xs p es) c ≡ called xs (g.procedure p) es c }
    ensures branches { (g : Setting) (e : Term) (a b : Cmd) (c : Program) →
        statement g (tree.If e a b) c ≡ branch e (statements g a.list) (statements g b.list) c }
    ensures loops { (g : Setting) (e v : Term) (a : Cmd) (c : Program) →
        statement g (tree.While e v a) c ≡ loop e v (statements g a.list) c }
{}
