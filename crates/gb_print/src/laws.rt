// What is printed is read back.

ghost use Rattle.std.specs.Prelude.{◌≡◌, true, false, List, [], ◌∷◌};
ghost use Rattle.gb_goal.specs.Scope.{Declarations};
ghost use Rattle.gb_terms.specs.declared.decl.TypedName.{TypedName};
ghost use Rattle.gb_print_names.specs.declared.bound_names.Enumeration.{Enumeration};
ghost use Rattle.gb_print_names.specs.BoundNames.{Name, Place};
ghost use Rattle.gb_goal.specs.declared.sequent.Sequent.{Sequent};
ghost use Rattle.gb_print.specs.GoalText.{place_of_form, place_of_goal, printed_form, printed_goal};
ghost use Rattle.gb_print.specs.Goals.{IsWrittenGoal, IsGoalReadAs};
ghost use Rattle.gb_print.specs.Written.{IsWritten};
ghost use Rattle.gb_print.specs.ReadBack.{IsReadAs};
ghost use Rattle.gb_print.specs.Forms.{form_tree};
ghost use Rattle.gb_core.specs.declared.var.Var.{Var};
ghost use Rattle.gb_terms.specs.declared.module.ProcRef.{ProcRef};
ghost use Rattle.gb_terms.specs.declared.term.Term.{Term};
ghost use Rattle.gb_terms.specs.declared.term.Cmd.{Cmd};
ghost use Rattle.gb_terms.specs.declared.term.Head.TheVariants.{Assign, Sample, Call, If, While, Proc, Body};
ghost use Rattle.gb_script.specs.declared.head.Head.TheVariants as script;
ghost use Rattle.gb_print.specs.Nodes.{tree, list};
ghost use Rattle.gb_print.specs.Types.{procedure_tree, call_tree};
ghost use Rattle.gb_print.specs.Programs.{written, loop};
ghost use Rattle.gb_print.specs.Forms.{form, operand, forms, shown, all_shown, subject_trees, instr_trees, cmd_trees, statements, IsMadeOfParts};

use gb_limits::laws::kinds_are_kinds;
use gb_read_script::laws::{forms_are_unique, goals_are_unique};

/// The tree of a term is made, by the clause of its head, of the trees of its arguments and of the programs that it speaks of.
pub fn terms_are_made_of_parts()
    ensures { (t : Term) → IsMadeOfParts t }
{}

/// What a judgment speaks of is a procedure, or a block of statements.
pub fn subjects_are_made_of_parts()
    ensures procedure { (p : ProcRef) (at : Place) → subject_trees (Proc p) at ≡ procedure_tree p at.bound ∷ [] }
    ensures program { (c : Cmd) (at : Place) → subject_trees (Body c) at ≡ tree script.Block (cmd_trees c at) ∷ [] }
    ensures statements { (c : Cmd) (at : Place) → cmd_trees c at ≡ statements c.list at }
{}

/// Each statement is made of the trees of its forms and blocks.
pub fn statements_are_made_of_parts()
    ensures assign { (xs : List Var) (e : Term) (at : Place) → instr_trees (Assign xs e) at ≡ written script.Assign at.bound xs (form (shown e) true at) ∷ [] }
    ensures sample { (x : Var) (d : Term) (at : Place) → instr_trees (Sample x d) at ≡ written script.Sample at.bound (x ∷ []) (form (shown d) true at) ∷ [] }
    ensures call { (xs : List Var) (p : ProcRef) (ts : List Term) (at : Place) → instr_trees (Call xs p ts) at ≡ written script.AssignCall at.bound xs (call_tree p (forms (all_shown ts) at) at.bound) ∷ [] }
    ensures branch { (e : Term) (a b : Cmd) (at : Place) → instr_trees (If e a b) at ≡ tree script.If (form (shown e) true at ∷ list (cmd_trees a at) ∷ list (cmd_trees b at) ∷ []) ∷ [] }
    ensures repeated { (e v : Term) (a : Cmd) (at : Place) → instr_trees (While e v a) at ≡ tree script.While (form (shown e) true at ∷ loop (operand (shown v) false at) (cmd_trees a at) ∷ []) ∷ [] }
{}

/// What is printed of a form spells its tree, but for places, and no other; and where it is within 64 levels, it passes no
/// limit, so that [`gb_read_script::reading::form`] answers this tree, or that memory ran out. All this where the form's
/// names are names of the language, its numbers are in range, each head has its operands, and no block and no `glob` in a
/// type stands in it.
pub fn printed_forms_are_read()
    ensures { (ds : Declarations) (es : List Enumeration) (vs : List TypedName) (ms : List Name) (t : Term) →
        IsWritten 0 (place_of_form ds es vs ms) t → IsReadAs (printed_form ds es vs ms t) (form_tree t (place_of_form ds es vs ms)) }
{
    forms_are_unique();
}

/// What is printed of a goal spells its tree, but for places, and no other, and passes no limit, so that
/// [`gb_read_script::goal::goal`] answers this tree, or that memory ran out. All this where its names and forms are such,
/// here with blocks and `glob` in types too. A hypothesis whose text is that of a variable too, as `H : b`, may be read as
/// that.
pub fn printed_goals_are_read()
    ensures { (ds : Declarations) (es : List Enumeration) (s : Sequent) →
        IsWrittenGoal (place_of_goal ds es s) s → IsGoalReadAs (printed_goal ds es s) (place_of_goal ds es s) s }
{
    goals_are_unique();
    kinds_are_kinds();
}
