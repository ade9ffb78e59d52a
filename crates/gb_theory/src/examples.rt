//! What commands come to where no proof is open.

ghost use Rattle.std.specs.Prelude.{◌≡◌, None};
ghost use Rattle.gb_core.specs.declared.refusal.Why.TheVariants.{NoGoal};
ghost use Rattle.gb_script.specs.declared.head.Head.TheVariants.{Proof, Qed};
ghost use Rattle.gb_script.specs.declared.tree.Node.{Node};
ghost use Rattle.gb_script.specs.Tree.{head_of, place_of};
ghost use Rattle.gb_goal.specs.Answers.Answer.{refused};
ghost use Rattle.gb_theory.specs.Built.{Session};
ghost use Rattle.gb_theory.specs.Commands.{ComesTo};

/// `proof` and `qed` are refused where no proof is open, at their first word.
pub fn no_proof_is_open()
    ensures proof { (s : Session) (c : Node) → s.proof ≡ None → head_of c ≡ Proof → ComesTo s c (refused NoGoal (place_of c)) }
    ensures qed { (s : Session) (c : Node) → s.proof ≡ None → head_of c ≡ Qed → ComesTo s c (refused NoGoal (place_of c)) }
{}
