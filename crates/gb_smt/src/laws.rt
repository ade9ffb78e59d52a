// What the truth of a claim under an assignment means, and that `smt` has one answer to all leaves.

ghost use Rattle.std.specs.Prelude.{◌≡◌, ◌↔◌, true, false, Option, List};
ghost use Rattle.std.specs.List.{Any};
ghost use Rattle.gb_core.specs.declared.refusal.Why.{Why};
ghost use Rattle.gb_core.specs.declared.value.Value.{Value};
ghost use Rattle.gb_meaning.specs.Setting.{Setting};
ghost use Rattle.gb_meaning.specs.Meanings.{truth};
ghost use Rattle.gb_meaning.specs.State.{State};
ghost use Rattle.gb_meaning.specs.Terms.{Speaks, val};
ghost use Rattle.gb_goal.specs.Scope.{Declarations};
ghost use Rattle.gb_eval.specs.Findings.Comes.{found};
ghost use Rattle.gb_eval.specs.Eval.{operators_of};
ghost use Rattle.gb_eval.specs.Meant.{AreOperators};
ghost use Rattle.gb_mods.specs.Exclusions.{exclusions};
ghost use Rattle.gb_labels.specs.Memories.{AreKeptApart};
ghost use Rattle.gb_smt.specs.declared.claims.Claim.{Claim};
ghost use Rattle.gb_smt.specs.declared.leaves.Leaf.{Leaf};
ghost use Rattle.gb_smt.specs.declared.assign.Found.{Found};
ghost use Rattle.gb_smt.specs.declared.apply.Tried.TheVariants.{Closed};
ghost use Rattle.gb_smt.specs.Assign.{truth_under, found_of, IsOf};
ghost use Rattle.gb_smt.specs.Apply.{Closes, outcome_of, IsAnswerOf};
ghost use Rattle.gb_smt.specs.Meant.{AreTrue, HasValues, IsJudgedClaim};

/// In each setting whose operators are those of the script, and in each state where the variables of a claim have the values of an
/// assignment, and quantifiers over memories say what they say, and variables that don't clash are kept apart: if the claim is true under it and the hypotheses are true in the
/// state, so is the conclusion; if it is false under it, the hypotheses are true and the conclusion is false.
pub fn claims_are_read_right()
    ensures holds { (ds : Declarations) (g : Setting) → AreOperators g (operators_of ds) → AreKeptApart (exclusions ds) g.types → (j : Speaks) (s : State) (c : Claim) (values : List Value) →
        HasValues g s c values → IsJudgedClaim g j c → truth_under ds c values ≡ found true → AreTrue g j s c.hyps → truth (val g j c.conclusion s) ≡ true }
    ensures fails { (ds : Declarations) (g : Setting) → AreOperators g (operators_of ds) → AreKeptApart (exclusions ds) g.types → (j : Speaks) (s : State) (c : Claim) (values : List Value) →
        HasValues g s c values → IsJudgedClaim g j c → truth_under ds c values ≡ found false → AreTrue g j s c.hyps × (truth (val g j c.conclusion s) ≡ false) }
{}

/// Trying the assignments of a claim finds that it is true exactly where it is so under each, and that it is false, unknown
/// or out of range exactly where it is so under the first assignment under which it isn't true. It is unknown too where there are
/// too many assignments.
pub fn findings_are_exact()
    ensures { (ds : Declarations) (c : Claim) (f : Found) → found_of ds c ≡ f ↔ IsOf ds c f }
{}

/// Trying claims closes their leaf exactly where one of them, of a width that is tried, is true under every assignment for each choice
/// of numbers of labels.
pub fn closing_is_exact()
    ensures { (ds : Declarations) (claims : List Claim) → outcome_of ds claims ≡ Closed ↔ Any (Closes ds) claims }
{}

/// There is one answer to leaves.
pub fn there_is_one_answer()
    ensures { (ds : Declarations) (leaves : List Leaf) (a b : Option Why) → IsAnswerOf ds leaves a → IsAnswerOf ds leaves b → a ≡ b }
{}

/// Each list of leaves has an answer: all are closed, or why the first that isn't isn't.
pub fn there_is_an_answer()
    ensures { (ds : Declarations) (leaves : List Leaf) → (a : Option Why) × IsAnswerOf ds leaves a }
{}
