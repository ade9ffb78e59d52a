//! What `unroll`, `rcondt` and `rcondf` leave of the runs of a body: each event is as likely before the step and after it.

ghost use Rattle.std.specs.Prelude.{◌≡◌, ℕ, ◌*◌, ◌++◌, Bool, List, Some};
ghost use Rattle.gb_dist.specs.WeightedList.{weight};
ghost use Rattle.gb_terms.specs.declared.decl.TypedName.{TypedName};
ghost use Rattle.gb_terms.specs.declared.term.Instr.{Instr, out-Instr};
ghost use Rattle.gb_terms.specs.declared.term.Term.{Term};
ghost use Rattle.gb_meaning.specs.Commands.{statements};
ghost use Rattle.gb_meaning.specs.Judgments.{IsTrueUnder, Judge};
ghost use Rattle.gb_meaning.specs.Memory.{Memory};
ghost use Rattle.gb_meaning.specs.Setting.{Setting};
ghost use Rattle.gb_meaning.specs.State.{State, at};
ghost use Rattle.gb_goal.specs.Answers.Answer.{given};
ghost use Rattle.gb_goal.specs.Goal.Code.{body};
ghost use Rattle.gb_goal.specs.Goal.Goal.{hoare};
ghost use Rattle.gb_meaning.specs.Holds.{LoopsAreGood};
ghost use Rattle.gb_typing.specs.Context.{Context};
ghost use Rattle.gb_typing.specs.Fits.{IsSettingOf};
ghost use Rattle.gb_typing.specs.Meaning.{Stands, denominator, run};
ghost use Rattle.gb_typing.specs.Programs.{IsBody};
ghost use Rattle.gb_trans.specs.Places.{At, statement_at};
ghost use Rattle.gb_forms.specs.Decided.{deciding};
ghost use Rattle.gb_trans.specs.Decided.{Decision, decision};
ghost use Rattle.gb_trans.specs.Unrolled.{unrolled};

/// After `unroll` a typed body gives each event the same probability as before, from each memory, where its loops end.
pub fn unrolled_events()
    ensures { (c : Context) (g : Setting) → IsSettingOf c g → (n : ℕ) (is js : List Instr) → unrolled n is ≡ given js →
        (ls : List TypedName) → IsBody c ls is → LoopsAreGood g (statements g is) → (s : State) (m : Memory) (event : Memory → Bool) →
        weight (run g s js m) event * denominator g is ≡ weight (run g s is m) event * denominator g js }
{}

/// After `rcondt` and `rcondf` a typed body gives each event the same probability as before, where its loops end and the judgment of the
/// guard holds, from each memory of which its precondition p is true. The judgment holds in a state z, which for one of two programs has a
/// memory more than the state s in which the body runs.
pub fn decided_events()
    ensures { (c : Context) (g : Setting) → IsSettingOf c g → (n : ℕ) (t : Bool) (k : At) (d : Decision) (is : List Instr) →
        statement_at n is ≡ Some k → decision t k.statement (out-Instr k.statement) ≡ Some d →
        (ls : List TypedName) → IsBody c ls is → LoopsAreGood g (statements g is) → (j : Judge) (p : Term) (s z : State) →
        Stands g j z (hoare (body k.before) p (deciding t d.guard)) → (m : Memory) → IsTrueUnder g j p (at z m) → (event : Memory → Bool) →
        weight (run g s (k.before ++ (d.left ++ k.rest)) m) event * denominator g is ≡
        weight (run g s is m) event * denominator g (k.before ++ (d.left ++ k.rest)) }
{}
