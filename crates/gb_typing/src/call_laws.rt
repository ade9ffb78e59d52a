//! Laws of procedures: where their bodies start, how they run, and what comes out of them.

ghost use Rattle.std.specs.Prelude.{◌≡◌, [], ◌∷◌, Some};
ghost use Rattle.gb_dist.specs.WeightedList.{dmap};
ghost use Rattle.gb_terms.specs.declared.decl.Proc.{Proc};
ghost use Rattle.gb_terms.specs.declared.module.ProcRef.{ProcRef};
ghost use Rattle.gb_terms.specs.declared.op.Side.TheVariants.{Own, Left, Right};
ghost use Rattle.gb_terms.specs.declared.term.Term.{Term};
ghost use Rattle.gb_walk.specs.Change.{term_changed};
ghost use Rattle.gb_meaning.specs.Commands.{statements};
ghost use Rattle.gb_meaning.specs.Memory.{Memory};
ghost use Rattle.gb_meaning.specs.Program.Routine.{routine};
ghost use Rattle.gb_meaning.specs.Setting.{Setting};
ghost use Rattle.gb_meaning.specs.State.{State, at, between};
ghost use Rattle.gb_meaning.specs.Judgments.{Judge, IsFair, den};
ghost use Rattle.gb_typing.specs.Context.{Context, with_own, with_sides};
ghost use Rattle.gb_typing.specs.Fits.{IsSettingOf};
ghost use Rattle.gb_typing.specs.Programs.{IsProcedure, locals_of};
ghost use Rattle.gb_typing.specs.Typing.{IsForm};
ghost use Rattle.gb_goal.specs.Goal.Code.{procedure};
ghost use Rattle.gb_typing.specs.Calls.{start, ended, result_of, returned};
ghost use Rattle.gb_typing.specs.Meaning.{run, denominator, run_of, denominator_of};
ghost use Rattle.gb_typing.specs.Rules.{outermost};

/// The run of a procedure that is its body in a setting is the run of the body from where it starts, with its result.
pub fn runs()
    ensures run { (c : Context) (g : Setting) (r : ProcRef) (p : Proc) → IsProcedure c p →
        g.procedure r ≡ Some (routine p.params p.locals (statements g p.body.list) p.value) → (s : State) (m : Memory) →
        run_of g s (procedure r) m ≡ dmap (ended g p) (run g s p.body.list (start g p m)) }
    ensures denominator { (c : Context) (g : Setting) (r : ProcRef) (p : Proc) → IsProcedure c p →
        g.procedure r ≡ Some (routine p.params p.locals (statements g p.body.list) p.value) → denominator_of g (procedure r) ≡ denominator g p.body.list }
{}

/// What is said of the parameters of one procedure, or of two, is a form on their locals, and says the same where their bodies start.
pub fn parameters()
    ensures one_typed { (c : Context) (p : Proc) (f : Term) → IsForm (with_own c (Some p.params)) f → IsForm (with_own c (Some (locals_of p))) f }
    ensures one { (c : Context) (g : Setting) → IsSettingOf c g → (j : Judge) → IsFair g j → (s : State) (p : Proc) (f : Term) →
        IsForm (with_own c (Some p.params)) f → (m : Memory) → den g j f (at s m) ≡ den g j f (at s (start g p m)) }
    ensures pair_typed { (c : Context) (a b : Proc) (f : Term) → IsForm (with_sides c (Some a.params) (Some b.params)) f →
        IsForm (with_sides c (Some (locals_of a)) (Some (locals_of b))) f }
    ensures pair { (c : Context) (g : Setting) → IsSettingOf c g → (j : Judge) → IsFair g j → (s : State) (a b : Proc) (f : Term) →
        IsForm (with_sides c (Some a.params) (Some b.params)) f → (m n : Memory) →
        den g j f (between s m n) ≡ den g j f (between s (start g a m) (start g b n)) }
{}

/// What is said of the result of one procedure, or of two, with the terms that they return in the place of results, is a form on their
/// locals, and says where their bodies end what is said of the outcomes.
pub fn results()
    ensures one_typed { (c : Context) → c ≡ outermost c → (p : Proc) (f : Term) → IsProcedure c p →
        IsForm (with_own c (Some (result_of p))) f →
        IsForm (with_own c (Some (locals_of p))) (term_changed f (returned Own p ∷ [])) }
    ensures one { (c : Context) → c ≡ outermost c → (g : Setting) (j : Judge) → IsFair g j → (s : State) (m : Memory) (p : Proc) (f : Term) →
        IsSettingOf c g → IsProcedure c p →
        IsForm (with_own c (Some (result_of p))) f →
        den g j (term_changed f (returned Own p ∷ [])) (at s m) ≡ den g j f (at s (ended g p m)) }
    ensures pair_typed { (c : Context) → c ≡ outermost c → (p q : Proc) (f : Term) → IsProcedure c p → IsProcedure c q →
        IsForm (with_sides c (Some (result_of p)) (Some (result_of q))) f →
        IsForm (with_sides c (Some (locals_of p)) (Some (locals_of q)))
        (term_changed f (returned Left p ∷ returned Right q ∷ [])) }
    ensures pair { (c : Context) → c ≡ outermost c → (g : Setting) (j : Judge) → IsFair g j → (s : State) (m n : Memory) (p q : Proc) (f : Term) →
        IsSettingOf c g → IsProcedure c p → IsProcedure c q →
        IsForm (with_sides c (Some (result_of p)) (Some (result_of q))) f →
        den g j (term_changed f (returned Left p ∷ returned Right q ∷ []))
        (between s m n) ≡ den g j f (between s (ended g p m) (ended g q n)) }
{}
