//! Scripts that are well typed, forms that aren't, and a functor with an argument.

ghost use Rattle.std.specs.Prelude.{◌≡◌, [], ◌∷◌, None, Some};
ghost use Rattle.gb_core.specs.declared.var.Var.TheVariants.{Local};
ghost use Rattle.gb_terms.specs.declared.decl.Proc.{Proc};
ghost use Rattle.gb_terms.specs.declared.module.Mexp.TheVariants.{Name as named, Apply};
ghost use Rattle.gb_terms.specs.declared.term.Head.TheVariants.{Call};
ghost use Rattle.gb_goal.specs.Scope.{proc_of};
ghost use Rattle.gb_meaning.specs.HoldingExamples.{game, game_with_keeper, game_name, keeper_name, main_name, oracle_name, oracle_and_adversary, nothing_said, reply, true_literal};
ghost use Rattle.gb_meaning.specs.Idling.{idling_is_proved};
ghost use Rattle.gb_typing.specs.Context.{procedure};
ghost use Rattle.gb_typing.specs.Typing.{IsForm};
ghost use Rattle.gb_typing.specs.Programs.{IsProcedure};
ghost use Rattle.gb_typing.specs.Sequents.{IsTypedSequent};
ghost use Rattle.gb_typing.specs.Formulas.{IsFormula};
ghost use Rattle.gb_goal.specs.Instances.{instance, put_in, stands_for};
ghost use Rattle.gb_typing.specs.Scopes.{context_of, IsModule, IsTypedScope};
ghost use Rattle.gb_typing.specs.Examples.{games, result_of_game, nothing_said_of_each, shadowing_name, shadowing, game_with_parameter, two_params, exchanged, one_of_other};

/// Module types, a module with a global and a functor are a typed scope. The functor has a procedure where its argument has those
/// that the parameter's module type asks for, and none without an argument, or with itself for one.
pub fn functor_with_argument()
    ensures scope { IsTypedScope games }
    ensures given { procedure (context_of games) (record { «module» = game_with_keeper; name = main_name }) ≡ Some result_of_game }
    ensures lacking { procedure (context_of games) (record { «module» = named game_name; name = main_name }) ≡ None }
{}

/// A functor whose parameter has the name of a module that is declared is none: programs are found by their names.
pub fn parameter_named_like_a_module()
    ensures { IsModule (context_of games) shadowing_name shadowing → ⊥ }
{}

/// A module with a loop, and that the loop is proved, are a typed scope.
pub fn loop_without_turns()
    ensures { IsTypedScope idling_is_proved }
{}

/// A lemma on every program of a module type is typed. Its quantifier stands in front of a formula, and in no form. The name that it
/// binds is a number in digits: with a name of a script it is no formula.
pub fn lemma_of_each_program()
    ensures formula { IsTypedSequent (context_of oracle_and_adversary) nothing_said_of_each }
    ensures no_form { IsForm (context_of oracle_and_adversary) nothing_said_of_each.conclusion → ⊥ }
    ensures no_name_of_a_script { IsFormula (context_of oracle_and_adversary) nothing_said.conclusion → ⊥ }
{}

/// `G(S).f`, where G calls O.o of its parameter O, calls S.o, and is typed.
pub fn game_of_keeper()
    ensures typed { (p : Proc) → proc_of game.procs main_name ≡ Some p → IsProcedure (context_of games) (instance game.params (named keeper_name ∷ []) p) }
    ensures calls { (p : Proc) → proc_of game.procs main_name ≡ Some p → (instance game.params (named keeper_name ∷ []) p).body.list ≡
        Call (Local reply ∷ []) (record { «module» = named keeper_name; name = oracle_name }) (true_literal ∷ []) ∷ [] }
{
    functor_with_argument();
}

/// A functor calls its own procedures as `G(O).f`, which become `G(S).f`. Arguments are put in all at once: parameters X and Y for which
/// the modules Y and X are given change places.
pub fn arguments_at_once()
    ensures own { put_in (stands_for game.params (named keeper_name ∷ [])) game_with_parameter ≡ Apply game_name (named keeper_name ∷ []) }
    ensures exchanged { put_in (stands_for two_params exchanged) one_of_other ≡ Apply (89 ∷ []) (named (88 ∷ []) ∷ []) }
{}
