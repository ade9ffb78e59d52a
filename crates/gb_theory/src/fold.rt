// One command of a script.

ghost use Rattle.std.specs.Prelude.{◌≡◌, [], ◌∷◌, ◌++◌, drop, true, false, Some, None, Err, IfOk, OnOk};
ghost use Rattle.gb_core.specs.declared.place.Place.{Place as ScriptPlace};
ghost use Rattle.gb_core.specs.declared.refusal.Refused.TheVariants.{Script};
ghost use Rattle.gb_core.specs.declared.refusal.Why.{Why as ScriptWhy};
ghost use Rattle.std.specs.Option.{option_copied};
ghost use Rattle.gb_script.specs.Tree.{head_of, parts_of, place_of};
ghost use Rattle.gb_goal.specs.Answers.{Answers, Gives};
ghost use Rattle.gb_goal.specs.Binders.{with_declared_modules};
ghost use Rattle.gb_elab_mod.specs.Lemmas.{binders_in, lemma_name};
ghost use Rattle.gb_theory.specs.Built.{Session, OpenProof as Opened, lemmas_with, scope_with, seen_in, with_ended, with_goals};
ghost use Rattle.gb_theory.specs.Commands.{all_allowed, assumes, brings, declares, is_built_in, loops_opened, opens, opens_loops, requires_files, begun, ended, continued, InProof, Proves, WorksOn, ComesToOf, ComesTo};
ghost use Rattle.gb_state.specs.Opened.{is_new, is_undeclared};
ghost use Rattle.gb_loops.specs.Variants.{goals_of};
ghost use Rattle.gb_theory.specs.Sessions.{open_of, session_of, Meets, Leads, IsKept};

use crate::limits::{check_all, check_declarations, check_each, check_goal};
use crate::outcome_laws::rules_have_answers;
use crate::tactics::work;
use gb_core::SharedItems;
use gb_core::name::{Name, Names};
use gb_core::place::Place;
use gb_core::refusal::{Refused, Why};
use gb_elab_mod::binders::binders;
use gb_goal::binders::binder_entries;
use gb_goal::scope::{ProcName, Scope};
use gb_goal::sequent::{Sequent, Sequents};
use gb_loops::operand::operand;
use gb_loops::variants::goals_of;
use gb_script::head::Head;
use gb_script::tree::Node;
use gb_state::state::{Claim, OpenProof, State};
use gb_steps::goals::Goals;
use gb_terms::term::Instr;
use std::alloc::{AllocError, Global};
use std::slice::from_ref;

fn refused(why: Why, place: Place) -> Refused
    ensures { result ≡ Refused.Script why place }
{
    Refused::Script { why, place }
}

/// Runs the next command of a script. A refusal without a place of its own stands at the command's first word. A command
/// that is refused leaves the session as it was; where memory runs out nothing is said of it.
pub fn execute(alloc: Global, state: &mut State, command: &Node) -> Result<(), Refused>
    ensures session { Leads (ComesTo (session_of state.old) command.now) (session_of state.new) result }
    ensures kept { IsKept (session_of state.old) (session_of state.new) result }
{
    match dispatch(
        alloc,
        state,
        command,
        command.head,
        command.parts.as_slice(),
    ) {
        Ok(()) => Ok(()),
        Err(refused) => Err(refused.placed(command.place)),
    }
}

/// Runs a command by its head and its parts.
fn dispatch(
    alloc: Global,
    state: &mut State,
    command: &Node,
    head: Head,
    parts: &[Node],
) -> Result<(), Refused>
    requires { parts.now ≡ parts_of command.now }
    ensures session { Leads (ComesToOf (session_of state.old) command.now head parts.now) (session_of state.new) result }
    ensures kept { IsKept (session_of state.old) (session_of state.new) result }
{
    match head {
        Head::Require => match parts {
            [_, names] => require_files(state, names.parts.as_slice(), command.place),
            _ => Err(refused(Why::Syntax, command.place)),
        },
        Head::TypeDeclaration | Head::OperatorDeclaration | Head::ModuleType => {
            declare(alloc, state, command, command.place)
        }
        Head::Axiom => assume(state, command.place),
        Head::Module => declare_module(alloc, state, command, command.place),
        Head::AscribedModule => declare_module(alloc, state, command, command.place),
        Head::Lemma => match parts {
            [name, ..] => open_lemma(alloc, state, command, &name.text, command.place),
            [] => Err(refused(Why::Syntax, command.place)),
        },
        Head::Termination => match parts {
            [path] => open_loops(alloc, state, path, command.place),
            _ => Err(refused(Why::Syntax, command.place)),
        },
        Head::Proof => begin_proof(state, command.place),
        Head::Qed => close_proof(alloc, state, command.place),
        Head::Tactic => match parts {
            [step, ..] => prove(alloc, state, command, step.place),
            [] => Err(refused(Why::Syntax, command.place)),
        },
        // no section and no theory can be opened yet
        Head::Local | Head::Declare | Head::EndSection | Head::EndTheory => {
            Err(refused(Why::NoGoal, command.place))
        }
        _ => Err(refused(Why::Syntax, command.place)),
    }
}

/// Files of the standard library bring nothing; others aren't built yet.
fn require_files(state: &State, names: &[Node], place: Place) -> Result<(), Refused>
    ensures { Gives (λ _. session_of state.now) (requires_files (session_of state.now) names.now place) result }
{
    if state.proof.is_some() {
        return Err(refused(Why::NoGoal, place));
    }
    for name in names {
        if !is_built_in(&name.text) {
            return Err(refused(Why::Syntax, name.place));
        }
    }
    Ok(())
}

/// A file of the standard library whose operators are in scope anyhow.
fn is_built_in(name: &Name) -> bool
    ensures { result ≡ is_built_in name.now }
{
    let name = name.as_str();
    name == "AllCore"
        || name == "Distr"
        || name == "FMap"
        || name == "Bool"
        || name == "Int"
        || name == "Real"
        || name == "DBool"
}

/// An axiom stands in abstract theories alone, of which none can be opened yet.
fn assume(state: &State, place: Place) -> Result<(), Refused>
    ensures { Gives (λ _. session_of state.now) (assumes (session_of state.now) place) result }
{
    if state.proof.is_some() {
        return Err(refused(Why::NoGoal, place));
    }
    Err(refused(Why::LeftOut, place))
}

/// A type, with its constants, an operator or a module type is declared.
fn declare(alloc: Global, state: &mut State, tree: &Node, place: Place) -> Result<(), Refused>
    ensures session { Gives (λ _. session_of state.new) (brings (session_of state.old) tree.now place) result }
    ensures kept { IsKept (session_of state.old) (session_of state.new) result }
{
    if state.proof.is_some() {
        return Err(refused(Why::NoGoal, place));
    }
    let added = gb_elab_prog::entries::entries(alloc, &state.scope, tree)?;
    check_declarations(&state.scope, place)?;
    state.scope.declare_all(alloc, added)?;
    Ok(())
}

/// A declaration stands outside proofs.
fn declare_module(
    alloc: Global,
    state: &mut State,
    tree: &Node,
    place: Place,
) -> Result<(), Refused>
    ensures session { Gives (λ _. session_of state.new) (declares (session_of state.old) tree.now place) result }
    ensures kept { IsKept (session_of state.old) (session_of state.new) result }
{
    if state.proof.is_some() {
        return Err(refused(Why::NoGoal, place));
    }
    let module = gb_elab_prog::module::module(alloc, &state.scope, tree)?;
    check_declarations(&state.scope, place)?;
    state.scope.declare_module(alloc, module)?;
    Ok(())
}

/// A lemma of this name opens its proof, with its statement as the one goal.
fn open_lemma(
    alloc: Global,
    state: &mut State,
    tree: &Node,
    name: &Name,
    place: Place,
) -> Result<(), Refused>
    requires { lemma_name tree.now ≡ name.now }
    ensures session { Gives (λ _. session_of state.new) (opens (session_of state.old) tree.now name.now place) result }
    ensures kept { IsKept (session_of state.old) (session_of state.new) result }
{
    if state.proof.is_some() {
        return Err(refused(Why::NoGoal, place));
    }
    let statement = gb_elab_mod::lemma::statement(alloc, &mut state.scope, tree)?;
    check_declarations(&state.scope, place)?;
    check_goal(&statement, place)?;
    let proof = opened(alloc, tree, name, statement)?;
    state.proof = Some(proof);
    Ok(())
}

/// The proof of a lemma before its first step.
fn opened(
    alloc: Global,
    tree: &Node,
    name: &Name,
    statement: Sequent,
) -> Result<OpenProof, AllocError>
    ensures { IfOk result (λ p. p ≡ record { claim = Claim.Lemma name.now statement (binders_in tree.now); goals = with_declared_modules statement ∷ []; fresh = true }) }
{
    let binders = binders(alloc, tree)?;
    let goals = one_goal(alloc, &statement)?;
    let name = name.copy(alloc)?;
    let claim = Claim::Lemma {
        name,
        statement,
        binders,
    };
    Ok(OpenProof {
        claim,
        goals,
        fresh: true,
    })
}

/// The goal of a lemma, whose modules are declared while steps run.
fn one_goal(alloc: Global, statement: &Sequent) -> Result<Goals, AllocError>
    ensures { IfOk result (λ made. made ≡ with_declared_modules statement.now ∷ []) }
{
    let mut goals = Goals::new(alloc);
    let none = SharedItems::empty(alloc)?;
    goals.push(statement.with_modules(none)?)?;
    Ok(goals)
}

/// `termination` opens the proof that the loops of a procedure end, with two goals for each of them.
fn open_loops(alloc: Global, state: &mut State, path: &Node, place: Place) -> Result<(), Refused>
    ensures session { Gives (λ _. session_of state.new) (opens_loops (session_of state.old) path.now place) result }
    ensures kept { IsKept (session_of state.old) (session_of state.new) result }
{
    if state.proof.is_some() {
        return Err(refused(Why::NoGoal, place));
    }
    let proof = loops_opened(alloc, &state.scope, path, place)?;
    state.proof = Some(proof);
    Ok(())
}

/// The proof that the loops of a procedure end, before its first step.
fn loops_opened(
    alloc: Global,
    scope: &Scope,
    path: &Node,
    place: Place,
) -> Result<OpenProof, Refused>
    ensures loops { Gives open_of (loops_opened scope.now path.now place) result }
    ensures undeclared { IfOk result (λ p. is_undeclared scope.now (Some p) ≡ true) }
{
    let found = operand(alloc, scope, path)?;
    let goals = loop_goals(alloc, found.procedure.body.list.as_slice(), place)?;
    Ok(OpenProof {
        claim: Claim::Loops(found.name),
        goals,
        fresh: true,
    })
}

/// The goals of the loops of a program, where they pass no limit.
fn loop_goals(alloc: Global, list: &[Instr], place: Place) -> Result<Goals, Refused>
    ensures { Answers (all_allowed place (goals_of list.now)) result }
{
    let list = goals_of(alloc, list)?;
    check_each(list.as_slice(), place)?;
    let mut goals = Goals::new(alloc);
    check_all(list.as_slice(), &goals, place)?;
    goals.replace_first(list)?;
    Ok(goals)
}

/// `proof` follows what opened it at once.
fn begin_proof(state: &mut State, place: Place) -> Result<(), Refused>
    ensures session { Leads (InProof (session_of state.old).proof place (λ p r. r ≡ begun (session_of state.old) p place))
        (session_of state.new) result }
    ensures kept { IsKept (session_of state.old) (session_of state.new) result }
{
    match &mut state.proof {
        Some(proof) if proof.fresh => {
            proof.fresh = false;
            Ok(())
        }
        _ => Err(refused(Why::NoGoal, place)),
    }
}

/// `qed` brings what is proved into scope where no goal is left.
fn close_proof(alloc: Global, state: &mut State, place: Place) -> Result<(), Refused>
    ensures session { Leads
        (InProof (session_of state.old).proof place (λ p r. r ≡ ended p.goals (session_of state.old) p place))
        (session_of state.new) result }
    ensures kept { IsKept (session_of state.old) (session_of state.new) result }
{
    let Some(proof) = state.proof.take() else {
        return Err(refused(Why::NoGoal, place));
    };
    if !proof.goals.is_empty() {
        let left = proof.goals.len() as u64;
        state.proof = Some(proof);
        return Err(refused(Why::OpenGoals(left), place));
    }
    let OpenProof { claim, .. } = proof;
    bring_in(alloc, &mut state.scope, &mut state.lemmas, claim)?;
    Ok(())
}

/// Declares what is proved; a lemma is listed too.
fn bring_in(
    alloc: Global,
    scope: &mut Scope,
    lemmas: &mut Names,
    claim: Claim,
) -> Result<(), AllocError>
    requires { is_new scope.old claim ≡ true }
    ensures declared { OnOk result (scope.new ≡ scope_with scope.old claim) }
    ensures listed { OnOk result (lemmas.new ≡ lemmas_with lemmas.old claim) }
{
    match claim {
        Claim::Lemma {
            name,
            statement,
            binders,
        } => {
            let listed = name.copy(alloc)?;
            lemmas.push(listed)?;
            scope.declare_lemma(alloc, name, statement, binders)
        }
        Claim::Loops(procedure) => bring_loops(alloc, scope, procedure),
    }
}

/// Declares that the loops of a procedure end, unless that is declared.
fn bring_loops(alloc: Global, scope: &mut Scope, procedure: ProcName) -> Result<(), AllocError>
    ensures { OnOk result (scope.new ≡ with_ended scope.old procedure) }
{
    let path = procedure.path(alloc)?;
    if !scope.is_free(&path) {
        return Ok(());
    }
    scope.declare_proved(alloc, procedure)
}

/// A tactic works on the first goal, and puts what is left of it in front of the others. Where it is refused the proof stays as
/// it was; where memory runs out it is given up.
fn prove(alloc: Global, state: &mut State, tree: &Node, place: Place) -> Result<(), Refused>
    ensures session { Leads (Proves (session_of state.old) tree.now place) (session_of state.new) result }
    ensures kept { IsKept (session_of state.old) (session_of state.new) result }
{
    let Some(proof) = state.proof.take() else {
        return Err(refused(Why::NoGoal, place));
    };
    match left_of(alloc, &mut state.scope, &proof, tree, place) {
        Ok(next) => {
            let proof = stepped(proof, next)?;
            state.proof = Some(proof);
            Ok(())
        }
        Err(refused) if refused.is_script() => {
            state.proof = Some(proof);
            Err(refused)
        }
        // nothing is said of the scope, so no proof is open in it
        Err(refused) => Err(refused),
    }
}

/// The proof with these goals in the place of the first one.
fn stepped(proof: OpenProof, next: Sequents) -> Result<OpenProof, AllocError>
    ensures { IfOk result (λ p. p ≡ record proof { goals = next ++ drop 1 proof.goals; fresh = false }) }
{
    let OpenProof {
        claim,
        mut goals,
        ..
    } = proof;
    goals.replace_first(next)?;
    Ok(OpenProof {
        claim,
        goals,
        fresh: false,
    })
}

/// The goals that a tactic puts in the place of the first one, while the modules that the lemma binds are declared. Then the scope is as
/// it was; where memory ran out nothing is said of it.
fn left_of(
    alloc: Global,
    scope: &mut Scope,
    proof: &OpenProof,
    tree: &Node,
    place: Place,
) -> Result<Sequents, Refused>
    requires { is_new scope.old proof.now.claim ≡ true }
    ensures answer { (s : Session) → s.scope ≡ scope.old → Meets (λ next. with_goals s (open_of proof.now) (next ++ drop 1 proof.now.goals))
        (WorksOn proof.now.goals s (open_of proof.now) tree.now place) result }
    ensures kept { OnOk result (scope.new ≡ scope.old) }
    ensures refused { (why : ScriptWhy) (place : ScriptPlace) → result ≡ Err (Script why place) → scope.new ≡ scope.old }
{
    let declared = scope.len();
    let modules = binder_entries(alloc, proof.claim.modules())?;
    scope.declare_all(alloc, modules)?;
    let next = subgoals(alloc, scope, &proof.goals, tree, place);
    scope.truncate(declared);
    next
}

/// The goals that a tactic puts in the place of the first one.
fn subgoals(
    alloc: Global,
    scope: &Scope,
    goals: &Goals,
    tree: &Node,
    place: Place,
) -> Result<Sequents, Refused>
    ensures { (s : Session) (p : Opened) → seen_in s.scope p.claim ≡ scope.now
        → Meets (λ next. with_goals s p (next ++ drop 1 goals.now)) (WorksOn goals.now s p tree.now place) result }
{
    let Some(first) = goals.get(0) else {
        return Err(refused(Why::NoGoal, place));
    };
    rules_have_answers();
    let next = work(alloc, scope, tree, from_ref(first))?;
    within_limits(next, goals, place)
}

/// The goals that are left of the first one, where they pass no limit with the others.
fn within_limits(next: Sequents, goals: &Goals, place: Place) -> Result<Sequents, Refused>
    ensures { (s : Session) (p : Opened) → Gives (λ qs. with_goals s p (qs ++ drop 1 goals.now))
        (continued s p (drop 1 goals.now) place next) result }
{
    check_all(next.as_slice(), goals, place)?;
    Ok(next)
}
