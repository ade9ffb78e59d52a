// The functions of `rnd`.

ghost use Rattle.std.specs.Prelude.{◌≡◌, ◌∷◌};
ghost use Rattle.std.specs.Option.{option_copied, option_map};
ghost use Rattle.gb_terms.specs.declared.term.Term.{out-Term};
ghost use Rattle.gb_goal.specs.Answers.{Answers, ◌>>=◌ as ◌and_then◌};
ghost use Rattle.gb_goal.specs.Answers.Answer.{given};
ghost use Rattle.gb_names.specs.Environment.{environment};
ghost use Rattle.gb_elab_mod.specs.OnPrograms.{bodies, coupling_rule, couplings, drawing_rule, functions, functions_of, is_apply, judges_chance, last_sampled, one_type, there_and_back};

use crate::occurring::occurring;
use gb_core::Shared;
use gb_core::refusal::Refused;
use gb_core::same::same_types;
use gb_core::ty::Ty;
use gb_elab::form::function;
use gb_goal::scope::Scope;
use gb_goal::sequent::Sequent;
use gb_names::refusals::mismatch;
use gb_names::setting::Setting;
use gb_operators::literals::place_inside;
use gb_script::head;
use gb_script::tree::Node;
use gb_steps::step::{Acts, BodyRule, ChanceRule, RelationalRule, Rule};
use gb_terms::op::Side;
use gb_terms::term::{Cmd, Form, Head, Instr, Subject, Term, Terms};
use sqlite_items::Items;
use std::alloc::Global;

fn is_apply(head: head::Head) -> bool
    ensures { result ≡ is_apply head }
{
    match head {
        head::Head::Apply => true,
        _ => false,
    }
}

/// The functions of `rnd`: two stand as a function and its argument.
pub fn functions_of(forms: &[Node]) -> &[Node]
    ensures { result.now ≡ functions_of forms.now }
{
    match forms {
        [both] if is_apply(both.head) => both.parts.as_slice(),
        _ => forms,
    }
}

/// The bodies of an equivalence of two bodies.
fn bodies(conclusion: &Form) -> Option<(&Cmd, &Cmd)>
    ensures { option_map (λ p. (p.0.now, p.1.now)) result ≡ bodies conclusion.now }
{
    match conclusion.head.get() {
        Head::Equiv(Subject::Body(left), Subject::Body(right)) => Some((left, right)),
        _ => None,
    }
}

/// The type of the variable that a body's last statement samples.
fn last_sampled(body: &Cmd) -> Option<&Shared<Ty>>
    ensures { option_copied result ≡ last_sampled body.now }
{
    match body.list.as_slice().last() {
        Some(Instr::Sample(_, from)) => match from.ty.get() {
            Ty::Distr(outcomes) => Some(outcomes),
            _ => None,
        },
        _ => None,
    }
}

/// Refuses one function between two types: it leads there and back.
fn refuse_one_way(functions: &[Node], from: &Ty, to: &Ty) -> Result<(), Refused>
    ensures { Answers (one_type functions.now from.now to.now) result }
{
    match functions {
        [f] => {
            if same_types(from, to) {
                Ok(())
            } else {
                Err(mismatch(place_inside(f)))
            }
        }
        _ => Ok(()),
    }
}

/// Whether a form is a judgment with a probability.
fn judges_chance(conclusion: &Form) -> bool
    ensures { result ≡ judges_chance (out-Term conclusion.now).head }
{
    match conclusion.head.get() {
        Head::Phoare(..) => true,
        _ => false,
    }
}

/// `rnd` with its functions; those that have no types at a goal don't fit it.
fn coupling_rule(conclusion: &Form, functions: &[Node], typed: Terms) -> Rule
    ensures { result ≡ coupling_rule (judges_chance (out-Term conclusion.now).head) functions.now typed }
{
    if functions.is_empty() && judges_chance(conclusion) {
        return Rule::Chance(ChanceRule::Rnd);
    }
    if !functions.is_empty() && typed.is_empty() {
        return Rule::OnBodies(BodyRule::Unfit);
    }
    Rule::Relational(RelationalRule::Rnd(typed))
}

/// The typed functions of `rnd`: the first leads from the left outcome to the right one, the second back.
#[tactic(auto, unfolding(crate::specs::OnPrograms::couplings))]
fn couplings(
    alloc: Global,
    scope: &Scope,
    s: &Sequent,
    functions: &[Node],
) -> Result<Terms, Refused>
    ensures { Answers (couplings scope.now s.now functions.now) result }
{
    let Some((left, right)) = bodies(&s.conclusion) else {
        return Ok(Items::new(alloc));
    };
    let (Some(from), Some(to)) = (last_sampled(left), last_sampled(right)) else {
        return Ok(Items::new(alloc));
    };
    refuse_one_way(functions, from.get(), to.get())?;
    let conditions = s.conclusion.args.as_slice();
    let on_left = occurring(alloc, scope, conditions, Side::Left, left.list.as_slice())?;
    let on_right = occurring(alloc, scope, conditions, Side::Right, right.list.as_slice())?;
    let at = Setting::function(scope, s, on_left.as_slice(), on_right.as_slice());
    there_and_back(alloc, &at, functions, from, to)
}

/// `rnd` on the programs on which a step acts. A function is one between samplings of both, and fits no side.
#[tactic(auto, unfolding(crate::specs::OnPrograms::drawing_rule))]
pub fn drawing_rule(
    alloc: Global,
    scope: &Scope,
    goal: &Sequent,
    acts: Acts,
    functions: &[Node],
) -> Result<Rule, Refused>
    ensures { Answers (drawing_rule scope.now goal.now acts functions.now) result }
{
    match (acts, functions) {
        (Acts::All, _) => {
            let typed = couplings(alloc, scope, goal, functions)?;
            Ok(coupling_rule(&goal.conclusion, functions, typed))
        }
        (_, []) => Ok(Rule::Relational(RelationalRule::Drawn(acts))),
        _ => Ok(Rule::OnBodies(BodyRule::Unfit)),
    }
}

/// Functions between two types: the first leads there, the others back.
#[tactic(auto, unfolding(crate::specs::OnPrograms::there_and_back))]
fn there_and_back(
    alloc: Global,
    at: &Setting<'_>,
    forms: &[Node],
    from: &Shared<Ty>,
    to: &Shared<Ty>,
) -> Result<Terms, Refused>
    ensures { Answers (there_and_back (environment at.now) forms.now from.now to.now) result }
{
    match forms {
        [] => Ok(Items::new(alloc)),
        [f, rest @ ..] => {
            let first = function(alloc, at, f, from, to.get())?;
            functions(alloc, at, first, rest, to, from)
        }
    }
}

/// A function, and behind it functions from a type to a type.
fn functions(
    alloc: Global,
    at: &Setting<'_>,
    first: Term,
    forms: &[Node],
    from: &Shared<Ty>,
    to: &Shared<Ty>,
) -> Result<Terms, Refused>
    ensures { Answers (functions (environment at.now) forms.now from.now to.now and_then λ ts. given (first ∷ ts)) result }
{
    let mut typed = Items::new(alloc);
    typed.push(first)?;
    for f in forms {
        typed.push(function(alloc, at, f, from, to.get())?)?;
    }
    Ok(typed)
}
