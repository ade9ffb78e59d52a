// Proof steps.

ghost use Rattle.std.specs.Prelude.{◌≡◌};
ghost use Rattle.gb_script.specs.Tree.{parts_of};
ghost use Rattle.gb_goal.specs.Answers.{Answers};
ghost use Rattle.gb_elab_mod.specs.OnPrograms.{acts, both_rule, chance_rule, entering_rule, named_rule, on_all, plain_rule};
ghost use Rattle.gb_elab_mod.specs.Steps.{equals_rule, event_rule, looping_rule, pattern, step_given, transforming_rule, typed_rule, used_rule};

use crate::between::transitive_rule;
use crate::conclusions::{conclusion_rule, have_rule, sided_case_rule};
use crate::conseq::{Written, conseq_rule};
use crate::contract::call_rule;
use crate::couplings::{drawing_rule, functions_of};
use crate::cut::{Cutting, position, seq_rule, while_rule};
use crate::equals::{opening, rewriting, rewriting_back, rewriting_by_name, substitution};
use crate::events::{event_law_rule, splitting_rule};
use crate::kept::procedures_rule;
use crate::multiples::linear_rule;
use crate::probabilities::by_rule;
use crate::transforming::{inlining_rule, passing_rule, placed_rule};
use crate::uses::{apply_rule, keep_rule, smt_rule};
use crate::witness::witness_rule;
use gb_core::name::Name;
use gb_core::place::Place;
use gb_core::refusal::Refused;
use gb_goal::scope::Scope;
use gb_goal::sequent::Sequent;
use gb_names::refusals::not_built;
use gb_script::head::Head;
use gb_script::tree::Node;
use gb_steps::step::{Acts, AmbientRule, BodyRule, ChanceRule, RelationalRule, Rule, Step};
use sqlite_items::Items;
use std::alloc::Global;

/// The proof step of a rule with its arguments typed where the goal gives them types. The functions of `rnd` have the
/// types of the last samplings of the two bodies; where the conclusion hasn't these, they have no type and are left out,
/// and the rule refuses the goal.
///
/// # Errors
///
/// `Syntax` of a rule that isn't built, and those of typing.
#[tactic(auto, unfolding(crate::specs::Steps::step_given))]
pub fn proof_step(
    alloc: Global,
    scope: &Scope,
    goal: &Sequent,
    tree: &Node,
) -> Result<Step, Refused>
    ensures { Answers (step_given scope.now goal.now tree.now) result }
{
    let place = tree.place;
    let rule = typed_rule(
        alloc,
        scope,
        goal,
        tree.head,
        &tree.text,
        tree.parts.as_slice(),
        place,
    )?;
    Ok(Step { rule, place })
}

/// The programs on which a step acts.
fn acts(bodies: &[Node]) -> Acts
    ensures { result ≡ acts bodies.now }
{
    match bodies {
        [] => Acts::All,
        [number, ..] => {
            if number.text.as_str() == "1" {
                Acts::Left
            } else {
                Acts::Right
            }
        }
    }
}

/// The same, by the part of a step that holds their numbers.
fn acts_of(bodies: &Node) -> Acts
    ensures { result ≡ acts (parts_of bodies.now) }
{
    acts(bodies.parts.as_slice())
}

/// A rule that acts on all programs of a goal alone.
fn on_all(acts: Acts, rule: BodyRule) -> BodyRule
    ensures { result ≡ on_all acts rule }
{
    match acts {
        Acts::All => rule,
        _ => BodyRule::Unfit,
    }
}

/// A rule without other arguments than the programs on which it acts.
fn plain_rule(name: &Name, acts: Acts, place: Place) -> Result<BodyRule, Refused>
    ensures { Answers (plain_rule name.now acts place) result }
{
    let name = name.as_str();
    if name == "skip" {
        Ok(on_all(acts, BodyRule::Skip))
    } else if name == "if" {
        Ok(BodyRule::If(acts))
    } else if name == "wp" {
        Ok(BodyRule::Wp(acts))
    } else {
        Err(not_built(place))
    }
}

/// A rule on judgments with a probability, which speak of one program.
fn chance_rule(acts: Acts) -> Rule
    ensures { result ≡ chance_rule acts }
{
    match acts {
        Acts::All => Rule::Chance(ChanceRule::Hoare),
        _ => Rule::OnBodies(BodyRule::Unfit),
    }
}

/// A rule on equivalences, which acts on both programs.
fn both_rule(rule: RelationalRule, acts: Acts) -> Rule
    ensures { result ≡ both_rule rule acts }
{
    match acts {
        Acts::All => Rule::Relational(rule),
        _ => Rule::OnBodies(BodyRule::Unfit),
    }
}

/// A rule on programs, by its name alone.
fn named_rule(name: &Name, acts: Acts, place: Place) -> Result<Rule, Refused>
    ensures { Answers (named_rule name.now acts place) result }
{
    if name.as_str() == "hoare" {
        return Ok(chance_rule(acts));
    }
    if name.as_str() == "symmetry" {
        return Ok(both_rule(RelationalRule::Symmetry, acts));
    }
    if name.as_str() == "sim" {
        return Ok(both_rule(RelationalRule::Sim, acts));
    }
    let rule = plain_rule(name, acts, place)?;
    Ok(Rule::OnBodies(rule))
}

/// The rule of a pattern, whose own patterns are steps of their own.
fn pattern(
    alloc: Global,
    head: Head,
    text: &Name,
    parts: &[Node],
    place: Place,
) -> Result<Rule, Refused>
    ensures { Answers (pattern head text.now parts.now place) result }
{
    match (head, parts) {
        (Head::Name, []) => {
            let name = text.copy(alloc)?;
            Ok(Rule::Ambient(AmbientRule::Introduce(name)))
        }
        (Head::Memory, [memory]) => {
            let name = memory.text.copy(alloc)?;
            Ok(Rule::Ambient(AmbientRule::IntroduceMemory(name)))
        }
        (Head::Drop, []) => Ok(Rule::Ambient(AmbientRule::Discard)),
        (Head::BothPatterns, _) => Ok(Rule::Ambient(AmbientRule::Unpack)),
        (Head::EitherPattern, _) => Ok(Rule::Ambient(AmbientRule::Branch)),
        (Head::SmtPattern, []) => Ok(Rule::Smt(Items::new(alloc))),
        (Head::TrivialPattern, []) => Ok(Rule::Ambient(AmbientRule::Trivial)),
        _ => Err(not_built(place)),
    }
}

/// The rule of a step that puts other statements into a program, or of a pattern.
fn transforming_rule(
    alloc: Global,
    head: Head,
    text: &Name,
    parts: &[Node],
    place: Place,
) -> Result<Rule, Refused>
    ensures { Answers (transforming_rule head text.now parts.now place) result }
{
    match head {
        Head::Swap => match parts {
            [bodies, at, distance] => {
                let way = distance.head;
                passing_rule(acts_of(bodies), at, way, distance.parts.as_slice(), place)
            }
            _ => Err(not_built(place)),
        },
        Head::PositionStep => match parts {
            [bodies, at] => placed_rule(text, acts_of(bodies), position(at), place),
            _ => Err(not_built(place)),
        },
        _ => pattern(alloc, head, text, parts, place),
    }
}

/// The rule of a law of events, of a transformation of a program, or of a pattern.
fn event_rule(
    alloc: Global,
    scope: &Scope,
    goal: &Sequent,
    head: Head,
    text: &Name,
    parts: &[Node],
    place: Place,
) -> Result<Rule, Refused>
    ensures { Answers (event_rule scope.now goal.now head text.now parts.now place) result }
{
    match head {
        Head::RewriteLaw => match parts {
            [] => event_law_rule(text, place),
            _ => Err(not_built(place)),
        },
        Head::RewriteSplit => match parts {
            [event] => splitting_rule(alloc, scope, goal, event),
            _ => Err(not_built(place)),
        },
        _ => transforming_rule(alloc, head, text, parts, place),
    }
}

/// The rule of a step that puts equals for equals, of a law of events, of a transformation of a program, or of a pattern.
fn equals_rule(
    alloc: Global,
    scope: &Scope,
    goal: &Sequent,
    head: Head,
    text: &Name,
    parts: &[Node],
    place: Place,
) -> Result<Rule, Refused>
    ensures { Answers (equals_rule scope.now goal.now head text.now parts.now place) result }
{
    match head {
        Head::RewriteLemma => match parts {
            [known] => rewriting(alloc, scope, goal, known),
            _ => Err(not_built(place)),
        },
        Head::RewriteBack => match parts {
            [known] => rewriting_back(alloc, scope, goal, known),
            _ => Err(not_built(place)),
        },
        Head::RewriteHypothesis => match parts {
            [name] => rewriting_by_name(alloc, scope, goal, name),
            _ => Err(not_built(place)),
        },
        Head::Subst => match parts {
            [name] => substitution(alloc, scope, goal, name),
            _ => Err(not_built(place)),
        },
        Head::RewriteOperator => match parts {
            [operator] => opening(alloc, scope, goal, operator),
            _ => Err(not_built(place)),
        },
        _ => event_rule(alloc, scope, goal, head, text, parts, place),
    }
}

/// The rule of a step that uses what is known or puts equals for equals, of a law of events, of a transformation of a program, or of a
/// pattern.
fn used_rule(
    alloc: Global,
    scope: &Scope,
    goal: &Sequent,
    head: Head,
    text: &Name,
    parts: &[Node],
    place: Place,
) -> Result<Rule, Refused>
    ensures { Answers (used_rule scope.now goal.now head text.now parts.now place) result }
{
    match head {
        Head::ApplyLemma => match parts {
            [lemma] => apply_rule(alloc, scope, goal, lemma),
            _ => Err(not_built(place)),
        },
        Head::HaveLemma => match parts {
            [name, lemma] => keep_rule(alloc, scope, goal, name, lemma),
            _ => Err(not_built(place)),
        },
        _ => equals_rule(alloc, scope, goal, head, text, parts, place),
    }
}

/// The rule on loops, `inline`, a step from probabilities to a judgment, or the rule of another step, as far as `used_rule` has it.
fn looping_rule(
    alloc: Global,
    scope: &Scope,
    goal: &Sequent,
    head: Head,
    text: &Name,
    parts: &[Node],
    place: Place,
) -> Result<Rule, Refused>
    ensures { Answers (looping_rule scope.now goal.now head text.now parts.now place) result }
{
    match head {
        Head::WhileStep => match parts {
            [bodies, kept] => while_rule(alloc, scope, goal, acts_of(bodies), kept),
            _ => Err(not_built(place)),
        },
        Head::Inline => match parts {
            [bodies, procedures] => {
                let procedures = procedures.parts.as_slice();
                inlining_rule(alloc, scope, goal, acts_of(bodies), procedures, place)
            }
            _ => Err(not_built(place)),
        },
        Head::ByStep => match parts {
            [pre, post] => by_rule(alloc, scope, goal, text, pre, post, place),
            _ => Err(not_built(place)),
        },
        _ => used_rule(alloc, scope, goal, head, text, parts, place),
    }
}

/// The rule that goes into the procedures of a judgment, or, of abstract modules, by what their oracles keep.
fn entering_rule(
    alloc: Global,
    scope: &Scope,
    goal: &Sequent,
    acts: Acts,
    kept: &[Node],
    place: Place,
) -> Result<Rule, Refused>
    ensures { Answers (entering_rule scope.now goal.now acts kept.now place) result }
{
    match kept {
        [] => Ok(Rule::OnBodies(on_all(acts, BodyRule::Proc))),
        [kept] => procedures_rule(alloc, scope, goal, acts, kept),
        _ => Err(not_built(place)),
    }
}

/// The rule of a step or of a pattern, with its arguments typed.
fn typed_rule(
    alloc: Global,
    scope: &Scope,
    goal: &Sequent,
    head: Head,
    text: &Name,
    parts: &[Node],
    place: Place,
) -> Result<Rule, Refused>
    ensures { Answers (typed_rule scope.now goal.now head text.now parts.now place) result }
{
    match (head, parts) {
        (Head::Proc, [bodies, invariant]) => {
            let kept = invariant.parts.as_slice();
            entering_rule(alloc, scope, goal, acts_of(bodies), kept, place)
        }
        (Head::Rnd, [bodies, functions @ ..]) => {
            drawing_rule(alloc, scope, goal, acts_of(bodies), functions_of(functions))
        }
        (Head::BodyStep, [bodies]) => named_rule(text, acts_of(bodies), place),
        (Head::Seq, [bodies, first, second, between, bounds]) => {
            let at = Cutting {
                first,
                second,
                bounds,
            };
            seq_rule(alloc, scope, goal, acts_of(bodies), &at, between, place)
        }
        (Head::Conseq, [bodies, pre, post, bound]) => {
            let written = Written { pre, post, bound };
            conseq_rule(alloc, scope, goal, acts_of(bodies), &written)
        }
        (Head::CallStep, [bodies, said]) => {
            call_rule(alloc, scope, goal, acts_of(bodies), said, place)
        }
        (Head::Transitivity, [bodies, between]) => {
            transitive_rule(alloc, scope, goal, acts_of(bodies), between, place)
        }
        (Head::PlainStep, []) => conclusion_rule(text, place),
        (Head::CaseStep, [bodies, form]) => {
            sided_case_rule(alloc, scope, goal, acts_of(bodies), form)
        }
        (Head::HaveForm, [name, form]) => have_rule(alloc, scope, goal, name, form),
        (Head::Witness, [witness]) => witness_rule(alloc, scope, goal, witness),
        (Head::Smt, _) => smt_rule(alloc, scope, goal, parts),
        (Head::Linear, _) => linear_rule(alloc, scope, goal, parts),
        _ => looping_rule(alloc, scope, goal, head, text, parts, place),
    }
}
