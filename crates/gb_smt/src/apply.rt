// The rule `smt`.

ghost use Rattle.std.specs.Prelude.{◌≡◌, if◌then◌else◌, Some, None, IfOk};
ghost use Rattle.std.specs.List.{All};
ghost use Rattle.gb_smt.specs.declared.leaves.Leaf.{Leaf};
ghost use Rattle.gb_smt.specs.Leaves.{leaves_of};
ghost use Rattle.gb_smt.specs.Claims.{claims_of};
ghost use Rattle.gb_smt.specs.Apply.{trial_at, trial_of, trial_with, is_true, is_found_true, open_after, open_at, and_then, left_open, outcome_of, IsAnswer, IsAnswerOf, IsClosed, IsResult, IsTriedAnswer};

use crate::assign::{Found, labelled_claim, try_choices};
use crate::atoms::number_of_atoms;
use crate::by_equality::closes_by_equality;
use crate::claims::{Claim, claims};
use crate::equations::used_up;
use crate::leaves::{Leaf, leaves};
use crate::width::width;
use gb_closing::counted::is_tried;
use gb_core::Shared;
use gb_core::place::Place;
use gb_core::refusal::{Refused, Why};
use gb_core::value::{Card, Values};
use gb_dist::whole::Overflow;
use gb_equality::sizes::greater;
use gb_goal::scope::Scope;
use gb_goal::sequent::{Sequent, Sequents};
use gb_labels::labels::Label;
use gb_labels::things::most_labels;
use gb_mods::exclusions::exclusions;
use gb_terms::term::Term;
use sqlite_items::Items;
use std::alloc::{AllocError, Global};

/// A claim's width, which counts as above where a part of it is opaque to evaluation, and what trying it comes to.
#[derive(Drop)]
struct Trial {
    width: Card,
    found: Found,
}

/// What trying a claim of this width comes to.
fn trial_at(width: Card, found: Found) -> Trial
    ensures { result ≡ trial_at width found }
{
    match found {
        Found::Unknown => Trial {
            width: Card::Above,
            found: Found::Unknown,
        },
        found => Trial { width, found },
    }
}

/// Tries a claim at all numbers of labels up to these, unless it is too wide at them.
fn try_up_to(
    alloc: Global,
    most: &[Label],
    claim: &Claim,
    scope: &Scope,
) -> Result<Trial, AllocError>
    ensures { IfOk result (λ trial. trial ≡ trial_with scope.now (Some most.now) claim.now) }
{
    let widest = labelled_claim(alloc, claim, most)?;
    let width = width(alloc, &widest, scope)?;
    if !is_tried(width) {
        return Ok(Trial {
            width,
            found: Found::Unknown,
        });
    }
    let found = try_choices(alloc, most, claim, scope)?;
    Ok(trial_at(width, found))
}

/// Tries a claim, unless it is too wide.
fn try_claim(alloc: Global, claim: &Claim, scope: &Scope) -> Result<Trial, AllocError>
    ensures { IfOk result (λ trial. trial ≡ trial_of scope.now claim.now) }
{
    let excluded = exclusions(alloc, scope)?;
    match most_labels(
        alloc,
        excluded.as_slice(),
        claim.hyps.as_slice(),
        &claim.conclusion,
    )? {
        Some(most) => try_up_to(alloc, most.as_slice(), claim, scope),
        None => Ok(Trial {
            width: Card::Above,
            found: Found::Unknown,
        }),
    }
}

/// What trying a leaf comes to.
#[derive(Drop)]
enum Tried {
    Closed,
    /// All its claims were tried, and its first one is false under this assignment.
    Refuted(Values),
    /// The greatest width of a claim.
    Undecided(Card),
    /// The first overflow of a claim.
    OutOfRange(Overflow),
}

/// What claims that aren't found true have shown: their greatest width, and the first overflow.
#[derive(Clone, Copy)]
struct Open {
    widest: Card,
    overflow: Option<Overflow>,
}

/// Whether a claim is found true.
fn is_true(found: &Found) -> bool
    ensures { result ≡ is_true found.now }
{
    match found {
        Found::True => true,
        _ => false,
    }
}

/// What a trial that isn't true shows.
fn open_at(trial: &Trial) -> Open
    ensures { result ≡ open_at trial.now }
{
    let overflow = match trial.found {
        Found::Overflow(overflow) => Some(overflow),
        _ => None,
    };
    Open {
        widest: trial.width,
        overflow,
    }
}

/// What one claim and others behind it show.
fn and_then(first: Open, others: Open) -> Open
    ensures { result ≡ and_then first others }
{
    Open {
        widest: greater(first.widest, others.widest),
        overflow: first.overflow.or(others.overflow),
    }
}

/// What a claim shows, where it isn't found true.
fn open_claim(alloc: Global, claim: &Claim, scope: &Scope) -> Result<Option<Open>, AllocError>
    ensures { IfOk result (λ found. found ≡ (if is_found_true scope.now claim.now then None else Some (open_at (trial_of scope.now claim.now)))) }
{
    let trial = try_claim(alloc, claim, scope)?;
    if is_true(&trial.found) {
        return Ok(None);
    }
    Ok(Some(open_at(&trial)))
}

/// What some claims have shown, and claims behind them, where none of these is found true.
fn open_after(
    alloc: Global,
    list: &[Claim],
    from: Open,
    scope: &Scope,
) -> Result<Option<Open>, AllocError>
    ensures { IfOk result (λ found. found ≡ open_after scope.now from list.now) }
{
    let mut shown = from;
    for claim in list {
        let Some(more) = open_claim(alloc, claim, scope)? else {
            return Ok(None);
        };
        shown = and_then(shown, more);
    }
    Ok(Some(shown))
}

/// What the claims decide, where none is found true.
fn left_open(first: Found, shown: Open) -> Tried
    ensures { result ≡ left_open first shown }
{
    match (shown.overflow, first) {
        (Some(overflow), _) => Tried::OutOfRange(overflow),
        (None, Found::False(values)) if is_tried(shown.widest) => Tried::Refuted(values),
        _ => Tried::Undecided(shown.widest),
    }
}

/// Tries the claims of a leaf in order, those that aren't too wide.
fn try_claims(alloc: Global, list: &[Claim], scope: &Scope) -> Result<Tried, AllocError>
    ensures { IfOk result (λ tried. tried ≡ outcome_of scope.now list.now) }
{
    let [claim, others @ ..] = list else {
        return Ok(Tried::Undecided(Card::Exact(0)));
    };
    let trial = try_claim(alloc, claim, scope)?;
    if is_true(&trial.found) {
        return Ok(Tried::Closed);
    }
    let first = open_at(&trial);
    match open_after(alloc, others, first, scope)? {
        Some(shown) => Ok(left_open(trial.found, shown)),
        None => Ok(Tried::Closed),
    }
}

/// What trying the claims of a leaf comes to.
fn try_leaf(alloc: Global, leaf: &Leaf, scope: &Scope) -> Result<Tried, AllocError>
    ensures { IfOk result (λ tried. tried ≡ outcome_of scope.now (claims_of leaf.now)) }
{
    let list = claims(alloc, leaf)?;
    try_claims(alloc, list.as_slice(), scope)
}

/// Why a leaf without equations isn't closed by its claims.
fn reason(alloc: Global, leaf: &Leaf, scope: &Scope) -> Result<Option<Why>, AllocError>
    ensures { IfOk result (IsTriedAnswer scope.now leaf.now) }
{
    match try_leaf(alloc, leaf, scope)? {
        Tried::Closed => Ok(None),
        Tried::Refuted(values) => Ok(Some(Why::False(values))),
        Tried::OutOfRange(Overflow { left, right }) => Ok(Some(Why::Overflow { left, right })),
        Tried::Undecided(width) => {
            let atoms = number_of_atoms(alloc, leaf)?;
            Ok(Some(Why::Undecided { width, atoms }))
        }
    }
}

/// Why a leaf isn't closed.
fn close(alloc: Global, leaf: &Shared<Leaf>, scope: &Scope) -> Result<Option<Why>, AllocError>
    ensures { IfOk result (IsAnswer scope.now leaf.now) }
{
    let rest = used_up(alloc, leaf)?;
    if closes_by_equality(alloc, leaf.get(), rest.get())? {
        return Ok(None);
    }
    reason(alloc, rest.get(), scope)
}

/// Why a goal isn't closed, by its first leaf that isn't.
fn close_goal(
    alloc: Global,
    goal: &Sequent,
    known: &[Term],
    scope: &Scope,
) -> Result<Option<Why>, AllocError>
    ensures { IfOk result (IsAnswerOf scope.now (leaves_of known.now goal.now)) }
{
    let list = leaves(alloc, goal, known)?;
    for leaf in list.as_slice() {
        if let Some(why) = close(alloc, leaf, scope)? {
            return Ok(Some(why));
        }
    }
    Ok(None)
}

/// Closes a goal, with no subgoals, by its hypotheses and forms that are known besides. Quantifiers in front of the
/// conclusion go to the context, the left sides of implications to the hypotheses, and conjunctions are split; then
/// equations between a variable and a term are used up. Each such leaf closes when it has at most 20 atoms and is valid by
/// equality, where it consists of forms, or when one of its claims, of a width of at most 2^20, is true under every assignment. To
/// evaluation operators of the script that have bodies are what their bodies are; the others are opaque. The values of all globals of
/// an abstract module are labels, as many as the claim has things of them: the claim has to be true for each number of labels from 1
/// up to that one, and its width is that of the greatest numbers.
///
/// The first leaf that doesn't close decides the refusal, at the place of the step: the operands of an operation out of range,
/// where evaluation of a claim comes to one before it is false; else false, with the first assignment under which its first
/// claim is false, where all its claims could be tried; else undecided, with the greatest width and the number of atoms.
pub fn apply(
    alloc: Global,
    known: &[Term],
    place: Place,
    goal: &Sequent,
    scope: &Scope,
) -> Result<Sequents, Refused>
    ensures answer { IsResult scope.now (leaves_of known.now goal.now) place result }
    ensures closed { IfOk result (λ subgoals. All (IsClosed scope.now) (leaves_of known.now goal.now)) }
{
    match close_goal(alloc, goal, known, scope) {
        Ok(None) => Ok(Items::new(alloc)),
        Ok(Some(why)) => Err(Refused::Script { why, place }),
        Err(AllocError) => Err(Refused::NoMemory),
    }
}
