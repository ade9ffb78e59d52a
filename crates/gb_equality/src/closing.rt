// Labels, closed under what they imply.

ghost use Rattle.std.specs.Prelude.{◌≡◌, ◌≢◌, ◌+◌, ◌<◌, ℕ, List, length, get_or, MatchOption};
ghost use Rattle.gb_equality.specs.declared.closing.Progress.TheVariants.{Clash};
ghost use Rattle.gb_closing.specs.Labels.{labels_at};
ghost use Rattle.gb_equality.specs.Table.{IsJoining, IsSettled, IsSettledAlone, IsSettledPair, IsTable, put, relabelled};
ghost use Rattle.gb_equality.specs.Search.{IsClosed, IsEquated, IsSwept, IsSweptTo};

use crate::connectives::{are_different, connective_of};
use crate::parts::same_operator;
use crate::rules::{Equation, implied};
use crate::table::Node;
use gb_closing::labels::{FALSE, TRUE, have_same_labels, label_at};

/// The label of an argument.
#[tactic(auto, using(crate::proofs::Places::mapped_found, crate::proofs::Places::mapped_missing))]
fn label_of(labels: &[usize], args: &[usize], at: usize) -> usize
    ensures { result ≡ get_or (labels_at labels.now args.now) at 0 }
{
    match args.get(at) {
        Some(place) => label_at(labels, *place),
        None => FALSE,
    }
}

/// Two labels that have to be one by what the term of a row is.
fn implied_by_row(nodes: &[Node], labels: &[usize], at: usize) -> Option<Equation>
    requires table { IsTable nodes.now }
    requires rows { length labels.now ≡ length nodes.now }
    requires within { at < length nodes.now }
    ensures { MatchOption result (IsSettledAlone nodes.now labels.now at) (IsJoining nodes.now labels.now) }
{
    let node = &nodes[at];
    let args = node.args.as_slice();
    implied(
        connective_of(&node.term),
        label_at(labels, at),
        label_of(labels, args, 0),
        label_of(labels, args, 1),
    )
}

/// Two labels that have to be one by a pair of rows: those of terms of one operator whose arguments have equal labels; and those
/// of truths, where different literals have one label.
fn implied_by_pair(
    nodes: &[Node],
    labels: &[usize],
    first: usize,
    second: usize,
) -> Option<Equation>
    requires table { IsTable nodes.now }
    requires rows { length labels.now ≡ length nodes.now }
    requires first_within { first < length nodes.now }
    requires second_within { second < length nodes.now }
    ensures { MatchOption result (IsSettledPair nodes.now labels.now first second) (IsJoining nodes.now labels.now) }
{
    let left = label_at(labels, first);
    let right = label_at(labels, second);
    let (a, b) = (&nodes[first], &nodes[second]);
    if left == right {
        if are_different(&a.term, &b.term) {
            return Some(Equation {
                left: FALSE,
                right: TRUE,
            });
        }
        return None;
    }
    if have_same_labels(labels, a.args.as_slice(), b.args.as_slice())
        && same_operator(&a.term, &b.term)
    {
        return Some(Equation { left, right });
    }
    None
}

/// Two labels that have to be one by a row, with those before it.
fn implied_at(nodes: &[Node], labels: &[usize], at: usize) -> Option<Equation>
    requires table { IsTable nodes.now }
    requires rows { length labels.now ≡ length nodes.now }
    requires within { at < length nodes.now }
    ensures { MatchOption result (IsSettled nodes.now labels.now at) (IsJoining nodes.now labels.now) }
{
    for before in 0..at {
        if let Some(equation) = implied_by_pair(nodes, labels, before, at) {
            return Some(equation);
        }
    }
    implied_by_row(nodes, labels, at)
}

fn renamed(label: usize, from: usize, to: usize) -> usize
    ensures { result ≡ put from to label }
{
    if label == from { to } else { label }
}

/// Puts a label in the place of another one.
pub fn relabel(labels: &mut [usize], from: usize, to: usize)
    ensures { labels.new ≡ relabelled from to labels.old }
{
    for label in labels.iter_mut() {
        *label = renamed(*label, from, to);
    }
}

/// Makes two labels one, unless they are those of the two truths: the lesser one stays.
pub fn equate(labels: &mut [usize], left: usize, right: usize) -> bool
    ensures { IsEquated left right labels.old labels.new result }
{
    if left == right {
        return true;
    }
    let from = left.max(right);
    let to = left.min(right);
    if from == TRUE {
        return false;
    }
    relabel(labels, from, to);
    true
}

/// What going over rows comes to.
#[derive(Clone, Copy)]
pub enum Progress {
    /// No labelling is a reading of the labels.
    Clash,
    Changed,
    /// No row implies anything more.
    Settled,
}

/// Makes two labels one that have to be by a row, with those before it. What the rows before it came to is given.
fn sweep_row(nodes: &[Node], labels: &mut [usize], at: usize, before: Progress) -> Progress
    requires table { IsTable nodes.now }
    requires rows { length labels.old ≡ length nodes.now }
    requires within { at < length nodes.now }
    requires going { before ≢ Clash }
    ensures swept { (first : List ℕ) → IsSweptTo nodes.now first labels.old at before → IsSweptTo nodes.now first labels.new (at + 1) result }
    ensures rows { length labels.new ≡ length nodes.now }
{
    let Some(equation) = implied_at(nodes, labels, at) else {
        return before;
    };
    if equate(labels, equation.left, equation.right) {
        Progress::Changed
    } else {
        Progress::Clash
    }
}

/// Goes over the rows once, and makes labels one that have to be, as long as none clash.
fn sweep(nodes: &[Node], labels: &mut [usize]) -> Progress
    requires table { IsTable nodes.now }
    requires rows { length labels.old ≡ length nodes.now }
    ensures { IsSwept nodes.now labels.old labels.new result }
{
    let mut outcome = Progress::Settled;
    for at in 0..nodes.len() {
        outcome = sweep_row(nodes, labels, at, outcome);
        if let Progress::Clash = outcome {
            return outcome;
        }
    }
    outcome
}

/// Makes labels one that have to be, until no row implies anything more. Answers whether there may be a labelling.
pub fn close(nodes: &[Node], labels: &mut [usize]) -> bool
    requires table { IsTable nodes.now }
    requires rows { length labels.old ≡ length nodes.now }
    ensures { IsClosed nodes.now labels.old labels.new result }
{
    'closing: loop {
        match sweep(nodes, labels) {
            Progress::Clash => return false,
            Progress::Settled => return true,
            Progress::Changed => {}
        }
    }
}
