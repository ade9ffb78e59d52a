// Hypotheses that are joined by the variables that they share.

ghost use Rattle.std.specs.Prelude.{◌≡◌, map, length, false, IfOk};
ghost use Rattle.gb_equality.specs.Variables.{variables};
ghost use Rattle.gb_equality.specs.Components.{joined, is_joined, marked};

use crate::variables::variables;
use gb_closing::linked::{Variable, Variables, marked_further};
use gb_terms::term::{Term, Terms};
use sqlite_items::Items;
use std::alloc::{AllocError, Global};

/// The variables of each hypothesis.
fn variables_of_each(alloc: Global, hyps: &[Term]) -> Result<Items<Variables>, AllocError>
    ensures { IfOk result (λ all. all ≡ map variables hyps.now) }
{
    let mut all = Items::new(alloc);
    for hyp in hyps {
        all.push(variables(alloc, hyp)?)?;
    }
    Ok(all)
}

/// No marks.
fn unmarked(alloc: Global, all: &[Variables]) -> Result<Items<bool>, AllocError>
    ensures { IfOk result (λ marks. marks ≡ map (λ own. false) all.now) }
{
    let mut marks = Items::new(alloc);
    for own in all {
        marks.push(false)?;
    }
    Ok(marks)
}

/// Marks the hypotheses that are joined with variables.
#[tactic(auto, using(crate::proofs::Marks::mapped))]
pub fn marks_of(alloc: Global, hyps: &[Term], from: &[Variable]) -> Result<Items<bool>, AllocError>
    ensures { IfOk result (λ marks. marks ≡ map (is_joined hyps.now from.now) hyps.now) }
{
    let all = variables_of_each(alloc, hyps)?;
    let mut marks = unmarked(alloc, all.as_slice())?;
    for turn in 0..hyps.len() {
        marks = marked_further(alloc, all.as_slice(), from, marks.as_slice())?;
    }
    Ok(marks)
}

/// The hypotheses that are marked so.
pub fn marked(
    alloc: Global,
    hyps: &[Term],
    marks: &[bool],
    wanted: bool,
) -> Result<Terms, AllocError>
    requires { length marks.now ≡ length hyps.now }
    ensures { IfOk result (λ made. made ≡ marked wanted hyps.now marks.now) }
{
    let mut out = Items::new(alloc);
    for at in 0..hyps.len() {
        if marks[at] == wanted {
            out.push(hyps[at].share()?)?;
        }
    }
    Ok(out)
}
