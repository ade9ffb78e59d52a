// The claims of a leaf.

ghost use Rattle.std.specs.Prelude.{◌≡◌, ◌++◌, [], ◌∷◌, false, IfOk, OnOk};
ghost use Rattle.gb_terms.specs.Make.{truth_literal};
ghost use Rattle.gb_equality.specs.Components.{inside, outside};
ghost use Rattle.gb_smt.specs.Claims.{claim_of, contradictions, first_variables, components_of, claims_of};

use crate::leaves::Leaf;
use gb_closing::linked::{Variable, Variables};
use gb_equality::components::{marked, marks_of};
use gb_equality::variables::{variables, variables_in};
use gb_terms::make::boolean;
use gb_terms::term::{Term, Terms};
use sqlite_items::Items;
use std::alloc::{AllocError, Global};

/// Hypotheses and a conclusion that share variables, and these in the order of their first places, in the hypotheses
/// and then in the conclusion.
pub struct Claim {
    pub hyps: Terms,
    pub conclusion: Term,
    pub variables: Variables,
}

impl Drop for Claim {
    fn drop(self) {
        let Claim {
            hyps,
            conclusion,
            variables,
        } = self;
        drop(hyps);
        drop(conclusion);
        drop(variables);
    }
}

pub type Claims = Items<Claim>;

/// The claim of a conclusion.
fn claim_of(alloc: Global, hyps: Terms, conclusion: &Term) -> Result<Claim, AllocError>
    ensures { IfOk result (λ claim. claim ≡ claim_of hyps conclusion.now) }
{
    let variables = variables_in(alloc, hyps.as_slice(), conclusion)?;
    let conclusion = conclusion.share()?;
    Ok(Claim {
        hyps,
        conclusion,
        variables,
    })
}

/// Adds the claim of a conclusion with the hypotheses that are joined with variables, directly or through others, and
/// gives the others.
fn take_joined(
    alloc: Global,
    hyps: &[Term],
    from: &[Variable],
    conclusion: &Term,
    out: &mut Claims,
) -> Result<Terms, AllocError>
    ensures others { IfOk result (λ others. others ≡ outside hyps.now from.now) }
    ensures out { OnOk result (out.new ≡ out.old ++ claim_of (inside hyps.now from.now) conclusion.now ∷ []) }
{
    let marks = marks_of(alloc, hyps, from)?;
    let joined = marked(alloc, hyps, marks.as_slice(), true)?;
    out.push(claim_of(alloc, joined, conclusion)?)?;
    marked(alloc, hyps, marks.as_slice(), false)
}

/// The variables of the first hypothesis that has some.
fn first_variables(alloc: Global, hyps: &[Term]) -> Result<Option<Variables>, AllocError>
    ensures { IfOk result (λ found. found ≡ first_variables hyps.now) }
{
    for hyp in hyps {
        let own = variables(alloc, hyp)?;
        if !own.is_empty() {
            return Ok(Some(own));
        }
    }
    Ok(None)
}

/// Adds the claim that hypotheses can't all hold, if there are some. `never` is the literal `false`.
fn add_contradiction(
    alloc: Global,
    hyps: Terms,
    never: &Term,
    out: &mut Claims,
) -> Result<(), AllocError>
    requires { never.now ≡ truth_literal false }
    ensures { OnOk result (out.new ≡ out.old ++ contradictions hyps) }
{
    if hyps.is_empty() {
        Ok(())
    } else {
        out.push(claim_of(alloc, hyps, never)?)
    }
}

/// Adds the claims that the components of hypotheses can't all hold, in the order of their first ones, and the one of
/// those that have no variables. `never` is the literal `false`.
fn add_components(
    alloc: Global,
    hyps: Terms,
    never: &Term,
    out: &mut Claims,
) -> Result<(), AllocError>
    requires { never.now ≡ truth_literal false }
    ensures { OnOk result (out.new ≡ out.old ++ components_of hyps) }
{
    let mut left = hyps;
    for turn in 0..left.len() {
        match first_variables(alloc, left.as_slice())? {
            Some(from) => left = take_joined(alloc, left.as_slice(), from.as_slice(), never, out)?,
            None => break,
        }
    }
    add_contradiction(alloc, left, never, out)
}

/// Adds the claims that hypotheses can't all hold.
fn add_contradictions(alloc: Global, hyps: Terms, out: &mut Claims) -> Result<(), AllocError>
    ensures { OnOk result (out.new ≡ out.old ++ components_of hyps) }
{
    let never = boolean(alloc, false)?;
    add_components(alloc, hyps, &never, out)
}

/// The claims of a leaf, any of which closes it. The conclusion with the hypotheses that are joined with it is the
/// first. Each other set of joined hypotheses, in the order of their first ones, and the hypotheses without variables
/// are claims of a contradiction.
pub fn claims(alloc: Global, leaf: &Leaf) -> Result<Claims, AllocError>
    ensures { IfOk result (λ made. made ≡ claims_of leaf.now) }
{
    let from = variables(alloc, &leaf.conclusion)?;
    let hyps = leaf.hyps.as_slice();
    let mut out = Items::new(alloc);
    let others = take_joined(alloc, hyps, from.as_slice(), &leaf.conclusion, &mut out)?;
    add_contradictions(alloc, others, &mut out)?;
    Ok(out)
}
