// Leaves that close by equality alone.

ghost use Rattle.std.specs.Prelude.{◌≡◌, ◌↔◌, IfOk, IsTrue};
ghost use Rattle.std.specs.List.{list_any};
ghost use Rattle.gb_meaning.specs.Truth.{has_module};
ghost use Rattle.gb_smt.specs.Equations.{used_up};
ghost use Rattle.gb_smt.specs.ByEquality.{ClosesByEquality, is_over_modules, goes_on, last_of, has_no_form};

use crate::atoms::number_of_atoms;
use crate::leaves::Leaf;
use gb_equality::equality::equality;
use gb_goal::goal::judges_bodies;
use gb_terms::op::Op;
use gb_terms::term::{Head, Term};
use std::alloc::{AllocError, Global};

/// The most atoms of a leaf that is tried by equality.
const MOST: u64 = 20;

/// Whether a form with this head quantifies over modules.
fn is_over_modules(head: &Head) -> bool
    ensures { result ≡ is_over_modules head.now }
{
    matches!(head, Head::AllModule(_))
}

/// Whether a quantifier over modules in front of the last argument is one of the whole form.
fn goes_on(head: &Head) -> bool
    ensures { result ≡ goes_on head.now }
{
    matches!(
        head,
        Head::All(_) | Head::AllMemory | Head::Builtin(Op::Implies)
    )
}

/// Whether a quantifier over modules stands in front of a form, behind other quantifiers and premises at most.
#[cycle(has_module)]
#[tactic(auto, using(crate::proofs::Fronts::module_out))]
fn has_module(t: &Term) -> bool
    ensures { result ≡ has_module t.now }
{
    is_over_modules(t.head.get()) || goes_on(t.head.get()) && last_has_module(t.args.as_slice())
}

/// Whether one stands in front of the last of these.
#[cycle(has_module)]
#[tactic(auto, using(crate::proofs::Fronts::none_last, crate::proofs::Fronts::one_last, crate::proofs::Fronts::more_last))]
fn last_has_module(list: &[Term]) -> bool
    ensures { result ≡ last_of list.now }
{
    match list {
        [.., last] => has_module(last),
        [] => false,
    }
}

/// Whether one stands in front of one of these.
fn any_has_module(list: &[Term]) -> bool
    ensures { result ≡ list_any has_module list.now }
{
    for t in list {
        if has_module(t) {
            return true;
        }
    }
    false
}

/// Whether something in a leaf is no form: a quantifier over modules in front of a hypothesis or of the conclusion, or a conclusion
/// that judges bodies.
fn has_no_form(leaf: &Leaf) -> bool
    ensures { result ≡ has_no_form leaf.now }
{
    any_has_module(leaf.hyps.as_slice())
        || has_module(&leaf.conclusion)
        || judges_bodies(&leaf.conclusion)
}

/// Whether a leaf, which is given without its equations too, closes by equality alone.
pub fn closes_by_equality(alloc: Global, whole: &Leaf, leaf: &Leaf) -> Result<bool, AllocError>
    requires { leaf.now ≡ used_up whole.now }
    ensures { IfOk result (λ closes. IsTrue closes ↔ ClosesByEquality whole.now) }
{
    if has_no_form(whole) {
        return Ok(false);
    }
    if number_of_atoms(alloc, leaf)? > MOST {
        return Ok(false);
    }
    match equality(alloc, leaf.hyps.as_slice(), &leaf.conclusion)? {
        None => Ok(true),
        Some(_) => Ok(false),
    }
}
