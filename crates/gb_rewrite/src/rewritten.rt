// Terms with one term in place of another one.

ghost use Rattle.std.specs.Prelude.{◌≡◌, ◌∷◌, map, IfOk};
ghost use Rattle.std.specs.List.{list_any};
ghost use Rattle.gb_terms.specs.declared.term.Term.{out-Term};
ghost use Rattle.gb_terms.specs.Make.{node};
ghost use Rattle.gb_prog.specs.Same.{is_same};
ghost use Rattle.gb_rewrite.specs.Rewritten.{first_rewritten, rewritten, stands, stands_first};

use gb_core::SharedItems;
use gb_steps::first::is_quotient;
use gb_terms::same::same;
use gb_terms::share::share_terms;
use gb_terms::term::{Term, Terms};
use sqlite_items::Items;
use std::alloc::{AllocError, Global};

#[tactic(auto, using(crate::proofs::Same::same_is))]
fn is_same(a: &Term, b: &Term) -> bool
    ensures { result ≡ is_same a.now b.now }
{
    same(a, b)
}

/// Whether a term stands in another one: it is the other one, or stands in an argument of it that is no divisor.
#[cycle(stands)]
#[tactic(auto, using(crate::proofs::Parts::stands_out))]
pub fn stands(t: &Term, sought: &Term) -> bool
    ensures { result ≡ stands sought.now t.now }
{
    if is_same(t, sought) {
        return true;
    }
    if is_quotient(t.head.get()) {
        return stands_first(t.args.as_slice(), sought);
    }
    stands_in_any(t.args.as_slice(), sought)
}

#[cycle(stands)]
fn stands_first(list: &[Term], sought: &Term) -> bool
    ensures { result ≡ stands_first sought.now list.now }
{
    match list {
        [] => false,
        [first, ..] => stands(first, sought),
    }
}

#[cycle(stands)]
fn stands_in_any(list: &[Term], sought: &Term) -> bool
    ensures { result ≡ list_any (stands sought.now) list.now }
{
    for t in list {
        if stands(t, sought) {
            return true;
        }
    }
    false
}

/// The term with other arguments.
pub fn with_args(alloc: Global, t: &Term, args: Terms) -> Result<Term, AllocError>
    ensures { IfOk result (λ made. made ≡ node (out-Term t.now).head args (out-Term t.now).ty) }
{
    let args = SharedItems::new(alloc, args)?;
    let head = t.head.share()?;
    let ty = t.ty.share()?;
    Ok(Term { head, args, ty })
}

/// A term with `by` in place of each `replaced`. Divisors stay as they are, and so do the programs of judgments.
#[cycle(rewritten)]
#[tactic(auto, using(crate::proofs::Parts::rewritten_out))]
pub fn rewritten(alloc: Global, t: &Term, replaced: &Term, by: &Term) -> Result<Term, AllocError>
    ensures { IfOk result (λ made. made ≡ rewritten replaced.now by.now t.now) }
{
    if is_same(t, replaced) {
        return by.share();
    }
    if is_quotient(t.head.get()) {
        let args = first_rewritten(alloc, t.args.as_slice(), replaced, by)?;
        return with_args(alloc, t, args);
    }
    let args = all_rewritten(alloc, t.args.as_slice(), replaced, by)?;
    with_args(alloc, t, args)
}

#[cycle(rewritten)]
fn first_rewritten(
    alloc: Global,
    list: &[Term],
    replaced: &Term,
    by: &Term,
) -> Result<Terms, AllocError>
    ensures { IfOk result (λ made. made ≡ first_rewritten replaced.now by.now list.now) }
{
    match list {
        [] => Ok(Items::new(alloc)),
        [first, others @ ..] => {
            let first = rewritten(alloc, first, replaced, by)?;
            before(alloc, first, others)
        }
    }
}

#[cycle(rewritten)]
fn all_rewritten(
    alloc: Global,
    list: &[Term],
    replaced: &Term,
    by: &Term,
) -> Result<Terms, AllocError>
    ensures { IfOk result (λ made. made ≡ map (rewritten replaced.now by.now) list.now) }
{
    let mut made = Items::new(alloc);
    for t in list {
        let t = rewritten(alloc, t, replaced, by)?;
        made.push(t)?;
    }
    Ok(made)
}

/// A term, and others behind it.
pub fn before(alloc: Global, first: Term, others: &[Term]) -> Result<Terms, AllocError>
    ensures { IfOk result (λ made. made ≡ first ∷ others.now) }
{
    let others = share_terms(alloc, others)?;
    let mut made = Items::new(alloc);
    made.push(first)?;
    made.append(others)?;
    Ok(made)
}
