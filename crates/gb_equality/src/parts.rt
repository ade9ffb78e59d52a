// The terms in a term, as equality sees them.

ghost use Rattle.std.specs.Prelude.{◌≡◌, ◌↔◌, ◌≤◌, take, drop, length, IsTrue};
ghost use Rattle.gb_terms.specs.declared.term.Term.{out-Term};
ghost use Rattle.gb_equality.specs.Parts.{kept, operator_of, reach_of, reached};

use gb_core::same::same_ty;
use gb_terms::same::{same_head, same_terms};
use gb_terms::term::{Head, Term};
use gb_walk::binders::is_binder;

/// Which arguments of a term are terms of their own.
#[derive(Clone, Copy)]
pub enum Reach {
    Nothing,
    /// All but the last.
    Front,
    All,
}

/// A part that binds something and a judgment are constants, and the event of a probability belongs to its operator.
fn reach_of(head: &Head) -> Reach
    ensures { result ≡ reach_of head.now }
{
    match head {
        Head::Hoare(_) | Head::Phoare(_, _) | Head::Equiv(_, _) => Reach::Nothing,
        Head::Pr(_, _) => Reach::Front,
        _ => {
            if is_binder(head) {
                Reach::Nothing
            } else {
                Reach::All
            }
        }
    }
}

/// How many arguments of a term, from the first on, are terms of their own.
pub fn number_reached(t: &Term) -> usize
    ensures within { result ≤ length (out-Term t.now).args }
    ensures reached { take result (out-Term t.now).args ≡ reached (reach_of (out-Term t.now).head) (out-Term t.now).args }
    ensures kept { drop result (out-Term t.now).args ≡ kept (reach_of (out-Term t.now).head) (out-Term t.now).args }
{
    let count = t.args.len();
    match reach_of(t.head.get()) {
        Reach::Nothing => 0,
        Reach::Front => count.saturating_sub(1),
        Reach::All => count,
    }
}

/// The arguments of a term that belong to its operator.
fn kept(t: &Term) -> &[Term]
    ensures { result.now ≡ kept (reach_of (out-Term t.now).head) (out-Term t.now).args }
{
    &t.args.as_slice()[number_reached(t)..]
}

/// Whether two terms have one operator.
pub fn same_operator(t: &Term, u: &Term) -> bool
    ensures { IsTrue result ↔ operator_of t.now ≡ operator_of u.now }
{
    same_head(t.head.get(), u.head.get())
        && same_ty(t.ty.get(), u.ty.get())
        && same_terms(kept(t), kept(u))
}
