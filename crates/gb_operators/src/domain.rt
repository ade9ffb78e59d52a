// The variable of a function.

ghost use Rattle.std.specs.Prelude.{◌≡◌, IfOk};
ghost use Rattle.gb_goal.specs.Answers.{Answers};
ghost use Rattle.gb_operators.specs.Domain.{counts_to, type_in, written_as};

use gb_core::Shared;
use gb_core::refusal::Refused;
use gb_core::same::same_types;
use gb_core::ty::Ty;
use gb_goal::scope::Scope;
use gb_names::refusals::{argument, mismatch};
use gb_names::types::type_of;
use gb_script::tree::Node;
use std::alloc::{AllocError, Global};

/// The type of a function's variable.
pub enum Domain {
    /// This one.
    Exactly(Shared<Ty>),
    /// An `int[n]` that has the numbers below this one.
    Below(u32),
}

impl Drop for Domain {
    fn drop(self) {
        match self {
            Domain::Exactly(ty) => drop(ty),
            Domain::Below(_) => {}
        }
    }
}

/// The type of a variable to which the text gives none.
pub fn type_in(alloc: Global, domain: &Domain) -> Result<Shared<Ty>, AllocError>
    ensures { IfOk result (λ made. made ≡ type_in domain.now) }
{
    match domain {
        Domain::Exactly(ty) => ty.share(),
        Domain::Below(n) => Shared::new(alloc, Ty::Mod(*n)),
    }
}

/// Whether a type is an `int[n]` that has the numbers below a number.
fn counts_to(number: u32, ty: &Ty) -> bool
    ensures { result ≡ counts_to number ty.now }
{
    match ty {
        Ty::Mod(n) => number <= *n,
        _ => false,
    }
}

/// The type that the text gives a variable.
///
/// # Errors
///
/// `TypeMismatch` at a type that isn't the one of the domain, `Argument` at one that hasn't the numbers that are summed over;
/// those of `type_of`.
pub fn written_as(
    alloc: Global,
    scope: &Scope,
    domain: &Domain,
    written: &Node,
) -> Result<Shared<Ty>, Refused>
    ensures { Answers (written_as scope.now domain.now written.now) result }
{
    let ty = type_of(alloc, scope, written)?;
    match domain {
        Domain::Exactly(exact) => {
            if same_types(ty.get(), exact.get()) {
                Ok(ty)
            } else {
                Err(mismatch(written.place))
            }
        }
        Domain::Below(n) => {
            if counts_to(*n, ty.get()) {
                Ok(ty)
            } else {
                Err(argument(written.place))
            }
        }
    }
}
