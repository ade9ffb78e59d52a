// Samplings at the end of bodies.

ghost use Rattle.std.specs.Prelude.{◌≡◌, IfOk};
ghost use Rattle.std.specs.Option.{option_map};
ghost use Rattle.gb_typing.specs.Samplings.{sampling_of, of_statement, last_sampling};

use gb_core::ty::Ty;
use gb_core::var::Var;
use gb_core::{Shared, SharedItems};
use gb_terms::share::share_instrs;
use gb_terms::term::{Instr, Term};
use std::alloc::{AllocError, Global};

/// The sampling that ends a body, and what stands before it.
#[derive(Clone, Copy)]
pub struct Last<'a> {
    pub before: &'a [Instr],
    pub target: &'a Var,
    pub from: &'a Term,
    pub ty: &'a Shared<Ty>,
}

/// The sampling that a statement is, behind these statements.
fn sampling<'a>(before: &'a [Instr], last: &'a Instr) -> Option<Last<'a>>
    ensures { option_map sampling_of result ≡ of_statement before.now last.now }
{
    match last {
        Instr::Sample(target, from) => match from.ty.get() {
            Ty::Distr(ty) => Some(Last {
                before,
                target,
                from,
                ty,
            }),
            _ => None,
        },
        _ => None,
    }
}

/// The sampling that a body ends with.
#[tactic(auto, using(crate::proofs::LastSampling::last_statement, crate::proofs::LastSampling::no_statement))]
pub fn last_sampling(body: &[Instr]) -> Option<Last<'_>>
    ensures { option_map sampling_of result ≡ last_sampling body.now }
{
    match body.split_last() {
        Some((last, before)) => sampling(before, last),
        None => None,
    }
}

/// The statements before a sampling.
pub fn rest_of(alloc: Global, sampling: &Last<'_>) -> Result<SharedItems<Instr>, AllocError>
    ensures { IfOk result (λ made. made ≡ sampling.now.before.now) }
{
    let list = share_instrs(alloc, sampling.before)?;
    SharedItems::new(alloc, list)
}
