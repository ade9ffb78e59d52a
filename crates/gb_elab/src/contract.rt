// Judgments of one procedure.

ghost use Rattle.std.specs.Prelude.{◌≡◌, IfOk};
ghost use Rattle.std.specs.Option.{option_copied};
ghost use Rattle.gb_goal.specs.Answers.{Answers, ◌>>=◌ as ◌and_then◌};
ghost use Rattle.gb_goal.specs.Answers.Answer.{given};
ghost use Rattle.gb_names.specs.Allowed.{judgment};
ghost use Rattle.gb_names.specs.Environment.{environment};
ghost use Rattle.gb_elab.specs.OneProcedure.{always, ends, lossless, one, relation, with_chance};

use gb_core::Shared;
use gb_core::name::Name;
use gb_core::place::Place;
use gb_core::refusal::Refused;
use gb_core::ty::Ty;
use gb_names::allowed::judgment;
use gb_names::bindings::Binding;
use gb_names::judgment::one_procedure;
use gb_names::refusals::not_built;
use gb_names::setting::Setting;
use gb_script::tree::Node;
use gb_terms::make;
use gb_terms::module::ProcRef;
use gb_terms::op::{Op, Rel};
use gb_terms::term::{Form, Head, RealTerm, Subject};
use sqlite_items::Items;
use std::alloc::{AllocError, Global};

/// What a judgment of one procedure says but for its bound.
#[derive(Drop)]
pub struct Contract {
    pub procedure: Shared<ProcRef>,
    pub pre: Form,
    pub post: Form,
}

/// The judgment that a contract always holds.
pub fn always(alloc: Global, contract: Contract) -> Result<Form, AllocError>
    ensures { IfOk result (λ made. made ≡ always contract) }
{
    let Contract {
        procedure,
        pre,
        post,
    } = contract;
    let ty = make::truth_ty(alloc)?;
    let args = Items::from_vec(vec![in alloc; pre, post]?);
    make::term(alloc, Head::Hoare(Subject::Proc(procedure)), args, ty)
}

/// The judgment that a contract holds with a probability that stands so to a bound.
pub fn with_chance(
    alloc: Global,
    contract: Contract,
    rel: Rel,
    bound: RealTerm,
) -> Result<Form, AllocError>
    ensures { IfOk result (λ made. made ≡ with_chance contract rel bound) }
{
    let Contract {
        procedure,
        pre,
        post,
    } = contract;
    let ty = make::truth_ty(alloc)?;
    let args = Items::from_vec(vec![in alloc; pre, post, bound]?);
    make::term(alloc, Head::Phoare(Subject::Proc(procedure), rel), args, ty)
}

/// How a probability stands to the bound behind this sign.
pub fn relation(sign: &Name, place: Place) -> Result<Rel, Refused>
    ensures { Answers (relation sign.now place) result }
{
    let text = sign.as_str();
    if text == "<=" {
        Ok(Rel::AtMost)
    } else if text == "=" {
        Ok(Rel::Equal)
    } else if text == ">=" {
        Ok(Rel::AtLeast)
    } else {
        Err(not_built(place))
    }
}

/// `1%r`.
fn one(alloc: Global) -> Result<RealTerm, AllocError>
    ensures { IfOk result (λ made. made ≡ one) }
{
    let int = Shared::new(alloc, Ty::Int)?;
    let number = make::leaf(alloc, Head::Whole(1), int)?;
    let real = Shared::new(alloc, Ty::Real)?;
    make::unary(alloc, Op::ToReal, number, real)
}

/// The judgment that a procedure ends with probability 1.
fn ends(alloc: Global, procedure: Shared<ProcRef>) -> Result<Form, AllocError>
    ensures { IfOk result (λ made. made ≡ ends procedure) }
{
    let pre = make::boolean(alloc, true)?;
    let post = make::boolean(alloc, true)?;
    let bound = one(alloc)?;
    let contract = Contract {
        procedure,
        pre,
        post,
    };
    with_chance(alloc, contract, Rel::Equal, bound)
}

/// The judgment that a procedure of the text ends.
///
/// # Errors
///
/// `Argument` where no judgment may stand, `TypeMismatch` where another type than that of truths is wanted, and those of
/// `one_procedure`.
pub fn lossless(
    alloc: Global,
    at: &Setting<'_>,
    bound: &[Binding],
    parts: &[Node],
    place: Place,
    want: Option<&Ty>,
) -> Result<Form, Refused>
    ensures { Answers (judgment (environment at.now) (option_copied want.entry) place and_then λ _. lossless (environment at.now) bound.now parts.now place) result }
{
    judgment(at, want, place)?;
    match parts {
        [procedure] => {
            let named = one_procedure(alloc, at, bound, procedure, place)?;
            let procedure = named.reference.share()?;
            Ok(ends(alloc, procedure)?)
        }
        _ => Err(not_built(place)),
    }
}
