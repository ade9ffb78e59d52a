// The first values of types, as terms.

ghost use Rattle.std.specs.Prelude.{◌≡◌, ◌++◌, IfOk};
ghost use Rattle.gb_forms.specs.Firsts.{first_of, firsts, none_got};

use gb_core::Shared;
use gb_core::ty::Ty;
use gb_core::value::Value;
use gb_terms::decl::TypedName;
use gb_terms::make::{leaf, unary};
use gb_terms::op::Op;
use gb_terms::term::{Head, Term, Terms};
use std::alloc::{AllocError, Global};

/// `oget None`, of this type.
fn none_got(alloc: Global, ty: Shared<Ty>) -> Result<Term, AllocError>
    ensures { IfOk result (λ made. made ≡ none_got ty) }
{
    let option = Shared::new(alloc, Ty::Opt(ty.share()?))?;
    let none = leaf(alloc, Head::Builtin(Op::None), option)?;
    unary(alloc, Op::Oget, none, ty)
}

/// The first value of a type.
fn first_of(alloc: Global, ty: &Shared<Ty>) -> Result<Term, AllocError>
    ensures { IfOk result (λ made. made ≡ first_of ty.now) }
{
    let shared = ty.share()?;
    match ty.get() {
        Ty::Unit | Ty::Bool | Ty::Bits(_) | Ty::Mod(_) | Ty::Enumeration { .. } => {
            leaf(alloc, Head::Lit(Value::Num(0)), shared)
        }
        Ty::Opt(_) => leaf(alloc, Head::Builtin(Op::None), shared),
        Ty::Map(_, _) => leaf(alloc, Head::Builtin(Op::Empty), shared),
        _ => none_got(alloc, shared),
    }
}

/// Terms, and behind them the first values of the types of locals.
pub fn with_firsts(alloc: Global, found: Terms, list: &[TypedName]) -> Result<Terms, AllocError>
    ensures { IfOk result (λ made. made ≡ found ++ firsts list.now) }
{
    let mut all = found;
    for local in list {
        all.push(first_of(alloc, &local.ty)?)?;
    }
    Ok(all)
}
