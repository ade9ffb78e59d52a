// Where an operand has its type by the place where it stands, and which forms ask for that.

ghost use Rattle.std.specs.Prelude.{◌≡◌, map, IfOk};
ghost use Rattle.std.specs.Option.{option_copied};
ghost use Rattle.gb_print_names.specs.Open.{is_named, is_int, is_open, needs_type, right_first, operator_tells, tells, type_read, first_found, open_operator};
ghost use Rattle.gb_walk.specs.Layers.{seen_by};

use gb_core::ty::Ty;
use gb_terms::op::Op;
use gb_terms::term::{Head, Term};
use gb_walk::binders::is_binder;
use std::alloc::AllocError;

/// Whether a literal of this type has a name that says its type.
fn is_named(t: &Ty) -> bool
    ensures { result ≡ is_named t.now }
{
    matches!(t, Ty::Unit | Ty::Bool | Ty::Enumeration { .. })
}

fn is_int(t: &Ty) -> bool
    ensures { result ≡ is_int t.now }
{
    matches!(t, Ty::Int)
}

/// Whether the text of a form alone doesn't say its type.
#[cycle(open)]
pub fn is_open(t: &Term) -> bool
    ensures { result ≡ is_open t.now }
{
    match (t.head.get(), t.args.as_slice()) {
        (Head::Lit(_), _) => !is_named(t.ty.get()),
        (Head::Whole(_), _) => true,
        (Head::Builtin(op), args) => is_open_operator(*op, args),
        _ => false,
    }
}

/// Whether an operator is open at these operands.
#[cycle(open)]
fn is_open_operator(op: Op, args: &[Term]) -> bool
    ensures { result ≡ open_operator op (map is_open args.now) }
{
    match (op, args) {
        (Op::None | Op::Empty, []) => true,
        (Op::Some | Op::Negate, [a]) => is_open(a),
        (Op::Plus | Op::Minus | Op::Times | Op::Xor, [a, b]) => is_open(a) && is_open(b),
        _ => false,
    }
}

/// Whether a form is printed with its type, where this is known by its place or isn't.
pub fn needs_type(known: bool, t: &Term) -> bool
    ensures { result ≡ needs_type known t.now }
{
    !known && is_open(t) && !is_int(t.ty.get())
}

/// Whether the right one of two operands is typed first.
pub fn right_first(args: &[Term]) -> bool
    ensures { result ≡ right_first args.now }
{
    match args {
        [a, b] => is_open(a) && !is_open(b),
        _ => false,
    }
}

/// Whether an operand of an operator has its type by its place.
fn operator_tells(op: Op, first: bool, known: bool, i: usize) -> bool
    ensures { result ≡ operator_tells op first known i }
{
    let by_other = if i == 0 { first } else { !first };
    match op {
        Op::Equal | Op::NotEqual | Op::Less | Op::AtMost => by_other,
        Op::Plus | Op::Minus | Op::Times | Op::Xor => known || by_other,
        Op::InMap | Op::InSupport => i == 0 && first,
        Op::Negate | Op::Tuple | Op::Some | Op::Oget | Op::Dunit | Op::Product => known,
        Op::ToReal | Op::Part(_) => false,
        Op::If => known || i != 1,
        Op::Get | Op::Mu1 => i != 0,
        Op::Set => known || i != 0,
        _ => true,
    }
}

/// Whether an argument of a head has its type by its place.
pub fn tells(head: &Head, first: bool, known: bool, i: usize, last: bool) -> bool
    ensures { result ≡ tells head.now first known i last }
{
    match head {
        Head::Builtin(op) => operator_tells(*op, first, known, i),
        Head::Mu => last,
        Head::Map => last && known,
        Head::Restrict => last || known,
        _ => true,
    }
}

/// The type at which a term reads what is bound so many binders outside of it.
#[cycle(found)]
#[tactic(auto, using(crate::proofs::OpenSteps::type_read_is))]
pub fn type_read(t: &Term, k: u32) -> Result<Option<&Ty>, AllocError>
    ensures { IfOk result (λ found. option_copied found ≡ type_read t.now k) }
{
    let head = t.head.get();
    if let Head::Bound(j) = head {
        return Ok(if *j == k { Some(t.ty.get()) } else { None });
    }
    let last = if is_binder(head) {
        k.checked_add(1).ok_or(AllocError)?
    } else {
        k
    };
    type_read_in(t.args.as_slice(), k, last)
}

/// The same of arguments, the last one of which lies under a binder.
#[cycle(found)]
fn type_read_in(args: &[Term], k: u32, last: u32) -> Result<Option<&Ty>, AllocError>
    ensures { IfOk result (λ found. option_copied found ≡ first_found (seen_by k last (map type_read args.now))) }
{
    for i in 0..args.len() {
        let at = if args[i + 1..].is_empty() { last } else { k };
        let found = type_read(&args[i], at)?;
        if found.is_some() {
            return Ok(found);
        }
    }
    Ok(None)
}
