// Equality of typed trees and declarations: it takes no memory.

ghost use Rattle.std.specs.Prelude.{◌≡◌, ◌↔◌, IsTrue, IsFalse};
ghost use Rattle.gb_terms.specs.Equal.{side_eq, read_eq};
ghost use Rattle.gb_terms.specs.Heads.{is_judgment};
ghost use Rattle.gb_terms.specs.Operators.{op_place, op_part};
ghost use Rattle.gb_terms.specs.SameModules.{mexp_eq};

use crate::module::{Bind, Bound, Mexp, ProcRef};
use crate::op::{Op, Read, Rel, Side};
use crate::term::{Cmd, Head, Instr, Pair, Subject, Term};
use gb_core::name::Name;
use gb_core::same::{same_name, same_ty, same_value, same_var};
use gb_core::var::Var;

fn place_of_op(op: &Op) -> u8
    ensures { result ≡ op_place op.now }
{
    match op {
        Op::Not => 0,
        Op::And => 1,
        Op::Or => 2,
        Op::Implies => 3,
        Op::Iff => 4,
        Op::Equal => 5,
        Op::NotEqual => 6,
        Op::Less => 7,
        Op::AtMost => 8,
        Op::Plus => 9,
        Op::Minus => 10,
        Op::Times => 11,
        Op::Negate => 12,
        Op::Xor => 13,
        Op::Divide => 14,
        Op::ToReal => 15,
        Op::Abs => 16,
        Op::If => 17,
        Op::Tuple => 18,
        Op::Part(_) => 19,
        Op::Some => 20,
        Op::None => 21,
        Op::Oget => 22,
        Op::Empty => 23,
        Op::Get => 24,
        Op::Set => 25,
        Op::InMap => 26,
        Op::InSupport => 27,
        Op::Mu1 => 28,
        Op::Coin => 29,
        Op::Uniform => 30,
        Op::Dunit => 31,
        Op::Product => 32,
    }
}

fn part_of_op(op: &Op) -> u8
    ensures { result ≡ op_part op.now }
{
    match op {
        Op::Part(part) => *part,
        _ => 0,
    }
}

#[tactic(auto, using(crate::proofs::Operators::same_operator))]
pub fn same_op(a: &Op, b: &Op) -> bool
    ensures { IsTrue result ↔ a.now ≡ b.now }
{
    place_of_op(a) == place_of_op(b) && part_of_op(a) == part_of_op(b)
}

pub fn same_rel(a: &Rel, b: &Rel) -> bool
    ensures { IsTrue result ↔ a.now ≡ b.now }
{
    *a == *b
}

#[tactic(auto, using(crate::proofs::Equality::side_test))]
pub fn same_side(a: &Side, b: &Side) -> bool
    ensures equal { IsTrue result ↔ a.now ≡ b.now }
    ensures test { result ≡ side_eq a.now b.now }
{
    *a == *b
}

#[tactic(auto, using(crate::proofs::Equality::var_test))]
pub fn same_read(a: &Read, b: &Read) -> bool
    ensures equal { IsTrue result ↔ a.now ≡ b.now }
    ensures test { result ≡ read_eq a.now b.now }
{
    match a {
        Read::Logical(i) => match b {
            Read::Logical(j) => *i == *j,
            _ => false,
        },
        Read::Program { var: v, side: s } => match b {
            Read::Program { var: w, side: t } => same_var(v, w) && same_side(s, t),
            _ => false,
        },
    }
}

#[cycle(same_mexp)]
pub fn same_mexp(a: &Mexp, b: &Mexp) -> bool
    ensures { IsTrue result ↔ a.now ≡ b.now }
{
    match a {
        Mexp::Name(x) => match b {
            Mexp::Name(y) => same_name(x, y),
            _ => false,
        },
        Mexp::Apply(x, ms) => match b {
            Mexp::Apply(y, ns) => same_name(x, y) && same_mexps(ms.as_slice(), ns.as_slice()),
            _ => false,
        },
    }
}

#[cycle(same_mexp)]
fn same_mexps(a: &[Mexp], b: &[Mexp]) -> bool
    ensures { IsTrue result ↔ a.now ≡ b.now }
{
    if a.len() != b.len() {
        return false;
    }
    for i in 0..a.len() {
        if !same_mexp(&a[i], &b[i]) {
            return false;
        }
    }
    true
}

/// Whether two module expressions are one, by the test that definitions choose by.
pub fn same_module(a: &Mexp, b: &Mexp) -> bool
    ensures { result ≡ mexp_eq a.now b.now }
{
    same_mexp(a, b)
}

pub fn same_proc_ref(a: &ProcRef, b: &ProcRef) -> bool
    ensures { IsTrue result ↔ a.now ≡ b.now }
{
    same_mexp(&a.module, &b.module) && same_name(&a.name, &b.name)
}

pub fn same_names(a: &[Name], b: &[Name]) -> bool
    ensures { IsTrue result ↔ a.now ≡ b.now }
{
    if a.len() != b.len() {
        return false;
    }
    for i in 0..a.len() {
        if !same_name(&a[i], &b[i]) {
            return false;
        }
    }
    true
}

pub fn same_vars(a: &[Var], b: &[Var]) -> bool
    ensures { IsTrue result ↔ a.now ≡ b.now }
{
    if a.len() != b.len() {
        return false;
    }
    for i in 0..a.len() {
        if !same_var(&a[i], &b[i]) {
            return false;
        }
    }
    true
}

fn same_bound(a: &Bound, b: &Bound) -> bool
    ensures { IsTrue result ↔ a.now ≡ b.now }
{
    same_names(a.procs.as_slice(), b.procs.as_slice())
        && same_proc_ref(&a.oracle, &b.oracle)
        && a.most == b.most
}

fn same_bounds(a: &[Bound], b: &[Bound]) -> bool
    ensures { IsTrue result ↔ a.now ≡ b.now }
{
    if a.len() != b.len() {
        return false;
    }
    for i in 0..a.len() {
        if !same_bound(&a[i], &b[i]) {
            return false;
        }
    }
    true
}

pub fn same_bind(a: &Bind, b: &Bind) -> bool
    ensures { IsTrue result ↔ a.now ≡ b.now }
{
    same_name(&a.name, &b.name)
        && same_name(&a.ty, &b.ty)
        && same_names(a.minus.as_slice(), b.minus.as_slice())
        && same_bounds(a.bounds.as_slice(), b.bounds.as_slice())
}

fn same_pair(a: &Pair, b: &Pair) -> bool
    ensures { IsTrue result ↔ a.now ≡ b.now }
{
    same_value(&a.value, &b.value) && a.weight == b.weight
}

fn same_pairs(a: &[Pair], b: &[Pair]) -> bool
    ensures { IsTrue result ↔ a.now ≡ b.now }
{
    if a.len() != b.len() {
        return false;
    }
    for i in 0..a.len() {
        if !same_pair(&a[i], &b[i]) {
            return false;
        }
    }
    true
}

// The equality of a head that holds no program with any head.
fn same_plain_head(a: &Head, b: &Head) -> bool
    requires { IsFalse (is_judgment a.now) }
    ensures { IsTrue result ↔ a.now ≡ b.now }
{
    match a {
        Head::Lit(v) => match b {
            Head::Lit(w) => same_value(v, w),
            _ => false,
        },
        Head::Whole(m) => match b {
            Head::Whole(n) => *m == *n,
            _ => false,
        },
        Head::Read(r) => match b {
            Head::Read(s) => same_read(r, s),
            _ => false,
        },
        Head::Bound(m) => match b {
            Head::Bound(n) => *m == *n,
            _ => false,
        },
        Head::Builtin(m) => match b {
            Head::Builtin(n) => same_op(m, n),
            _ => false,
        },
        Head::User(x) => match b {
            Head::User(y) => same_name(x, y),
            _ => false,
        },
        Head::All(t) => match b {
            Head::All(u) => same_ty(t.get(), u.get()),
            _ => false,
        },
        Head::Some(t) => match b {
            Head::Some(u) => same_ty(t.get(), u.get()),
            _ => false,
        },
        Head::AllMemory => matches!(b, Head::AllMemory),
        Head::SomeMemory => matches!(b, Head::SomeMemory),
        Head::AllModule(m) => match b {
            Head::AllModule(n) => same_bind(m.get(), n.get()),
            _ => false,
        },
        Head::Mu => matches!(b, Head::Mu),
        Head::Sum(m) => match b {
            Head::Sum(n) => *m == *n,
            _ => false,
        },
        Head::Weights(ps) => match b {
            Head::Weights(qs) => same_pairs(ps.as_slice(), qs.as_slice()),
            _ => false,
        },
        Head::Map => matches!(b, Head::Map),
        Head::Restrict => matches!(b, Head::Restrict),
        Head::Pr(p, s) => match b {
            Head::Pr(q, t) => same_proc_ref(p.get(), q.get()) && same_side(s, t),
            _ => false,
        },
        Head::Glob(m, s) => match b {
            Head::Glob(n, t) => same_mexp(m.get(), n.get()) && same_side(s, t),
            _ => false,
        },
        Head::Hoare(_) | Head::Phoare(..) | Head::Equiv(..) => unreachable!(),
    }
}

/// Whether two terms are equal: equal trees are terms that are equal up to names.
#[cycle(same_term)]
pub fn same(a: &Term, b: &Term) -> bool
    ensures { IsTrue result ↔ a.now ≡ b.now }
{
    same_head(a.head.get(), b.head.get())
        && same_terms(a.args.as_slice(), b.args.as_slice())
        && same_ty(a.ty.get(), b.ty.get())
}

#[cycle(same_term)]
pub fn same_terms(a: &[Term], b: &[Term]) -> bool
    ensures { IsTrue result ↔ a.now ≡ b.now }
{
    if a.len() != b.len() {
        return false;
    }
    for i in 0..a.len() {
        if !same(&a[i], &b[i]) {
            return false;
        }
    }
    true
}

#[cycle(same_term)]
pub fn same_head(a: &Head, b: &Head) -> bool
    ensures { IsTrue result ↔ a.now ≡ b.now }
{
    match a {
        Head::Hoare(s) => match b {
            Head::Hoare(t) => same_subject(s, t),
            _ => false,
        },
        Head::Phoare(s, m) => match b {
            Head::Phoare(t, n) => same_subject(s, t) && same_rel(m, n),
            _ => false,
        },
        Head::Equiv(s, u) => match b {
            Head::Equiv(t, v) => same_subject(s, t) && same_subject(u, v),
            _ => false,
        },
        _ => same_plain_head(a, b),
    }
}

#[cycle(same_term)]
pub fn same_subject(a: &Subject, b: &Subject) -> bool
    ensures { IsTrue result ↔ a.now ≡ b.now }
{
    match a {
        Subject::Proc(p) => match b {
            Subject::Proc(q) => same_proc_ref(p.get(), q.get()),
            _ => false,
        },
        Subject::Body(c) => match b {
            Subject::Body(d) => same_cmd(c, d),
            _ => false,
        },
    }
}

#[cycle(same_term)]
pub fn same_cmd(a: &Cmd, b: &Cmd) -> bool
    ensures { IsTrue result ↔ a.now ≡ b.now }
{
    same_instrs(a.list.as_slice(), b.list.as_slice())
}

#[cycle(same_term)]
pub fn same_instrs(a: &[Instr], b: &[Instr]) -> bool
    ensures { IsTrue result ↔ a.now ≡ b.now }
{
    if a.len() != b.len() {
        return false;
    }
    for i in 0..a.len() {
        if !same_instr(&a[i], &b[i]) {
            return false;
        }
    }
    true
}

#[cycle(same_term)]
fn same_instr(a: &Instr, b: &Instr) -> bool
    ensures { IsTrue result ↔ a.now ≡ b.now }
{
    match a {
        Instr::Assign(xs, e) => match b {
            Instr::Assign(ys, f) => same_vars(xs.as_slice(), ys.as_slice()) && same(e, f),
            _ => false,
        },
        Instr::Sample(x, d) => match b {
            Instr::Sample(y, e) => same_var(x, y) && same(d, e),
            _ => false,
        },
        Instr::Call(xs, p, es) => match b {
            Instr::Call(ys, q, fs) => {
                same_vars(xs.as_slice(), ys.as_slice())
                    && same_proc_ref(p.get(), q.get())
                    && same_terms(es.as_slice(), fs.as_slice())
            }
            _ => false,
        },
        Instr::If(e, c, d) => match b {
            Instr::If(f, g, h) => same(e, f) && same_cmd(c, g) && same_cmd(d, h),
            _ => false,
        },
        Instr::While(e, v, c) => match b {
            Instr::While(f, w, d) => same(e, f) && same(v, w) && same_cmd(c, d),
            _ => false,
        },
    }
}
