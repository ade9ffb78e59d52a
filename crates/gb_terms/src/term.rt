// Typed trees.

use crate::module::{Bind, Mexp, ProcRef};
use crate::op::{Op, Read, Rel, Side};
use gb_core::name::Name;
use gb_core::ty::Ty;
use gb_core::value::Value;
use gb_core::var::Var;
use gb_core::{Shared, SharedItems};
use sqlite_items::Items;

/// A value and its weight.
#[derive(Drop)]
pub struct Pair {
    pub value: Value,
    pub weight: u128,
}

pub type Pairs = Items<Pair>;

/// A typed tree: expressions, formulas, reals and distributions, by the type. What it holds may have other owners, so that
/// a tree is small where it is held, and the same tree again takes no memory.
#[cycle(term)]
pub struct Term {
    pub head: Shared<Head>,
    pub args: SharedItems<Term>,
    pub ty: Shared<Ty>,
}

impl Drop for Term {
    #[cycle(term_drop)]
    fn drop(self) {
        let Term { head, args, ty } = self;
        drop(head);
        drop(args);
        drop(ty);
    }
}

pub type Terms = Items<Term>;
/// A term of type `bool`.
pub type Form = Term;
/// A term of type `real`.
pub type RealTerm = Term;
/// A term whose type is a distribution.
pub type DistTerm = Term;

/// What stands at the top of a term. A binder binds one thing in its last argument; bound things count the binders
/// of every kind between, so that equal trees are equal up to names. The arguments of a judgment are its
/// precondition, its postcondition and, where it has one, its bound.
#[cycle(term)]
pub enum Head {
    Lit(Value),
    /// A whole number of type `int`.
    Whole(i128),
    Read(Read),
    Bound(u32),
    Builtin(Op),
    /// An operator of the script.
    User(Name),
    All(Shared<Ty>),
    Some(Shared<Ty>),
    AllMemory,
    SomeMemory,
    AllModule(Shared<Bind>),
    /// The measure of an event: the distribution and the event, which binds an outcome.
    Mu,
    /// The sum over the whole numbers below a number.
    Sum(u128),
    /// The distribution of stated weights.
    Weights(SharedItems<Pair>),
    /// The image of a distribution: the distribution, and the image of an outcome.
    Map,
    /// The part of a distribution on which a test holds: the distribution, and the test of an outcome.
    Restrict,
    /// The probability of an event after a procedure from a memory: the arguments, and last the event.
    Pr(Shared<ProcRef>, Side),
    /// The values of all globals of a module.
    Glob(Shared<Mexp>, Side),
    Hoare(Subject),
    Phoare(Subject, Rel),
    Equiv(Subject, Subject),
}

impl Drop for Head {
    #[cycle(term_drop)]
    fn drop(self) {
        match self {
            Head::Lit(a) => drop(a),
            Head::Whole(_) => {}
            Head::Read(a) => drop(a),
            Head::Bound(_) => {}
            Head::Builtin(_) => {}
            Head::User(a) => drop(a),
            Head::All(a) => drop(a),
            Head::Some(a) => drop(a),
            Head::AllMemory => {}
            Head::SomeMemory => {}
            Head::AllModule(a) => drop(a),
            Head::Mu => {}
            Head::Sum(_) => {}
            Head::Weights(a) => drop(a),
            Head::Map => {}
            Head::Restrict => {}
            Head::Pr(a, _) => drop(a),
            Head::Glob(a, _) => drop(a),
            Head::Hoare(a) => drop(a),
            Head::Phoare(a, _) => drop(a),
            Head::Equiv(a, b) => {
                drop(a);
                drop(b);
            }
        }
    }
}

/// What a judgment speaks of.
#[cycle(term)]
pub enum Subject {
    Proc(Shared<ProcRef>),
    Body(Cmd),
}

impl Drop for Subject {
    #[cycle(term_drop)]
    fn drop(self) {
        match self {
            Subject::Proc(a) => drop(a),
            Subject::Body(a) => drop(a),
        }
    }
}

/// A list of statements.
#[cycle(term)]
pub struct Cmd {
    pub list: SharedItems<Instr>,
}

impl Drop for Cmd {
    #[cycle(term_drop)]
    fn drop(self) {
        let Cmd { list } = self;
        drop(list);
    }
}

pub type Instrs = Items<Instr>;

/// A statement. A call has its left side, its procedure and its arguments; a loop its guard, its variant and its body.
#[cycle(term)]
pub enum Instr {
    Assign(SharedItems<Var>, Term),
    Sample(Var, Term),
    Call(SharedItems<Var>, Shared<ProcRef>, SharedItems<Term>),
    If(Term, Cmd, Cmd),
    While(Term, Term, Cmd),
}

impl Drop for Instr {
    #[cycle(term_drop)]
    fn drop(self) {
        match self {
            Instr::Assign(a, b) => {
                drop(a);
                drop(b);
            }
            Instr::Sample(a, b) => {
                drop(a);
                drop(b);
            }
            Instr::Call(a, b, c) => {
                drop(a);
                drop(b);
                drop(c);
            }
            Instr::If(a, b, c) => {
                drop(a);
                drop(b);
                drop(c);
            }
            Instr::While(a, b, c) => {
                drop(a);
                drop(b);
                drop(c);
            }
        }
    }
}
