// What a term is evaluated in.

ghost use Rattle.std.specs.Prelude.{◌≡◌, reverse};
ghost use Rattle.std.specs.Option.{option_copied};
ghost use Rattle.gb_eval.specs.Findings.{Finds, Gives, argument_of, finding_of, shown};
ghost use Rattle.gb_eval.specs.Eval.{bound_at, held_in, value_among, value_bound, value_of};

use crate::answer::{Answer, Stop};
use crate::script::Script;
use gb_core::Shared;
use gb_core::ty::Ty;
use gb_core::value::Value;
use gb_core::var::Var;
use gb_dist::frac::Frac;
use gb_labels::held::{HeldValues, value_of as held_value};
use gb_labels::labels::Label;
use gb_terms::op::{Read, Side};
use gb_terms::same::same_read;
use gb_walk::clash::Excluded;
use sqlite_items::Items;

/// A read, and its value.
pub struct ReadValue {
    pub read: Shared<Read>,
    pub value: Value,
}

impl Drop for ReadValue {
    fn drop(self) {
        let ReadValue { read, value } = self;
        drop(read);
        drop(value);
    }
}

pub type ReadValues = Items<ReadValue>;

/// The operators of the script, the values of reads, what restrictions of abstract modules exclude, and for each abstract module how
/// many labels stand for the values of all its globals.
#[derive(Clone, Copy)]
pub struct Env<'a> {
    pub script: Script<'a>,
    pub reads: &'a [ReadValue],
    pub exclusions: &'a [Excluded],
    pub labels: &'a [Label],
}

/// What a bound variable stands for; a memory by the values of what is read of it.
pub enum Bound {
    Value(Value),
    Whole(i128),
    Fraction(Frac),
    Memory(HeldValues),
}

impl Drop for Bound {
    fn drop(self) {
        match self {
            Bound::Value(a) => drop(a),
            Bound::Whole(_) => {}
            Bound::Fraction(_) => {}
            Bound::Memory(a) => drop(a),
        }
    }
}

/// What stands for the variables that are bound around a term, the innermost last.
pub type Bounds = Items<Bound>;

/// The value of a read by the first of these that is of it, where there is one.
fn value_among(reads: &[ReadValue], read: &Read) -> Result<Answer, Stop>
    ensures { Gives shown (value_among reads.now read.now) result }
{
    for entry in reads {
        if same_read(entry.read.get(), read) {
            let value = entry.value.share()?;
            return Ok(Answer::Value(value));
        }
    }
    Err(Stop::Unknown)
}

/// What stands for a bound variable or memory, by the number of binders between. The innermost stands last.
#[tactic(auto, using(crate::proofs::Places::bound_within, crate::proofs::Places::bound_outside))]
fn bound_at(bound: &[Bound], index: u32) -> Option<&Bound>
    ensures { option_copied result ≡ bound_at (reverse bound.now) index }
{
    let between = index as usize;
    if between < bound.len() {
        Some(&bound[bound.len() - 1 - between])
    } else {
        None
    }
}

/// The value of a variable at a type, in a memory that is bound.
fn held_in(bound: &[Bound], index: u32, var: &Var, ty: &Ty) -> Result<Answer, Stop>
    ensures { Gives shown (held_in (bound_at (reverse bound.now) index) var.now ty.now) result }
{
    let Some(Bound::Memory(held)) = bound_at(bound, index) else {
        return Err(Stop::Unknown);
    };
    match held_value(held.as_slice(), var, ty) {
        Some(value) => Ok(Answer::Value(value.share()?)),
        None => Err(Stop::Unknown),
    }
}

/// The value of a read at a type: of a memory that a binder binds as it holds it, of anything else as it is given.
pub fn value_of(reads: &[ReadValue], bound: &[Bound], read: &Read, ty: &Ty) -> Result<Answer, Stop>
    ensures { Gives shown (value_of reads.now (reverse bound.now) read.now ty.now) result }
{
    match read {
        Read::Program {
            var,
            side: Side::Bound(index),
        } => held_in(bound, *index, var, ty),
        _ => value_among(reads, read),
    }
}

/// What a variable stands for, as an answer.
fn answer_of(bound: &Bound) -> Result<Answer, Stop>
    ensures { Gives shown (finding_of bound.now) result }
{
    match bound {
        Bound::Value(v) => Ok(Answer::Value(v.share()?)),
        Bound::Whole(n) => Ok(Answer::Whole(*n)),
        Bound::Fraction(a) => Ok(Answer::Fraction(*a)),
        Bound::Memory(_) => Err(Stop::Unknown),
    }
}

/// What a parameter stands for where the argument is this answer.
pub fn argument_of(answer: Answer) -> Result<Bound, Stop>
    ensures { Finds (argument_of (shown answer)) result }
{
    match &answer {
        Answer::Value(v) => {
            let value = v.share()?;
            Ok(Bound::Value(value))
        }
        Answer::Whole(n) => Ok(Bound::Whole(*n)),
        Answer::Fraction(a) => Ok(Bound::Fraction(*a)),
        Answer::Table(_) => Err(Stop::Unknown),
    }
}

/// What a bound variable stands for, by the number of binders between.
pub fn value_bound(bound: &[Bound], index: u32) -> Result<Answer, Stop>
    ensures { Gives shown (value_bound (reverse bound.now) index) result }
{
    match bound_at(bound, index) {
        Some(one) => answer_of(one),
        None => Err(Stop::Unknown),
    }
}
