// Changes of a tree.

ghost use Rattle.std.specs.Prelude.{◌≡◌, IfOk, unwrap_or};
ghost use Rattle.std.specs.Option.{option_copied};
ghost use Rattle.gb_walk.specs.Change.{is_read_through, is_own, is_left_or_right, without, under_binder, or_given, seen_by_args, seen_by_last, found_for_read, found_for_bound, found, side_changed};

use crate::binders::is_binder;
use crate::raise::{raised, raised_read, raised_side};
use gb_terms::op::{Read, Side};
use gb_terms::same::{same_read, same_side};
use gb_terms::share::copy_read;
use gb_terms::term::{Head, Term};
use sqlite_items::Items;
use std::alloc::{AllocError, Global};

/// One change of a tree.
pub enum Change {
    /// A read becomes a term.
    ToTerm(Read, Term),
    /// A bound variable, which is bound outside of the tree, becomes a term.
    OfBound(u32, Term),
    /// Every read through the first memory goes through the second one.
    ToSide(Side, Side),
}

impl Drop for Change {
    fn drop(self) {
        match self {
            Change::ToTerm(read, term) => {
                drop(read);
                drop(term);
            }
            Change::OfBound(_, term) => drop(term),
            Change::ToSide(_, _) => {}
        }
    }
}

pub type Changes = Items<Change>;

/// Whether this is the one memory of a judgment on one program, or of an event.
pub fn is_own(side: &Side) -> bool
    ensures { result ≡ is_own side.now }
{
    matches!(side, Side::Own)
}

/// Whether this is one of the two memories of an equivalence.
pub fn is_left_or_right(side: &Side) -> bool
    ensures { result ≡ is_left_or_right side.now }
{
    matches!(side, Side::Left | Side::Right)
}

fn reads_through_own(read: &Read) -> bool
    ensures { result ≡ is_read_through is_own read.now }
{
    match read {
        Read::Logical(_) => false,
        Read::Program { side, .. } => is_own(side),
    }
}

fn reads_through_left_or_right(read: &Read) -> bool
    ensures { result ≡ is_read_through is_left_or_right read.now }
{
    match read {
        Read::Logical(_) => false,
        Read::Program { side, .. } => is_left_or_right(side),
    }
}

impl Change {
    ghost use Rattle.gb_walk.specs.Change.{is_through, is_own, is_left_or_right, change_raised};

    /// Whether this is a change of reads through the one memory of a program or a judgment.
    fn is_of_own(&self) -> bool
        ensures { result ≡ is_through is_own self.now }
    {
        match self {
            Change::ToTerm(read, _) => reads_through_own(read),
            Change::OfBound(..) => false,
            Change::ToSide(from, _) => is_own(from),
        }
    }

    /// Whether this is a change of reads through the left or the right memory.
    fn is_of_left_or_right(&self) -> bool
        ensures { result ≡ is_through is_left_or_right self.now }
    {
        match self {
            Change::ToTerm(read, _) => reads_through_left_or_right(read),
            Change::OfBound(..) => false,
            Change::ToSide(from, _) => is_left_or_right(from),
        }
    }

    fn copy(&self, alloc: Global) -> Result<Change, AllocError>
        ensures { IfOk result (λ c. c ≡ self.now) }
    {
        match self {
            Change::ToTerm(read, term) => {
                let term = term.share()?;
                let read = copy_read(alloc, read)?;
                Ok(Change::ToTerm(read, term))
            }
            Change::OfBound(index, term) => {
                let term = term.share()?;
                Ok(Change::OfBound(*index, term))
            }
            Change::ToSide(from, to) => Ok(Change::ToSide(*from, *to)),
        }
    }

    /// The change under one binder more.
    fn raised(&self, alloc: Global) -> Result<Change, AllocError>
        ensures { IfOk result (λ c. c ≡ change_raised self.now) }
    {
        match self {
            Change::ToTerm(read, term) => {
                let term = raised(alloc, term, 0)?;
                let read = raised_read(alloc, read, 0)?;
                Ok(Change::ToTerm(read, term))
            }
            Change::OfBound(index, term) => {
                let index = index.checked_add(1).ok_or(AllocError)?;
                let term = raised(alloc, term, 0)?;
                Ok(Change::OfBound(index, term))
            }
            Change::ToSide(from, to) => {
                let from = raised_side(*from, 0)?;
                let to = raised_side(*to, 0)?;
                Ok(Change::ToSide(from, to))
            }
        }
    }
}

/// The changes that enter a judgment on one program, or a body.
pub fn without_own(alloc: Global, changes: &[Change]) -> Result<Changes, AllocError>
    ensures { IfOk result (λ cs. cs ≡ without is_own changes.now) }
{
    let mut out = Items::new(alloc);
    for change in changes {
        if !change.is_of_own() {
            out.push(change.copy(alloc)?)?;
        }
    }
    Ok(out)
}

/// The changes that enter a judgment on two programs.
pub fn without_left_and_right(alloc: Global, changes: &[Change]) -> Result<Changes, AllocError>
    ensures { IfOk result (λ cs. cs ≡ without is_left_or_right changes.now) }
{
    let mut out = Items::new(alloc);
    for change in changes {
        if !change.is_of_left_or_right() {
            out.push(change.copy(alloc)?)?;
        }
    }
    Ok(out)
}

/// The changes under one binder more.
pub fn under_binder(alloc: Global, changes: &[Change]) -> Result<Changes, AllocError>
    ensures { IfOk result (λ cs. cs ≡ under_binder changes.now) }
{
    let mut out = Items::new(alloc);
    for change in changes {
        out.push(change.raised(alloc)?)?;
    }
    Ok(out)
}

/// The changes that the arguments of a head see, where they aren't those that the head sees.
pub fn seen_by_args(
    alloc: Global,
    head: &Head,
    changes: &[Change],
) -> Result<Option<Changes>, AllocError>
    ensures { IfOk result (λ seen. or_given seen changes.now ≡ seen_by_args head.now changes.now) }
{
    match head {
        Head::Hoare(_) | Head::Phoare(..) => Ok(Some(without_own(alloc, changes)?)),
        Head::Equiv(..) => Ok(Some(without_left_and_right(alloc, changes)?)),
        _ => Ok(None),
    }
}

/// The changes that the last argument of a head sees, where they aren't those that the head sees: a binder binds
/// something there, and a probability has its event.
pub fn seen_by_last(
    alloc: Global,
    head: &Head,
    changes: &[Change],
) -> Result<Option<Changes>, AllocError>
    ensures { IfOk result (λ seen. or_given seen changes.now ≡ seen_by_last head.now changes.now) }
{
    if is_binder(head) {
        return Ok(Some(under_binder(alloc, changes)?));
    }
    match head {
        Head::Pr(..) => Ok(Some(without_own(alloc, changes)?)),
        _ => seen_by_args(alloc, head, changes),
    }
}

/// The term that takes the place of a read.
fn found_for_read<'a>(changes: &'a [Change], read: &Read) -> Option<&'a Term>
    ensures { option_copied result ≡ found_for_read changes.now read.now }
{
    for change in changes {
        if let Change::ToTerm(from, term) = change {
            if same_read(from, read) {
                return Some(term);
            }
        }
    }
    None
}

/// The term that takes the place of a bound variable.
fn found_for_bound(changes: &[Change], index: u32) -> Option<&Term>
    ensures { option_copied result ≡ found_for_bound changes.now index }
{
    for change in changes {
        if let Change::OfBound(from, term) = change {
            if *from == index {
                return Some(term);
            }
        }
    }
    None
}

/// The term that takes the place of a whole term of this head.
pub fn found<'a>(changes: &'a [Change], head: &Head) -> Option<&'a Term>
    ensures { option_copied result ≡ found changes.now head.now }
{
    match head {
        Head::Read(read) => found_for_read(changes, read),
        Head::Bound(index) => found_for_bound(changes, *index),
        _ => None,
    }
}

/// The memory that reads through `side` are led to, if they are led to one.
pub fn found_side(changes: &[Change], side: Side) -> Option<Side>
    ensures { unwrap_or result side ≡ side_changed changes.now side }
{
    for change in changes {
        if let Change::ToSide(from, to) = change {
            if same_side(from, &side) {
                return Some(*to);
            }
        }
    }
    None
}
