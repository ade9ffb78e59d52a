// Lists of variables, and which of them share variables with others.

ghost use Rattle.std.specs.Prelude.{◌≡◌, ◌||◌, map, length, IfOk};
ghost use Rattle.gb_closing.specs.Linked.{is_among, linked, share};

use gb_core::Shared;
use gb_core::ty::Ty;
use gb_terms::op::Read;
use gb_terms::same::same_read;
use sqlite_items::Items;
use std::alloc::{AllocError, Global};

/// A variable or read, with its type.
#[derive(Drop)]
pub struct Variable {
    pub read: Shared<Read>,
    pub ty: Shared<Ty>,
}

pub type Variables = Items<Variable>;

pub fn is_among(list: &[Variable], r: &Read) -> bool
    ensures { result ≡ is_among list.now r.now }
{
    for variable in list {
        if same_read(variable.read.get(), r) {
            return true;
        }
    }
    false
}

/// Whether a variable is in both lists.
pub fn share(a: &[Variable], b: &[Variable]) -> bool
    ensures { result ≡ share a.now b.now }
{
    for variable in a {
        if is_among(b, variable.read.get()) {
            return true;
        }
    }
    false
}

/// Whether one of the marked lists shares a variable with these.
fn is_linked(own: &[Variable], all: &[Variables], marks: &[bool]) -> bool
    requires { length marks.now ≡ length all.now }
    ensures { result ≡ linked own.now all.now marks.now }
{
    for at in 0..all.len() {
        if marks[at] && share(own, all[at].as_slice()) {
            return true;
        }
    }
    false
}

/// Marks the lists that share a variable with the first ones or with one that was marked.
pub fn marked_further(
    alloc: Global,
    all: &[Variables],
    from: &[Variable],
    marks: &[bool],
) -> Result<Items<bool>, AllocError>
    requires { length marks.now ≡ length all.now }
    ensures { IfOk result (λ more. more ≡ map (λ own. share own from.now || linked own all.now marks.now) all.now) }
{
    let mut more = Items::new(alloc);
    for own in all {
        more.push(share(own.as_slice(), from) || is_linked(own.as_slice(), all, marks))?;
    }
    Ok(more)
}
