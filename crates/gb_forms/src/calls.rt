// What is read of a memory after a call.

ghost use Rattle.std.specs.Prelude.{◌≡◌, filter, IfOk};
ghost use Rattle.std.specs.List.{list_any};
ghost use Rattle.gb_terms.specs.Equal.{var_eq};
ghost use Rattle.gb_forms.specs.Calls.{is_left_of};

use gb_core::copy::copy_var;
use gb_core::same::same_var;
use gb_core::var::{Var, Vars};
use sqlite_items::Items;
use std::alloc::{AllocError, Global};

/// Whether one of these variables is this one.
#[tactic(auto, using(gb_terms::proofs::Equality::var_test))]
pub fn is_among(list: &[Var], variable: &Var) -> bool
    ensures { result ≡ list_any (var_eq variable.now) list.now }
{
    list.iter().any(|x| same_var(variable, x))
}

/// What is read of a memory after a call: by what is said of the outcome, and by what is to hold then.
pub struct Reads {
    pub said: Items<Var>,
    pub after: Items<Var>,
}

impl Drop for Reads {
    fn drop(self) {
        let Reads { said, after } = self;
        drop(said);
        drop(after);
    }
}

/// Whether a global is read of the memory after the call: by what is said of the outcome, or elsewhere than in the left side.
fn is_left(targets: &[Var], reads: &Reads, variable: &Var) -> bool
    ensures { result ≡ is_left_of targets.now reads.now.said reads.now.after variable.now }
{
    is_among(reads.said.as_slice(), variable)
        || (!is_among(targets, variable) && is_among(reads.after.as_slice(), variable))
}

/// The globals among these that are read of the memory after the call.
pub fn left_of(
    alloc: Global,
    targets: &[Var],
    reads: &Reads,
    written: &[Var],
) -> Result<Vars, AllocError>
    ensures { IfOk result (λ made. made ≡ filter (is_left_of targets.now reads.now.said reads.now.after) written.now) }
{
    let mut left = Items::new(alloc);
    for variable in written {
        if is_left(targets, reads, variable) {
            left.push(copy_var(alloc, variable)?)?;
        }
    }
    Ok(left)
}
