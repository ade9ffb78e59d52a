// The verdict on a script.

ghost use Rattle.std.specs.Prelude.{◌≡◌, IfOk};
ghost use Rattle.gb_state.specs.Verdicts.{verdict_at, IsVerdictAt};

use crate::state::State;
use gb_core::copy::copy_names;
use gb_core::name::Names;
use gb_core::place::Place;
use gb_core::refusal::{Refused, Why};
use std::alloc::{AllocError, Global};

/// What a check comes to.
#[derive(Drop)]
pub enum Verdict {
    /// The names of the lemmas, in the order in which they were proved.
    Accepted(Names),
    /// The first refusal, with its place in the file.
    Refused { why: Why, place: Place },
}

/// The first byte of the file.
const START: Place = Place {
    file: 0,
    line: 1,
    col: 1,
};

/// The verdict on a file that is too long to be read.
pub fn too_long() -> Verdict
    ensures { result ≡ Verdict.Refused Why.Length (record { file = 0; line = 1; col = 1 }) }
{
    Verdict::Refused {
        why: Why::Length,
        place: START,
    }
}

/// The verdict where the last command was run, and the script ends here.
fn verdict_at(alloc: Global, state: &State, end: Place) -> Result<Verdict, AllocError>
    ensures { IfOk result (λ verdict. verdict ≡ verdict_at state.now.proof state.now.lemmas end) }
{
    if state.proof.is_some() {
        return Ok(Verdict::Refused {
            why: Why::Unclosed,
            place: end,
        });
    }
    let lemmas = copy_names(alloc, state.lemmas.as_slice())?;
    Ok(Verdict::Accepted(lemmas))
}

/// The verdict on a script that ends so in this state. Its only error is want of memory.
pub fn verdict_of(
    alloc: Global,
    state: &State,
    end: Result<Place, Refused>,
) -> Result<Verdict, AllocError>
    ensures { IfOk result (IsVerdictAt state.now.proof state.now.lemmas end) }
{
    match end {
        Ok(end) => verdict_at(alloc, state, end),
        Err(refused) => match refused.into_script() {
            Some((why, place)) => Ok(Verdict::Refused { why, place }),
            None => Err(AllocError),
        },
    }
}
