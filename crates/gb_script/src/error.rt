// Why a text is not read.

ghost use Rattle.std.specs.Prelude.{◌≡◌};
ghost use Rattle.gb_script.specs.declared.error.ReadError.TheVariants.{Memory};

use crate::table::Step;
use std::alloc::{AllocError, AllocFailed};

/// Why a text is not read: memory ran out, or no text goes on with the token of index `at`, where `steps` are those
/// before it. The index is the number of tokens where the text ends too soon.
#[derive(Drop)]
pub enum ReadError<R: Copy> {
    Memory,
    Fault { at: usize, steps: Vec<Step<R>> },
}

impl<R: Copy> From<AllocError> for ReadError<R> {
    ghost from_gives = { λ _ e. e ≡ Memory };

    fn from(_error: AllocError) -> ReadError<R> {
        ReadError::Memory
    }
}

impl<R: Copy, T: Drop> From<AllocFailed<T>> for ReadError<R> {
    ghost from_gives = { λ _ e. e ≡ Memory };

    fn from(_error: AllocFailed<T>) -> ReadError<R> {
        ReadError::Memory
    }
}
