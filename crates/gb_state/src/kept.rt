// What is kept of a command, so that it can be taken back without memory.

ghost use Rattle.std.specs.Prelude.{◌≡◌, length, IfOk};
ghost use Rattle.gb_state.specs.Kept.{AreUndeclared, GoesBack, IsTakenBack, MayGoBack};

use crate::state::{OpenProof, State};
use gb_core::Stack;
use gb_core::refusal::Refused;
use std::alloc::{AllocError, Global};

/// What stood before a command: how many declarations, lemmas and enumerations, and the proof that was open.
#[derive(Drop)]
pub struct Kept {
    pub declared: usize,
    pub proved: usize,
    pub enumerated: usize,
    pub proof: Option<OpenProof>,
}

fn shared(alloc: Global, proof: &Option<OpenProof>) -> Result<Option<OpenProof>, AllocError>
    ensures { IfOk result (λ made. made ≡ proof.now) }
{
    match proof {
        None => Ok(None),
        Some(proof) => Ok(Some(proof.share(alloc)?)),
    }
}

/// What stands now.
pub fn now_kept(alloc: Global, state: &State, enumerated: usize) -> Result<Kept, AllocError>
    ensures { IfOk result (λ kept. kept ≡ record {
      declared = length state.now.scope;
      proved = length state.now.lemmas;
      enumerated = enumerated;
      proof = state.now.proof;
    }) }
{
    let proof = shared(alloc, &state.proof)?;
    Ok(Kept {
        declared: state.scope.len(),
        proved: state.lemmas.len(),
        enumerated,
        proof,
    })
}

/// What stood before the last command stands again, if one is kept; says how many enumerations stood then. It takes no memory.
pub fn go_back(state: &mut State, kept: &mut Stack<Kept>) -> Option<usize>
    requires { AreUndeclared kept.old state.old.scope }
    ensures before { GoesBack kept.old kept.new state.old state.new result }
    ensures undeclared { AreUndeclared kept.new state.new.scope }
{
    let Some(last) = kept.pop() else {
        return None;
    };
    let Kept {
        declared,
        proved,
        enumerated,
        proof,
    } = last;
    state.restore(declared, proved, proof);
    Some(enumerated)
}

/// What stood before the last command, which is refused, stands again. Where memory ran out nothing is said of what stood, and nothing
/// is kept.
pub fn take_back(alloc: Global, refused: &Refused, state: &mut State, kept: &mut Stack<Kept>)
    requires { MayGoBack refused.now kept.old state.old.scope }
    ensures before { IsTakenBack refused.now kept.old kept.new state.old state.new }
    ensures undeclared { AreUndeclared kept.new state.new.scope }
{
    match refused {
        Refused::Script { .. } => {
            go_back(state, kept);
        }
        Refused::NoMemory | Refused::ReadFault => *kept = Stack::new(alloc),
    }
}
