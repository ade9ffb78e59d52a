// What a session shows.

ghost use Rattle.std.specs.Prelude.{◌≡◌, ◌++◌, length, codes, Some, IfOk, OnOk};
ghost use Rattle.std.specs.Option.{option_copied};
ghost use Rattle.std.specs.Fmt.{decimal};
ghost use Rattle.gb_theory.specs.Sessions.{open_of, session_of};
ghost use Rattle.gb_session.specs.Kept.{stage_of};
ghost use Rattle.gb_session.specs.Screen.{shown_of, first_goal, screen_in, screen_of};

use gb_print::goal::print_goal;
use gb_print_names::bound_names::Enumeration;
use gb_state::state::{OpenProof, State};
use std::alloc::{AllocError, Global};

/// Whether a proof is open, and how many goals it has left.
#[derive(Clone, Copy)]
pub enum Shown {
    Ready,
    Goals(u64),
}

pub fn shows(state: &State) -> Shown
    ensures { result ≡ shown_of (session_of state.now).proof }
{
    match &state.proof {
        None => Shown::Ready,
        Some(proof) => Shown::Goals(proof.goals.len() as u64),
    }
}

fn put_first(
    alloc: Global,
    text: &mut Vec<u8>,
    state: &State,
    enumerations: &[Enumeration],
    proof: &OpenProof,
) -> Result<(), AllocError>
    ensures { OnOk result (text.new.items ≡ text.old.items ++ first_goal (stage_of state.now enumerations.now) proof.now.claim proof.now.goals) }
{
    if let Some(first) = proof.goals.get(0) {
        let first = proof.in_context(alloc, first)?;
        let mut goal = print_goal(alloc, &state.scope, enumerations, &first)?;
        text.append(&mut goal)?;
    }
    Ok(())
}

fn open_screen(
    alloc: Global,
    state: &State,
    enumerations: &[Enumeration],
    proof: &OpenProof,
) -> Result<Vec<u8>, AllocError>
    ensures { IfOk result (λ text. text.items ≡ screen_in (stage_of state.now enumerations.now) (Some (open_of proof.now))) }
{
    let count = proof.goals.len();
    let line = format!(in alloc; "goals {count}\n")?;
    let mut text = line.into_bytes();
    put_first(alloc, &mut text, state, enumerations, proof)?;
    Ok(text)
}

/// `ready` outside proofs, else the number of open goals, and the first one.
pub fn screen(
    alloc: Global,
    state: &State,
    enumerations: &[Enumeration],
) -> Result<Vec<u8>, AllocError>
    ensures { IfOk result (λ text. text.items ≡ screen_of (stage_of state.now enumerations.now)) }
{
    match &state.proof {
        None => b"ready\n".to_vec(alloc),
        Some(proof) => open_screen(alloc, state, enumerations, proof),
    }
}
