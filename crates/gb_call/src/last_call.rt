// Calls at the end of bodies.

ghost use Rattle.std.specs.Prelude.{◌≡◌};
ghost use Rattle.std.specs.Option.{option_map};
ghost use Rattle.gb_call.specs.LastCall.{call_seen, of_statement, last_call};

use gb_core::Shared;
use gb_core::var::Var;
use gb_terms::module::ProcRef;
use gb_terms::term::{Instr, Term};

/// The call that ends a body, and what stands before it.
#[derive(Clone, Copy)]
pub struct Last<'a> {
    pub before: &'a [Instr],
    pub targets: &'a [Var],
    pub procedure: &'a Shared<ProcRef>,
    pub arguments: &'a [Term],
}

/// The call that a statement is, behind these statements.
fn call<'a>(before: &'a [Instr], last: &'a Instr) -> Option<Last<'a>>
    ensures { option_map call_seen result ≡ of_statement before.now last.now }
{
    match last {
        Instr::Call(targets, procedure, arguments) => Some(Last {
            before,
            targets: targets.as_slice(),
            procedure,
            arguments: arguments.as_slice(),
        }),
        _ => None,
    }
}

/// The call that a body ends with.
#[tactic(auto, using(crate::proofs::LastCalls::last_statement, crate::proofs::LastCalls::no_statement))]
pub fn last_call(body: &[Instr]) -> Option<Last<'_>>
    ensures { option_map call_seen result ≡ last_call body.now }
{
    match body.split_last() {
        Some((last, before)) => call(before, last),
        None => None,
    }
}
