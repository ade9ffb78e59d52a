// The verdict on a script: its commands in a session that keeps none.

ghost use Rattle.std.specs.Prelude.{◌≡◌, ◌<◌, ◌^◌, false, length, IfOk, IfErr};
ghost use Rattle.gb_goal.specs.Answers.{Answer};
ghost use Rattle.gb_theory.specs.Built.{Session as Built};
ghost use Rattle.gb_theory.specs.Outcome.{IsEnd, IsOutcome};
ghost use Rattle.gb_theory.specs.Sessions.{IsDue};
ghost use Rattle.gb_theory.specs.Verdicts.{IsVerdict};
ghost use Rattle.gb_session.specs.History.{fresh_history};

use crate::session::Session;
use gb_core::place::Place;
use gb_core::refusal::{Refused, Why};
use gb_lex::commands::cut;
use gb_lex::places::advance;
use gb_lex::token::Cut;
use gb_state::verdict::Verdict;
use std::alloc::{AllocError, Global};

/// The first byte of the file.
const START: Place = Place {
    file: 0,
    line: 1,
    col: 1,
};

/// The verdict on a script, the file of this name. Its only error is want of memory.
pub fn verdict_on(alloc: Global, file: &str, text: &[u8]) -> Result<Verdict, AllocError>
    requires { length text.now < 2 ^ 31 }
    ensures { IfOk result (IsVerdict text.now) }
{
    let mut session = Session::new(alloc, file, false)?;
    verdict_in(alloc, &mut session, text)
}

/// The verdict on a script whose commands run in this session.
fn verdict_in(alloc: Global, session: &mut Session, text: &[u8]) -> Result<Verdict, AllocError>
    requires size { length text.now < 2 ^ 31 }
    requires fresh { session.old ≡ fresh_history session.old.file false }
    ensures { IfOk result (IsVerdict text.now) }
{
    let end = run(alloc, session, text);
    session.verdict(alloc, end)
}

/// Runs the commands of a script in their order, up to the first refusal, and says where it ends: `Unclosed` where a command is
/// left open there.
fn run(alloc: Global, session: &mut Session, text: &[u8]) -> Result<Place, Refused>
    requires size { length text.now < 2 ^ 31 }
    requires fresh { session.old ≡ fresh_history session.old.file false }
    ensures end { IfOk result (λ place. (r : Answer Built) →
        IsEnd session.new.present.session session.new.present.session.proof place r → IsOutcome text.now r) }
    ensures refused { IfErr result (IsDue (IsOutcome text.now)) }
{
    let mut at = START;
    let mut from: usize = 0;
    loop {
        match cut(text, from as u32) {
            Cut::Command { to } => {
                let piece = &text[from..to as usize];
                session.command(alloc, piece, at)?;
                at = advance(at, piece);
                from = to as usize;
            }
            Cut::End => return Ok(advance(at, &text[from..])),
            Cut::Rest => {
                return Err(Refused::Script {
                    why: Why::Unclosed,
                    place: advance(at, &text[from..]),
                });
            }
        }
    }
}
