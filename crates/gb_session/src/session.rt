// The session: commands, and taking them back.

ghost use Rattle.std.specs.Prelude.{◌≡◌, ◌+◌, ◌<◌, ◌^◌, length, min, IfOk, MatchOption};
ghost use Rattle.gb_script.specs.Tree.{text_of};
ghost use Rattle.gb_limits.specs.Numbers.{number_of};
ghost use Rattle.gb_terms.specs.Nodes.{saturated};
ghost use Rattle.gb_state.specs.Verdicts.{IsVerdictAt};
ghost use Rattle.gb_theory.specs.Sessions.{Meets};
ghost use Rattle.gb_session.specs.History.{fresh_history, back_to, has_earlier, undone};
ghost use Rattle.gb_session.specs.Commands.{CommandLeads, TextLeads, LineLeads, EntryLeads, IsLeft, taken_by};
ghost use Rattle.gb_session.specs.Screen.{shown_of, screen_of};

use crate::enumerations::{Enumerations, cut_back, enumerated};
use crate::screen::{Shown, screen, shows};
use gb_core::Stack;
use gb_core::name::Name;
use gb_core::place::Place;
use gb_core::refusal::{Refused, Why};
use gb_limits::numbers::number;
use gb_script::head::Head;
use gb_script::tree::Node;
use gb_state::kept::{Kept, go_back, now_kept, take_back};
use gb_state::state::State;
use gb_state::verdict::{Verdict, verdict_of};
use gb_theory::fold::execute;
use gb_theory::verdict::read_command;
use sqlite_items::Items;
use std::alloc::{AllocError, Global};
use std::marker::Model;

/// How many commands are kept at most.
const KEPT: usize = 4_096;

/// A session. Contracts see what stands now, and what stood before each command that it keeps.
pub struct Session {
    file: Name,
    keeps: bool,
    state: State,
    enumerations: Enumerations,
    kept: Stack<Kept>,
}

impl Drop for Session {
    fn drop(self) {
        let Session {
            file,
            keeps: _,
            state,
            enumerations,
            kept,
        } = self;
        drop(file);
        drop(state);
        drop(enumerations);
        drop(kept);
    }
}

impl Model for Session {
    ghost use Rattle.std.specs.Coded.{codes};
    ghost use Rattle.gb_goal.specs.contracts.scope.Entry as entry;
    ghost use Rattle.gb_goal.specs.contracts.sequent.Sequent as sequent;
    ghost use Rattle.gb_session.specs.History.{History};
    ghost use Rattle.gb_state.specs.Kept.{AreUndeclared};
    ghost use Rattle.gb_session.specs.Kept.{stage_of, stages_before};

    ghost Value = { History };

    ghost coded = { Prim.hlevel (codes, entry.the_row.coded, sequent.the_row.coded) };

    ghost view = { λ s. record {
      file = s.file;
      keeps = s.keeps;
      present = stage_of s.state s.enumerations;
      earlier = stages_before s.kept (stage_of s.state s.enumerations);
    } };

    ghost invariant = { λ s. AreUndeclared s.kept s.state.scope };
}

/// The number that digits spell, or 2^64 - 1 where it is greater.
fn count_of(digits: &Node) -> u64
    ensures { result ≡ saturated (number_of (text_of digits.now)) }
{
    match number(digits.text.as_str().as_bytes()) {
        Ok(count) if count < u64::MAX as u128 => count as u64,
        _ => u64::MAX,
    }
}

/// How many commands a line takes off, if it is `undo N`.
fn taken_by(head: Head, parts: &[Node]) -> Option<u64>
    ensures { result ≡ taken_by head parts.now }
{
    match head {
        Head::Undo => match parts {
            [digits] => Some(count_of(digits)),
            _ => None,
        },
        _ => None,
    }
}

impl Session {
    /// A session before its first command. Its commands are those of a file of this name, and are kept or not.
    pub fn new(alloc: Global, file: &str, keeps: bool) -> Result<Session, AllocError>
        ensures { IfOk result (λ session. session ≡ fresh_history file.now keeps) }
    {
        let file = Name::from_str(alloc, file)?;
        Ok(Session {
            file,
            keeps,
            state: State::new(alloc),
            enumerations: Items::new(alloc),
            kept: Stack::new(alloc),
        })
    }

    /// The name of the file of this number: there is one, of number 0.
    pub fn file_name(&self, file: u32) -> Option<&str>
        ensures { MatchOption result (file ≡ 0 → ⊥) (λ name. (file ≡ 0) × (name.now ≡ self.now.file)) }
    {
        if file == 0 {
            Some(self.file.as_str())
        } else {
            None
        }
    }

    /// How many commands are kept.
    pub fn kept(&self) -> usize
        ensures { result ≡ length self.now.earlier }
    {
        self.kept.len()
    }

    /// What the session shows.
    pub fn screen(&self, alloc: Global) -> Result<Vec<u8>, AllocError>
        ensures { IfOk result (λ text. text.items ≡ screen_of self.now.present) }
    {
        screen(alloc, &self.state, self.enumerations.as_slice())
    }

    /// The verdict on a script that ends so in this session. Its only error is want of memory.
    pub fn verdict(&self, alloc: Global, end: Result<Place, Refused>) -> Result<Verdict, AllocError>
        ensures { IfOk result (IsVerdictAt self.now.present.session.proof self.now.present.session.lemmas end) }
    {
        verdict_of(alloc, &self.state, end)
    }

    /// What stood before the last command stands again, if there is one. It takes no memory.
    fn back(&mut self) -> bool
        ensures session { self.new ≡ back_to self.old.earlier self.old }
        ensures done { result ≡ has_earlier self.old.earlier }
    {
        let Some(enumerated) = go_back(&mut self.state, &mut self.kept) else {
            return false;
        };
        cut_back(&mut self.enumerations, enumerated);
        true
    }

    /// Takes the last commands off, or all where there are fewer, and says how many. It takes no memory.
    pub fn undo(&mut self, n: u64) -> u64
        ensures session { self.new ≡ undone n self.old }
        ensures count { result ≡ min n (length self.old.earlier) }
    {
        let mut count = 0;
        while count < n {
            if !self.back() {
                return count;
            }
            count += 1;
        }
        count
    }

    /// Runs a command. Memory for taking it back is there before it runs.
    fn run(&mut self, alloc: Global, command: &Node) -> Result<(), Refused>
        ensures session { Meets (λ _. self.new) (CommandLeads self.old command.now) result }
        ensures refused { IsLeft self.old self.new result }
    {
        if self.keeps && self.kept.len() >= KEPT {
            return Err(Refused::Script {
                why: Why::TooMany(KEPT as u64),
                place: command.place,
            });
        }
        let more = enumerated(alloc, command.head, command.parts.as_slice())?;
        let now = now_kept(alloc, &self.state, self.enumerations.len())?;
        self.kept.push(now)?;
        match execute(alloc, &mut self.state, command) {
            Ok(()) => {
                self.enumerations.append(more)?;
                if !self.keeps {
                    self.kept = Stack::new(alloc);
                }
                Ok(())
            }
            Err(refused) => {
                take_back(alloc, &refused, &mut self.state, &mut self.kept);
                Err(refused)
            }
        }
    }

    /// Reads the text of a command and runs it. A command that is refused leaves the session as it was; where memory runs out
    /// nothing is said of it.
    pub fn command(&mut self, alloc: Global, text: &[u8], at: Place) -> Result<Shown, Refused>
        requires size { length text.now < 2 ^ 31 }
        requires line { at.line + length text.now < 2 ^ 32 }
        requires column { at.col + length text.now < 2 ^ 32 }
        ensures session { Meets (λ _. self.new) (TextLeads self.old text.now at) result }
        ensures refused { IsLeft self.old self.new result }
        ensures shown { IfOk result (λ s. s ≡ shown_of self.new.present.session.proof) }
    {
        let command = read_command(alloc, text, at)?;
        self.run(alloc, &command)?;
        Ok(shows(&self.state))
    }

    /// Reads the text of a line, and takes commands off where it is `undo N`; else it is a command, which is run.
    pub fn enter(&mut self, alloc: Global, text: &[u8], at: Place) -> Result<(), Refused>
        requires size { length text.now < 2 ^ 31 }
        requires line { at.line + length text.now < 2 ^ 32 }
        requires column { at.col + length text.now < 2 ^ 32 }
        ensures session { Meets (λ _. self.new) (EntryLeads self.old text.now at) result }
        ensures refused { IsLeft self.old self.new result }
    {
        let line = read_command(alloc, text, at)?;
        match taken_by(line.head, line.parts.as_slice()) {
            Some(count) => {
                self.undo(count);
                Ok(())
            }
            None => self.run(alloc, &line),
        }
    }
}
