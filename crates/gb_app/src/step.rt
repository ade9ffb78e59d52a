// A session that is typed line by line.

ghost use Rattle.std.specs.Prelude.{◌≡◌, ◌⊎◌, ◌+◌, ◌-◌, ◌<◌, ◌≤◌, ◌^◌, ℕ, List, length, drop, true, false, not, Err, IfOk, IfErr, OnOk, OnErr, MatchOption};
ghost use Rattle.std.specs.Io.KnownBytes.{Appends, Consumes};
ghost use Rattle.gb_lex.specs.declared.token.Cut.TheVariants.{Command};
ghost use Rattle.gb_goal.specs.Answers.{Answer};
ghost use Rattle.gb_outside.specs.Appended.{AppendsFront};
ghost use Rattle.gb_outside.specs.Counts.{HasRisen};
ghost use Rattle.gb_session.specs.History.{History, fresh_history};
ghost use Rattle.gb_session.specs.Commands.{EntryLeads};
ghost use Rattle.gb_app.specs.Screens as screens;
ghost use Rattle.gb_app.specs.Typing as typing;

use crate::report::{kept_line, refused_line};
use crate::status::Status;
use gb_core::place::Place;
use gb_core::refusal::{Refused, Why};
use gb_lex::commands::cut;
use gb_lex::places::advance;
use gb_lex::token::Cut;
use gb_outside::{PIECE, Sink, Source, write_all};
use gb_session::laws::each_line_has_an_answer;
use gb_session::session::Session;
use std::alloc::{AllocError, Global};

/// The name of standard input.
const INPUT: &str = "-";

/// How many bytes an input has at most.
const LONGEST: usize = 1_048_576;

/// The first byte of the input.
const START: Place = Place {
    file: 0,
    line: 1,
    col: 1,
};

/// How far the lines of a text were answered, and the place there.
#[derive(Clone, Copy)]
pub struct Point {
    from: usize,
    at: Place,
}

/// What was read.
#[derive(Clone, Copy)]
pub enum Next {
    Piece,
    End,
    TooLong,
}

/// Runs a session: each line that is read is answered by a screen or by its refusal.
pub fn step<I: Source, K: Sink>(alloc: Global, input: &mut I, out: &mut K) -> Status
    ensures session { (text : List ℕ) × Consumes (I.left input.old) (I.left input.new) text
        × typing.Ended result text (I.left input.new) (K.written out.old) (K.written out.new) }
    ensures read_fault { result ≡ Status.ReadFault → HasRisen (I.faults input.old) (I.faults input.new) }
    ensures write_fault { result ≡ Status.WriteFault → HasRisen (K.faults out.old) (K.faults out.new) }
{
    // A front of the screens was written: nothing (clause `session`).
    each_line_has_an_answer();
    match Session::new(alloc, INPUT, true) {
        Ok(mut session) => answer_input(alloc, &mut session, input, out),
        Err(_) => Status::NoMemory,
    }
}

/// Answers each line of the input, to its end.
fn answer_input<I: Source, K: Sink>(
    alloc: Global,
    session: &mut Session,
    input: &mut I,
    out: &mut K,
) -> Status
    requires { session.old ≡ fresh_history screens.input_name true }
    ensures session { (text : List ℕ) × Consumes (I.left input.old) (I.left input.new) text
        × typing.Ended result text (I.left input.new) (K.written out.old) (K.written out.new) }
    ensures read_fault { result ≡ Status.ReadFault → HasRisen (I.faults input.old) (I.faults input.new) }
    ensures write_fault { result ≡ Status.WriteFault → HasRisen (K.faults out.old) (K.faults out.new) }
{
    // What was written is a front of the screens of each input that goes on (clause `session`).
    each_line_has_an_answer();
    let mut text = Vec::new(alloc);
    let mut point = Point { from: 0, at: START };
    loop {
        match answer_lines(alloc, session, text.as_slice(), point, false, out) {
            Ok(here) => point = here,
            Err(status) => return status,
        }
        match read_more(&mut text, input) {
            Err(status) => return status,
            Ok(Next::Piece) => {}
            Ok(Next::End) => return close(alloc, session, text.as_slice(), point, out),
            Ok(Next::TooLong) => return refuse_length(alloc, out),
        }
    }
}

/// Reads a piece of the input behind the text.
fn read_more<I: Source>(text: &mut Vec<u8>, input: &mut I) -> Result<Next, Status>
    requires { length text.old.items ≤ 1048576 }
    ensures kind { IfErr result (λ s. (s ≡ Status.ReadFault) ⊎ (s ≡ Status.NoMemory)) }
    ensures never_falls { I.faults input.old ≤ I.faults input.new }
    ensures read_fault { result ≡ Err Status.ReadFault → HasRisen (I.faults input.old) (I.faults input.new) }
    ensures read { (piece : List ℕ) × Consumes (I.left input.old) (I.left input.new) piece
        × typing.ReadsOn text.old.items piece text.new.items (I.left input.new) result }
{
    if text.len() < LONGEST {
        read_piece(text, input)
    } else {
        read_last(input)
    }
}

fn read_piece<I: Source>(text: &mut Vec<u8>, input: &mut I) -> Result<Next, Status>
    requires { length text.old.items < 1048576 }
    ensures kind { IfErr result (λ s. (s ≡ Status.ReadFault) ⊎ (s ≡ Status.NoMemory)) }
    ensures never_falls { I.faults input.old ≤ I.faults input.new }
    ensures read_fault { result ≡ Err Status.ReadFault → HasRisen (I.faults input.old) (I.faults input.new) }
    ensures read { (piece : List ℕ) × Consumes (I.left input.old) (I.left input.new) piece
        × typing.ReadsOn text.old.items piece text.new.items (I.left input.new) result }
{
    let mut piece = [0; PIECE];
    let room = PIECE.min(LONGEST - text.len());
    match input.read(&mut piece[..room]) {
        Err(_) => Err(Status::ReadFault),
        Ok(0) => Ok(Next::End),
        Ok(taken) => match text.extend_from_slice(&piece[..taken]) {
            Ok(()) => Ok(Next::Piece),
            Err(_) => Err(Status::NoMemory),
        },
    }
}

/// Reads a byte behind the longest text.
fn read_last<I: Source>(input: &mut I) -> Result<Next, Status>
    ensures kind { IfErr result (λ s. s ≡ Status.ReadFault) }
    ensures never_falls { I.faults input.old ≤ I.faults input.new }
    ensures read_fault { result ≡ Err Status.ReadFault → HasRisen (I.faults input.old) (I.faults input.new) }
    ensures read { (piece : List ℕ) × Consumes (I.left input.old) (I.left input.new) piece
        × typing.ReadsLast piece (I.left input.new) result }
{
    let mut byte = [0; 1];
    match input.read(&mut byte) {
        Err(_) => Err(Status::ReadFault),
        Ok(0) => Ok(Next::End),
        Ok(_) => Ok(Next::TooLong),
    }
}

/// Answers the lines of the text that are whole: a byte stands behind each, or the input ended. Says how far they go.
fn answer_lines<K: Sink>(
    alloc: Global,
    session: &mut Session,
    text: &[u8],
    point: Point,
    ended: bool,
    out: &mut K,
) -> Result<Point, Status>
    requires { typing.IsWithin text.now point }
    ensures kind { IfErr result (λ s. (s ≡ Status.WriteFault) ⊎ (s ≡ Status.NoMemory)) }
    ensures never_falls { K.faults out.old ≤ K.faults out.new }
    ensures write_fault { result ≡ Err Status.WriteFault → HasRisen (K.faults out.old) (K.faults out.new) }
    ensures within { IfOk result (typing.IsWithin text.now) }
    ensures done { IfOk result (λ here. typing.IsNoLine (screens.line_of (not ended) (drop here.from text.now))) }
    ensures written { IfOk result (λ here. (w : List ℕ) × Appends (K.written out.old) (K.written out.new) w
        × typing.LeadsOn ended (typing.typed session.old text.now point) (typing.typed session.new text.now here) w) }
    ensures front { OnErr result (typing.AreFronts ended (typing.typed session.old text.now point) (K.written out.old) (K.written out.new)) }
{
    // What was written is a front of what is written for each input (clause `front`).
    each_line_has_an_answer();
    let mut here = point;
    loop {
        let Some(to) = line_end(text, here.from, ended) else {
            return Ok(here);
        };
        match answer_line(alloc, session, text, here, to, out) {
            Ok(next) => here = next,
            Err(status) => return Err(status),
        }
    }
}

/// Where the next line of a text ends, if it is whole.
fn line_end(text: &[u8], from: usize, ended: bool) -> Option<usize>
    requires size { length text.now ≤ 1048576 }
    requires within { from ≤ length text.now }
    ensures { MatchOption result (typing.IsNoLine (screens.line_of (not ended) (drop from text.now)))
        (λ to. (from < to) × (to ≤ length text.now) × (screens.line_of (not ended) (drop from text.now) ≡ Command (to - from))) }
{
    match cut(text, from as u32) {
        Cut::Command { to } => {
            if ended || (to as usize) < text.len() {
                Some(to as usize)
            } else {
                None
            }
        }
        Cut::End | Cut::Rest => None,
    }
}

/// Answers the line that ends there, and moves behind it.
fn answer_line<K: Sink>(
    alloc: Global,
    session: &mut Session,
    text: &[u8],
    point: Point,
    to: usize,
    out: &mut K,
) -> Result<Point, Status>
    requires point { typing.IsWithin text.now point }
    requires some { point.from < to }
    requires within { to ≤ length text.now }
    ensures kind { IfErr result (λ s. (s ≡ Status.WriteFault) ⊎ (s ≡ Status.NoMemory)) }
    ensures never_falls { K.faults out.old ≤ K.faults out.new }
    ensures write_fault { result ≡ Err Status.WriteFault → HasRisen (K.faults out.old) (K.faults out.new) }
    ensures moved { IfOk result (λ next. next ≡ typing.point_behind to text.now point) }
    ensures written { OnOk result ((r : Answer History) × EntryLeads session.old (typing.line_to to text.now point) point.at r
        × (session.new ≡ screens.behind session.old r) × Appends (K.written out.old) (K.written out.new) (screens.told r)) }
    ensures front { result ≡ Err Status.WriteFault → (r : Answer History)
        × EntryLeads session.old (typing.line_to to text.now point) point.at r × AppendsFront (K.written out.old) (K.written out.new) (screens.told r) }
    ensures silent { result ≡ Err Status.NoMemory → K.written out.new ≡ K.written out.old }
{
    let line = &text[point.from..to];
    match answer(alloc, session, line, point.at) {
        Ok(answer) => match write_all(out, answer.as_slice()) {
            Ok(()) => Ok(Point {
                from: to,
                at: advance(point.at, line),
            }),
            Err(_) => Err(Status::WriteFault),
        },
        Err(_) => Err(Status::NoMemory),
    }
}

/// What is written behind a line.
fn answer(
    alloc: Global,
    session: &mut Session,
    line: &[u8],
    at: Place,
) -> Result<Vec<u8>, AllocError>
    requires size { length line.now < 2 ^ 31 }
    requires line { at.line + length line.now < 2 ^ 32 }
    requires column { at.col + length line.now < 2 ^ 32 }
    ensures { IfOk result (λ text. (r : Answer History) × EntryLeads session.old line.now at r
        × (session.new ≡ screens.behind session.old r) × (text.items ≡ screens.told r)) }
{
    match session.enter(alloc, line, at) {
        Ok(()) => session.screen(alloc),
        Err(refused) => match refused.into_script() {
            Some((why, place)) => {
                let line = refused_line(alloc, INPUT, &why, place)?;
                Ok(line.into_bytes())
            }
            None => Err(AllocError),
        },
    }
}

/// Answers what is left where the input ended.
fn close<K: Sink>(
    alloc: Global,
    session: &mut Session,
    text: &[u8],
    point: Point,
    out: &mut K,
) -> Status
    requires { typing.IsWithin text.now point }
    ensures kind { (result ≡ Status.Accepted) ⊎ (result ≡ Status.WriteFault) ⊎ (result ≡ Status.NoMemory) }
    ensures write_fault { result ≡ Status.WriteFault → HasRisen (K.faults out.old) (K.faults out.new) }
    ensures written { result ≡ Status.Accepted → (w : List ℕ) × Appends (K.written out.old) (K.written out.new) w
        × typing.TailOf (typing.typed session.old text.now point) text.now w }
    ensures front { (result ≡ Status.WriteFault) ⊎ (result ≡ Status.NoMemory) →
        (w : List ℕ) × AppendsFront (K.written out.old) (K.written out.new) w
        × typing.TailOf (typing.typed session.old text.now point) text.now w }
{
    // Something is written for what is left (clause `front`).
    each_line_has_an_answer();
    match answer_lines(alloc, session, text, point, true, out) {
        Ok(here) => match closing(alloc, session, text, here) {
            Ok(lines) => match write_all(out, lines.as_slice()) {
                Ok(()) => Status::Accepted,
                Err(_) => Status::WriteFault,
            },
            Err(_) => Status::NoMemory,
        },
        Err(status) => status,
    }
}

/// What is written at the end of the input, where no line is left.
fn closing(
    alloc: Global,
    session: &Session,
    text: &[u8],
    point: Point,
) -> Result<Vec<u8>, AllocError>
    requires within { typing.IsWithin text.now point }
    requires done { typing.IsNoLine (screens.line_of false (drop point.from text.now)) }
    ensures { IfOk result (λ lines. screens.Closes false (screens.line_of false (drop point.from text.now)) session.now point.at
        (drop point.from text.now) lines.items) }
{
    let count = session.kept();
    let kept = kept_line(alloc, count)?;
    match cut(text, point.from as u32) {
        Cut::Rest => {
            let place = advance(point.at, &text[point.from..]);
            let line = refused_line(alloc, INPUT, &Why::Unclosed, place)?;
            let mut lines = line.into_bytes();
            lines.extend_from_slice(kept.as_bytes())?;
            Ok(lines)
        }
        Cut::End | Cut::Command { .. } => Ok(kept.into_bytes()),
    }
}

/// Refuses an input that is too long.
fn refuse_length<K: Sink>(alloc: Global, out: &mut K) -> Status
    ensures kind { (result ≡ Status.Refused) ⊎ (result ≡ Status.WriteFault) ⊎ (result ≡ Status.NoMemory) }
    ensures write_fault { result ≡ Status.WriteFault → HasRisen (K.faults out.old) (K.faults out.new) }
    ensures written { result ≡ Status.Refused → Appends (K.written out.old) (K.written out.new) screens.length_line }
    ensures front { (result ≡ Status.WriteFault) ⊎ (result ≡ Status.NoMemory) →
        AppendsFront (K.written out.old) (K.written out.new) screens.length_line }
{
    let Ok(line) = refused_line(alloc, INPUT, &Why::Length, START) else {
        return Status::NoMemory;
    };
    match write_all(out, line.as_bytes()) {
        Ok(()) => Status::Refused,
        Err(_) => Status::WriteFault,
    }
}
