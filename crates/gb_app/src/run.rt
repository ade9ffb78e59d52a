// The top call.

ghost use Rattle.std.specs.Prelude.{◌≡◌, ◌⊎◌, ℕ, List, true, false, None, Some, IfSome, IfOk, Err, is_err, IfErr, map, string_bytes};
ghost use Rattle.std.specs.Io.KnownBytes.{Appends, Consumes};
ghost use Rattle.gb_outside.specs.Appended.{AppendsFront};
ghost use Rattle.gb_outside.specs.Counts.{HasRisen};
ghost use Rattle.gb_outside.specs.HeldBytes.{bytes_of};
ghost use Rattle.gb_state.specs.declared.verdict.Verdict.{Verdict};
ghost use Rattle.gb_app.specs.Words.{file_of, asks_for_session, number_asked};
ghost use Rattle.gb_app.specs.Status.{status_of, EndsBy};
ghost use Rattle.gb_app.specs.Report.{report_of};
ghost use Rattle.gb_app.specs.Checked.{IsVerdictFor, IsAccepted};
ghost use Rattle.gb_app.specs.Reply.{usage_line, IsReport, IsReply};
ghost use Rattle.gb_app.specs.Typing.{Ended};
ghost use Rattle.gb_app.specs.Generated.{Summarised};

use crate::generated::check_generated;
use crate::report::{report, write};
use crate::status::{Status, status_of};
use crate::step::step;
use crate::words::{asks_for_session, file_to_check, number_asked};
use gb_accepted::laws::accepted_scripts;
use gb_outside::{Files, ReadRefused, Sink, Source, read_whole, write_all};
use gb_session::script::verdict_on;
use gb_state::verdict::{Verdict, too_long};
use gb_theory::outcome_laws::one_outcome;
use std::alloc::Global;

const USAGE: &[u8] = b"usage: gb check FILE | gb step | gb selftest N\n";

/// Does what the words after the program's name ask for. `check FILE` checks the script FILE and writes the report on
/// it; `step` answers the lines of standard input one after another; `selftest N` checks script N, which is made from the number;
/// any other list of words is answered by the usage line.
pub fn run<F: Files, I: Source, K: Sink>(
    alloc: Global,
    words: &[String],
    files: &mut F,
    input: &mut I,
    out: &mut K,
) -> Status
    // Words that ask for nothing are answered by the usage line, which takes no memory.
    ensures usage { file_of (map string_bytes words.now) ≡ None → asks_for_session (map string_bytes words.now) ≡ false →
        number_asked (map string_bytes words.now) ≡ None → (result ≡ Status.Usage) ⊎ (result ≡ Status.WriteFault) }
    ensures usage_only { result ≡ Status.Usage →
        (file_of (map string_bytes words.now) ≡ None) × (asks_for_session (map string_bytes words.now) ≡ false)
        × (number_asked (map string_bytes words.now) ≡ None) }
    ensures usage_line { result ≡ Status.Usage → Appends (K.written out.old) (K.written out.new) usage_line }

    // The verdict on the file is answered by its report. There is one such verdict, and nothing else is answered, but
    // for faults and want of memory.
    ensures reported { (result ≡ Status.Accepted) ⊎ (result ≡ Status.Refused) →
        IfSome (file_of (map string_bytes words.now)) (λ file. (verdict : Verdict) × IsVerdictFor (F.held files.old) file verdict
        × (result ≡ status_of verdict) × Appends (K.written out.old) (K.written out.new) (report_of file verdict)) }
    ensures verdict { IfSome (F.held files.old) (λ held. IfSome (file_of (map string_bytes words.now)) (λ file.
        (verdict : Verdict) → IsVerdictFor (Some held) file verdict → EndsBy (status_of verdict) result)) }

    // The scope of an accepted script is typed and sound, and each lemma holds and keeps its promise.
    ensures accepted { result ≡ Status.Accepted → IfSome (file_of (map string_bytes words.now)) (λ file.
        (report : List ℕ) × IsAccepted (F.held files.old) file report
        × Appends (K.written out.old) (K.written out.new) report) }

    // A name that isn't held is missing, and no other.
    ensures missing { result ≡ Status.Missing → IfSome (F.held files.old) (λ held.
        IfSome (file_of (map string_bytes words.now)) (λ file. bytes_of file held ≡ None)) }
    ensures not_held { IfSome (F.held files.old) (λ held. IfSome (file_of (map string_bytes words.now)) (λ file.
        bytes_of file held ≡ None → (result ≡ Status.Missing) ⊎ (result ≡ Status.ReadFault) ⊎ (result ≡ Status.NoMemory))) }

    // A session writes the screens of what it reads, or a front of them. It is accepted where its input was read to the
    // end, and refused where its input is too long.
    ensures session { asks_for_session (map string_bytes words.now) ≡ true → (text : List ℕ)
        × Consumes (I.left input.old) (I.left input.new) text
        × Ended result text (I.left input.new) (K.written out.old) (K.written out.new) }

    // The check of a script that is made from a number writes the number, the size, and the last line of the report.
    ensures summary { IfSome (number_asked (map string_bytes words.now))
        (λ n. Summarised n result (K.written out.old) (K.written out.new)) }

    // Faults come from outside.
    ensures read_fault { result ≡ Status.ReadFault → asks_for_session (map string_bytes words.now) ≡ false →
        HasRisen (F.faults files.old) (F.faults files.new) }
    ensures input_fault { result ≡ Status.ReadFault → asks_for_session (map string_bytes words.now) ≡ true →
        HasRisen (I.faults input.old) (I.faults input.new) }
    ensures write_fault { result ≡ Status.WriteFault → HasRisen (K.faults out.old) (K.faults out.new) }

    // After a fault of writing a front of the text was written; where nothing is known, nothing.
    ensures front { result ≡ Status.WriteFault → asks_for_session (map string_bytes words.now) ≡ false →
        number_asked (map string_bytes words.now) ≡ None → (text : List ℕ)
        × IsReply (F.held files.old) (file_of (map string_bytes words.now)) text
        × AppendsFront (K.written out.old) (K.written out.new) text }
    ensures silent { (result ≡ Status.Missing) ⊎ (result ≡ Status.ReadFault) ⊎ (result ≡ Status.NoMemory) →
        asks_for_session (map string_bytes words.now) ≡ false → K.written out.new ≡ K.written out.old }
    ensures unchanged { F.held files.new ≡ F.held files.old }
    // Standard input is left alone where no session is asked for.
    ensures input { asks_for_session (map string_bytes words.now) ≡ false → input.new ≡ input.old }
{
    // Each lemma of an accepted script holds (clause `accepted`).
    accepted_scripts();
    if asks_for_session(words) {
        return step(alloc, input, out);
    }
    if let Some(count) = number_asked(words) {
        return check_generated(alloc, count, out);
    }
    match file_to_check(words) {
        None => match write_all(out, USAGE) {
            Ok(()) => Status::Usage,
            Err(_) => Status::WriteFault,
        },
        Some(file) => check_file(alloc, file, files, out),
    }
}

/// Checks the script of this name, and writes the report on it.
fn check_file<F: Files, K: Sink>(alloc: Global, file: &str, files: &mut F, out: &mut K) -> Status
    ensures no_usage { result ≡ Status.Usage → ⊥ }
    ensures reported { (result ≡ Status.Accepted) ⊎ (result ≡ Status.Refused) →
        (verdict : Verdict) × IsVerdictFor (F.held files.old) file.now verdict × (result ≡ status_of verdict)
        × Appends (K.written out.old) (K.written out.new) (report_of file.now verdict) }
    ensures verdict { IfSome (F.held files.old) (λ held.
        (verdict : Verdict) → IsVerdictFor (Some held) file.now verdict → EndsBy (status_of verdict) result) }
    ensures missing { result ≡ Status.Missing → IfSome (F.held files.old) (λ held. bytes_of file.now held ≡ None) }
    ensures not_held { IfSome (F.held files.old) (λ held. bytes_of file.now held ≡ None →
        (result ≡ Status.Missing) ⊎ (result ≡ Status.ReadFault) ⊎ (result ≡ Status.NoMemory)) }
    ensures read_fault { result ≡ Status.ReadFault → HasRisen (F.faults files.old) (F.faults files.new) }
    ensures write_fault { result ≡ Status.WriteFault → HasRisen (K.faults out.old) (K.faults out.new) }
    ensures front { result ≡ Status.WriteFault → (text : List ℕ) × IsReport (F.held files.old) file.now text
        × AppendsFront (K.written out.old) (K.written out.new) text }
    ensures silent { (result ≡ Status.Missing) ⊎ (result ≡ Status.ReadFault) ⊎ (result ≡ Status.NoMemory) →
        K.written out.new ≡ K.written out.old }
    ensures unchanged { F.held files.new ≡ F.held files.old }
{
    // A text has one verdict (clause `verdict`).
    one_outcome();
    match file_verdict(alloc, file, files) {
        Ok(verdict) => answer(alloc, file, &verdict, out),
        Err(status) => status,
    }
}

/// The verdict on the script of this name, or the status of a run that has none: `Missing`, `ReadFault` or `NoMemory`.
fn file_verdict<F: Files>(alloc: Global, file: &str, files: &mut F) -> Result<Verdict, Status>
    ensures verdict { IfOk result (IsVerdictFor (F.held files.old) file.now) }
    ensures kind { IfErr result (λ s. (s ≡ Status.Missing) ⊎ (s ≡ Status.ReadFault) ⊎ (s ≡ Status.NoMemory)) }
    ensures missing { result ≡ Err Status.Missing → IfSome (F.held files.old) (λ held. bytes_of file.now held ≡ None) }
    ensures not_held { IfSome (F.held files.old) (λ held. bytes_of file.now held ≡ None → is_err result ≡ true) }
    ensures read_fault { result ≡ Err Status.ReadFault → HasRisen (F.faults files.old) (F.faults files.new) }
    ensures unchanged { F.held files.new ≡ F.held files.old }
{
    match read_whole(alloc, files, file) {
        Err(ReadRefused::NoMemory) => Err(Status::NoMemory),
        Err(ReadRefused::Missing) => Err(Status::Missing),
        Err(ReadRefused::ReadFault) => Err(Status::ReadFault),
        Err(ReadRefused::Length) => Ok(too_long()),
        Ok(text) => match verdict_on(alloc, file, text.as_slice()) {
            Ok(verdict) => Ok(verdict),
            Err(_) => Err(Status::NoMemory),
        },
    }
}

/// Writes the report on a verdict.
fn answer<K: Sink>(alloc: Global, file: &str, verdict: &Verdict, out: &mut K) -> Status
    ensures kind { (result ≡ status_of verdict.now) ⊎ (result ≡ Status.WriteFault) ⊎ (result ≡ Status.NoMemory) }
    ensures reported { result ≡ status_of verdict.now →
        Appends (K.written out.old) (K.written out.new) (report_of file.now verdict.now) }
    ensures write_fault { result ≡ Status.WriteFault → HasRisen (K.faults out.old) (K.faults out.new) }
    ensures front { result ≡ Status.WriteFault →
        AppendsFront (K.written out.old) (K.written out.new) (report_of file.now verdict.now) }
    ensures silent { result ≡ Status.NoMemory → K.written out.new ≡ K.written out.old }
{
    let Ok(report) = report(alloc, file, verdict) else {
        return Status::NoMemory;
    };
    match write(out, report.as_slice()) {
        Ok(()) => status_of(verdict),
        Err(_) => Status::WriteFault,
    }
}
