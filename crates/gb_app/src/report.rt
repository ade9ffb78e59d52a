// The report on a verdict.

ghost use Rattle.std.specs.Prelude.{◌≡◌, ◌≤◌, [], ◌∷◌, IfOk, OnOk, OnErr, map, string_bytes};
ghost use Rattle.std.specs.Io.KnownBytes.{Appends};
ghost use Rattle.std.specs.List.{concat};
ghost use Rattle.gb_core.specs.Refusal.{code_of};
ghost use Rattle.gb_outside.specs.Appended.{AppendsFront};
ghost use Rattle.gb_outside.specs.Counts.{HasRisen};
ghost use Rattle.gb_app.specs.Report as reports;
ghost use Rattle.gb_app.specs.Screens.{kept_line};

use gb_core::name::{Name, Names};
use gb_core::place::Place;
use gb_core::refusal::{Why, code};
use gb_outside::{Failed, Sink, write_all};
use gb_state::verdict::Verdict;
use std::alloc::{AllocError, Global};

/// A report: its lines in order, each with its line feed.
pub type Report = Vec<String>;

fn lemma_line(alloc: Global, name: &Name) -> Result<String, AllocError>
    ensures { IfOk result (λ line. string_bytes line ≡ reports.lemma_line name.now) }
{
    format!(in alloc; "lemma {name}\n")
}

fn accepted_line(alloc: Global, count: usize) -> Result<String, AllocError>
    ensures { IfOk result (λ line. string_bytes line ≡ reports.accepted_line count) }
{
    format!(in alloc; "accepted {count}\n")
}

pub fn refused_line(
    alloc: Global,
    file: &str,
    why: &Why,
    place: Place,
) -> Result<String, AllocError>
    ensures { IfOk result (λ line. string_bytes line ≡ reports.refused_line file.now (code_of why.now) place) }
{
    let code = code(why);
    let line = place.line;
    let col = place.col;
    format!(in alloc; "refused E{code:02} {file} {line} {col}\n")
}

pub fn kept_line(alloc: Global, count: usize) -> Result<String, AllocError>
    ensures { IfOk result (λ line. string_bytes line ≡ kept_line count) }
{
    format!(in alloc; "kept {count}\n")
}

fn accepted(alloc: Global, lemmas: &Names) -> Result<Report, AllocError>
    ensures { IfOk result (λ report. map string_bytes report.items ≡ reports.accepted_lines lemmas.now) }
{
    let mut report = Vec::new(alloc);
    for name in lemmas.as_slice() {
        report.push(lemma_line(alloc, name)?)?;
    }
    report.push(accepted_line(alloc, lemmas.len())?)?;
    Ok(report)
}

fn refused(alloc: Global, file: &str, why: &Why, place: Place) -> Result<Report, AllocError>
    ensures { IfOk result (λ report. map string_bytes report.items ≡ reports.refused_line file.now (code_of why.now) place ∷ []) }
{
    let mut report = Vec::new(alloc);
    report.push(refused_line(alloc, file, why, place)?)?;
    Ok(report)
}

/// The report on a verdict: `lemma NAME` for each lemma and then `accepted N`, or `refused CODE FILE LINE COL`.
pub fn report(alloc: Global, file: &str, verdict: &Verdict) -> Result<Report, AllocError>
    ensures { IfOk result (λ report. map string_bytes report.items ≡ reports.lines_of file.now verdict.now) }
{
    match verdict {
        Verdict::Accepted(lemmas) => accepted(alloc, lemmas),
        Verdict::Refused { why, place } => refused(alloc, file, why, *place),
    }
}

/// The last line of the report on a verdict.
pub fn last_line(alloc: Global, file: &str, verdict: &Verdict) -> Result<String, AllocError>
    ensures { IfOk result (λ line. string_bytes line ≡ reports.last_line file.now verdict.now) }
{
    match verdict {
        Verdict::Accepted(lemmas) => accepted_line(alloc, lemmas.len()),
        Verdict::Refused { why, place } => refused_line(alloc, file, why, *place),
    }
}

/// Offers the lines to a sink, each as one piece. It fails where a write fails; then a front of the report was written.
pub fn write<K: Sink>(out: &mut K, report: &[String]) -> Result<(), Failed>
    ensures never_falls { K.faults out.old ≤ K.faults out.new }
    ensures fault { OnErr result (HasRisen (K.faults out.old) (K.faults out.new)) }
    ensures all { OnOk result (Appends (K.written out.old) (K.written out.new) (concat (map string_bytes report.now))) }
    ensures front { OnErr result (AppendsFront (K.written out.old) (K.written out.new) (concat (map string_bytes report.now))) }
{
    for line in report {
        write_all(out, line.as_bytes())?;
    }
    Ok(())
}
