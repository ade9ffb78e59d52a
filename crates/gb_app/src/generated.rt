// The scripts that are made from a number.

ghost use Rattle.std.specs.Prelude.{◌≡◌, ◌≤◌, length, map, string_bytes, IfOk};
ghost use Rattle.std.specs.Fmt.{decimal};
ghost use Rattle.gb_outside.specs.Counts.{HasRisen};
ghost use Rattle.gb_app.specs.Generated as scripts;

use crate::report::{Report, last_line, write};
use crate::status::{Status, status_of};
use gb_outside::Sink;
use gb_session::script::verdict_on;
use gb_state::verdict::Verdict;
use std::alloc::{AllocError, Global};

/// The name of the file.
const NAME: &str = "selftest";

fn numeral(alloc: Global, n: usize) -> Result<String, AllocError>
    ensures { IfOk result (λ text. string_bytes text ≡ decimal n) }
{
    format!(in alloc; "{n}")
}

/// A module whose procedure draws a value, and returns this.
#[tactic(auto, unfolding(crate::specs::Generated::module_pieces))]
fn module_line(alloc: Global, letter: &str, i: usize, returned: &str) -> Result<String, AllocError>
    ensures { IfOk result (λ line. string_bytes line ≡ scripts.module_line letter.now i returned.now) }
{
    let number = numeral(alloc, i)?;
    let number = number.as_str();
    let width = numeral(alloc, i % 8 + 1)?;
    let width = width.as_str();
    [
        "module ",
        letter,
        number,
        " = { proc f() : bits ",
        width,
        " = { var x : bits ",
        width,
        "; x <$ uniform (bits ",
        width,
        "); return ",
        returned,
        "; } }.\n",
    ]
    .concat(alloc)
}

#[tactic(auto, unfolding(crate::specs::Generated::moved_pieces))]
fn moved(alloc: Global, i: usize) -> Result<String, AllocError>
    ensures { IfOk result (λ term. string_bytes term ≡ scripts.moved i) }
{
    let added = numeral(alloc, i % 2)?;
    ["x +^ ", added.as_str()].concat(alloc)
}

#[tactic(auto, unfolding(crate::specs::Generated::lemma_pieces))]
fn lemma_line(alloc: Global, i: usize) -> Result<String, AllocError>
    ensures { IfOk result (λ line. string_bytes line ≡ scripts.lemma_line i) }
{
    let number = numeral(alloc, i)?;
    let number = number.as_str();
    [
        "lemma L",
        number,
        " : equiv [M",
        number,
        ".f ~ N",
        number,
        ".f : true ==> ={res}].\n",
    ]
    .concat(alloc)
}

#[tactic(auto, unfolding(crate::specs::Generated::proof_pieces))]
fn proof_line(alloc: Global, i: usize) -> Result<String, AllocError>
    ensures { IfOk result (λ line. string_bytes line ≡ scripts.proof_line i) }
{
    let added = numeral(alloc, i % 2)?;
    [
        "proof. proc. rnd (fun v => v +^ ",
        added.as_str(),
        "). skip. smt(). qed.\n",
    ]
    .concat(alloc)
}

/// Two modules that draw a value, and a lemma that couples them.
#[tactic(auto, unfolding(crate::specs::Generated::part_of))]
fn part(alloc: Global, i: usize) -> Result<String, AllocError>
    ensures { IfOk result (λ text. string_bytes text ≡ scripts.part_of i) }
{
    let left = module_line(alloc, "M", i, "x")?;
    let moved = moved(alloc, i)?;
    let right = module_line(alloc, "N", i, moved.as_str())?;
    let lemma = lemma_line(alloc, i)?;
    let proof = proof_line(alloc, i)?;
    [
        left.as_str(),
        right.as_str(),
        lemma.as_str(),
        proof.as_str(),
    ]
    .concat(alloc)
}

/// The first parts, one behind the other.
fn script(alloc: Global, count: usize) -> Result<String, AllocError>
    requires { count ≤ 200 }
    ensures { IfOk result (λ text. string_bytes text ≡ scripts.script_of count) }
{
    let mut text = String::new(alloc);
    for i in 0..count {
        text.push_str(part(alloc, i)?.as_str())?;
    }
    Ok(text)
}

/// What is written on a script of this number and of so many bytes where its verdict is this.
fn summary(
    alloc: Global,
    count: usize,
    bytes: usize,
    verdict: &Verdict,
) -> Result<Report, AllocError>
    requires { bytes ≡ length (scripts.script_of count) }
    ensures { IfOk result (λ lines. map string_bytes lines.items ≡ scripts.summary_lines count verdict.now) }
{
    let mut lines = Vec::new(alloc);
    lines.push(format!(in alloc; "selftest {count}\n")?)?;
    lines.push(format!(in alloc; "bytes {bytes}\n")?)?;
    lines.push(last_line(alloc, NAME, verdict)?)?;
    Ok(lines)
}

/// Checks the script of this number, and writes its size and the last line of the report on it.
pub fn check_generated<K: Sink>(alloc: Global, count: usize, out: &mut K) -> Status
    requires { count ≤ 200 }
    ensures summary { scripts.Summarised count result (K.written out.old) (K.written out.new) }
    ensures write_fault { result ≡ Status.WriteFault → HasRisen (K.faults out.old) (K.faults out.new) }
{
    let Ok(text) = script(alloc, count) else {
        return Status::NoMemory;
    };
    let Ok(verdict) = verdict_on(alloc, NAME, text.as_bytes()) else {
        return Status::NoMemory;
    };
    let Ok(lines) = summary(alloc, count, text.len(), &verdict) else {
        return Status::NoMemory;
    };
    match write(out, lines.as_slice()) {
        Ok(()) => status_of(&verdict),
        Err(_) => Status::WriteFault,
    }
}
