// Files of texts, one a line.

use crate::answer::{Part, answer, goal_answer, screen, script_answer};
use crate::outside::outside_answer;
use crate::repeated::in_full;
use std::alloc::{AllocError, Global};
use std::io;

/// The text of a line, whose lines end at `\\n`.
fn broken(alloc: Global, line: &str) -> Result<String, AllocError> {
    line.replace(alloc, "\\n", "\n")
}

/// The answer to a line, which is what a word says; for another word it is a script.
fn answer_to(alloc: Global, what: &str, line: &str) -> Result<String, AllocError> {
    match what {
        "command" => answer(alloc, Part::Command, line.as_bytes()),
        "form" => answer(alloc, Part::Form, line.as_bytes()),
        "repeated" => answer(alloc, Part::Form, in_full(alloc, line)?.as_bytes()),
        "goal" => goal_answer(alloc, broken(alloc, line)?.as_bytes()),
        "outside" => outside_answer(alloc, line),
        "shown" => screen(alloc, broken(alloc, line)?.as_str()),
        _ => script_answer(alloc, broken(alloc, line)?.as_bytes()),
    }
}

/// Prints the answer to each line of a text, in front of the line, and a screen behind it.
pub fn answer_lines(rt: &HostRuntime, what: &str, text: &str) -> io::Result<()> {
    for line in text.lines() {
        let answer = answer_to(rt.alloc(), what, line)?;
        match what {
            "shown" => println!(rt; "{line}\n{answer}")?,
            _ => println!(rt; "{answer} {line}")?,
        }
    }
    Ok(())
}
