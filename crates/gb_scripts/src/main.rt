//! The program `gb_scripts`: it reads texts, checks scripts, and enters commands into sessions.
//!
//! Its words come in pairs, of which the second one is the name of a file. `command` and `form` read each line of the file, `repeated`
//! reads each line as a form in which pieces repeat, `goal` reads each line as a goal whose lines end at `\n`, and `script` checks each
//! line as a script whose lines end so. For each line one is printed, which begins with `ok`, for a script with the number of the lemmas
//! that it proves, or else with the code of the first refusal, its line and its column; behind that stands the line. In the same way
//! `outside` reads, writes and takes as each line says, in memory, where a call fails.
//!
//! `shown` enters each line into a session, as commands that end at `\n`. Printed are the line, and behind it the screen after the last
//! command, or the first refusal, with its place in its command.
#![tactic(auto)]

mod answer;
mod lines;
mod outside;
mod repeated;

use crate::lines::answer_lines;
use gb_outside::{OsFiles, ReadRefused, read_whole};
use std::alloc::AllocError;
use std::{env, io};

/// Reads a file as the program `gb` reads its own, and answers to each line, or tells why it isn't read.
fn answer_file(rt: &HostRuntime, what: &str, name: &str) -> io::Result<()> {
    let why = match read_whole(rt.alloc(), &mut OsFiles::new(*rt), name) {
        Ok(bytes) => {
            let text = String::from_utf8_lossy(rt.alloc(), bytes.as_slice())?;
            return answer_lines(rt, what, text.as_str());
        }
        Err(ReadRefused::NoMemory) => return Err(io::Error::from(AllocError)),
        Err(ReadRefused::Missing) => "there is no such file",
        Err(ReadRefused::ReadFault) => "it can't be read",
        Err(ReadRefused::Length) => "it is too long",
    };
    println!(rt; "{name}: {why}")
}

fn main(rt: HostRuntime) -> io::Result<()> {
    let mut words = Vec::new(rt.alloc());
    for word in env::args(&rt)?.skip(1) {
        words.push(word)?;
    }
    for pair in words.as_slice().chunks(2) {
        if let [what, of] = pair {
            answer_file(&rt, what.as_str(), of.as_str())?;
        }
    }
    Ok(())
}
