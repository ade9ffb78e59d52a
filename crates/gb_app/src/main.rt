//! The program `gb`: it checks scripts of game-based proofs.
#![tactic(auto)]

mod generated;
mod report;
mod run;
mod status;
mod step;
mod words;

use crate::run::run;
use crate::status::{Status, exit_code};
use gb_outside::{OsFiles, StdSink, StdSource};
use std::alloc::AllocError;
use std::env;
use std::io::ErrorKind;
use std::process::ExitCode;

/// The words after the program's name. Where one of them isn't UTF-8 they ask for nothing, as no words do.
fn words_of_process(rt: &HostRuntime) -> Result<Vec<String>, AllocError> {
    let mut words = Vec::new(rt.alloc());
    match env::args(rt) {
        Err(error) if error.kind() == ErrorKind::OutOfMemory => return Err(AllocError),
        Err(_) => {}
        Ok(args) => {
            for word in args.skip(1) {
                words.push(word)?;
            }
        }
    }
    Ok(words)
}

fn main(rt: HostRuntime) -> ExitCode {
    let status = match words_of_process(&rt) {
        Err(_) => Status::NoMemory,
        Ok(words) => {
            let alloc = rt.alloc();
            let mut input = StdSource::new(rt.stdin());
            let mut out = StdSink::new(rt.stdout());
            let mut files = OsFiles::new(rt);
            run(alloc, words.as_slice(), &mut files, &mut input, &mut out)
        }
    };
    ExitCode::from(exit_code(status))
}
