//! `clearance`: plans the markdowns of a retail chain whose stores share one falling price.
//!
//! `main` makes the real shelf, desk and sinks, and exits with the number of the status that `run` gives.
#![tactic(auto)]

#[cfg(test)]
mod cases;
#[cfg(test)]
mod certs;
#[cfg(test)]
mod checks;
mod ending;
#[cfg(test)]
mod faults;
#[cfg(test)]
mod judges;
#[cfg(test)]
mod makes;
#[cfg(test)]
mod paths;
mod program;
#[cfg(test)]
mod refusals;
#[cfg(test)]
mod seasons;

use clr_io::{FileDesk, FileShelf, StreamSink};
use program::run;
use std::alloc::Global;
use std::process::ExitCode;
use std::rt::Env;
use std::{env, io};

// The exit statuses of a run that never began.
const NO_MEMORY: u8 = 8;

const NO_WORDS: u8 = 12;

// The words behind the program's name.
fn words_behind(alloc: Global, rt: &(impl Env + AllocGlobal)) -> io::Result<Vec<String>> {
    let mut words = Vec::new(alloc);
    for word in env::args(rt)?.skip(1) {
        words.push(word)?;
    }
    Ok(words)
}

fn main(rt: HostRuntime) -> ExitCode {
    let alloc = rt.alloc();
    let words = match words_behind(alloc, &rt) {
        Ok(words) => words,
        Err(error) if error.kind() == io::ErrorKind::OutOfMemory => {
            return ExitCode::from(NO_MEMORY);
        }
        Err(_) => return ExitCode::from(NO_WORDS),
    };
    let mut shelf = FileShelf::new(&rt);
    let mut desk = FileDesk::new(&rt);
    let mut out = StreamSink::new(rt.stdout());
    let mut note = StreamSink::new(rt.stderr());
    let status = run(alloc, &words, &mut shelf, &mut desk, &mut out, &mut note);
    ExitCode::from(status.number())
}
