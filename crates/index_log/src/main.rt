//! The program `index_log`: it reads commands from standard input that change an index, commit the changes, and print the
//! rows of a version that is kept. A line on standard error tells of a run that didn't end well.
#![tactic(auto)]

mod command;
mod messages;
mod printing;
mod program;
mod session;
mod status;
#[cfg(test)]
mod tests;

use crate::program::run;
use stabby_intern::{StderrSink, StdinSource, StdoutSink};
use std::env;
use std::io::ErrorKind;
use std::process::ExitCode;

// The exit code where no memory was to be had before the run.
const OUT_OF_MEMORY: u8 = 1;

fn main(rt: HostRuntime) -> ExitCode {
    let alloc = rt.alloc();
    let mut words = Vec::new(alloc);
    match env::args(&rt) {
        Ok(args) => {
            for word in args.skip(1) {
                if words.push(word).is_err() {
                    return ExitCode::from(OUT_OF_MEMORY);
                }
            }
        }
        // A word that isn't UTF-8 is no number: the run is given none.
        Err(error) if error.kind() == ErrorKind::InvalidData => {}
        Err(_) => return ExitCode::from(OUT_OF_MEMORY),
    }
    let mut source = StdinSource::new(rt.stdin());
    let mut out = StdoutSink::new(rt.stdout());
    let mut log = StderrSink::new(rt.stderr());
    let status = run(&rt, alloc, &words, &mut source, &mut out, &mut log);
    ExitCode::from(status.code())
}
