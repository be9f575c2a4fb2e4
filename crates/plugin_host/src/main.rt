//! The program `plugin_host`: it plays a script of loads, asks, guests and unloads on a host of bytes and numbers, and prints
//! each answer in words. A line on standard error tells of a run that didn't end well.
#![tactic(auto)]

mod answers;
mod messages;
mod play;
mod program;
mod script;
mod status;

use crate::program::run;
use stabby_intern::{StderrSink, StdinSource, StdoutSink};
use std::env;
use std::io::ErrorKind;
use std::process::ExitCode;

// The exit code where no memory was to be had before the run.
const OUT_OF_MEMORY: u8 = 1;

fn main(rt: HostRuntime) -> ExitCode {
    let alloc = rt.alloc();
    let mut words = Vec::new(alloc);
    match env::args(&rt) {
        Ok(args) => {
            for word in args.skip(1) {
                if words.push(word).is_err() {
                    return ExitCode::from(OUT_OF_MEMORY);
                }
            }
        }
        // A word that isn't UTF-8 is a word: the run is given an empty one in its place.
        Err(error) if error.kind() == ErrorKind::InvalidData => {
            if words.push(String::new(alloc)).is_err() {
                return ExitCode::from(OUT_OF_MEMORY);
            }
        }
        Err(_) => return ExitCode::from(OUT_OF_MEMORY),
    }
    let mut source = StdinSource::new(rt.stdin());
    let mut out = StdoutSink::new(rt.stdout());
    let mut log = StderrSink::new(rt.stderr());
    let status = run(&rt, alloc, &words, &mut source, &mut out, &mut log);
    ExitCode::from(status.code())
}
