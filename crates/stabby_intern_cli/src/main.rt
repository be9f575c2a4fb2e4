//! The program `stabby_intern`: `ranks W` and `numbers W` read tables from standard input, and write each table's rank or
//! number, and the distinct tables, to standard output; `gen N D W` writes the counts of generated tables. A line on
//! standard error tells of a run that didn't end well.
#![tactic(auto)]

use stabby_intern::{StderrSink, StdinSource, StdoutSink, run};
use stabby_registry::{OpenGate, VtBtree};
use std::env;
use std::io::ErrorKind;
use std::process::ExitCode;

// The exit code where no memory was to be had before the run.
const OUT_OF_MEMORY: u8 = 1;

fn main(rt: HostRuntime) -> ExitCode {
    let alloc = rt.alloc();
    let mut words = Vec::new(alloc);
    match env::args(&rt) {
        Ok(args) => {
            for word in args.skip(1) {
                if words.push(word).is_err() {
                    return ExitCode::from(OUT_OF_MEMORY);
                }
            }
        }
        // A word that isn't UTF-8 makes no command: the run is given none.
        Err(error) if error.kind() == ErrorKind::InvalidData => {}
        Err(_) => return ExitCode::from(OUT_OF_MEMORY),
    }
    let Ok((mut registry, mut pass)) = VtBtree::<5>::new(alloc) else {
        return ExitCode::from(OUT_OF_MEMORY);
    };
    let mut source = StdinSource::new(rt.stdin());
    let mut out = StdoutSink::new(rt.stdout());
    let mut log = StderrSink::new(rt.stderr());
    let status = run(
        &rt,
        alloc,
        &words,
        &mut source,
        &mut out,
        &mut log,
        &mut registry,
        &mut pass,
        &OpenGate,
    );
    ExitCode::from(status.code())
}
