//! A run over a registry of its own.
ghost use Rattle.std.specs.Prelude.{◌≡◌, List, length, IfOk, IfErr, OnErr};
ghost use Rattle.stabby_tables.specs.Tables.{Table};
ghost use Rattle.stabby_intern.specs.Messages.{line_of, IsTold};
ghost use Rattle.stabby_intern.specs.Runs.{run_of, Says, Comes};

use stabby_intern::{Sink, Source, Status, run};
use stabby_layout::AllocationError;
use stabby_registry::{OpenGate, VtBtree};
use std::alloc::Global;
use std::marker::Sync;
use std::sync::Wait;
use std::thread::Threads;

/// Runs a command over a registry of its own: how it ended, and how many distinct tables there are.
///
/// # Errors
/// `Memory`, where the registry finds none; nothing is read or written then.
pub fn run_fresh<S: Source, K: Sink, E: Sink, H: Threads + Wait + Sync>(
    rt: &H,
    alloc: Global,
    words: &[String],
    source: &mut S,
    out: &mut K,
    log: &mut E,
) -> Result<(Status, u64), AllocationError>
    ensures says { IfOk result (λ ended. (front : List Table)
        × Says (run_of S.Source K.Sink words.now source.old source.new out.old out.new front) ended.0
        × Comes (run_of S.Source K.Sink words.now source.old source.new out.old out.new front) ended.0
        × (length front ≡ ended.1)) }
    ensures log_told { IfOk result (λ ended. IsTold (line_of ended.0) (E.taken log.old) (E.taken log.new)
        (E.faults log.old) (E.faults log.new)) }
    ensures memory { IfErr result (λ error. error ≡ AllocationError.Memory) }
    ensures unchanged { OnErr result ((source.new ≡ source.old) × (out.new ≡ out.old) × (log.new ≡ log.old)) }
{
    let (mut registry, mut pass) = VtBtree::<5>::new(alloc)?;
    let status = run(
        rt,
        alloc,
        words,
        source,
        out,
        log,
        &mut registry,
        &mut pass,
        &OpenGate,
    );
    Ok((status, pass.seen()))
}
