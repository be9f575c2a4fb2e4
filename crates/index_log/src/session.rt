//! An index, its pass, and the changes that wait for a commit.
ghost use Rattle.std.specs.Prelude.{◌≡◌, ◌≤◌, ◌+◌, ◌++◌, ◌∷◌, [], IfOk, IfErr, OnOk, length, codes};
ghost use Rattle.stabby_cell.specs.Passes.{IsWhole, front_of};
ghost use Rattle.stabby_index.specs.Passes.{IsPassOf};

use crate::command::{Command, Question};
use crate::printing::{answer, number_line};
use stabby_index::{AllocationError, Change, Index, IndexPass};
use std::alloc::Global;
use std::mem;
use std::sync::Wait;

/// What the commands of a run work on. The pass is whole, so nobody else commits.
#[derive(Drop)]
pub struct Session {
    index: Index,
    pass: IndexPass,
    pending: Vec<Change>,
    ghost belongs: { IsPassOf index pass },
    ghost whole: { IsWhole pass },
}

impl Session {
    ghost use Rattle.index_log.specs.Printed.{number_line};
    ghost use Rattle.index_log.specs.Sessions.{Obeys, PrintsVersion, state_of, opening, after, newest};

    /// An empty index that keeps its last `keep` versions.
    ///
    /// # Errors
    /// `Memory`, where the index finds none.
    pub fn new(alloc: Global, keep: usize) -> Result<Session, AllocationError>
        requires { (1 ≤ keep) × (keep ≤ 1024) }
        ensures ok { IfOk result (λ session. state_of session ≡ opening keep) }
        ensures memory { IfErr result (λ error. error ≡ AllocationError.Memory) }
    {
        let (index, pass) = Index::new(alloc, keep)?;
        Ok(Session {
            index,
            pass,
            pending: Vec::new(alloc),
        })
    }

    /// Obeys a command, and answers what it prints.
    ///
    /// # Errors
    /// `Memory`, where the command finds none.
    pub fn obey<H: Wait>(
        &mut self,
        rt: &H,
        alloc: Global,
        command: Command,
    ) -> Result<Vec<u8>, AllocationError>
        ensures obeys { IfOk result (λ printed. Obeys self.old self.new command printed.items) }
        ensures memory { IfErr result (λ error. error ≡ AllocationError.Memory) }
    {
        match command {
            Command::Change(change) => {
                self.pending.push(change)?;
                Ok(Vec::new(alloc))
            }
            Command::Commit => self.commit(rt, alloc),
            Command::Ask { question, stamp } => self.ask(rt, alloc, question, stamp),
        }
    }

    // Commits the pending changes.
    fn commit<H: Wait>(&mut self, rt: &H, alloc: Global) -> Result<Vec<u8>, AllocationError>
        ensures obeys { IfOk result (λ printed. Obeys self.old self.new Command.Commit printed.items) }
        ensures memory { IfErr result (λ error. error ≡ AllocationError.Memory) }
    {
        let changes = mem::replace(&mut self.pending, Vec::new(alloc));
        let stamp = commit_changes(rt, alloc, &self.index, &mut self.pass, &changes)?;
        number_line(alloc, b"stamp ", stamp)
    }

    // What the version of that stamp, or the newest, answers.
    fn ask<H: Wait>(
        &mut self,
        rt: &H,
        alloc: Global,
        question: Question,
        stamp: Option<u64>,
    ) -> Result<Vec<u8>, AllocationError>
        ensures state { IfOk result (λ printed. state_of self.new ≡ state_of self.old) }
        ensures prints { IfOk result (λ printed. PrintsVersion (state_of self.old) question stamp printed.items) }
        ensures memory { IfErr result (λ error. error ≡ AllocationError.Memory) }
    {
        let Some(stamp) = stamp else {
            let (view, _) = self.index.now(rt, &mut self.pass)?;
            return answer(alloc, &view, question);
        };
        match self.index.at(rt, &mut self.pass, stamp)? {
            Some(view) => answer(alloc, &view, question),
            None => number_line(alloc, b"not kept ", stamp),
        }
    }
}

// Commits these changes by a whole pass, and answers the stamp. The index is never full: that wants more commits than an
// input has bytes.
fn commit_changes<H: Wait>(
    rt: &H,
    alloc: Global,
    index: &Index,
    pass: &mut IndexPass,
    changes: &[Change],
) -> Result<u64, AllocationError>
    requires own { IsPassOf index.now pass.old }
    requires whole { IsWhole pass.old }
    ensures pass { IsPassOf index.now pass.new }
    ensures whole { IsWhole pass.new }
    ensures front { OnOk result (front_of pass.new ≡ front_of pass.old ++ changes.now ∷ []) }
    ensures stamp { IfOk result (λ stamp. stamp ≡ length (front_of pass.old) + 1) }
    ensures memory { IfErr result (λ error. error ≡ AllocationError.Memory) }
{
    match index.apply(rt, alloc, pass, changes, None) {
        Ok(stamp) => Ok(stamp),
        Err(_) => Err(AllocationError::Memory),
    }
}
