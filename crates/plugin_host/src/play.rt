//! A script on a host.

ghost use Rattle.std.specs.Prelude.{IfOk};
ghost use Rattle.plugin_host.specs.Answers.{IsAnswerTo};

use crate::answers::Answer;
use crate::script::{Call, Kind};
use stabby_count::Arc;
use stabby_dyn::{AnyVt, VTable, VtDrop};
use stabby_dyn_uses::{Content, Slot};
use stabby_host::{AskFault, GuestFault, Host, LoadFault, Need, UnloadFault};
use stabby_layout::Described;
use std::alloc::{AllocError, Global};
use std::sync::Wait;

const TABLE: VTable<AnyVt> = VTable {
    tail: VtDrop { word: 1 },
    head: AnyVt { word: 2 },
};

/// A host, and the values that guests have.
#[derive(Drop)]
pub struct Play {
    pub host: Host<Slot>,
    pub guests: Vec<Arc<Slot>>,
}

fn slot_of(alloc: Global, kind: Kind, value: u64) -> Result<Slot, AllocError> {
    match kind {
        Kind::Byte => Slot::of_byte(alloc, (value % 256) as u8).map_err(|_| AllocError),
        Kind::Number => Slot::of_number(alloc, value).map_err(|_| AllocError),
    }
}

fn need_of(alloc: Global, kind: Kind) -> Result<Need, AllocError> {
    match kind {
        Kind::Byte => {
            let report = <u8 as Described>::report(alloc).map_err(|_| AllocError)?;
            Ok(Need { id: 1, report })
        }
        Kind::Number => {
            let report = <u64 as Described>::report(alloc).map_err(|_| AllocError)?;
            Ok(Need { id: 4, report })
        }
    }
}

fn needs_of(alloc: Global, need: Option<Kind>) -> Result<Vec<Need>, AllocError> {
    let mut needs = Vec::new(alloc);
    if let Some(kind) = need {
        let need = need_of(alloc, kind)?;
        if needs.push(need).is_err() {
            return Err(AllocError);
        }
    }
    Ok(needs)
}

impl Play {
    fn load(
        &mut self,
        alloc: Global,
        kind: Kind,
        value: u64,
        need: Option<Kind>,
    ) -> Result<Result<u64, LoadFault>, AllocError> {
        let slot = slot_of(alloc, kind, value)?;
        let needs = needs_of(alloc, need)?;
        match self.host.load(alloc, slot, &TABLE, needs) {
            Ok(number) => Ok(Ok(number)),
            Err((_, _, LoadFault::Memory)) => Err(AllocError),
            Err((_, _, fault)) => Ok(Err(fault)),
        }
    }

    fn ask(&self, kind: Kind, plugin: u64) -> Result<u64, AskFault> {
        match kind {
            Kind::Byte => match self.host.interface::<u8>(plugin) {
                Ok(byte) => Ok(u64::from(*byte)),
                Err(fault) => Err(fault),
            },
            Kind::Number => match self.host.interface::<u64>(plugin) {
                Ok(number) => Ok(*number),
                Err(fault) => Err(fault),
            },
        }
    }

    fn guest<R: Wait>(
        &mut self,
        rt: &R,
        plugin: u64,
    ) -> Result<Result<(), GuestFault>, AllocError> {
        let mut weak = match self.host.guest(rt, plugin) {
            Ok(weak) => weak,
            Err(GuestFault::Memory) => return Err(AllocError),
            Err(fault) => return Ok(Err(fault)),
        };
        let Ok(Some(strong)) = weak.upgrade(rt) else {
            return Err(AllocError);
        };
        if self.guests.push(strong).is_err() {
            return Err(AllocError);
        }
        Ok(Ok(()))
    }

    fn unload(&mut self, plugin: u64) -> Result<Option<(Kind, u64)>, UnloadFault> {
        match self.host.unload(plugin) {
            Ok(Some(slot)) => match slot.content {
                Content::Byte(byte) => Ok(Some((Kind::Byte, u64::from(byte)))),
                Content::Number(number) => Ok(Some((Kind::Number, number))),
            },
            Ok(None) => Ok(None),
            Err(fault) => Err(fault),
        }
    }

    /// Makes the call.
    pub fn call<R: Wait>(&mut self, rt: &R, alloc: Global, call: Call) -> Result<Answer, AllocError>
        ensures { IfOk result (IsAnswerTo call) }
    {
        match call {
            Call::Load { kind, value, need } => {
                Ok(Answer::Load(self.load(alloc, kind, value, need)?))
            }
            Call::Ask { kind, plugin } => Ok(Answer::Ask(self.ask(kind, plugin))),
            Call::Guest { plugin } => Ok(Answer::Guest(self.guest(rt, plugin)?)),
            Call::Unload { plugin } => Ok(Answer::Unload(self.unload(plugin))),
        }
    }
}
