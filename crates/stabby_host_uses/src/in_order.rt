//! Two plugins of which one needs the other.
ghost use Rattle.std.specs.Prelude.{◌≡◌, length, IfOk, Ok, Err, Some};
ghost use Rattle.stabby_host.specs.Hosts.{plugins_of};
ghost use Rattle.stabby_host.specs.declared.faults.UnloadFault.TheVariants.{Needed};
ghost use Rattle.stabby_host_uses.specs.Two.{IsTwo};

use stabby_dyn::{AnyVt, VTable, VtDrop};
use stabby_dyn_uses::Slot;
use stabby_host::{Host, LoadFault, Need, UnloadFault};
use stabby_layout::{AllocationError, Described};
use std::alloc::Global;

/// What a host answered where the first plugin was to be unloaded, then the last, then the first again.
#[derive(Drop)]
pub struct Unloaded {
    pub refused: Result<Option<Slot>, UnloadFault>,
    pub last: Result<Option<Slot>, UnloadFault>,
    pub first: Result<Option<Slot>, UnloadFault>,
}

// The need of a number.
fn needs_number(alloc: Global) -> Result<Vec<Need>, AllocationError>
    ensures { IfOk result (λ needs. length needs.items ≡ 1) }
{
    let report = <u64 as Described>::report(alloc)?;
    let mut needs = Vec::new(alloc);
    match needs.push(Need { id: 4, report }) {
        Ok(()) => Ok(needs),
        Err(_) => Err(AllocationError::Memory),
    }
}

/// A host of two plugins, of which the second needs a number, and is bound to the first.
///
/// # Errors
/// That of the plugin that wasn't loaded: `Unmet` where the first is no number, or `Memory`.
pub fn load_two(alloc: Global, number: Slot, other: Slot) -> Result<Host<Slot>, LoadFault>
    ensures { IfOk result (λ host. IsTwo (plugins_of host) number other) }
{
    let table: VTable<AnyVt> = VTable {
        tail: VtDrop { word: 3 },
        head: AnyVt { word: 9 },
    };
    let Ok(mut host) = Host::new(alloc, 2) else {
        return Err(LoadFault::Memory);
    };
    let Ok(needs) = needs_number(alloc) else {
        return Err(LoadFault::Memory);
    };
    if let Err((_, _, fault)) = host.load(alloc, number, &table, Vec::new(alloc)) {
        return Err(fault);
    }
    if let Err((_, _, fault)) = host.load(alloc, other, &table, needs) {
        return Err(fault);
    }
    Ok(host)
}

/// Loads a number, and a value that needs one. The number is refused while it is needed; the two come back in order.
///
/// # Errors
/// That of the plugin that wasn't loaded.
pub fn load_and_unload(alloc: Global, number: Slot, other: Slot) -> Result<Unloaded, LoadFault>
    ensures refused { IfOk result (λ told. told.refused ≡ Err (Needed 1)) }
    ensures last { IfOk result (λ told. told.last ≡ Ok (Some other)) }
    ensures first { IfOk result (λ told. told.first ≡ Ok (Some number)) }
{
    let mut host = match load_two(alloc, number, other) {
        Ok(host) => host,
        Err(fault) => return Err(fault),
    };
    let refused = host.unload(0);
    let last = host.unload(1);
    let first = host.unload(0);
    Ok(Unloaded {
        refused,
        last,
        first,
    })
}
