//! Loading.
use crate::binding::bind;
use crate::faults::LoadFault;
use crate::host::Host;
use crate::need::Need;
use crate::plugin::{Loaded, Plugin};
use stabby_count::Arc;
use stabby_dyn::Universe;
use stabby_registry::{ListsWords, WordTable};
use std::alloc::Global;

// What a plugin needs besides its value before it is loaded.
#[derive(Drop)]
struct Prepared {
    table: WordTable,
    bound: Vec<u64>,
}

impl<U: Universe> Host<U> {
    ghost use Rattle.std.specs.Prelude.{◌≡◌, ◌<◌, length, vec_len, vec_capacity, IfErr, IfOk, OnErr, OnOk};
    ghost use Rattle.stabby_host.specs.Hosts.{HasLoaded, HasRoom, IsLoadFault, IsSameHost, plugins_of};
    ghost use Rattle.stabby_host.specs.Plugins.{BindsFirst};

    /// Loads a plugin: its number is its place in the order of loading, from 0. Each need is bound to the least live
    /// plugin that meets it. The words that `vtable` lists are its table.
    ///
    /// # Errors
    /// The value and the needs come back, and plugins and registry are as before. In order: `Full` exactly where as
    /// many are live as the limit allows; `Exhausted` exactly where 4,294,967,295 were loaded; `Unmet` exactly where no
    /// live plugin meets the need at this place, the first such; `Memory`.
    pub fn load<Vt: ListsWords>(
        &mut self,
        alloc: Global,
        value: U,
        vtable: &Vt,
        needs: Vec<Need>,
    ) -> Result<u64, (U, Vec<Need>, LoadFault)>
        ensures ok { IfOk result
            (HasLoaded U.type_id U.type_report self.old self.new value (Vt.listed_words vtable.now) needs.items) }
        ensures fault { IfErr result (λ back. IsLoadFault U.type_id U.type_report self.old needs.items back.2) }
        ensures value_back { IfErr result (λ back. (back.0 ≡ value) × (back.1 ≡ needs)) }
        ensures unchanged { OnErr result (IsSameHost self.old self.new) }
    {
        let Prepared { table, bound } = match self.prepare(alloc, vtable, &needs) {
            Ok(prepared) => prepared,
            Err(fault) => return Err((value, needs, fault)),
        };
        let handle = match Arc::try_new_in(alloc, value) {
            Ok(handle) => handle,
            Err((value, _)) => return Err((value, needs, LoadFault::Memory)),
        };
        let Ok(number) = self.shelf.number_of(alloc, &table) else {
            return match handle.try_into_inner() {
                Ok(value) => Err((value, needs, LoadFault::Memory)),
                Err(_) => unreachable!(),
            };
        };
        let loaded = self.plugins.len() as u64;
        self.plugins.push_reserved(Plugin::Live(Loaded {
            handle,
            table,
            number,
            bound,
        }));
        self.live += 1;
        Ok(loaded)
    }

    // Tests what is refused, and takes the memory that the host's own lists want.
    fn prepare<Vt: ListsWords>(
        &mut self,
        alloc: Global,
        vtable: &Vt,
        needs: &[Need],
    ) -> Result<Prepared, LoadFault>
        ensures room { OnOk result (HasRoom self.old) }
        ensures spare { OnOk result (vec_len self.new.plugins < vec_capacity self.new.plugins) }
        ensures table { IfOk result (λ prepared. prepared.table ≡ Vt.listed_words vtable.now) }
        ensures bound { IfOk result (λ prepared.
            let count = length needs.now in
            BindsFirst U.type_id U.type_report needs.now (plugins_of self.old) count prepared.bound.items) }
        ensures fault { IfErr result (IsLoadFault U.type_id U.type_report self.old needs.now) }
        ensures unchanged { IsSameHost self.old self.new }
    {
        if self.live == self.limit {
            return Err(LoadFault::Full { live: self.live });
        }
        let loaded = self.plugins.len() as u64;
        if loaded == 4294967295 {
            return Err(LoadFault::Exhausted { loaded });
        }
        let bound = match bind(alloc, &self.plugins, needs) {
            Ok(bound) => bound,
            Err(fault) => return Err(fault),
        };
        let Ok(table) = vtable.list_words(alloc) else {
            return Err(LoadFault::Memory);
        };
        if self.plugins.reserve(1).is_err() {
            return Err(LoadFault::Memory);
        }
        Ok(Prepared { table, bound })
    }
}
