//! Hosts.
ghost use Rattle.std.specs.Prelude.{◌≡◌, ◌≤◌, length};
ghost use Rattle.stabby_host.specs.Facts.{AreBoundToLive, AreNumbered};
ghost use Rattle.stabby_host.specs.Plugins.{live_count};
ghost use Rattle.stabby_host.specs.Shelves.{shelf_tables};

use crate::plugin::Plugin;
use crate::shelf::Shelf;
use stabby_dyn::Universe;
use stabby_layout::AllocationError;
use std::alloc::Global;

/// Plugins with values of the universe `U`, and a registry of their tables.
#[derive(Drop)]
pub struct Host<U: Universe> {
    pub(crate) shelf: Shelf,
    pub(crate) limit: u64,
    pub(crate) live: u64,
    pub(crate) plugins: Vec<Plugin<U>>,
    ghost counted: { live ≡ live_count plugins.items },
    ghost within: { live ≤ limit },
    ghost small: { limit ≤ 1000000 },
    ghost few_tables: { length (shelf_tables shelf) ≤ length plugins.items },
    ghost few: { length plugins.items ≤ 4294967295 },
    ghost numbered: { AreNumbered (shelf_tables shelf) plugins.items },
    ghost bound_to_live: { AreBoundToLive plugins.items },
}

impl<U: Universe> Host<U> {
    ghost use Rattle.std.specs.Prelude.{◌≡◌, ◌≤◌, length, IfErr, IfOk};
    ghost use Rattle.stabby_host.specs.Hosts.{IsEmpty, plugins_of, tables_of};
    ghost use Rattle.stabby_host.specs.Plugins.{live_count};
    ghost use Rattle.stabby_layout.specs.declared.error.AllocationError.TheVariants.{Memory};

    /// A host with no plugin, in which up to `limit` may be live at once. The limit is at most 1,000,000.
    ///
    /// # Errors
    /// `Memory`.
    pub fn new(alloc: Global, limit: u64) -> Result<Host<U>, AllocationError>
        requires { limit ≤ 1000000 }
        ensures ok { IfOk result (λ host. IsEmpty host limit) }
        ensures memory { IfErr result (λ error. error ≡ Memory) }
    {
        let shelf = Shelf::new(alloc)?;
        Ok(Host {
            shelf,
            limit,
            live: 0,
            plugins: Vec::new(alloc),
        })
    }

    /// How many plugins are live.
    pub fn live(&self) -> u64
        ensures { result ≡ live_count (plugins_of self.now) }
    {
        self.live
    }

    /// How many plugins were loaded, the ended ones too.
    pub fn loaded(&self) -> u64
        ensures count { result ≡ length (plugins_of self.now) }
        ensures tables { length (tables_of self.now) ≤ result }
    {
        self.plugins.len() as u64
    }
}
