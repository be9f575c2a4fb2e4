//! Unloading.
ghost use Rattle.std.specs.Prelude.{◌≡◌, None, Some, set, slice_get};
ghost use Rattle.stabby_host.specs.Answers.{EndsPlugin};
ghost use Rattle.stabby_host.specs.Plugins.{IsLiveAt};
ghost use Rattle.stabby_host.specs.declared.plugin.Plugin.TheVariants.{Ended};

use crate::binding::least_needing;
use crate::faults::{AskFault, UnloadFault};
use crate::host::Host;
use crate::plugin::{Loaded, Plugin};
use stabby_count::Spent;
use stabby_dyn::Universe;
use std::mem;

// Takes a live plugin from its place, where an ended one is left.
fn take_at<U>(plugins: &mut Vec<Plugin<U>>, at: usize) -> Loaded<U>
    requires { (p : _) × IsLiveAt plugins.old.items at p }
    ensures plugin { IsLiveAt plugins.old.items at result }
    ensures ended { plugins.new.items ≡ set plugins.old.items at (Ended None) }
{
    match mem::replace(&mut plugins[at], Plugin::Ended(None)) {
        Plugin::Live(loaded) => loaded,
        Plugin::Ended(_) => unreachable!(),
    }
}

// Keeps what is left of the host's handle in the place of a plugin that was taken from there.
fn keep_at<U>(plugins: &mut Vec<Plugin<U>>, at: usize, spent: Spent)
    requires { slice_get plugins.old.items at ≡ Some (Ended None) }
    ensures { plugins.new.items ≡ set plugins.old.items at (Ended (Some spent)) }
{
    match mem::replace(&mut plugins[at], Plugin::Ended(Some(spent))) {
        Plugin::Ended(_) => {}
        Plugin::Live(_) => unreachable!(),
    }
}

// Ends the host's handle of a live plugin. Where that gives no value, what is left of it stays in the plugin's place.
fn end_at<U>(plugins: &mut Vec<Plugin<U>>, at: usize) -> Option<U>
    requires { (p : _) × IsLiveAt plugins.old.items at p }
    ensures { (p : _) → IsLiveAt plugins.old.items at p → EndsPlugin at p plugins.old.items plugins.new.items result }
{
    let Loaded {
        handle,
        table: _,
        number: _,
        bound: _,
    } = take_at(plugins, at);
    match handle.end() {
        Ok(value) => Some(value),
        Err(spent) => {
            keep_at(plugins, at, spent);
            None
        }
    }
}

impl<U: Universe> Host<U> {
    ghost use Rattle.std.specs.Prelude.{◌≡◌, slice_get};
    ghost use Rattle.stabby_host.specs.Answers.{Unloads};
    ghost use Rattle.stabby_host.specs.Hosts.{plugins_of, tables_of, limit_of};

    /// Ends the host's handle of the plugin, which takes no memory. The value comes exactly where the step of that end
    /// read one strong handle: no guest has one.
    ///
    /// # Errors
    /// `Unknown` exactly where no plugin of this number was loaded; `Ended` exactly where it was unloaded; `Needed`
    /// exactly where a live plugin other than it is bound to it, with the least such.
    pub fn unload(&mut self, plugin: u64) -> Result<Option<U>, UnloadFault>
        ensures unload { let before = plugins_of self.old in
            Unloads plugin before (plugins_of self.new) (slice_get before plugin) result }
        ensures tables { tables_of self.new ≡ tables_of self.old }
        ensures limit { limit_of self.new ≡ limit_of self.old }
    {
        match self.live_at(plugin) {
            Ok(_) => {}
            Err(AskFault::Ended) => return Err(UnloadFault::Ended),
            Err(_) => return Err(UnloadFault::Unknown),
        }
        if let Some(by) = least_needing(&self.plugins, plugin) {
            return Err(UnloadFault::Needed { by });
        }
        let given = end_at(&mut self.plugins, plugin as usize);
        self.live -= 1;
        Ok(given)
    }
}
