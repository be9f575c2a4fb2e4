//! Weak handles for others.
ghost use Rattle.std.specs.Prelude.{◌≡◌, IfErr, IfOk};
ghost use Rattle.stabby_host.specs.Answers.{GivesGuest, IsGuestFault};
ghost use Rattle.stabby_host.specs.Plugins.{IsLiveAt};

use crate::faults::{AskFault, GuestFault};
use crate::host::Host;
use crate::plugin::Plugin;
use stabby_count::{CountFault, Weak};
use stabby_dyn::Universe;
use std::sync::Wait;

// A weak handle of the value of a live plugin.
fn downgrade_at<U, R: Wait>(
    rt: &R,
    plugins: &mut Vec<Plugin<U>>,
    at: usize,
) -> Result<Weak<U>, GuestFault>
    requires { (p : _) × IsLiveAt plugins.old.items at p }
    ensures { (p : _) → IsLiveAt plugins.old.items at p → GivesGuest at p plugins.old.items plugins.new.items result }
{
    match &mut plugins[at] {
        Plugin::Live(loaded) => match loaded.handle.downgrade(rt) {
            Ok(weak) => Ok(weak),
            Err(CountFault::Full { word }) => Err(GuestFault::Full { word }),
            Err(CountFault::Memory) => Err(GuestFault::Memory),
        },
        Plugin::Ended(_) => unreachable!(),
    }
}

impl<U: Universe> Host<U> {
    ghost use Rattle.std.specs.Prelude.{◌≡◌, slice_get};
    ghost use Rattle.stabby_host.specs.Answers.{Guests};
    ghost use Rattle.stabby_host.specs.Hosts.{plugins_of, tables_of, limit_of};

    /// A weak handle of the plugin's value. It tries again where another handle was in the way.
    ///
    /// # Errors
    /// `Ask` with `Unknown` or `Ended`; `Full` where the weak count is at its limit of 2^32 - 1; `Memory`.
    pub fn guest<R: Wait>(&mut self, rt: &R, plugin: u64) -> Result<Weak<U>, GuestFault>
        ensures guest { let before = plugins_of self.old in
            Guests plugin before (plugins_of self.new) (slice_get before plugin) result }
        ensures tables { tables_of self.new ≡ tables_of self.old }
        ensures limit { limit_of self.new ≡ limit_of self.old }
    {
        if let Err(fault) = self.live_at(plugin) {
            return Err(GuestFault::Ask(fault));
        }
        downgrade_at(rt, &mut self.plugins, plugin as usize)
    }
}
