//! Which plugins meet which needs, and which are needed.
ghost use Rattle.std.specs.Prelude.{◌≡◌, ◌↔◌, ◌<◌, ◌≢◌, ℕ, Contains, IfErr, IfOk, IfNone, IfSome, IsTrue, Some, length, slice_get};
ghost use Rattle.stabby_host.specs.Plugins.{BindsFirst, FindsMeeting, IsBindFault, IsBoundTo, IsFirstUnmet, IsLeastNeeding, Meets, NeedsPlugin};

use crate::faults::LoadFault;
use crate::need::Need;
use crate::plugin::Plugin;
use stabby_dyn::{Any, Universe};
use std::alloc::Global;

// Whether the plugin meets the need.
fn meets<U: Universe>(plugin: &Plugin<U>, need: &Need) -> bool
    ensures { IsTrue result ↔ Meets U.type_id U.type_report need.now plugin.now }
{
    match plugin {
        Plugin::Live(loaded) => has_type(&*loaded.handle, need),
        Plugin::Ended(_) => false,
    }
}

// Whether the value's id and report are those of the need.
fn has_type<U: Universe>(value: &U, need: &Need) -> bool
    ensures { IsTrue result ↔ ((U.type_id value.now ≡ need.now.id) × (U.type_report value.now ≡ need.now.report)) }
{
    value.id() == need.id && *value.report() == need.report
}

/// The least live plugin that meets the need.
pub(crate) fn least_meeting<U: Universe>(plugins: &[Plugin<U>], need: &Need) -> Option<u64>
    ensures { FindsMeeting U.type_id U.type_report need.now plugins.now result }
{
    let mut number = 0;
    for plugin in plugins {
        if meets(plugin, need) {
            return Some(number);
        }
        number += 1;
    }
    None
}

// Whether the plugin is live and bound to the one of this number.
fn is_bound_to<U>(plugin: &Plugin<U>, number: u64) -> bool
    ensures { IsTrue result ↔ IsBoundTo number plugin.now }
{
    match plugin {
        Plugin::Live(loaded) => loaded.bound.contains(&number),
        Plugin::Ended(_) => false,
    }
}

/// The least live plugin that is bound to the one of this number, and isn't it.
pub(crate) fn least_needing<U>(plugins: &[Plugin<U>], number: u64) -> Option<u64>
    ensures some { IfSome result (IsLeastNeeding plugins.now number) }
    ensures none { IfNone result ((j : ℕ) → ¬ NeedsPlugin plugins.now number j) }
{
    let mut i = 0;
    for plugin in plugins {
        if i != number && is_bound_to(plugin, number) {
            return Some(i);
        }
        i += 1;
    }
    None
}

// Why the needs can't be bound where memory is wanting: a need that no plugin meets is told before that.
fn unmet_or_memory<U: Universe>(plugins: &[Plugin<U>], needs: &[Need]) -> LoadFault
    ensures { IsBindFault U.type_id U.type_report needs.now plugins.now result }
{
    let mut place = 0;
    for need in needs {
        let Some(_) = least_meeting(plugins, need) else {
            return LoadFault::Unmet { place };
        };
        place += 1;
    }
    LoadFault::Memory
}

/// The least live plugin for each need, in order.
///
/// # Errors
/// `Unmet` where no plugin meets a need, the first such; else `Memory`.
pub(crate) fn bind<U: Universe>(
    alloc: Global,
    plugins: &[Plugin<U>],
    needs: &[Need],
) -> Result<Vec<u64>, LoadFault>
    ensures ok { IfOk result (λ bound.
        BindsFirst U.type_id U.type_report needs.now plugins.now (length needs.now) bound.items) }
    ensures fault { IfErr result (IsBindFault U.type_id U.type_report needs.now plugins.now) }
{
    let mut bound = Vec::new(alloc);
    let mut place = 0;
    for need in needs {
        let Some(number) = least_meeting(plugins, need) else {
            return Err(LoadFault::Unmet { place });
        };
        if bound.push(number).is_err() {
            return Err(unmet_or_memory(plugins, needs));
        }
        place += 1;
    }
    Ok(bound)
}
