//! Questions about a plugin.
ghost use Rattle.std.specs.Prelude.{◌≡◌, Some, MatchResult};
ghost use Rattle.stabby_dyn.specs.Types.{IsType};
ghost use Rattle.stabby_host.specs.declared.faults.AskFault.TheVariants.{Differs};

use crate::faults::{AskFault, ViewFault};
use crate::host::Host;
use crate::plugin::{Loaded, Plugin};
use stabby_dyn::{Any, DynRef, Member, Universe};
use stabby_registry::ListsWords;
use std::alloc::Global;

// The value's content as an X.
fn content<U: Universe, X: Member<U>>(value: &U) -> Result<&X, AskFault>
    ensures { let is_type = IsType (U.type_id value.now) (U.type_report value.now) X.stated_id X.stated_report in
        MatchResult result
        (λ r. is_type × (X.content value.now ≡ Some r.now))
        (λ fault. ¬ is_type × (fault ≡ Differs (U.type_id value.now) X.stated_id)) }
{
    let held = value.id();
    if held == X::id() && X::report_is(value.report()) {
        if let Some(content) = X::pick(value) {
            return Ok(content);
        }
    }
    Err(AskFault::Differs {
        held,
        asked: X::id(),
    })
}

impl<U: Universe> Host<U> {
    ghost use Rattle.std.specs.Prelude.{◌≡◌, ◌↔◌, ℕ, Contains, Some, slice_get};
    ghost use Rattle.stabby_host.specs.Answers.{Answers, IsViewFault, Views};
    ghost use Rattle.stabby_host.specs.Hosts.{plugins_of, tables_of};
    ghost use Rattle.stabby_host.specs.Plugins.{HasType, IsLiveAt, IsNumberOf, bound_of, number_of, table_of, value_of};
    ghost use Rattle.stabby_host.specs.declared.faults.AskFault.TheVariants.{Differs};

    // The plugin, where it is live.
    pub(crate) fn live_at(&self, plugin: u64) -> Result<&Loaded<U>, AskFault>
        ensures { Answers (slice_get (plugins_of self.now) plugin) result (λ p r. r.now ≡ p) (λ p fault. ⊥) }
    {
        match self.plugins.get(plugin as usize) {
            None => Err(AskFault::Unknown),
            Some(Plugin::Ended(_)) => Err(AskFault::Ended),
            Some(Plugin::Live(loaded)) => Ok(loaded),
        }
    }

    /// The content of the plugin's value as an `X`.
    ///
    /// # Errors
    /// `Unknown` exactly where no plugin of this number was loaded; `Ended` exactly where it was unloaded; `Differs`
    /// exactly where it is live and the id or the report of its value is not that of `X`.
    pub fn interface<X: Member<U>>(&self, plugin: u64) -> Result<&X, AskFault>
        ensures { Answers (slice_get (plugins_of self.now) plugin) result
            (λ p r. HasType U.type_id U.type_report X.stated_id X.stated_report p
            × (X.content (value_of p) ≡ Some r.now))
            (λ p fault. ¬ (HasType U.type_id U.type_report X.stated_id X.stated_report p)
            × (fault ≡ Differs (U.type_id (value_of p)) X.stated_id)) }
    {
        match self.live_at(plugin) {
            Ok(loaded) => content(&*loaded.handle),
            Err(fault) => Err(fault),
        }
    }

    /// The registry's number of the plugin's table: two plugins have one number exactly where their tables are equal.
    ///
    /// # Errors
    /// `Unknown`, `Ended`.
    pub fn table(&self, plugin: u64) -> Result<u64, AskFault>
        ensures number { Answers (slice_get (plugins_of self.now) plugin) result
            (λ p n. IsNumberOf (tables_of self.now) p n) (λ p fault. ⊥) }
        ensures same { (n m : ℕ) (p q : _) → IsLiveAt (plugins_of self.now) n p → IsLiveAt (plugins_of self.now) m q
            → (number_of p ≡ number_of q) ↔ (table_of p ≡ table_of q) }
    {
        match self.live_at(plugin) {
            Ok(loaded) => Ok(loaded.number),
            Err(fault) => Err(fault),
        }
    }

    /// The plugins that meet the plugin's needs, in order. Each of them is live.
    ///
    /// # Errors
    /// `Unknown`, `Ended`.
    pub fn bound(&self, plugin: u64) -> Result<&[u64], AskFault>
        ensures numbers { Answers (slice_get (plugins_of self.now) plugin) result
            (λ p r. r.now ≡ bound_of p) (λ p fault. ⊥) }
        ensures live { (n m : ℕ) (p : _) → IsLiveAt (plugins_of self.now) n p → Contains (bound_of p) m
            → (q : _) × IsLiveAt (plugins_of self.now) m q }
    {
        match self.live_at(plugin) {
            Ok(loaded) => Ok(loaded.bound.as_slice()),
            Err(fault) => Err(fault),
        }
    }

    /// The plugin's value with a table, where the words that the table lists are the plugin's.
    ///
    /// # Errors
    /// `Ask` with `Unknown` or `Ended`; `OtherTable` exactly where the words are others, with the number of the
    /// plugin's table; `Memory`.
    pub fn view<Vt: ListsWords + Drop>(
        &self,
        alloc: Global,
        plugin: u64,
        vtable: Vt,
    ) -> Result<DynRef<'_, U, Vt>, ViewFault>
        ensures { Views (slice_get (plugins_of self.now) plugin) result
            (λ p d. (Vt.listed_words vtable ≡ table_of p) × (d.ptr.now ≡ value_of p) × (d.vtable ≡ vtable))
            (IsViewFault (Vt.listed_words vtable)) }
    {
        let loaded = match self.live_at(plugin) {
            Ok(loaded) => loaded,
            Err(fault) => return Err(ViewFault::Ask(fault)),
        };
        let Ok(words) = vtable.list_words(alloc) else {
            return Err(ViewFault::Memory);
        };
        if words != loaded.table {
            return Err(ViewFault::OtherTable {
                held: loaded.number,
            });
        }
        Ok(DynRef::new(&*loaded.handle, vtable))
    }
}
