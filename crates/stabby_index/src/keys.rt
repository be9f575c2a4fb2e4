//! The keys of a group.
ghost use Rattle.std.specs.Prelude.{◌≡◌, [], map, IfOk, IfErr};
ghost use Rattle.std.specs.Ordering.{nat_cmp};
ghost use Rattle.stabby_index.specs.Groups.{with_key, IsRisingKeys};

use stabby_layout::AllocationError;
use stabby_tree::ArcBTreeSet;
use std::alloc::{AllocError, Global};
use std::marker::Model;

/// The keys whose rows are in a group, or were.
#[derive(Drop)]
pub(crate) struct Keys {
    keys: ArcBTreeSet<u64, Global, 0, 5>,
}

impl Model for Keys {
    ghost use Rattle.std.specs.Prelude.{List, ℕ};

    ghost Value = { List ℕ };

    ghost view = { λ k. k.keys.items };
}

impl Keys {
    pub(crate) fn none(alloc: Global) -> Keys
        ensures { result ≡ [] }
    {
        Keys {
            keys: ArcBTreeSet::new_in(alloc),
        }
    }

    // These keys and this one.
    pub(crate) fn with(&self, key: u64) -> Result<Keys, AllocationError>
        ensures ok { IfOk result (λ keys. keys ≡ with_key self.now key) }
        ensures memory { IfErr result (λ error. error ≡ AllocationError.Memory) }
    {
        let mut keys = self.keys.clone()?;
        match keys.insert(key) {
            Ok(_) => Ok(Keys { keys }),
            Err((_, error)) => Err(error),
        }
    }

    // The keys in order.
    pub(crate) fn list(&self, alloc: Global) -> Result<Vec<&u64>, AllocationError>
        ensures ok { IfOk result (λ list. map (λ k. k.now) list.items ≡ self.now) }
        ensures rising { IsRisingKeys self.now }
        ensures memory { IfErr result (λ error. error ≡ AllocationError.Memory) }
    {
        self.keys.to_list(alloc)
    }
}

impl Clone for Keys {
    ghost is_clone = { λ x y. y ≡ x };

    fn clone(&self) -> Result<Keys, AllocError> {
        match self.keys.clone() {
            Ok(keys) => Ok(Keys { keys }),
            Err(_) => Err(AllocError),
        }
    }
}
