//! Numbers to places in sorted order.

ghost use Rattle.std.specs.Prelude.{◌≡◌, ◌<◌, ℕ, [], length, map, slice_index, IfOk, IfErr};
ghost use Rattle.stabby_tables.specs.Lists.{entry_place};
ghost use Rattle.stabby_registry.specs.Interned.{CanRank};

use stabby_layout::AllocationError;
use stabby_word_table::Numbered;
use std::alloc::Global;

/// For each number the place of its entry: the rank of its table, where the entries are in the order of tables.
///
/// The entries have the numbers below their count, each once, and all of `numbers` are below it, as those of an
/// `Interned` are. One pass over the entries and one over the numbers.
///
/// # Errors
/// `Memory`, where the list or the places find none.
pub fn ranks(
    alloc: Global,
    entries: &[Numbered],
    numbers: &[u64],
) -> Result<Vec<u64>, AllocationError>
    requires { CanRank entries.now numbers.now }
    ensures ok { IfOk result (λ ranks. ranks.items ≡ map (entry_place entries.now) numbers.now) }
    ensures memory { IfErr result (λ error. error ≡ AllocationError.Memory) }
{
    let places = places_of(alloc, entries)?;
    let mut ranks = Vec::with_capacity(alloc, numbers.len())?;
    for number in numbers {
        ranks.push(places[*number as usize])?;
    }
    Ok(ranks)
}

// For each number below the count of the entries the place of its entry.
fn places_of(alloc: Global, entries: &[Numbered]) -> Result<Vec<u64>, AllocationError>
    requires { CanRank entries.now [] }
    ensures long { IfOk result (λ places. length places.items ≡ length entries.now) }
    ensures places { IfOk result (λ places. (n : ℕ) → n < length entries.now
        → slice_index places.items n ≡ entry_place entries.now n) }
    ensures memory { IfErr result (λ error. error ≡ AllocationError.Memory) }
{
    let mut places = vec![in alloc; entries.len() as u64; entries.len()]?;
    for (place, entry) in entries.iter().enumerate() {
        places[entry.number() as usize] = place as u64;
    }
    Ok(places)
}
