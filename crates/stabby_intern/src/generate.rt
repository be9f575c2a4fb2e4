//! The tables that a generation makes.

ghost use Rattle.std.specs.Prelude.{◌≡◌, ◌<◌, ◌≤◌, IfOk, IfErr};
ghost use Rattle.stabby_intern.specs.Generated.{generated, generated_tables};
ghost use Rattle.stabby_intern.specs.Commands.{generation_limit};

use stabby_layout::AllocationError;
use stabby_registry::WordTable;
use std::alloc::Global;

/// So many tables: at place i stand the remainders of 7 * i and of i by the divisor.
pub fn generate_tables(
    alloc: Global,
    count: u64,
    divisor: u64,
) -> Result<Vec<WordTable>, AllocationError>
    requires few { count ≤ generation_limit }
    requires divides { 1 ≤ divisor }
    ensures tables { IfOk result (λ tables. tables.items ≡ generated_tables count divisor) }
    ensures memory { IfErr result (λ error. error ≡ AllocationError.Memory) }
{
    let mut tables = Vec::with_capacity(alloc, count as usize)?;
    for place in 0..count {
        tables.push(generate_table(alloc, place, divisor)?)?;
    }
    Ok(tables)
}

// The table at a place.
fn generate_table(alloc: Global, place: u64, divisor: u64) -> Result<WordTable, AllocationError>
    requires near { place < generation_limit }
    requires divides { 1 ≤ divisor }
    ensures table { IfOk result (λ table. table ≡ generated divisor place) }
    ensures memory { IfErr result (λ error. error ≡ AllocationError.Memory) }
{
    WordTable::from_words(alloc, &[7 * place % divisor, place % divisor])
}
