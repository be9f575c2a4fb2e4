//! The text of a report.

ghost use Rattle.std.specs.Prelude.{◌≡◌, ◌++◌, ◌∷◌, ◌<◌, ◌≤◌, ◌^◌, ℕ, [], length, map, sum, slice_index, IfOk, IfErr, OnOk, All, if◌then◌else◌};
ghost use Rattle.std.specs.List.{range_with_len};
ghost use Rattle.std.specs.Fmt.{decimal};
ghost use Rattle.stabby_tables.specs.Lists.{ordered, IsDistinct};
ghost use Rattle.stabby_tables.specs.Lines.{ended};
ghost use Rattle.stabby_tables.specs.Reports.{spelled};
ghost use Rattle.stabby_registry.specs.Catalog.{listed};
ghost use Rattle.stabby_registry.specs.Interned.{CanRank};
ghost use Rattle.stabby_intern.specs.Commands.{generation_limit};
ghost use Rattle.stabby_intern.specs.Printing.{text_of, counts_of, table_in};

use crate::command::Task;
use itoa::Buffer;
use stabby_layout::AllocationError;
use stabby_registry::{Interned, Numbered, WordTable, ranks};
use std::alloc::Global;

/// The report of a task on interned tables, whose entries are the ordered ones of a list of distinct tables.
pub fn make_report(
    alloc: Global,
    task: Task,
    interned: &Interned,
) -> Result<Vec<u8>, AllocationError>
    requires can_rank { CanRank interned.now.entries interned.now.numbers }
    requires in_order { ordered (listed interned.now.entries) ≡ interned.now.entries }
    requires distinct { IsDistinct (listed interned.now.entries) }
    ensures report { IfOk result (λ report. report.items ≡ text_of task interned.now) }
    ensures memory { IfErr result (λ error. error ≡ AllocationError.Memory) }
{
    match task {
        Task::Ranks => make_rank_report(alloc, interned),
        Task::Numbers => make_number_report(alloc, interned),
    }
}

/// How many tables were interned, how many entries there are, and the sum of the ranks, a line for each.
pub fn make_count_report(alloc: Global, interned: &Interned) -> Result<Vec<u8>, AllocationError>
    requires can_rank { CanRank interned.now.entries interned.now.numbers }
    requires few_tables { length interned.now.numbers ≤ generation_limit }
    requires few_entries { length interned.now.entries ≤ generation_limit }
    ensures report { IfOk result (λ report. report.items ≡ counts_of interned.now) }
    ensures memory { IfErr result (λ error. error ≡ AllocationError.Memory) }
{
    let (numbers, entries) = (interned.numbers(), interned.entries());
    let ranks = ranks(alloc, entries, numbers)?;
    let mut report = Vec::new(alloc);
    push_count(&mut report, b"tables ", numbers.len() as u64)?;
    push_count(&mut report, b"distinct ", entries.len() as u64)?;
    push_count(&mut report, b"ranksum ", sum_of(&ranks))?;
    Ok(report)
}

// The sum of all ranks.
fn sum_of(ranks: &[u64]) -> u64
    requires { sum ranks.now < 2 ^ 64 }
    ensures { result ≡ sum ranks.now }
{
    ranks.iter().sum()
}

// A line with a name and a count.
fn push_count(report: &mut Vec<u8>, name: &[u8], count: u64) -> Result<(), AllocationError>
    ensures line { OnOk result (report.new.items ≡ report.old.items ++ ended ((name.now ++ decimal count) ∷ [])) }
    ensures memory { IfErr result (λ error. error ≡ AllocationError.Memory) }
{
    report.extend_from_slice(name)?;
    push_number(report, count)?;
    report.push(b'\n')?;
    Ok(())
}

// A line for each rank, and then one for each table, in increasing order.
fn make_rank_report(alloc: Global, interned: &Interned) -> Result<Vec<u8>, AllocationError>
    requires can_rank { CanRank interned.now.entries interned.now.numbers }
    ensures report { IfOk result (λ report. report.items ≡ text_of Task.Ranks interned.now) }
    ensures memory { IfErr result (λ error. error ≡ AllocationError.Memory) }
{
    let entries = interned.entries();
    let places = ranks(alloc, entries, &numbers_below(alloc, entries.len())?)?;
    let mut report = Vec::new(alloc);
    push_ranks(&mut report, &places, interned.numbers())?;
    push_entries(&mut report, entries)?;
    Ok(report)
}

// A line for each number, and then one for each table, in the order of the numbers.
fn make_number_report(alloc: Global, interned: &Interned) -> Result<Vec<u8>, AllocationError>
    requires can_rank { CanRank interned.now.entries interned.now.numbers }
    requires in_order { ordered (listed interned.now.entries) ≡ interned.now.entries }
    requires distinct { IsDistinct (listed interned.now.entries) }
    ensures report { IfOk result (λ report. report.items ≡ text_of Task.Numbers interned.now) }
    ensures memory { IfErr result (λ error. error ≡ AllocationError.Memory) }
{
    let entries = interned.entries();
    let places = ranks(alloc, entries, &numbers_below(alloc, entries.len())?)?;
    let mut report = Vec::new(alloc);
    push_numbers(&mut report, interned.numbers())?;
    push_at_places(&mut report, entries, &places)?;
    Ok(report)
}

// A line for each number.
fn push_numbers(report: &mut Vec<u8>, numbers: &[u64]) -> Result<(), AllocationError>
    ensures numbers { OnOk result (report.new.items ≡ report.old.items ++ ended (map decimal numbers.now)) }
    ensures memory { IfErr result (λ error. error ≡ AllocationError.Memory) }
{
    for number in numbers {
        push_number(report, *number)?;
        report.push(b'\n')?;
    }
    Ok(())
}

// A line for the place of each number, without a list of all these places.
fn push_ranks(report: &mut Vec<u8>, places: &[u64], numbers: &[u64]) -> Result<(), AllocationError>
    requires { All (λ n. n < length places.now) numbers.now }
    ensures ranks { OnOk result (report.new.items
        ≡ report.old.items ++ ended (map (λ n. decimal (slice_index places.now n)) numbers.now)) }
    ensures memory { IfErr result (λ error. error ≡ AllocationError.Memory) }
{
    for number in numbers {
        push_number(report, places[*number as usize])?;
        report.push(b'\n')?;
    }
    Ok(())
}

// The numbers below a count, in order.
fn numbers_below(alloc: Global, count: usize) -> Result<Vec<u64>, AllocationError>
    ensures numbers { IfOk result (λ numbers. numbers.items ≡ range_with_len 0 count) }
    ensures memory { IfErr result (λ error. error ≡ AllocationError.Memory) }
{
    Ok((0..count as u64).collect(alloc)?)
}

// A line for the table of each entry.
fn push_entries(report: &mut Vec<u8>, entries: &[Numbered]) -> Result<(), AllocationError>
    ensures tables { OnOk result (report.new.items ≡ report.old.items ++ ended (map (λ e. spelled e.0) entries.now)) }
    ensures memory { IfErr result (λ error. error ≡ AllocationError.Memory) }
{
    for entry in entries {
        push_table(report, entry.table())?;
        report.push(b'\n')?;
    }
    Ok(())
}

// A line for the table of the entry at each of the places.
fn push_at_places(
    report: &mut Vec<u8>,
    entries: &[Numbered],
    places: &[u64],
) -> Result<(), AllocationError>
    requires places { All (λ place. place < length entries.now) places.now }
    ensures tables { OnOk result (report.new.items
        ≡ report.old.items ++ ended (map (λ place. spelled (table_in entries.now place)) places.now)) }
    ensures memory { IfErr result (λ error. error ≡ AllocationError.Memory) }
{
    for place in places {
        push_table(report, entries[*place as usize].table())?;
        report.push(b'\n')?;
    }
    Ok(())
}

// The words of a table, with a space between two.
fn push_table(report: &mut Vec<u8>, table: &WordTable) -> Result<(), AllocationError>
    ensures words { OnOk result (report.new.items ≡ report.old.items ++ spelled table.now) }
    ensures memory { IfErr result (λ error. error ≡ AllocationError.Memory) }
{
    let mut between = false;
    for word in table.words() {
        push_word(report, between, *word)?;
        between = true;
    }
    Ok(())
}

// A word, and a space before it where one stands between.
fn push_word(report: &mut Vec<u8>, between: bool, word: u64) -> Result<(), AllocationError>
    ensures word { OnOk result (report.new.items
        ≡ report.old.items ++ (if between then 32 ∷ decimal word else decimal word)) }
    ensures memory { IfErr result (λ error. error ≡ AllocationError.Memory) }
{
    if between {
        report.push(b' ')?;
        return push_number(report, word);
    }
    push_number(report, word)
}

fn push_number(report: &mut Vec<u8>, number: u64) -> Result<(), AllocationError>
    ensures number { OnOk result (report.new.items ≡ report.old.items ++ decimal number) }
    ensures memory { IfErr result (λ error. error ≡ AllocationError.Memory) }
{
    let mut buffer = Buffer::new();
    report.extend_from_slice(buffer.format(number).as_bytes())?;
    Ok(())
}
