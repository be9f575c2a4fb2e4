//! The lines of the output.

ghost use Rattle.std.specs.Prelude.{◌≡◌, ◌++◌, [], IfOk, IfErr, OnOk, flat_map, map};
ghost use Rattle.std.specs.Fmt.{decimal};
ghost use Rattle.index_log.specs.Printed.{number_line, row_line, count_line, row_lines, IsAnswer};

use crate::command::Question;
use itoa::Buffer;
use stabby_index::{AllocationError, Row, View};
use std::alloc::Global;

fn push_number(out: &mut Vec<u8>, number: u64) -> Result<(), AllocationError>
    ensures ok { OnOk result (out.new.items ≡ out.old.items ++ decimal number) }
    ensures memory { IfErr result (λ error. error ≡ AllocationError.Memory) }
{
    let mut buffer = Buffer::new();
    out.extend_from_slice(buffer.format(number).as_bytes())?;
    Ok(())
}

/// These words and a number, on a line.
pub fn number_line(alloc: Global, words: &[u8], number: u64) -> Result<Vec<u8>, AllocationError>
    ensures ok { IfOk result (λ line. line.items ≡ number_line words.now number) }
    ensures memory { IfErr result (λ error. error ≡ AllocationError.Memory) }
{
    let mut out = Vec::new(alloc);
    out.extend_from_slice(words)?;
    push_number(&mut out, number)?;
    out.push(b'\n')?;
    Ok(out)
}

/// What a view answers to a question: a line for each row or group.
pub fn answer(alloc: Global, view: &View, question: Question) -> Result<Vec<u8>, AllocationError>
    ensures ok { IfOk result (λ printed. IsAnswer view.now question printed.items) }
    ensures memory { IfErr result (λ error. error ≡ AllocationError.Memory) }
{
    match question {
        Question::Rows => row_lines(alloc, &view.rows(alloc)?),
        Question::Group(group) => row_lines(alloc, &view.group(alloc, group)?),
        Question::Groups => group_lines(alloc, &view.groups(alloc)?),
    }
}

// `KEY GROUP TEXT` for each row.
fn row_lines(alloc: Global, rows: &[&Row]) -> Result<Vec<u8>, AllocationError>
    ensures ok { IfOk result (λ lines. lines.items ≡ row_lines (map (λ r. r.now) rows.now)) }
    ensures memory { IfErr result (λ error. error ≡ AllocationError.Memory) }
{
    let mut out = Vec::new(alloc);
    for row in rows {
        push_row(&mut out, *row)?;
    }
    Ok(out)
}

fn push_row(out: &mut Vec<u8>, row: &Row) -> Result<(), AllocationError>
    ensures ok { OnOk result (out.new.items ≡ out.old.items ++ row_line row.now) }
    ensures memory { IfErr result (λ error. error ≡ AllocationError.Memory) }
{
    push_number(out, row.key)?;
    out.push(b' ')?;
    push_number(out, row.group)?;
    out.push(b' ')?;
    out.extend_from_slice(row.text.as_str().as_bytes())?;
    out.push(b'\n')?;
    Ok(())
}

// `GROUP COUNT` for each group.
fn group_lines(alloc: Global, counts: &[(u64, u64)]) -> Result<Vec<u8>, AllocationError>
    ensures ok { IfOk result (λ lines. lines.items ≡ flat_map count_line counts.now) }
    ensures memory { IfErr result (λ error. error ≡ AllocationError.Memory) }
{
    let mut out = Vec::new(alloc);
    for count in counts {
        push_count(&mut out, *count)?;
    }
    Ok(out)
}

fn push_count(out: &mut Vec<u8>, count: (u64, u64)) -> Result<(), AllocationError>
    ensures ok { OnOk result (out.new.items ≡ out.old.items ++ count_line count) }
    ensures memory { IfErr result (λ error. error ≡ AllocationError.Memory) }
{
    push_number(out, count.0)?;
    out.push(b' ')?;
    push_number(out, count.1)?;
    out.push(b'\n')?;
    Ok(())
}
