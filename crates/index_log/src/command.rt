//! The lines of the input.

ghost use Rattle.std.specs.Prelude.{◌≡◌, Some, IfOk, IfErr, codes};
ghost use Rattle.std.specs.Option.{option_copied};
ghost use Rattle.index_log.specs.Lines.{Reads, ReadsAfter, ReadsRow, ReadsStamp};

use stabby_index::{Change, Row};
use stabby_layout::{AllocationError, Text};
use stabby_lines::{first_piece, parse_number};
use std::alloc::Global;

/// Which rows are asked for.
#[derive(Clone, Copy, Debug, PartialEq, Eq)]
pub enum Question {
    /// All of them.
    Rows,
    /// Those of this group.
    Group(u64),
    /// How many each group has.
    Groups,
}

/// What a line says.
#[derive(Drop, Debug)]
pub enum Command {
    /// The change is added to the pending ones.
    Change(Change),
    /// The pending changes are committed.
    Commit,
    /// Rows are printed, of the version of this stamp or of the newest.
    Ask {
        question: Question,
        stamp: Option<u64>,
    },
}

/// The command that a line is; `None` exactly where it is none.
pub fn parse_command(alloc: Global, line: &[u8]) -> Result<Option<Command>, AllocationError>
    ensures reads { IfOk result (λ found. Reads line.now found) }
    ensures memory { IfErr result (λ error. error ≡ AllocationError.Memory) }
{
    let (word, rest) = first_piece(line);
    parse_rest(alloc, word, rest)
}

// The command that begins with this word, and goes on like that.
fn parse_rest(
    alloc: Global,
    word: &[u8],
    rest: Option<&[u8]>,
) -> Result<Option<Command>, AllocationError>
    ensures reads { IfOk result (λ found. ReadsAfter word.now (option_copied rest.entry) found) }
    ensures memory { IfErr result (λ error. error ≡ AllocationError.Memory) }
{
    if word == b"put".as_slice() {
        return parse_put(alloc, rest);
    }
    if word == b"delete".as_slice() {
        return Ok(parse_delete(rest));
    }
    if word == b"commit".as_slice() {
        return Ok(parse_commit(rest));
    }
    if word == b"rows".as_slice() {
        return Ok(parse_rows(rest));
    }
    if word == b"group".as_slice() {
        return Ok(parse_group(rest));
    }
    if word == b"groups".as_slice() {
        return Ok(parse_groups(rest));
    }
    Ok(None)
}

fn parse_put(alloc: Global, rest: Option<&[u8]>) -> Result<Option<Command>, AllocationError>
    ensures reads { IfOk result (λ found. ReadsAfter (codes "put") (option_copied rest.entry) found) }
    ensures memory { IfErr result (λ error. error ≡ AllocationError.Memory) }
{
    let Some(text) = rest else {
        return Ok(None);
    };
    match parse_row(alloc, text)? {
        Some(row) => Ok(Some(Command::Change(Change::Put(row)))),
        None => Ok(None),
    }
}

// KEY GROUP TEXT
fn parse_row(alloc: Global, text: &[u8]) -> Result<Option<Row>, AllocationError>
    ensures reads { IfOk result (λ found. ReadsRow text.now found) }
    ensures memory { IfErr result (λ error. error ≡ AllocationError.Memory) }
{
    let (key, rest) = first_piece(text);
    let Some(after_key) = rest else {
        return Ok(None);
    };
    let (group, last) = first_piece(after_key);
    let Some(after_group) = last else {
        return Ok(None);
    };
    let Some(key) = parse_number(key) else {
        return Ok(None);
    };
    let Some(group) = parse_number(group) else {
        return Ok(None);
    };
    let Ok(text) = str::from_utf8(after_group) else {
        return Ok(None);
    };
    Ok(Some(Row {
        key,
        group,
        text: Text::from_str(alloc, text)?,
    }))
}

fn parse_delete(rest: Option<&[u8]>) -> Option<Command>
    ensures { ReadsAfter (codes "delete") (option_copied rest.entry) result }
{
    match parse_number(rest?) {
        Some(key) => Some(Command::Change(Change::Delete(key))),
        None => None,
    }
}

fn parse_commit(rest: Option<&[u8]>) -> Option<Command>
    ensures { ReadsAfter (codes "commit") (option_copied rest.entry) result }
{
    match rest {
        None => Some(Command::Commit),
        Some(_) => None,
    }
}

fn parse_rows(rest: Option<&[u8]>) -> Option<Command>
    ensures { ReadsAfter (codes "rows") (option_copied rest.entry) result }
{
    let stamp = parse_stamp(rest)?;
    Some(Command::Ask {
        question: Question::Rows,
        stamp,
    })
}

fn parse_groups(rest: Option<&[u8]>) -> Option<Command>
    ensures { ReadsAfter (codes "groups") (option_copied rest.entry) result }
{
    let stamp = parse_stamp(rest)?;
    Some(Command::Ask {
        question: Question::Groups,
        stamp,
    })
}

fn parse_group(rest: Option<&[u8]>) -> Option<Command>
    ensures { ReadsAfter (codes "group") (option_copied rest.entry) result }
{
    match rest {
        Some(text) => parse_group_text(text),
        None => None,
    }
}

// G, or G S
fn parse_group_text(text: &[u8]) -> Option<Command>
    ensures { ReadsAfter (codes "group") (Some text.now) result }
{
    let (digits, after) = first_piece(text);
    let Some(group) = parse_number(digits) else {
        return None;
    };
    let Some(stamp) = parse_stamp(after) else {
        return None;
    };
    Some(Command::Ask {
        question: Question::Group(group),
        stamp,
    })
}

// Nothing, or S
fn parse_stamp(rest: Option<&[u8]>) -> Option<Option<u64>>
    ensures { ReadsStamp (option_copied rest.entry) result }
{
    match rest {
        None => Some(None),
        Some(digits) => match parse_number(digits) {
            Some(stamp) => Some(Some(stamp)),
            None => None,
        },
    }
}
