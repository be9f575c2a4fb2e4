//! A plain list beside an index: at each key the number whose change put the row that is there.
use stabby_index::{AllocationError, Change, Row, Text, View};
use std::alloc::Global;

const KEYS: u64 = 16;

const GROUPS: u64 = 4;

pub type Plain = Vec<Option<u64>>;

pub fn next(x: u64) -> u64 {
    x.wrapping_mul(6364136223846793005)
        .wrapping_add(1442695040888963407)
}

// What a number says of a change.
fn key_in(x: u64) -> u64 {
    (x >> 33) % KEYS
}

fn group_in(x: u64) -> u64 {
    (x >> 40) % GROUPS
}

fn text_in(x: u64) -> &'static str {
    match (x >> 45) % 3 {
        0 => "",
        1 => "a",
        _ => "bc",
    }
}

fn puts(x: u64) -> bool {
    (x >> 50) % 3 > 0
}

pub fn change_in(alloc: Global, x: u64) -> Result<Change, AllocationError> {
    if !puts(x) {
        return Ok(Change::Delete(key_in(x)));
    }
    Ok(Change::Put(Row {
        key: key_in(x),
        group: group_in(x),
        text: Text::from_str(alloc, text_in(x))?,
    }))
}

pub fn change_plain(plain: &mut Plain, x: u64) {
    if let Some(place) = plain.get_mut(key_in(x) as usize) {
        *place = if puts(x) { Some(x) } else { None };
    }
}

pub fn no_rows(alloc: Global) -> Result<Plain, &'static str> {
    let mut plain = Vec::new(alloc);
    for _ in 0..KEYS {
        plain.push(None).map_err(|_| "memory")?;
    }
    Ok(plain)
}

fn is_row(row: &Row, x: u64) -> bool {
    row.key == key_in(x) && row.group == group_in(x) && row.text.as_str() == text_in(x)
}

fn is_in(x: Option<u64>, group: Option<u64>) -> bool {
    match (x, group) {
        (None, _) => false,
        (Some(_), None) => true,
        (Some(x), Some(group)) => group_in(x) == group,
    }
}

fn is_row_at(rows: &[&Row], at: usize, x: u64) -> bool {
    match rows.get(at) {
        Some(row) => is_row(*row, x),
        None => false,
    }
}

// Whether these are the plain list's rows, of one group or of all.
fn are_rows(rows: &[&Row], plain: &[Option<u64>], group: Option<u64>) -> bool {
    let mut at: usize = 0;
    for x in plain {
        if is_in(*x, group) {
            if !is_row_at(rows, at, x.unwrap_or(0)) {
                return false;
            }
            at = at.saturating_add(1);
        }
    }
    at == rows.len()
}

fn is_count_at(counts: &[(u64, u64)], at: usize, count: (u64, u64)) -> bool {
    match counts.get(at) {
        Some(found) => *found == count,
        None => false,
    }
}

// The rows of each group, and how many they are.
fn are_groups(alloc: Global, view: &View, plain: &[Option<u64>]) -> Result<bool, AllocationError> {
    let counts = view.groups(alloc)?;
    let mut at: usize = 0;
    for group in 0..GROUPS {
        let rows = view.group(alloc, group)?;
        if !are_rows(&rows, plain, Some(group)) {
            return Ok(false);
        }
        if !rows.is_empty() {
            if !is_count_at(&counts, at, (group, rows.len() as u64)) {
                return Ok(false);
            }
            at = at.saturating_add(1);
        }
    }
    Ok(at == counts.len())
}

fn is_found(view: &View, key: u64, x: Option<u64>) -> bool {
    match (view.get(key), x) {
        (None, None) => true,
        (Some(row), Some(x)) => is_row(row, x),
        _ => false,
    }
}

fn are_lookups(view: &View, plain: &[Option<u64>]) -> bool {
    for key in 0..plain.len() {
        if !is_found(view, key as u64, plain[key]) {
            return false;
        }
    }
    true
}

/// Whether all calls of the view answer what the plain list has.
pub fn has_rows(
    alloc: Global,
    view: &View,
    plain: &[Option<u64>],
) -> Result<bool, AllocationError> {
    let rows = view.rows(alloc)?;
    Ok(
        view.len() == rows.len() as u64
            && are_rows(&rows, plain, None)
            && are_lookups(view, plain)
            && are_groups(alloc, view, plain)?,
    )
}
