//! Reading tables from the lines of a text.

ghost use Rattle.std.specs.Prelude.{◌≡◌, ◌<◌, ℕ, ◌∷◌, length, IfOk, IfErr, IfSome, IsNone, Err, ◌==◌, position};
ghost use Rattle.std.specs.List.{AllZip};
ghost use Rattle.stabby_tables.specs.Pieces.{lines_of};
ghost use Rattle.stabby_tables.specs.Lines.{Spells, SpellsNone};
ghost use Rattle.stabby_intern.specs.Parsing.{IsBadAt};

use crate::word::with_digit;
use stabby_layout::AllocationError;
use stabby_registry::WordTable;
use std::alloc::{AllocFailed, Global};

/// Why a text gives no tables.
#[derive(Clone, Copy, Debug, PartialEq, Eq)]
pub enum ParseFault {
    Memory,
    BadWord { line: u64 },
}

impl From<AllocationError> for ParseFault {
    ghost use Rattle.std.specs.Prelude.{◌≡◌};
    ghost use Rattle.stabby_intern.specs.declared.lines.ParseFault.TheVariants.{Memory};

    ghost from_gives = { λ _ fault. fault ≡ Memory };

    fn from(_refused: AllocationError) -> ParseFault {
        ParseFault::Memory
    }
}

impl<T: Drop> From<AllocFailed<T>> for ParseFault {
    ghost use Rattle.std.specs.Prelude.{◌≡◌};
    ghost use Rattle.stabby_intern.specs.declared.lines.ParseFault.TheVariants.{Memory};

    ghost from_gives = { λ _ fault. fault ≡ Memory };

    fn from(_refused: AllocFailed<T>) -> ParseFault {
        ParseFault::Memory
    }
}

/// The tables that the lines of a text spell.
pub fn parse_tables(alloc: Global, text: &[u8]) -> Result<Vec<WordTable>, ParseFault>
    ensures tables { IfOk result (λ tables. AllZip Spells (lines_of text.now) tables.items) }
    ensures bad_word { (k : ℕ) → result ≡ Err (ParseFault.BadWord k) → IsBadAt (lines_of text.now) k }
{
    let mut tables = Vec::new(alloc);
    // One list for the words of each line in turn, which a table of few words copies without a block of its own.
    let mut words = Vec::new(alloc);
    let mut rest = text;
    while !rest.is_empty() {
        let (line, after) = first_line(rest);
        let Some(table) = parse_table(alloc, line, &mut words)? else {
            return Err(ParseFault::BadWord {
                line: tables.len() as u64 + 1,
            });
        };
        tables.push(table)?;
        rest = after;
    }
    Ok(tables)
}

// The table that a line spells. `words` is a list to gather its words in, whatever is in it.
fn parse_table(
    alloc: Global,
    line: &[u8],
    words: &mut Vec<u64>,
) -> Result<Option<WordTable>, AllocationError>
    ensures table { IfOk result (λ table. IfSome table (λ t. Spells line.now t)) }
    ensures none { IfOk result (λ table. IsNone table → SpellsNone line.now) }
    ensures memory { IfErr result (λ error. error ≡ AllocationError.Memory) }
{
    if line.is_empty() {
        return Ok(Some(WordTable::from_vec(Vec::new(alloc))));
    }
    words.clear();
    let mut value: u64 = 0;
    let mut begun = false;
    for b in line {
        // Most bytes are digits, so a digit is tried first.
        match with_digit(value, *b) {
            Some(next) => {
                value = next;
                begun = true;
            }
            None => {
                if *b != b' ' {
                    return Ok(None);
                }
                if !begun {
                    return Ok(None);
                }
                words.push(value)?;
                value = 0;
                begun = false;
            }
        }
    }
    if !begun {
        return Ok(None);
    }
    words.push(value)?;
    Ok(Some(WordTable::from_words(alloc, words)?))
}

// The first line of a text, and what follows its newline.
fn first_line(text: &[u8]) -> (&[u8], &[u8])
    requires { 0 < length text.now }
    ensures split { lines_of text.now ≡ result.0.now ∷ lines_of result.1.now }
    ensures shorter { length result.1.now < length text.now }
{
    match find(text, b'\n') {
        Some(at) => (&text[..at], &text[at + 1..]),
        None => (text, &text[text.len()..]),
    }
}

// Where the byte first stands.
fn find(text: &[u8], wanted: u8) -> Option<usize>
    ensures { result ≡ position (λ b. b == wanted) text.now }
{
    text.iter().position(|b| *b == wanted)
}
