//! The words of a source under their numbers.
ghost use Rattle.std.specs.Prelude.{◌≡◌, ◌≤◌, ◌<◌, ◌+◌, ◌-◌, ◌^◌, ◌⊎◌, length, None, IfOk, IfErr, OnOk, OnErr};
ghost use Rattle.std.specs.List.{All};
ghost use Rattle.std.specs.Ordering.{nat_cmp};
ghost use Rattle.std.specs.Cmp.Lexicographic.{slice_cmp};
ghost use Rattle.std.specs.BTreeMap.{values, IsOrdered};
ghost use Rattle.stabby_registry.specs.Passes.{IsPassOf, IsWhole, GoesOn, front_of};
ghost use Rattle.stabby_symbol.specs.Words.{IsWordSpan, word_at};
ghost use Rattle.stabby_symbol.specs.Index.{IsIndexOf, AppendsWords, AppendsSomeWords, tables_at, with_span, PutsSpan, GathersSpans};

use crate::packing::pack;
use crate::words::{Span, word_spans};
use stabby_layout::{AllocationError, Text};
use stabby_registry::{Gate, TreePass, VtBtree, WordTable, intern_all};
use std::alloc::Global;
use std::collections::BTreeMap;
use std::marker::{Model, Sync};
use std::sync::Wait;
use std::thread::Threads;

/// A word of a source, its number, and where it stands.
#[derive(Drop)]
pub struct IndexedWord {
    text: Text,
    symbol: u64,
    spans: Vec<Span>,
}

impl Model for IndexedWord {
    ghost use Rattle.stabby_symbol.specs.Index.{IndexedWordValue};

    ghost Value = { IndexedWordValue };

    ghost view = { λ word. record { text = word.text; symbol = word.symbol; spans = word.spans.items } };
}

impl IndexedWord {
    /// The word.
    pub fn text(&self) -> &Text
        ensures { result.now ≡ self.now.text }
    {
        &self.text
    }

    /// Its number in the registry.
    pub fn symbol(&self) -> u64
        ensures { result ≡ self.now.symbol }
    {
        self.symbol
    }

    /// Where it stands, in increasing order.
    pub fn spans(&self) -> &[Span]
        ensures { result.now ≡ self.now.spans }
    {
        &self.spans
    }
}

/// The distinct words of a source.
#[derive(Drop)]
pub struct WordIndex {
    words: Vec<IndexedWord>,
}

impl Model for WordIndex {
    ghost use Rattle.std.specs.Prelude.{List};
    ghost use Rattle.stabby_symbol.specs.Index.{IndexedWordValue};

    ghost Value = { List IndexedWordValue };

    ghost view = { λ index. index.words.items };
}

impl WordIndex {
    /// The words, in increasing order of bytes.
    pub fn words(&self) -> &[IndexedWord]
        ensures { result.now ≡ self.now }
    {
        &self.words
    }
}

// The word at a span.
fn word_at(source: &[u8], span: Span) -> &str
    requires { IsWordSpan source.now span }
    ensures { result.now ≡ word_at source.now span }
{
    match std::str::from_utf8(&source[span.from..span.to]) {
        Ok(word) => word,
        Err(_) => unreachable!(),
    }
}

// The tables of the words at the spans.
fn tables_of(
    alloc: Global,
    source: &[u8],
    spans: &[Span],
) -> Result<Vec<WordTable>, AllocationError>
    requires { All (IsWordSpan source.now) spans.now }
    ensures ok { IfOk result (λ tables. tables.items ≡ tables_at source.now spans.now) }
    ensures memory { IfErr result (λ error. error ≡ AllocationError.Memory) }
{
    let mut tables = Vec::with_capacity(alloc, spans.len())?;
    for span in spans {
        tables.push(pack(alloc, word_at(source, *span))?)?;
    }
    Ok(tables)
}

// A word with its number and its first span.
fn first_met(
    alloc: Global,
    word: &str,
    symbol: u64,
    span: Span,
) -> Result<IndexedWord, AllocationError>
    ensures ok { IfOk result (λ found. found ≡ with_span None word.now symbol span) }
    ensures memory { IfErr result (λ error. error ≡ AllocationError.Memory) }
{
    let mut spans = Vec::new(alloc);
    spans.push(span)?;
    Ok(IndexedWord {
        text: Text::from_str(alloc, word)?,
        symbol,
        spans,
    })
}

// Puts the span behind those of its word, which is new where it has none.
fn put_span<'a>(
    alloc: Global,
    words: &mut BTreeMap<&'a str, IndexedWord>,
    word: &'a str,
    symbol: u64,
    span: Span,
) -> Result<(), AllocationError>
    ensures ok { OnOk result (PutsSpan words.old words.new word.now symbol span) }
    ensures memory { IfErr result (λ error. error ≡ AllocationError.Memory) }
{
    match words.get_mut(&word) {
        Some(found) => found.spans.push(span)?,
        None => {
            let found = first_met(alloc, word, symbol, span)?;
            words.insert(word, found)?;
        }
    }
    Ok(())
}

// Each word with its number and its spans, by its bytes.
fn by_word<'a>(
    alloc: Global,
    source: &'a [u8],
    spans: &[Span],
    numbers: &[u64],
) -> Result<BTreeMap<&'a str, IndexedWord>, AllocationError>
    requires words { All (IsWordSpan source.now) spans.now }
    requires long { length numbers.now ≡ length spans.now }
    ensures ok { IfOk result (λ words. GathersSpans source.now spans.now numbers.now words) }
    ensures memory { IfErr result (λ error. error ≡ AllocationError.Memory) }
{
    let mut words = BTreeMap::new(alloc);
    for place in 0..spans.len() {
        let span = spans[place];
        put_span(
            alloc,
            &mut words,
            word_at(source, span),
            numbers[place],
            span,
        )?;
    }
    Ok(words)
}

// The words alone, in order.
fn in_order(alloc: Global, words: BTreeMap<&str, IndexedWord>) -> Result<WordIndex, AllocationError>
    ensures ok { IfOk result (λ index. index ≡ values words.entry) }
    ensures ordered { IsOrdered (λ x y. slice_cmp nat_cmp x.now y.now) words.entry }
    ensures memory { IfErr result (λ error. error ≡ AllocationError.Memory) }
{
    let mut index = Vec::with_capacity(alloc, words.len())?;
    for (_, word) in words {
        index.push(word)?;
    }
    Ok(WordIndex { words: index })
}

/// Interns each word of the source, and gives each distinct one once, with its number and its spans.
///
/// A word is a run of letters and digits of ASCII and `_`, which no such byte stands before or after. The tables of the
/// words are handed to `intern_all`, one for each span in increasing order.
///
/// # Errors
/// `Memory` alone. What was added until then stays, each table once, and the pass is whole again.
pub fn index_words<G: Gate, H: Threads + Wait + Sync>(
    rt: &H,
    alloc: Global,
    registry: &mut VtBtree<5>,
    pass: &mut TreePass<5>,
    source: &Text,
    workers: usize,
    gate: &G,
) -> Result<WordIndex, AllocationError>
    requires workers { (1 ≤ workers) × (workers ≤ 64) }
    requires whole { IsWhole pass.old }
    requires belongs { IsPassOf registry.old pass.old }
    requires room { length (front_of pass.old) + length source.now < 2 ^ 63 - 1 }

    ensures index { IfOk result (IsIndexOf source.now (front_of pass.new)) }
    ensures front { OnOk result (AppendsWords workers (front_of pass.old) source.now (front_of pass.new)) }

    ensures some_added { OnErr result ((pass.new ≡ pass.old)
        ⊎ AppendsSomeWords (front_of pass.old) source.now (front_of pass.new)) }
    ensures memory { IfErr result (λ error. error ≡ AllocationError.Memory) }

    ensures whole { IsWhole pass.new }
    ensures belongs { IsPassOf registry.new pass.new }
    ensures same_registry { registry.new ≡ registry.old }
    ensures goes_on { GoesOn pass.old pass.new }
{
    let bytes = source.as_str().as_bytes();
    let spans = word_spans(alloc, bytes)?;
    let tables = tables_of(alloc, bytes, &spans)?;
    let interned = intern_all(rt, alloc, registry, pass, &tables, workers, gate)?;
    let words = by_word(alloc, bytes, &spans, interned.numbers())?;
    in_order(alloc, words)
}
