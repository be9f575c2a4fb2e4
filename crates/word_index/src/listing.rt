//! The lines of an index.

ghost use Rattle.std.specs.Prelude.{◌≡◌, ◌++◌, IfOk, OnOk, flat_map};
ghost use Rattle.std.specs.Fmt.{decimal};
ghost use Rattle.word_index.specs.Listing.{span_text, count_line, span_line, line_of, listing_of};

use crate::command::Task;
use itoa::Buffer;
use stabby_symbol::{IndexedWord, Span, WordIndex};
use std::alloc::{AllocError, Global};

fn put_number(out: &mut Vec<u8>, number: u64) -> Result<(), AllocError>
    ensures { OnOk result (out.new.items ≡ out.old.items ++ decimal number) }
{
    let mut buffer = Buffer::new();
    out.extend_from_slice(buffer.format(number).as_bytes())
}

// A space, and a span as its two places with a dash between them.
fn put_span(out: &mut Vec<u8>, span: Span) -> Result<(), AllocError>
    ensures { OnOk result (out.new.items ≡ out.old.items ++ span_text span) }
{
    out.push(b' ')?;
    put_number(out, span.from as u64)?;
    out.push(b'-')?;
    put_number(out, span.to as u64)
}

fn put_spans(out: &mut Vec<u8>, spans: &[Span]) -> Result<(), AllocError>
    ensures { OnOk result (out.new.items ≡ out.old.items ++ flat_map span_text spans.now) }
{
    for span in spans {
        put_span(out, *span)?;
    }
    Ok(())
}

// The word, and how often it stands in the text.
fn put_count_line(out: &mut Vec<u8>, word: &IndexedWord) -> Result<(), AllocError>
    ensures { OnOk result (out.new.items ≡ out.old.items ++ count_line word.now) }
{
    out.extend_from_slice(word.text().as_str().as_bytes())?;
    out.push(b' ')?;
    put_number(out, word.spans().len() as u64)?;
    out.push(b'\n')?;
    Ok(())
}

// The word, and where it stands.
fn put_span_line(out: &mut Vec<u8>, word: &IndexedWord) -> Result<(), AllocError>
    ensures { OnOk result (out.new.items ≡ out.old.items ++ span_line word.now) }
{
    out.extend_from_slice(word.text().as_str().as_bytes())?;
    put_spans(out, word.spans())?;
    out.push(b'\n')?;
    Ok(())
}

fn put_line(out: &mut Vec<u8>, task: Task, word: &IndexedWord) -> Result<(), AllocError>
    ensures { OnOk result (out.new.items ≡ out.old.items ++ line_of task word.now) }
{
    match task {
        Task::Words => put_count_line(out, word),
        Task::Spans => put_span_line(out, word),
    }
}

/// A line for each word of the index, in its order.
pub fn make_listing(alloc: Global, task: Task, index: &WordIndex) -> Result<Vec<u8>, AllocError>
    ensures { IfOk result (λ text. text.items ≡ listing_of task index.now) }
{
    let mut out = Vec::new(alloc);
    for word in index.words() {
        put_line(&mut out, task, word)?;
    }
    Ok(out)
}
