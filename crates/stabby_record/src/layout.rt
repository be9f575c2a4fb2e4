//! Where the fields of a record stand.
ghost use Rattle.std.specs.Prelude.{◌≡◌, ◌≤◌, ◌<◌, ◌+◌, ◌-◌, ◌*◌, ◌^◌};
ghost use Rattle.stabby_layout.specs.Layouts.{next_multiple};
ghost use Rattle.stabby_record.specs.Shape.{places};
ghost use Rattle.stabby_record.specs.Read.{fields_of, kind_layout, kind_id};
ghost use Rattle.stabby_record.specs.Layouts.{ends, fields_align, fields_layout, offset};

use crate::schema::{Field, Kind};
use stabby_layout::{Described, Layout};

// The least multiple of the alignment that isn't below `at`.
pub(crate) fn next_start(layout: Layout, at: usize) -> usize
    requires aligned { 1 ≤ layout.align }
    requires small { layout.align ≤ 8 }
    requires room { at < 2 ^ 32 }
    ensures { result ≡ next_multiple layout.align at }
{
    match layout.next_matching(at) {
        Ok(start) => start,
        Err(_) => unreachable!(),
    }
}

impl Kind {
    /// The layout of a value of this kind.
    pub fn layout(&self) -> Layout
        ensures value { result ≡ kind_layout self.now }
        ensures aligned { 1 ≤ result.align }
        ensures small { result.align ≤ 8 }
    {
        match self {
            Kind::U8 => Layout::of::<u8>(),
            Kind::U16 => Layout::of::<u16>(),
            Kind::U32 => Layout::of::<u32>(),
            Kind::U64 => Layout::of::<u64>(),
            Kind::Record(schema) => schema.layout(),
        }
    }

    // The id of the kind's type.
    pub(crate) fn id(&self) -> u64
        ensures { result ≡ kind_id self.now }
    {
        match self {
            Kind::U8 => u8::id(),
            Kind::U16 => u16::id(),
            Kind::U32 => u32::id(),
            Kind::U64 => u64::id(),
            Kind::Record(schema) => schema.id(),
        }
    }
}

// Where the fields end that begin at `at` or after it.
pub(crate) fn end_of(fields: &[Field], at: usize) -> usize
    requires { at + 15 * places (fields_of fields.now) < 2 ^ 32 }
    ensures value { result ≡ ends (fields_of fields.now) at }
    ensures bound { result ≤ at + 15 * places (fields_of fields.now) }
{
    let [field, fields @ ..] = fields else {
        return at;
    };
    let layout = field.kind.layout();
    end_of(fields, next_start(layout, at) + layout.size)
}

// The greatest alignment.
pub(crate) fn alignment_of(fields: &[Field]) -> usize
    ensures value { result ≡ fields_align (fields_of fields.now) }
    ensures aligned { 1 ≤ result }
    ensures small { result ≤ 8 }
{
    let [field, fields @ ..] = fields else {
        return 1;
    };
    field.kind.layout().align.max(alignment_of(fields))
}

// The C layout of these fields.
pub(crate) fn layout_of(fields: &[Field]) -> Layout
    requires { 15 * places (fields_of fields.now) < 2 ^ 32 - 8 }
    ensures { result ≡ fields_layout (fields_of fields.now) }
{
    let align = alignment_of(fields);
    let whole = Layout {
        size: end_of(fields, 0),
        align,
    };
    Layout {
        size: next_start(whole, whole.size),
        align,
    }
}

// Where the field of this index stands, the first at `at` or after it.
pub(crate) fn offset_of(fields: &[Field], index: usize, at: usize) -> usize
    requires { at + 15 * places (fields_of fields.now) < 2 ^ 32 }
    ensures { result ≡ offset (fields_of fields.now) index at }
{
    let [field, fields @ ..] = fields else {
        return at;
    };
    let layout = field.kind.layout();
    let start = next_start(layout, at);
    if index == 0 {
        return start;
    }
    offset_of(fields, index - 1, start + layout.size)
}
