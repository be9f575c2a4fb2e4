//! Schemas of records.
ghost use Rattle.std.specs.Prelude.{◌≡◌, ◌≤◌, ◌<◌, ◌*◌, ◌^◌, ◌↔◌, IsTrue, IfOk, IfErr, None, length};
ghost use Rattle.stabby_layout.specs.declared.error.AllocationError.TheVariants.{Memory};
ghost use Rattle.stabby_record.specs.Shape.{Shape, count, leaves, depth, depth_below};
ghost use Rattle.stabby_record.specs.Layouts.{fields_layout, offset};
ghost use Rattle.stabby_record.specs.Limits.{IsSchema, AreFields, AreTexts};
ghost use Rattle.stabby_record.specs.Named.{AreNamed};
ghost use Rattle.stabby_record.specs.Read.{fields_of};
ghost use Rattle.stabby_record.specs.Refuse.{first_long_name, schema_fault, fault_of};
ghost use Rattle.stabby_record.specs.Reported.{reported};
ghost use Rattle.stabby_record.specs.Equality.{fields_eq, shape_eq, kinds_alike};

use crate::layout::{layout_of, offset_of};
use stabby_layout::{AllocationError, FieldReport, Layout, Text, TypeReport};
use std::alloc::Global;
use std::marker::Model;
use thiserror::Error;

/// What a field holds: a number of 1, 2, 4 or 8 bytes, or a record.
#[cycle(schema)]
#[derive(Drop, Debug)]
pub enum Kind {
    U8,
    U16,
    U32,
    U64,
    Record(Schema),
}

/// A field: its name and what it holds.
#[cycle(schema)]
#[derive(Drop, Debug)]
pub struct Field {
    pub name: Text,
    pub kind: Kind,
}

/// The name, id and fields of a record, which is what contracts see of it.
#[cycle(schema)]
#[derive(Drop, Debug)]
pub struct Schema {
    name: Text,
    id: u64,
    fields: Vec<Field>,
    leaves: u64,
    depth: u64,
    layout: Layout,
}

impl Model for Schema {
    ghost use Rattle.stabby_record.specs.Shape.{Shape, shape_code, shape_size};

    ghost Value = { Shape };

    ghost coded = { shape_code };

    ghost use Rattle.stabby_record.specs.Read.{fields_of};

    ghost view = { λ a. record { name = a.name; id = a.id; fields = fields_of a.fields.items } };

    ghost size = { shape_size };

    ghost use Rattle.stabby_record.specs.Counted.{IsCounted};

    ghost invariant = { λ a. IsCounted (record { name = a.name; id = a.id; fields = fields_of a.fields.items }) a.leaves a.depth a.layout };

    ghost use Rattle.std.proofs.Common.{arith};
    ghost use Rattle.stabby_record.specs.Falls.{falls};

    ghost size_decreases = { λ a h. let k = falls a.fields.items in omega arith };
}

/// What `Schema::new` refuses.
#[derive(Clone, Copy, Debug, PartialEq, Eq, Error)]
pub enum SchemaFault {
    /// A name is longer than 255 bytes.
    #[error("a name has {length} bytes")]
    Name { length: u64 },
    /// There is no field, or there are more than 255.
    #[error("{count} fields")]
    Fields { count: u64 },
    /// Records lie in one another more than 8 deep.
    #[error("records lie {depth} deep")]
    Depth { depth: u64 },
    /// The numbers at all depths are more than 65,535.
    #[error("{leaves} numbers")]
    Leaves { leaves: u64 },
}

// The numbers at all depths.
fn leaves_of(fields: &[Field]) -> u64
    requires { length fields.now ≤ 255 }
    ensures value { result ≡ leaves (fields_of fields.now) }
    ensures bound { result ≤ 65535 * length fields.now }
{
    match fields {
        [] => 0,
        [field, rest @ ..] => {
            let below = leaves_of(rest);
            match &field.kind {
                Kind::Record(schema) => schema.leaves() + below,
                _ => 1 + below,
            }
        }
    }
}

// How deep the records in these fields go.
fn depth_of(fields: &[Field]) -> u64
    requires names { first_long_name fields.now ≡ None }
    requires texts { AreNamed fields.now }
    ensures within { AreFields (fields_of fields.now) }
    ensures texts { AreTexts (fields_of fields.now) }
    ensures value { result ≡ depth_below (fields_of fields.now) }
    ensures bound { result ≤ 8 }
{
    match fields {
        [] => 0,
        [field, rest @ ..] => {
            let below = depth_of(rest);
            match &field.kind {
                Kind::Record(schema) => below.max(schema.depth()),
                _ => below,
            }
        }
    }
}

// The length of the first field's name that is too long.
fn long_name(fields: &[Field]) -> Option<u64>
    ensures value { result ≡ first_long_name fields.now }
    ensures texts { result ≡ None → AreNamed fields.now }
{
    match fields {
        [] => None,
        [field, rest @ ..] => {
            let length = field.name.as_str().len();
            if length > 255 {
                Some(length as u64)
            } else {
                long_name(rest)
            }
        }
    }
}

// Whether both are numbers of the same size.
fn same_number(kind: &Kind, other: &Kind) -> bool
    ensures { result ≡ kinds_alike kind.now other.now }
{
    match kind {
        Kind::U8 => matches!(other, Kind::U8),
        Kind::U16 => matches!(other, Kind::U16),
        Kind::U32 => matches!(other, Kind::U32),
        Kind::U64 => matches!(other, Kind::U64),
        Kind::Record(_) => false,
    }
}

// Whether the fields have the same names and kinds, in order.
fn same_fields(fields: &[Field], others: &[Field]) -> bool
    ensures { result ≡ fields_eq (fields_of fields.now) (fields_of others.now) }
{
    let [field, fields @ ..] = fields else {
        return others.is_empty();
    };
    let [other, others @ ..] = others else {
        return false;
    };
    if field.name != other.name {
        return false;
    }
    if let Kind::Record(schema) = &field.kind {
        let Kind::Record(next) = &other.kind else {
            return false;
        };
        let inner = schema.fields();
        let other_inner = next.fields();
        return schema.name() == next.name()
            && schema.id() == next.id()
            && same_fields(inner, other_inner)
            && same_fields(fields, others);
    }
    same_number(&field.kind, &other.kind) && same_fields(fields, others)
}

impl Schema {
    /// The schema of this name, id and fields, or what speaks against it.
    pub fn new(
        name: Text,
        id: u64,
        fields: Vec<Field>,
    ) -> Result<Schema, (Text, Vec<Field>, SchemaFault)>
        ensures ok { IfOk result (λ schema. schema ≡ record { name = name; id = id; fields = fields_of fields.items }) }
        ensures value_back { IfErr result (λ refused. (refused.0 ≡ name) × (refused.1 ≡ fields)) }
        ensures cause { schema_fault name fields.items ≡ fault_of result }
    {
        let length = name.as_str().len() as u64;
        if length > 255 {
            return Err((name, fields, SchemaFault::Name { length }));
        }
        if let Some(length) = long_name(fields.as_slice()) {
            return Err((name, fields, SchemaFault::Name { length }));
        }
        let count = fields.len() as u64;
        if count == 0 || count > 255 {
            return Err((name, fields, SchemaFault::Fields { count }));
        }
        let depth = 1 + depth_of(fields.as_slice());
        if depth > 8 {
            return Err((name, fields, SchemaFault::Depth { depth }));
        }
        let leaves = leaves_of(fields.as_slice());
        if leaves > 65535 {
            return Err((name, fields, SchemaFault::Leaves { leaves }));
        }
        let layout = layout_of(fields.as_slice());
        Ok(Schema {
            name,
            id,
            fields,
            leaves,
            depth,
            layout,
        })
    }

    fn leaves(&self) -> u64
        ensures value { result ≡ leaves self.now.fields }
        ensures bound { result ≤ 65535 }
    {
        self.leaves
    }

    fn depth(&self) -> u64
        ensures value { result ≡ depth self.now.fields }
        ensures bound { result ≤ 8 }
        ensures within { IsSchema self.now }
    {
        self.depth
    }

    /// The name.
    pub fn name(&self) -> &Text
        ensures { result.now ≡ self.now.name }
    {
        &self.name
    }

    /// The id.
    pub fn id(&self) -> u64
        ensures { result ≡ self.now.id }
    {
        self.id
    }

    /// The fields, in order.
    pub fn fields(&self) -> &[Field]
        ensures fields { fields_of result.now ≡ self.now.fields }
        ensures within { IsSchema self.now }
    {
        self.fields.as_slice()
    }

    // The number of fields.
    pub(crate) fn count(&self) -> u8
        ensures { result ≡ count self.now.fields }
    {
        self.fields.len() as u8
    }

    /// The C layout.
    pub fn layout(&self) -> Layout
        ensures value { result ≡ fields_layout self.now.fields }
        ensures aligned { 1 ≤ result.align }
        ensures small { result.align ≤ 8 }
        ensures within { IsSchema self.now }
    {
        self.layout
    }

    /// Where the field stands.
    pub fn offset(&self, field: usize) -> usize
        requires { field < count self.now.fields }
        ensures { result ≡ offset self.now.fields field 0 }
    {
        offset_of(self.fields(), field, 0)
    }

    /// The report of the record's type.
    pub fn report(&self, alloc: Global) -> Result<TypeReport, AllocationError>
        ensures ok { IfOk result (λ report. report ≡ reported self.now) }
        ensures memory { IfErr result (λ error. error ≡ Memory) }
    {
        let name = self.name().copy()?;
        let mut reports = Vec::new(alloc);
        for field in self.fields() {
            let report = FieldReport {
                name: field.name.copy()?,
                id: field.kind.id(),
                layout: field.kind.layout(),
            };
            reports.push(report)?;
        }
        Ok(TypeReport::new(name, reports))
    }

    /// Whether the other has the same name, id and fields.
    pub fn same(&self, other: &Schema) -> bool
        ensures value { result ≡ shape_eq self.now other.now }
        ensures same { IsTrue result ↔ (self.now ≡ other.now) }
    {
        self.name() == other.name()
            && self.id() == other.id()
            && same_fields(self.fields(), other.fields())
    }
}

impl PartialEq for Schema {
    ghost use Rattle.std.specs.Cmp.{decided, partial_equiv_from_equiv};
    ghost use Rattle.stabby_record.specs.Equality.{shape_eq, shape_decides};

    ghost eq = { shape_eq };

    ghost laws = { partial_equiv_from_equiv (decided shape_eq shape_decides) };

    fn eq(&self, other: &Self) -> bool
        ensures value { result ≡ shape_eq self.now other.now }
        ensures same { IsTrue result ↔ (self.now ≡ other.now) }
    {
        self.same(other)
    }
}

impl Eq for Schema {
    ghost use Rattle.std.specs.Cmp.{decided};
    ghost use Rattle.stabby_record.specs.Equality.{shape_eq, shape_decides};

    ghost laws = { decided shape_eq shape_decides };
}
