//! What is stated of a type: its name and its fields.
ghost use Rattle.std.specs.Prelude.{◌≡◌, ◌↔◌, IsTrue, IfOk, IfErr};
ghost use Rattle.stabby_layout.specs.Report.{field_eq, report_eq};
ghost use Rattle.stabby_layout.specs.declared.error.AllocationError.TheVariants.{Memory};

use crate::{AllocationError, Layout, Text};
use std::marker::Model;

/// A field: its name, the id of its type, and the layout of its type.
#[derive(Drop, Debug)]
pub struct FieldReport {
    pub name: Text,
    pub id: u64,
    pub layout: Layout,
}

/// The name of a type and its fields in order, which is what contracts see of it.
#[derive(Drop, Debug)]
pub struct TypeReport {
    name: Text,
    fields: Vec<FieldReport>,
}

impl Model for TypeReport {
    ghost use Rattle.stabby_layout.specs.Report.{Report};

    ghost Value = { Report };

    ghost view = { λ report. record { name = report.name; fields = report.fields.items } };
}

impl FieldReport {
    // Another field of the same name, id and layout.
    fn copy(&self) -> Result<FieldReport, AllocationError>
        ensures ok { IfOk result (λ field. field ≡ self.now) }
        ensures memory { IfErr result (λ error. error ≡ Memory) }
    {
        let name = self.name.copy()?;
        Ok(FieldReport {
            name,
            id: self.id,
            layout: self.layout,
        })
    }
}

impl TypeReport {
    /// The report of a type of this name with these fields.
    pub fn new(name: Text, fields: Vec<FieldReport>) -> TypeReport
        ensures { result ≡ record { name = name; fields = fields.items } }
    {
        TypeReport { name, fields }
    }

    /// The name of the type.
    pub fn name(&self) -> &Text
        ensures { result.now ≡ self.now.name }
    {
        &self.name
    }

    /// The fields, in order.
    pub fn fields(&self) -> &[FieldReport]
        ensures { result.now ≡ self.now.fields }
    {
        self.fields.as_slice()
    }

    /// An equal report of its own, or `Memory`.
    pub fn copy(&self) -> Result<TypeReport, AllocationError>
        ensures ok { IfOk result (λ report. report ≡ self.now) }
        ensures memory { IfErr result (λ error. error ≡ Memory) }
    {
        let name = self.name.copy()?;
        let mut fields = Vec::with_capacity(*self.fields.allocator(), self.fields.len())?;
        for field in &self.fields {
            fields.push(field.copy()?)?;
        }
        Ok(TypeReport { name, fields })
    }
}

impl PartialEq for FieldReport {
    ghost use Rattle.std.specs.Cmp.{decided, partial_equiv_from_equiv};
    ghost use Rattle.stabby_layout.specs.Report.{field_eq};
    ghost use Rattle.stabby_layout.specs.ReportEquality.{field_decides};

    ghost eq = { field_eq };

    ghost laws = { partial_equiv_from_equiv (decided field_eq field_decides) };

    fn eq(&self, other: &Self) -> bool
        ensures value { result ≡ field_eq self.now other.now }
        ensures same { IsTrue result ↔ (self.now ≡ other.now) }
    {
        self.name == other.name && self.id == other.id && self.layout == other.layout
    }
}

impl Eq for FieldReport {
    ghost use Rattle.std.specs.Cmp.{decided};
    ghost use Rattle.stabby_layout.specs.Report.{field_eq};
    ghost use Rattle.stabby_layout.specs.ReportEquality.{field_decides};

    ghost laws = { decided field_eq field_decides };
}

impl PartialEq for TypeReport {
    ghost use Rattle.std.specs.Cmp.{decided, partial_equiv_from_equiv};
    ghost use Rattle.stabby_layout.specs.Report.{report_eq};
    ghost use Rattle.stabby_layout.specs.ReportEquality.{report_decides};

    ghost eq = { report_eq };

    ghost laws = { partial_equiv_from_equiv (decided report_eq report_decides) };

    fn eq(&self, other: &Self) -> bool
        ensures value { result ≡ report_eq self.now other.now }
        ensures same { IsTrue result ↔ (self.now ≡ other.now) }
    {
        self.name == other.name && self.fields == other.fields
    }
}

impl Eq for TypeReport {
    ghost use Rattle.std.specs.Cmp.{decided};
    ghost use Rattle.stabby_layout.specs.Report.{report_eq};
    ghost use Rattle.stabby_layout.specs.ReportEquality.{report_decides};

    ghost laws = { decided report_eq report_decides };
}
