//! A universe of two types: bytes and numbers.
ghost use Rattle.std.specs.Prelude.{◌≡◌, codes, IfErr, IfOk};
ghost use Rattle.stabby_layout.specs.declared.error.AllocationError.TheVariants.{Memory};
ghost use Rattle.stabby_layout.specs.Report.{without_fields};
ghost use Rattle.stabby_dyn_uses.specs.declared.slot.Content.TheVariants.{Byte, Number};
ghost use Rattle.stabby_dyn_uses.specs.Slots.{byte_of, byte_put, content_id, number_of, number_put, slot_with_byte, slot_with_number};

use stabby_dyn::{Any, Member, Universe};
use stabby_layout::{AllocationError, Described, TypeReport};
use std::alloc::Global;

/// What a slot holds.
#[derive(Drop)]
pub enum Content {
    Byte(u8),
    Number(u64),
}

/// A byte or a number, with the report of its type.
#[derive(Drop)]
pub struct Slot {
    pub report: TypeReport,
    pub content: Content,
}

impl Slot {
    /// A byte with the report of `u8`, or `Memory`.
    pub fn of_byte(alloc: Global, byte: u8) -> Result<Slot, AllocationError>
        ensures ok { IfOk result (λ slot.
            slot ≡ record { report = without_fields (codes "u8"); content = Byte byte }) }
        ensures memory { IfErr result (λ error. error ≡ Memory) }
    {
        let report = <u8 as Described>::report(alloc)?;
        Ok(Slot {
            report,
            content: Content::Byte(byte),
        })
    }

    /// A number with the report of `u64`, or `Memory`.
    pub fn of_number(alloc: Global, number: u64) -> Result<Slot, AllocationError>
        ensures ok { IfOk result (λ slot.
            slot ≡ record { report = without_fields (codes "u64"); content = Number number }) }
        ensures memory { IfErr result (λ error. error ≡ Memory) }
    {
        let report = <u64 as Described>::report(alloc)?;
        Ok(Slot {
            report,
            content: Content::Number(number),
        })
    }
}

impl Any for Slot {
    ghost type_report = { λ slot. slot.report };

    ghost type_id = { λ slot. content_id slot.content };

    fn report(&self) -> &TypeReport {
        &self.report
    }

    fn id(&self) -> u64 {
        match self.content {
            Content::Byte(_) => 1,
            Content::Number(_) => 4,
        }
    }
}

impl Universe for Slot {
    ghost kind_number = { λ slot. content_id slot.content };

    fn kind(&self) -> u64 {
        self.id()
    }

    ghost kind_by_type = { λ _ _ same_id _. same_id };
}

impl Member<Slot> for u8 {
    ghost content = { λ slot. byte_of slot.content };

    ghost with_content = { slot_with_byte };

    fn pick(value: &Slot) -> Option<&u8> {
        match &value.content {
            Content::Byte(byte) => Some(byte),
            Content::Number(_) => None,
        }
    }

    fn pick_mut(value: &mut Slot) -> Option<&mut u8> {
        match &mut value.content {
            Content::Byte(byte) => Some(byte),
            Content::Number(_) => None,
        }
    }

    ghost content_put = { λ slot x y held. byte_put slot.content x y held };
}

impl Member<Slot> for u64 {
    ghost content = { λ slot. number_of slot.content };

    ghost with_content = { slot_with_number };

    fn pick(value: &Slot) -> Option<&u64> {
        match &value.content {
            Content::Byte(_) => None,
            Content::Number(number) => Some(number),
        }
    }

    fn pick_mut(value: &mut Slot) -> Option<&mut u64> {
        match &mut value.content {
            Content::Byte(_) => None,
            Content::Number(number) => Some(number),
        }
    }

    ghost content_put = { λ slot x y held. number_put slot.content x y held };
}
