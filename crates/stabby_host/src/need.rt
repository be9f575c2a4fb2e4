//! What a plugin needs of the others.
use stabby_layout::TypeReport;

/// A need: it is met by a live plugin whose value has this id and an equal report.
#[derive(Drop)]
pub struct Need {
    pub id: u64,
    pub report: TypeReport,
}
