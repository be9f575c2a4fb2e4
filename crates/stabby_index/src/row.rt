//! Rows, and changes of them.
ghost use Rattle.std.specs.Prelude.{◌≡◌, IfOk, IfErr};

use stabby_layout::{AllocationError, Text};

/// A row: its key, its group and its text.
#[derive(Drop, Debug)]
pub struct Row {
    /// The key. A version has at most one row of a key.
    pub key: u64,
    /// The group that the row belongs to.
    pub group: u64,
    /// What the row holds.
    pub text: Text,
}

/// A change of an index.
#[derive(Drop, Debug)]
pub enum Change {
    /// The row takes the place of its key's row, or is added where there is none.
    Put(Row),
    /// The row of this key is taken out, where there is one.
    Delete(u64),
}

impl Row {
    // An equal row.
    pub(crate) fn copy(&self) -> Result<Row, AllocationError>
        ensures ok { IfOk result (λ row. row ≡ self.now) }
        ensures memory { IfErr result (λ error. error ≡ AllocationError.Memory) }
    {
        Ok(Row {
            key: self.key,
            group: self.group,
            text: self.text.copy()?,
        })
    }
}
