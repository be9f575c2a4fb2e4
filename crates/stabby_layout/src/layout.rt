//! The size and alignment of a block.
ghost use Rattle.std.specs.Prelude.{◌≡◌, ◌≤◌, ◌<◌, ◌↔◌, IfOk, IfErr, IsErrOf};
ghost use Rattle.stabby_layout.specs.Layouts.{next_multiple, realigned, joined, repeated};
ghost use Rattle.stabby_layout.specs.declared.error.AllocationError.TheVariants.{Range};

use crate::AllocationError;

/// How many bytes a block has, and which number its address is a multiple of.
///
/// Each call wants alignments of at least 1. It answers the exact number, or
/// `AllocationError::Range` exactly where that number is beyond `usize::MAX`. None takes memory.
#[derive(Clone, Copy, PartialEq, Eq, PartialOrd, Ord, Hash, Debug)]
pub struct Layout {
    pub size: usize,
    pub align: usize,
}

impl Layout {
    /// The size rounded up to a multiple of `new_align`, which becomes the alignment.
    pub fn realign(self, new_align: usize) -> Result<Layout, AllocationError>
        requires { 1 ≤ new_align }
        ensures ok { IfOk result (λ layout. layout ≡ realigned self new_align) }
        ensures range { IsErrOf result Range ↔ (usize.MAX < next_multiple new_align self.size) }
        ensures err { IfErr result (λ error. error ≡ Range) }
    {
        let size = round_up(self.size, new_align)?;
        Ok(Layout {
            size,
            align: new_align,
        })
    }

    /// The two one after another: the sum of the sizes, realigned to the greater alignment.
    pub fn concat(self, other: Layout) -> Result<Layout, AllocationError>
        requires this { 1 ≤ self.align }
        requires next { 1 ≤ other.align }
        ensures ok { IfOk result (λ layout. layout ≡ joined self other) }
        ensures range { IsErrOf result Range ↔ (usize.MAX < (joined self other).size) }
        ensures err { IfErr result (λ error. error ≡ Range) }
    {
        let Some(size) = self.size.checked_add(other.size) else {
            return Err(AllocationError::Range);
        };
        Layout {
            size,
            align: self.align,
        }
        .realign(self.align.max(other.align))
    }

    /// The least multiple of the alignment that isn't below `position`.
    pub fn next_matching(self, position: usize) -> Result<usize, AllocationError>
        requires { 1 ≤ self.align }
        ensures ok { IfOk result (λ place. place ≡ next_multiple self.align position) }
        ensures range { IsErrOf result Range ↔ (usize.MAX < next_multiple self.align position) }
        ensures err { IfErr result (λ error. error ≡ Range) }
    {
        round_up(position, self.align)
    }

    // `n` of these, one after another.
    pub(crate) fn times(self, n: usize) -> Result<Layout, AllocationError>
        ensures ok { IfOk result (λ layout. layout ≡ repeated self n) }
        ensures range { IsErrOf result Range ↔ (usize.MAX < (repeated self n).size) }
        ensures err { IfErr result (λ error. error ≡ Range) }
    {
        match self.size.checked_mul(n) {
            Some(size) => Ok(Layout {
                size,
                align: self.align,
            }),
            None => Err(AllocationError::Range),
        }
    }
}

// The least multiple of `align` that isn't below `position`.
fn round_up(position: usize, align: usize) -> Result<usize, AllocationError>
    requires { 1 ≤ align }
    ensures ok { IfOk result (λ place. place ≡ next_multiple align position) }
    ensures range { IsErrOf result Range ↔ (usize.MAX < next_multiple align position) }
    ensures err { IfErr result (λ error. error ≡ Range) }
{
    let past = position % align;
    if past == 0 {
        return Ok(position);
    }
    match position.checked_add(align - past) {
        Some(place) => Ok(place),
        None => Err(AllocationError::Range),
    }
}
