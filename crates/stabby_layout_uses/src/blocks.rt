//! The layout of a block.

ghost use Rattle.std.specs.Prelude.{◌≡◌, ◌<◌, ◌↔◌, IfOk, IsErrOf};
ghost use Rattle.stabby_layout.specs.Layouts.{joined, repeated};
ghost use Rattle.stabby_layout.specs.declared.error.AllocationError.TheVariants.{Range};

use stabby_layout::{AllocationError, Described, Layout, laws};

/// The layout of a block that begins with a count, a `u64`, and has this many items behind it.
///
/// # Errors
/// `Range`, exactly where the block would have more than `usize::MAX` bytes.
pub fn counted_items<T: Described>(count: usize) -> Result<Layout, AllocationError>
    ensures ok { IfOk result (λ layout. layout ≡ joined (record { size = 8; align = 8 })
        (repeated T.stated_layout count)) }
    ensures range { IsErrOf result Range ↔ (usize.MAX < (joined (record { size = 8; align = 8 })
        (repeated T.stated_layout count)).size) }
{
    laws::next_multiple_is_least();
    let items = Layout::array::<T>(count)?;
    Layout::of::<u64>().concat(items)
}
