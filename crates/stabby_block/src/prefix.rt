//! The prefix that keeps the layout that was asked for.
ghost use Rattle.std.specs.Prelude.{◌≡◌, ◌≤◌, ◌+◌, ◌↔◌, IsSome, IfSome, Some, IsTrue, slice_range};
ghost use Rattle.stabby_layout.specs.declared.layout.Layout.{Layout};
ghost use Rattle.stabby_block.specs.Prefix.{AllZero, LayoutFits, layout_bytes, number_at, skip_of};

use stabby_layout::Layout;

/// The layout that was asked for, in the 32 bytes before a block's own: size and alignment as 8
/// bytes each, little endian, then 16 zero bytes.
#[derive(Clone, Copy, PartialEq, Eq, Debug)]
pub struct RustAllocPrefix {
    pub layout: Layout,
}

impl RustAllocPrefix {
    /// The 32 bytes.
    pub fn encode(&self) -> [u8; 32]
        ensures { result ≡ layout_bytes self.now.layout }
    {
        let mut bytes = [0u8; 32];
        bytes[0..8].copy_from_slice(&self.layout.size.to_le_bytes());
        bytes[8..16].copy_from_slice(&self.layout.align.to_le_bytes());
        bytes
    }

    /// The layout of these bytes, or `None` exactly where the last 16 aren't all zero.
    pub fn decode(bytes: &[u8; 32]) -> Option<RustAllocPrefix>
        ensures some { IsSome result ↔ AllZero (slice_range bytes.now 16 32) }
        ensures size { IfSome result (λ prefix. prefix.layout.size ≡ number_at bytes.now 0) }
        ensures align { IfSome result (λ prefix. prefix.layout.align ≡ number_at bytes.now 8) }
        ensures undoes { (layout : Layout) → LayoutFits layout → bytes.now ≡ layout_bytes layout → result ≡ Some (record { layout = layout }) }
    {
        if !is_zero(&bytes[16..32]) {
            return None;
        }
        let size = read_number(bytes, 0) as usize;
        let align = read_number(bytes, 8) as usize;
        let layout = Layout { size, align };
        Some(RustAllocPrefix { layout })
    }
}

fn is_zero(bytes: &[u8]) -> bool
    ensures { IsTrue result ↔ AllZero bytes.now }
{
    bytes.iter().all(|byte| *byte == 0)
}

// The number of 8 bytes from `at` on, the lowest first.
pub(crate) fn read_number(bytes: &[u8; 32], at: usize) -> u64
    requires { at + 8 ≤ 32 }
    ensures { result ≡ number_at bytes.now at }
{
    let mut number = [0u8; 8];
    number.copy_from_slice(&bytes[at..at + 8]);
    u64::from_le_bytes(number)
}

// Where the bytes behind a prefix of 32 bytes begin.
pub(crate) fn skip_past_prefix(align: usize) -> usize
    requires { 1 ≤ align }
    ensures { result ≡ skip_of align }
{
    32usize.next_multiple_of(align)
}
