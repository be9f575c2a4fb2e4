//! A text that is put together, and one that is changed in its place.

ghost use Rattle.std.specs.Prelude.{◌≡◌, ◌++◌, IfOk, codes};
ghost use Rattle.stabby_text_uses.specs.Capitals.{with_capital};

use stabby_layout::AllocationError;
use stabby_text::String;
use std::alloc::Global;

/// The text `Hello, `, and then the name.
///
/// # Errors
/// `Memory`, and `Range` where the text would be longer than a capacity.
pub fn greet(alloc: Global, name: &str) -> Result<String<Global>, AllocationError>
    ensures { IfOk result (λ text. text.items ≡ codes "Hello, " ++ name.now) }
{
    let mut text = String::from_str(alloc, "Hello, ")?;
    text.try_concat(name)?;
    Ok(text)
}

/// Makes the first character a capital, where it is one of `a` to `z`. The rest stays.
pub fn begin_with_capital(text: &mut String<Global>)
    ensures { text.new.items ≡ with_capital text.old.items }
{
    let bytes = text.as_str().as_bytes();
    if bytes.is_empty() || bytes[0] >= 128 {
        return;
    }
    let capital = bytes[0].to_ascii_uppercase();
    text.set_ascii(0, capital);
}
