//! Bytes that become a text.

ghost use Rattle.std.specs.Prelude.{◌≡◌, ◌++◌, ◌∷◌, [], IfOk, IfErr};
ghost use Rattle.std.specs.Str.{IsUtf8};

use stabby_text::String;
use stabby_vec::Vec;
use std::alloc::Global;

/// The bytes as a text with a newline at the end. Where they are no text, or there is no room for the newline, they come
/// back.
pub fn read_line(bytes: Vec<u8, Global>) -> Result<String<Global>, Vec<u8, Global>>
    ensures ok { IfOk result (λ text. text.items ≡ bytes.items ++ 10 ∷ []) }
    ensures utf8 { IfOk result (λ _. IsUtf8 bytes.items) }
    ensures value_back { IfErr result (λ back. back ≡ bytes) }
{
    let mut text = String::try_from_vec(bytes).map_err(|(back, _)| back)?;
    match text.try_concat("\n") {
        Ok(()) => Ok(text),
        Err(_) => Err(text.into_vec()),
    }
}
