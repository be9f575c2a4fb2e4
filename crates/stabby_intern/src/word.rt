//! Digits and words.

ghost use Rattle.std.specs.Prelude.{◌≡◌, ◌<◌, ◌≤◌, ◌+◌, ◌*◌, ◌^◌, ◌⊎◌, ℕ, IfSome, IsSome, IsNone};
ghost use Rattle.std.specs.Char.{digit_value};
ghost use Rattle.stabby_tables.specs.Lines.{SpellsWord};

/// The value of the digits so far with one more: `None` where the byte is no digit, and where the value would pass
/// the greatest word.
pub fn with_digit(value: u64, byte: u8) -> Option<u64>
    ensures digit { IsSome result → digit_value byte < 10 }
    ensures value { IfSome result (λ next. next ≡ value * 10 + digit_value byte) }
    ensures fits { IfSome result (λ next. next < 2 ^ 64) }
    ensures none { IsNone result → (10 ≤ digit_value byte) ⊎ (2 ^ 64 ≤ value * 10 + digit_value byte) }
{
    let digit = byte.wrapping_sub(b'0');
    if digit > 9 {
        return None;
    }
    if value < 1844674407370955161 || (value == 1844674407370955161 && digit <= 5) {
        return Some(value * 10 + u64::from(digit));
    }
    None
}

/// The word that a run of digits spells.
pub fn parse_word(run: &[u8]) -> Option<u64>
    ensures word { IfSome result (λ word. SpellsWord run.now word) }
    ensures none { IsNone result → (word : ℕ) → SpellsWord run.now word → ⊥ }
{
    if run.is_empty() {
        return None;
    }
    let mut value: u64 = 0;
    for b in run {
        let Some(next) = with_digit(value, *b) else {
            return None;
        };
        value = next;
    }
    Some(value)
}
