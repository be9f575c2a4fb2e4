//! Lines of a text, pieces of a line, and numbers.

ghost use Rattle.std.specs.Prelude.{◌≡◌, ◌≢◌, ◌<◌, ◌≤◌, ◌+◌, ◌*◌, ◌^◌, ◌⊎◌, ◌∷◌, ◌==◌, ℕ, IfSome, IsSome, IsNone, length, position};
ghost use Rattle.std.specs.Char.{digit_value};
ghost use Rattle.std.specs.List.{AllByRecursion};
ghost use Rattle.std.specs.Option.{option_copied};
ghost use Rattle.stabby_tables.specs.Lines.{SpellsWord};
ghost use Rattle.stabby_tables.specs.Pieces.{lines_of};
ghost use Rattle.stabby_lines.specs.Pieces.{followed};

/// The first line of a text, and what follows its newline.
pub fn first_line(text: &[u8]) -> (&[u8], &[u8])
    requires { 0 < length text.now }
    ensures split { lines_of text.now ≡ result.0.now ∷ lines_of result.1.now }
    ensures shorter { length result.1.now < length text.now }
{
    match find(text, b'\n') {
        Some(at) => (&text[..at], &text[at + 1..]),
        None => (text, &text[text.len()..]),
    }
}

/// What stands before the first space of a line, and what follows it, where there is one.
pub fn first_piece(line: &[u8]) -> (&[u8], Option<&[u8]>)
    ensures whole { line.now ≡ followed result.0.now (option_copied result.1) }
    ensures no_space { AllByRecursion (λ b. b ≢ 32) result.0.now }
{
    match find(line, b' ') {
        Some(at) => (&line[..at], Some(&line[at + 1..])),
        None => (line, None),
    }
}

// Where the byte first stands.
fn find(text: &[u8], wanted: u8) -> Option<usize>
    ensures { result ≡ position (λ b. b == wanted) text.now }
{
    text.iter().position(|b| *b == wanted)
}

/// The number that these digits spell.
pub fn parse_number(digits: &[u8]) -> Option<u64>
    ensures some { IfSome result (λ number. SpellsWord digits.now number) }
    ensures none { IsNone result → (number : ℕ) → SpellsWord digits.now number → ⊥ }
{
    if digits.is_empty() {
        return None;
    }
    let mut value: u64 = 0;
    for b in digits {
        let Some(next) = with_digit(value, *b) else {
            return None;
        };
        value = next;
    }
    Some(value)
}

// The value of the digits so far with one more.
fn with_digit(value: u64, byte: u8) -> Option<u64>
    ensures digit { IsSome result → digit_value byte < 10 }
    ensures value { IfSome result (λ next. next ≡ value * 10 + digit_value byte) }
    ensures fits { IfSome result (λ next. next < 2 ^ 64) }
    ensures none { IsNone result → (10 ≤ digit_value byte) ⊎ (2 ^ 64 ≤ value * 10 + digit_value byte) }
{
    let digit = byte.wrapping_sub(b'0');
    if digit > 9 {
        return None;
    }
    if value < 1844674407370955161 || (value == 1844674407370955161 && digit <= 5) {
        return Some(value * 10 + u64::from(digit));
    }
    None
}
