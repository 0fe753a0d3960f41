//! The text of numbers.
ghost use Rattle.std.specs.Prelude.{◌≡◌, ◌<◌, ◌^◌, ℕ, MatchOption};
ghost use Rattle.std.specs.Fmt.{decimal};
ghost use Rattle.dnsv_names.specs.Lines.LineReading.{is_marked};

use std::str;

/// The number below 2^16 whose decimal digits the text is, with no zero in front and no sign.
pub fn decimal_u16(text: &[u8]) -> Option<u16>
    ensures { MatchOption result ((number : ℕ) → number < 2 ^ 16 → text.now ≡ decimal number → ⊥)
        (λ number. text.now ≡ decimal number) }
{
    if is_marked(text) {
        return None;
    }
    let Ok(digits) = str::from_utf8(text) else {
        return None;
    };
    digits.parse().ok()
}

/// Whether the text begins with `+`, or with a `0` that isn't all of it.
fn is_marked(text: &[u8]) -> bool
    ensures { result ≡ is_marked text.now }
{
    matches!(text, [b'+', ..] | [b'0', _, ..])
}

/// The number below 2^8 whose decimal digits the text is, with no zero in front and no sign.
pub fn decimal_u8(text: &[u8]) -> Option<u8>
    ensures { MatchOption result ((number : ℕ) → number < 2 ^ 8 → text.now ≡ decimal number → ⊥)
        (λ number. text.now ≡ decimal number) }
{
    u8::try_from(decimal_u16(text)?).ok()
}
