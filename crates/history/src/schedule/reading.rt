//! Parsing of words and numbers.

ghost use Rattle.std.specs.Prelude.{◌≡◌, ◌≢◌, ℕ, ◌<◌, ◌^◌, ◌∷◌, ◌++◌, ◌↔◌, List, IsTrue, MatchOption, decimal};
ghost use Rattle.history.specs.Reading.{is_without, ReadsNumber};

/// Splits the bytes at the first byte equal to `end`, which is in neither part.
pub(crate) fn word(bytes: &[u8], end: u8) -> Option<(&[u8], &[u8])>
    ensures { MatchOption result
        ((front rest : List ℕ) → bytes.now ≢ front ++ end ∷ rest)
        (λ parts. IsTrue (is_without end parts.0.now) × (bytes.now ≡ parts.0.now ++ end ∷ parts.1.now)) }
{
    for (i, byte) in bytes.iter().enumerate() {
        if *byte == end {
            return Some((&bytes[..i], &bytes[i + 1..]));
        }
    }
    None
}

/// Parses a decimal number without leading zeros.
pub(crate) fn number(text: &[u8]) -> Option<u32>
    ensures { ReadsNumber text.now result }
{
    let Ok(digits) = str::from_utf8(text) else {
        return None;
    };
    let Ok(n) = digits.parse::<u32>() else {
        return None;
    };
    if is_decimal(text, n) { Some(n) } else { None }
}

/// Whether these bytes are the decimal text of `n`.
fn is_decimal(text: &[u8], n: u32) -> bool
    ensures { IsTrue result ↔ (text.now ≡ decimal n) }
{
    let Some((last, front)) = text.split_last() else {
        return false;
    };
    if u32::from(*last) != u32::from(b'0') + n % 10 {
        return false;
    }
    if n < 10 {
        front.is_empty()
    } else {
        is_decimal(front, n / 10)
    }
}

/// Parses the number before the first byte equal to `end`. Returns it with the bytes after that byte.
pub(crate) fn number_to(bytes: &[u8], end: u8) -> Option<(u32, &[u8])>
    requires { end < 48 }
    ensures { MatchOption result
        ((n : ℕ) (rest : List ℕ) → n < 2 ^ 32 → bytes.now ≢ decimal n ++ end ∷ rest)
        (λ parts. (parts.0 < 2 ^ 32) × (bytes.now ≡ decimal parts.0 ++ end ∷ parts.1.now)) }
{
    let (text, rest) = word(bytes, end)?;
    Some((number(text)?, rest))
}
