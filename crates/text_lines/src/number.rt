//! Numbers of 64 bits as text.
//!
//! Tested in `test_serve`.

ghost use Rattle.std.specs.Prelude.{◌≡◌, ◌↔◌, ℕ, ◌<◌, ◌^◌, length, slice_index, IsTrue, IfSome, IfNone, decimal};

/// The number that the word is the decimal text of, without a sign or a leading zero. `None` for
/// any other word, and where the number needs more than 64 bits.
pub fn number(word: &[u8]) -> Option<u64>
    ensures found { IfSome result (λ n. word.now ≡ decimal n) }
    ensures range { IfSome result (λ n. n < 2 ^ 64) }
    ensures none { IfNone result ((n : ℕ) → n < 2 ^ 64 → word.now ≡ decimal n → ⊥) }
{
    if word.is_empty() {
        return None;
    }
    if has_leading_zero(word) {
        return None;
    }
    let mut n: u64 = 0;
    for byte in word {
        if *byte < b'0' {
            return None;
        }
        if *byte > b'9' {
            return None;
        }
        let digit = (*byte - b'0') as u64;
        if n > (u64::MAX - digit) / 10 {
            return None;
        }
        n = n * 10 + digit;
    }
    Some(n)
}

fn has_leading_zero(word: &[u8]) -> bool
    ensures { IsTrue result ↔ ((1 < length word.now) × (slice_index word.now 0 ≡ 48)) }
{
    word.len() > 1 && word[0] == b'0'
}
