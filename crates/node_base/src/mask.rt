//! A mask of 256 bits, one for each byte: which bytes of a node have a child, in 32 bytes.
//!
//! Tested in `congee_nodes`.

ghost use Rattle.std.specs.Prelude.{IsTrue, false, ◌≡◌, ◌≢◌, ℕ, ◌+◌, ◌<◌, ◌≤◌, IfSome, IfNone};
ghost use Rattle.node_base.specs.inner.Marked.{mark_at};

/// Whether the bit of a byte is set.
pub fn is_marked(words: &[u64; 4], byte: u8) -> bool
    ensures set { IsTrue result → mark_at words.now byte ≡ 1 }
    ensures clear { result ≡ false → mark_at words.now byte ≡ 0 }
{
    (words[byte as usize / 64] >> (byte as usize % 64)) & 1 == 1
}

/// Sets the bit of a byte; the others stay.
pub fn mark(words: &mut [u64; 4], byte: u8)
    ensures here { mark_at words.new byte ≡ 1 }
    ensures others { (i : ℕ) → i < 256 → i ≢ byte → mark_at words.new i ≡ mark_at words.old i }
{
    words[byte as usize / 64] |= 1 << (byte as usize % 64);
}

/// Clears the bit of a byte; the others stay.
pub fn unmark(words: &mut [u64; 4], byte: u8)
    ensures here { mark_at words.new byte ≡ 0 }
    ensures others { (i : ℕ) → i < 256 → i ≢ byte → mark_at words.new i ≡ mark_at words.old i }
{
    words[byte as usize / 64] &= !(1 << (byte as usize % 64));
}

/// The first byte from this number on whose bit is set, or `None`. A word without set bits is passed in one step, and
/// the number itself is looked at first: where most bits are set, the processor needn't wait for a search.
pub fn next_marked(words: &[u64; 4], from: usize) -> Option<u8>
    ensures order { IfSome result (λ byte. from ≤ byte) }
    ensures here { IfSome result (λ byte. mark_at words.now byte ≡ 1) }
    ensures free { IfSome result (λ byte. (i : ℕ) → from ≤ i → i < byte → mark_at words.now i ≡ 0) }
    ensures none { IfNone result ((i : ℕ) → from ≤ i → mark_at words.now i ≡ 0) }
{
    let mut at = from;
    while at < 256 {
        if is_marked(words, at as u8) {
            return Some(at as u8);
        }
        let word = words[at / 64] >> (at % 64);
        if word != 0 {
            return Some((at + word.trailing_zeros() as usize) as u8);
        }
        at = (at / 64 + 1) * 64;
    }
    None
}

/// The last byte below this number whose bit is set, or `None`. A word is looked at in one step.
pub fn last_marked(words: &[u64; 4], to: usize) -> Option<u8>
    requires { to ≤ 256 }
    ensures order { IfSome result (λ byte. byte < to) }
    ensures here { IfSome result (λ byte. mark_at words.now byte ≡ 1) }
    ensures free { IfSome result (λ byte. (i : ℕ) → byte < i → i < to → mark_at words.now i ≡ 0) }
    ensures none { IfNone result ((i : ℕ) → i < to → mark_at words.now i ≡ 0) }
{
    let mut at = to;
    while at > 0 {
        let first = (at - 1) / 64 * 64;
        let word = words[first / 64] & (u64::MAX >> (first + 64 - at));
        if word != 0 {
            return Some((first + word.ilog2() as usize) as u8);
        }
        at = first;
    }
    None
}
