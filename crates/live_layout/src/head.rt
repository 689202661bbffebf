//! The head of a node: its form and its prefix in one word.

ghost use Rattle.std.specs.Prelude.{◌≡◌, ℕ, ◌<◌, ◌≤◌, List, length, IsTrue, false};
ghost use Rattle.live_layout.specs.Head.{IsHead, Begins};

use crate::lanes::{lane_of, with_lane};

/// The head of a node of this form, by its place among the forms.
pub fn head(form: u8, prefix: &[u8]) -> u64
    requires form { form < 4 }
    requires short { length prefix.now ≤ 7 }
    ensures { IsHead result form prefix.now }
{
    let mut word = with_lane(0, 0, 8 * form + prefix.len() as u8);
    for i in 0..prefix.len() {
        word = with_lane(word, i + 1, prefix[i]);
    }
    word
}

/// The head of a node with the same prefix, of this form.
pub fn with_form(word: u64, form: u8) -> u64
    requires { form < 4 }
    ensures { (was : ℕ) (prefix : List ℕ) → IsHead word was prefix → IsHead result form prefix }
{
    with_lane(word, 0, 8 * form + lane_of(word, 0) % 8)
}

/// The form of a node with this head, by its place among the forms.
pub fn form_of(word: u64) -> u8
    ensures { (form : ℕ) (prefix : List ℕ) → IsHead word form prefix → result ≡ form }
{
    lane_of(word, 0) / 8
}

/// How many bytes the prefix has. Seven at most, in any word.
pub fn prefix_len(word: u64) -> usize
    ensures few { result ≤ 7 }
    ensures is { (form : ℕ) (prefix : List ℕ) → IsHead word form prefix → result ≡ length prefix }
{
    (lane_of(word, 0) % 8) as usize
}

/// Whether a key, of these bytes, begins with the prefix.
pub fn begins(word: u64, bytes: &[u8; 8]) -> bool
    ensures yes { (form : ℕ) (prefix : List ℕ) → IsHead word form prefix → IsTrue result
        → Begins prefix bytes.now }
    ensures no { (form : ℕ) (prefix : List ℕ) → IsHead word form prefix → result ≡ false
        → Begins prefix bytes.now → ⊥ }
{
    for i in 0..prefix_len(word) {
        if lane_of(word, i + 1) != bytes[i] {
            return false;
        }
    }
    true
}
