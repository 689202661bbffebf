//! The words of a line.
//!
//! Tested in `test_serve`.

ghost use Rattle.std.specs.Prelude.{◌≡◌, ◌≢◌, ℕ, ◌∷◌, [], List, ◌<◌, ◌≤◌, ◌^◌, length, slice_index, Option, MatchOption, IfSome, IfNone, decimal};
ghost use Rattle.spec_text.specs.Value.{value_text};
ghost use Rattle.text_lines.specs.inner.Reading.{FitsU64};
ghost use Rattle.text_lines.specs.inner.Words.{words_of, words_left};

use crate::number::number;

/// What is left of a line, word by word.
#[derive(Drop)]
pub struct Words<'a> {
    rest: Option<&'a [u8]>,
}

impl<'a> Words<'a> {
    /// All words of the line.
    pub fn new(line: &'a [u8]) -> Self
        ensures { words_left result ≡ words_of line.entry.now }
    {
        Words { rest: Some(line) }
    }

    /// The next word, up to a space or the end. Two spaces have an empty word between them.
    pub fn next_word(&mut self) -> Option<&'a [u8]>
        ensures { MatchOption result (words_left self.old ≡ [])
            (λ word. words_left self.old ≡ word.now ∷ words_left self.new) }
    {
        let text = self.rest?;
        let at = space_or_end(text);
        if at == text.len() {
            self.rest = None;
            return Some(text);
        }
        self.rest = Some(&text[at + 1..]);
        Some(&text[..at])
    }

    /// The next word as a number.
    pub fn next_number(&mut self) -> Option<u64>
        ensures found { IfSome result (λ n. words_left self.old ≡ decimal n ∷ words_left self.new) }
        ensures range { IfSome result (λ n. n < 2 ^ 64) }
        ensures none { IfNone result ((n : ℕ) (rest : List (List ℕ))
            → n < 2 ^ 64 → words_left self.old ≡ decimal n ∷ rest → ⊥) }
    {
        number(self.next_word()?)
    }

    /// The next word as a number, or `none`.
    pub fn next_value(&mut self) -> Option<Option<u64>>
        ensures found { IfSome result
            (λ value. words_left self.old ≡ value_text value ∷ words_left self.new) }
        ensures range { IfSome result FitsU64 }
        ensures none { IfNone result ((value : Option ℕ) (rest : List (List ℕ))
            → FitsU64 value → words_left self.old ≡ value_text value ∷ rest → ⊥) }
    {
        value(self.next_word()?)
    }

    /// `Some` if there is no word left.
    pub fn end(&self) -> Option<()>
        ensures { MatchOption result (words_left self.now ≡ [] → ⊥)
            (λ _. words_left self.now ≡ []) }
    {
        match self.rest {
            None => Some(()),
            Some(_) => None,
        }
    }
}

// The word as a number, or `none`.
fn value(word: &[u8]) -> Option<Option<u64>>
    ensures found { IfSome result (λ value. word.now ≡ value_text value) }
    ensures range { IfSome result FitsU64 }
    ensures none { IfNone result ((value : Option ℕ)
        → FitsU64 value → word.now ≡ value_text value → ⊥) }
{
    if word == b"none".as_slice() {
        return Some(None);
    }
    Some(Some(number(word)?))
}

// Where the first space is, or else the length.
fn space_or_end(text: &[u8]) -> usize
    ensures within { result ≤ length text.now }
    ensures before { (k : ℕ) → k < result → slice_index text.now k ≢ 32 }
    ensures found { result < length text.now → slice_index text.now result ≡ 32 }
{
    for (i, byte) in text.iter().enumerate() {
        if *byte == b' ' {
            return i;
        }
    }
    text.len()
}
