//! What follows from the definitions alone: laws by which a reader can check the definitions.

ghost use Rattle.std.specs.Prelude.{◌≡◌, ◌↔◌, ℕ, ◌<◌, ◌^◌, List, Some, decimal};
ghost use Rattle.spec_text.specs.Lines.{Reads};
ghost use Rattle.spec_text.specs.Number.{IsNumber};

/// What was read is cut into lines in one way.
pub fn one_cut()
    ensures { (before after : List ℕ) (one other : Reads (Some before) (Some after))
        → (one.whole ≡ other.whole) × (one.rest ≡ other.rest) }
{}

/// A number is written in digits, without a sign, and begins with 0 only if it is that alone.
pub fn number_syntax()
    ensures { (word : List ℕ) (n : ℕ) → n < 2 ^ 64 → ((word ≡ decimal n) ↔ IsNumber word n) }
{}
