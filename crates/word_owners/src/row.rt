//! Numbers that a handle found at hazards.
ghost use Rattle.std.specs.Prelude.{◌≡◌, ◌+◌, ◌<◌, false};
ghost use Rattle.word_hazards.specs.Views.{In};

/// How many retired tickets a handle keeps for its next scan, and how many free slots for its next insertions. There are more than
/// hazards, so that a scan of a full row finds a ticket that nobody has lent.
pub const ROW: usize = 128;

/// Whether a ticket is announced by one of these numbers.
pub fn is_announced(numbers: &[u64], ticket: u64) -> bool
    requires ticket { ticket < 18446744073709551614 }
    ensures absent { result ≡ false → In (ticket + 2) numbers.now → ⊥ }
{
    numbers.contains(&(ticket + 2))
}
