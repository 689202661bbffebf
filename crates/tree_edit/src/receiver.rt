//! How a call that removes many pairs hands each of them on, or asks whether it goes.
//!
//! A type stands for the way: it has no value, and the closure is passed as it is. So a face's closure is called with keys
//! and values as the face has them, and no other closure is made for that.
//!
//! Tested in `test_owned/bulk`.

ghost use Rattle.std.specs.Prelude.{◌≡◌};

/// Hands a pair that was removed on to an `F`.
pub trait Receiver<P, F> {
    ghost use Rattle.std.specs.Prelude.{ℕ};

    ghost step: { F → ℕ × P → F → Type 0 };

    ghost ready: { F → Type 0 };

    /// Hands it on.
    fn receive(f: &mut F, key: u64, payload: P)
        requires { ready f.old }
        ensures step { step f.old (key, payload) f.new }
        ensures ready { ready f.new };
}

/// Asks an `F` whether a pair stays.
pub trait Asker<P, F> {
    ghost use Rattle.std.specs.Prelude.{ℕ, Bool};

    ghost step: { F → ℕ × P → Bool → F → Type 0 };

    ghost ready: { F → Type 0 };

    /// Asks it.
    fn ask(f: &mut F, key: u64, payload: &P) -> bool
        requires { ready f.old }
        ensures step { step f.old (key, payload.now) result f.new }
        ensures ready { ready f.new };
}

/// Drops each pair.
pub struct Dropped {}

impl<P: Drop> Receiver<P, ()> for Dropped {
    ghost step = { λ f pair g. Unit {0} };

    ghost ready = { λ f. Unit {0} };

    fn receive(_f: &mut (), _key: u64, _payload: P) {}
}
