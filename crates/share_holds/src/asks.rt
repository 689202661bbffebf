//! The closures of calls, which are called while the lock is free.
//!
//! Tested in `share_maps` and `test_share_guards`.

ghost use Rattle.std.specs.Prelude.{◌≡◌};
ghost use Rattle.share_holds.specs.Closures.{StepsAlways, StepsIfPresent, StepsNot};

/// How a call calls its closure F, while the lock is free.
pub trait Asks<P, F>: Copy {
    ghost use Rattle.std.specs.Prelude.{Option};

    ghost can_ask: { F → Type 0 };

    // The calls: the closure before a call, what it is called with, what it returns, and the closure after the call.
    ghost step: { F → Option P → Option P → F → Type 0 };

    fn ask(self, f: &mut F, old: Option<P>) -> Option<P>
        requires { can_ask f.old }
        ensures callable { can_ask f.new }
        ensures step { step f.old old result f.new };
}

/// There is no closure.
#[derive(Clone, Copy)]
pub struct Nobody;

impl<P: Drop> Asks<P, ()> for Nobody {
    ghost use Rattle.share_holds.specs.Closures.{StepsNot};

    ghost can_ask = { λ _. Unit {0} };

    ghost step = { StepsNot };

    fn ask(self, f: &mut (), old: Option<P>) -> Option<P>
        ensures { StepsNot f.old old result f.new }
    {
        drop(old);
        None
    }
}

/// The closure is called only with a value that is present.
#[derive(Clone, Copy)]
pub struct IfPresent;

impl<P, F: FnMut(P) -> Option<P>> Asks<P, F> for IfPresent {
    ghost use Rattle.share_holds.specs.Closures.{StepsIfPresent};

    ghost can_ask = { λ f. F.IsAlwaysCallable f };

    ghost step = { λ f old answer t. StepsIfPresent F.step f old answer t };

    fn ask(self, f: &mut F, old: Option<P>) -> Option<P>
        requires { F.IsAlwaysCallable f.old }
        ensures callable { F.IsAlwaysCallable f.new }
        ensures step { StepsIfPresent F.step f.old old result f.new }
    {
        match old {
            Some(current) => f(current),
            None => None,
        }
    }
}

/// The closure always answers with a value.
#[derive(Clone, Copy)]
pub struct Always;

impl<P, F: FnMut(Option<P>) -> P> Asks<P, F> for Always {
    ghost use Rattle.share_holds.specs.Closures.{StepsAlways};

    ghost can_ask = { λ f. F.IsAlwaysCallable f };

    ghost step = { λ f old answer t. StepsAlways F.step f old answer t };

    fn ask(self, f: &mut F, old: Option<P>) -> Option<P>
        requires { F.IsAlwaysCallable f.old }
        ensures callable { F.IsAlwaysCallable f.new }
        ensures step { StepsAlways F.step f.old old result f.new }
    {
        Some(f(old))
    }
}
