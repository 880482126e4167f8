ghost use Rattle.std.specs.Prelude.{◌≡◌, ℤ, [], ◌∷◌, List, IfSome, Option};
ghost use Rattle.im_edge.specs.Clocks.{AddsTimes};

/// A clock, in whole seconds since 1970-01-01T00:00:00Z (Unix time).
///
/// # Invariants
///
/// Where the times that it gave are told (`given`), each call adds the one that it gives behind the others, and
/// changes none. A clock may cease to tell them, and doesn't begin again.
pub trait Clock {
    /// The time that the clock always gives, where it tells one.
    ghost constant: { Self → Option ℤ };

    /// The times that it has given so far, the first one first, where it tells them.
    ghost given: { Self → Option (List ℤ) };

    /// The time now.
    fn now(&mut self) -> i64
        ensures told { IfSome (constant self.old) (λ time. result ≡ time) }
        ensures same { constant self.new ≡ constant self.old }
        ensures given { AddsTimes (given self.old) (given self.new) (result ∷ []) };
}

/// A clock that always gives one time. It doesn't tell how often it was asked.
#[derive(Clone, Copy, Debug, PartialEq, Eq)]
pub struct FixedClock {
    /// The time that it gives, in Unix seconds.
    pub time: i64,
}

impl Clock for FixedClock {
    ghost use Rattle.std.specs.Prelude.{Some, None};

    ghost constant = { λ clock. Some clock.time };

    ghost given = { λ _. None };

    fn now(&mut self) -> i64 {
        self.time
    }
}

/// A clock that gives a second more each time, from 1 on, and tells the times that it gave, as long as its count
/// holds. When the count is full, it gives that second again and again.
#[derive(Clone, Copy, Debug, PartialEq, Eq)]
pub struct TickingClock {
    /// How often it was asked, at most `u32::MAX`.
    pub asked: u32,
}

impl Clock for TickingClock {
    ghost use Rattle.std.specs.Prelude.{◌≡◌, ◌+◌, ◌-◌, ◌^◌, min, pos, None};
    ghost use Rattle.im_edge.specs.Clocks.{ticks_told};

    ghost constant = { λ _. None };

    ghost given = { λ clock. ticks_told clock.asked };

    fn now(&mut self) -> i64
        ensures given { AddsTimes (ticks_told self.old.asked) (ticks_told self.new.asked) (result ∷ []) }
        ensures counted { self.new.asked ≡ min (self.old.asked + 1) (2 ^ 32 - 1) }
        ensures tick { result ≡ pos self.new.asked }
    {
        self.asked = self.asked.saturating_add(1);
        i64::from(self.asked)
    }
}
