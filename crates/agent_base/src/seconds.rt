//! Moments of a clock.
ghost use Rattle.std.specs.Prelude.{◌≡◌, ◌+◌, ◌≤◌, ◌≤ℤ◌, min, pos};
ghost use Rattle.agent_base.specs.Seconds.{last_moment};

use std::marker::Model;

/// The last second of a clock: 9999-12-31 23:59:59 UTC, in seconds since 1970.
pub const LAST_MOMENT: u64 = 253_402_300_799;

/// A moment: whole seconds since 1970-01-01 00:00:00 UTC, up to the end of the year 9999.
#[derive(Clone, Copy, Debug, PartialEq, Eq)]
pub struct Seconds {
    since: u64,
}

impl Model for Seconds {
    ghost use Rattle.std.specs.Prelude.{ℕ, ◌≤◌};

    ghost Value = { ℕ };

    ghost use Rattle.agent_base.specs.Seconds.{last_moment};

    ghost view = { λ s. s.since };

    ghost invariant = { λ s. s.since ≤ last_moment };

    ghost inverse = { λ n. record { since = n } };
}

impl Seconds {
    /// The moment so many seconds after the beginning of 1970.
    pub fn new(since: u64) -> Seconds
        requires { since ≤ last_moment }
        ensures moment { result ≡ since }
    {
        Seconds { since }
    }

    /// The moment so many seconds later. A clock stays at its last second.
    pub fn after(self, seconds: u32) -> Seconds
        ensures later { result ≡ min (self + seconds) last_moment }
    {
        Seconds {
            since: self.since.saturating_add(seconds as u64).min(LAST_MOMENT),
        }
    }

    /// The seconds since the beginning of 1970.
    pub fn number(self) -> u64
        ensures number { result ≡ self }
        ensures within { result ≤ last_moment }
    {
        self.since
    }

    /// The same seconds as a signed number.
    pub fn signed(self) -> i64
        ensures number { result ≡ pos self }
        ensures begun { pos 0 ≤ℤ result }
        ensures lasting { result ≤ℤ pos last_moment }
    {
        self.since as i64
    }
}
