//! The time that a COLLECT may take.
ghost use Rattle.std.specs.Prelude.{◌≡◌, ◌≤◌, SomeIff};

use std::marker::Model;

/// A number of minutes, 1 to 64,800 (`EXPIREAFTER`).
#[derive(Clone, Drop, Debug, PartialEq, Eq)]
pub struct Minutes {
    count: u32,
}

impl Model for Minutes {
    ghost use Rattle.std.specs.Prelude.{ℕ, ◌≤◌};

    ghost Value = { ℕ };

    ghost view = { λ m. m.count };

    ghost invariant = { λ m. (1 ≤ m.count) × (m.count ≤ 64_800) };

    ghost inverse = { λ v. record { count = v } };
}

impl Minutes {
    /// The minutes, if the number is in range.
    pub fn of(count: u32) -> Option<Minutes>
        ensures { SomeIff result ((1 ≤ count) × (count ≤ 64_800)) count }
    {
        if 1 <= count && count <= 64_800 {
            Some(Minutes { count })
        } else {
            None
        }
    }

    /// The number.
    pub fn get(&self) -> u32
        ensures same { result ≡ self.now }
        ensures least { 1 ≤ result }
        ensures most { result ≤ 64_800 }
    {
        self.count
    }

    /// The same number.
    pub fn copy(&self) -> Minutes
        ensures { result ≡ self.now }
    {
        Minutes { count: self.count }
    }
}
