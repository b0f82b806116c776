//! Numbers that look drawn by lot.
ghost use Rattle.std.specs.Prelude.{◌≡◌, ◌<◌, ◌^◌};
ghost use Rattle.load_generator.specs.Draws.{next_state, drawn};

use std::marker::Model;

/// A source of draws. Contracts see its state.
#[derive(Drop)]
pub(crate) struct Draws {
    state: u64,
}

impl Model for Draws {
    ghost use Rattle.std.specs.Prelude.{ℕ, ◌<◌};

    ghost Value = { ℕ };

    ghost view = { λ d. d.state };

    ghost invariant = { λ d. d.state < 2147483648 };
}

impl Draws {
    /// The draws that a seed begins.
    pub(crate) fn new(seed: u32) -> Draws
        requires { seed < 2147483648 }
        ensures { result ≡ seed }
    {
        Draws {
            state: u64::from(seed),
        }
    }

    /// The next draw, from 0 to 32,767.
    pub(crate) fn next(&mut self) -> u32
        ensures state { self.new ≡ next_state self.old }
        ensures gives { result ≡ drawn self.new }
        ensures bound { result < 32768 }
    {
        self.state = (1_103_515_245 * self.state + 12_345) % 2_147_483_648;
        (self.state / 65_536) as u32
    }
}
