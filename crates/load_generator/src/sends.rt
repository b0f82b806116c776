//! The SEND lines of a load.
use crate::draws::Draws;
use crate::payment::{Payment, push_send};
use crate::text::{MAX_COUNT, MAX_SEED};
use std::marker::Model;
use upi_base::NoMemory;

/// Makes the SEND lines of a load, one after another. Contracts see the seed, and how many were made.
#[derive(Drop)]
pub struct Sends {
    seed: u32,
    draws: Draws,
    made: u32,
}

impl Model for Sends {
    ghost use Rattle.std.specs.Prelude.{◌≡◌};
    ghost use Rattle.load_generator.specs.Loads.{Made, state_at};

    ghost Value = { Made };

    ghost view = { λ s. record { seed = s.seed; count = s.made } };

    ghost invariant = { λ s. s.draws ≡ state_at s.seed s.made };
}

impl Sends {
    ghost use Rattle.std.specs.Prelude.{◌≡◌, ◌≤◌, ◌<◌, ◌+◌, ◌++◌, OnOk};
    ghost use Rattle.load_generator.specs.Loads.{next_send};
    ghost use Rattle.load_generator.specs.declared.text.TheConstants.{MAX_COUNT, MAX_SEED};

    /// The lines that are drawn from a seed of at most 2,147,483,647; none was made.
    pub fn new(seed: u32) -> Sends
        requires { seed ≤ MAX_SEED }
        ensures { result ≡ record { seed = seed; count = 0 } }
    {
        Sends {
            seed,
            draws: Draws::new(seed),
            made: 0,
        }
    }

    /// Appends the next line, without a line end. Fewer than 50,000 were made. It fails only for want
    /// of memory; then a part may be appended, and the line counts as made.
    pub fn push_next(&mut self, out: &mut Vec<u8>) -> Result<(), NoMemory>
        requires { self.old.count < MAX_COUNT }
        ensures line { OnOk result (out.new.items ≡ out.old.items ++ next_send self.old.seed self.old.count) }
        ensures made { self.new ≡ record self.old { count = self.old.count + 1 } }
    {
        let payment = Payment::draw(&mut self.draws);
        self.made += 1;
        push_send(self.made, payment, out)
    }
}
