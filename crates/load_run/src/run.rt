//! The lines of a load, played.
ghost use Rattle.std.specs.Prelude.{◌≡◌, ◌≤◌, ◌<◌, ◌+◌, ℕ, List, [], ◌∷◌, OnOk};
ghost use Rattle.load_generator.specs.Users.{setup_len};
ghost use Rattle.load_generator.specs.declared.text.TheConstants.{MAX_COUNT, MAX_SEED};
ghost use Rattle.script_engine.specs.Engine.{fresh};
ghost use Rattle.load_run.specs.LoadLines;
ghost use Rattle.load_run.specs.Runs;
ghost use Rattle.load_run.specs.Summaries.{LoadAnswer};

use load_generator::{MAX_COUNT, MAX_SEED, SETUP_LINES, Sends, push_setup_line};
use script_engine::Engine;
use std::alloc::Global;
use std::hash::RandomState;
use upi_base::{EngineFault, NoMemory, Summary, Why};

/// Why a load isn't run to its end.
#[derive(Clone, Copy, Debug, PartialEq, Eq)]
pub enum LoadFault {
    /// A script refuses one of its lines. By `load_laws` this doesn't come.
    Refused {
        /// The place of the line, the first being 1.
        line: u64,
        /// The number of the word, the first being 1; 0 stands for the whole line.
        field: u32,
        /// What is wrong with it.
        why: Why,
    },
    /// There was no memory.
    NoMemory,
}

impl From<NoMemory> for LoadFault {
    ghost use Rattle.load_run.specs.declared.run.LoadFault.{LoadFault};

    ghost from_gives = { λ _ fault. fault ≡ LoadFault.NoMemory };

    fn from(_: NoMemory) -> LoadFault {
        LoadFault::NoMemory
    }
}

// An engine, and how many lines it has played. What they write is dropped.
#[derive(Drop)]
struct Runner {
    engine: Engine,
    played: u64,
    text: Vec<u8>,
}

impl Runner {
    // Plays a line.
    fn play(&mut self, line: &[u8]) -> Result<(), LoadFault>
        requires few { self.old.played < 1000000 }
        ensures runs { (lines rest : List (List ℕ)) → Runs.Going lines (line.now ∷ rest) self.old.engine.play self.old.played
            → Runs.Runs lines rest self.new.engine.play self.new.played result }
        ensures count { OnOk result (self.new.played ≡ self.old.played + 1) }
    {
        self.text.clear();
        match self.engine.line(line, &mut self.text) {
            Ok(()) => {
                self.played += 1;
                Ok(())
            }
            Err(EngineFault::Bad { field, why }) => Err(LoadFault::Refused {
                line: self.played + 1,
                field,
                why,
            }),
            Err(EngineFault::NoMemory) => Err(LoadFault::NoMemory),
        }
    }

    // The network takes its turns, and time goes on.
    fn take_turns(&mut self) -> Result<(), LoadFault>
        requires few { self.old.played < 900000 }
        ensures runs { (lines rest : List (List ℕ)) → Runs.Going lines (LoadLines.with_turns rest) self.old.engine.play self.old.played
            → Runs.Runs lines rest self.new.engine.play self.new.played result }
        ensures count { OnOk result (self.new.played ≡ self.old.played + 2) }
    {
        self.play(b"RUN 7 5")?;
        self.play(b"TICK 30")
    }

    // The network takes its turns, where they come behind so many payments of a load.
    fn take_turns_at(&mut self, count: u32, made: u32) -> Result<(), LoadFault>
        requires few { self.old.played < 900000 }
        ensures runs { (lines rest : List (List ℕ)) → Runs.Going lines (LoadLines.with_turns_at count made rest) self.old.engine.play self.old.played
            → Runs.Runs lines rest self.new.engine.play self.new.played result }
        ensures count { OnOk result (self.new.played ≤ self.old.played + 2) }
    {
        if made % 100 == 0 || made == count {
            return self.take_turns();
        }
        Ok(())
    }

    // Plays the setup.
    fn play_setup(&mut self, line: &mut Vec<u8>) -> Result<(), LoadFault>
        requires first { self.old.played ≡ 0 }
        ensures runs { (lines rest : List (List ℕ)) → Runs.Going lines (LoadLines.setup_from 0 setup_len rest) self.old.engine.play self.old.played
            → Runs.Runs lines rest self.new.engine.play self.new.played result }
        ensures count { OnOk result (self.new.played ≡ setup_len) }
    {
        'lines: for k in 0..SETUP_LINES {
            line.clear();
            push_setup_line(k, line)?;
            self.play(line)?;
        }
        Ok(())
    }

    // Plays the payments, with the network's turns between them.
    fn play_payments(&mut self, count: u32, seed: u32, line: &mut Vec<u8>) -> Result<(), LoadFault>
        requires few { self.old.played ≡ setup_len }
        requires count { count ≤ MAX_COUNT }
        requires seed { seed ≤ MAX_SEED }
        ensures runs { (lines : List (List ℕ)) → Runs.Going lines (LoadLines.payments_from seed count 0 count) self.old.engine.play self.old.played
            → Runs.Runs lines LoadLines.closing self.new.engine.play self.new.played result }
        ensures bound { OnOk result (self.new.played ≤ 200000) }
    {
        let mut sends = Sends::new(seed);
        'payments: for n in 0..count {
            line.clear();
            sends.push_next(line)?;
            self.play(line)?;
            self.take_turns_at(count, n + 1)?;
        }
        Ok(())
    }

    // More turns, and the close.
    fn close(&mut self) -> Result<(), LoadFault>
        requires few { self.old.played ≤ 200000 }
        ensures runs { (lines : List (List ℕ)) → Runs.Going lines LoadLines.closing self.old.engine.play self.old.played
            → Runs.Runs lines [] self.new.engine.play self.new.played result }
    {
        self.take_turns()?;
        self.take_turns()?;
        self.take_turns()?;
        self.take_turns()?;
        self.play(b"CLOSE")
    }

    // Plays all lines of a load, and sums them up.
    fn play_all(&mut self, count: u32, seed: u32, line: &mut Vec<u8>) -> Result<Summary, LoadFault>
        requires first { self.old.played ≡ 0 }
        requires blank { self.old.engine ≡ fresh }
        requires count { count ≤ MAX_COUNT }
        requires seed { seed ≤ MAX_SEED }
        ensures answer { LoadAnswer count seed result }
    {
        self.play_setup(line)?;
        self.play_payments(count, seed, line)?;
        self.close()?;
        let summary = self.engine.summary()?;
        Ok(summary)
    }
}

/// Plays the lines of a load as a script's, and sums up the history that they make. The network takes
/// its turns (`RUN 7 5`, `TICK 30`) behind every hundredth payment and behind the last; then four times
/// more, and then it closes. Names of transactions are hashed with `hashes`.
///
/// Conditions: at most 50,000 payments, and a seed of at most 2,147,483,647. `Refused` comes exactly
/// where a script refuses one of the lines, with the first such line; by `load_laws` none is refused.
/// `NoMemory` may come at any time.
pub fn run_load(
    alloc: Global,
    hashes: RandomState,
    count: u32,
    seed: u32,
) -> Result<Summary, LoadFault>
    requires count { count ≤ MAX_COUNT }
    requires seed { seed ≤ MAX_SEED }
    ensures answer { LoadAnswer count seed result }
{
    let mut line = Vec::new(alloc);
    let mut runner = Runner {
        engine: Engine::new(alloc, hashes),
        played: 0,
        text: Vec::new(alloc),
    };
    runner.play_all(count, seed, &mut line)
}
