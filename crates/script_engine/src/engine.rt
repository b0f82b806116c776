//! An engine, which plays a script line by line.
ghost use Rattle.std.specs.Prelude.{◌≡◌};
ghost use Rattle.script_engine.specs.calls.Ending.{is_no_memory};

use crate::player::Player;
use std::alloc::Global;
use std::hash::RandomState;
use std::marker::Model;
use std::mem;
use upi_base::{EngineFault, NoMemory, Summary, Why};
use upi_msg::Reader;
use upi_text::{SetupStep, SetupText};

/// An engine. Contracts see what its script has played: the setup, the history and the current
/// moment; and whether memory has failed. Its setup is accepted, and its history legal.
#[derive(Drop)]
pub struct Engine {
    alloc: Global,
    hashes: RandomState,
    setup: SetupText,
    player: Option<Player>,
    reader: Reader,
    failed: bool,
}

impl Model for Engine {
    ghost use Rattle.script_engine.specs.Engine.{EngineState};

    ghost Value = { EngineState };

    ghost use Rattle.script_engine.specs.calls.Playing.{play_of, IsEngine};

    ghost view = { λ e. record { play = play_of e.setup e.player; failed = e.failed } };

    ghost invariant = { λ e. IsEngine e.setup e.player };
}

// Whether there was no memory.
fn is_no_memory(answer: &Result<(), EngineFault>) -> bool
    ensures { result ≡ is_no_memory answer.now }
{
    match answer {
        Ok(()) => false,
        Err(
            EngineFault::Bad {
                field: _field,
                why: _why,
            },
        ) => false,
        Err(EngineFault::NoMemory) => true,
    }
}

impl Engine {
    ghost use Rattle.std.specs.Prelude.{◌≡◌, IfOk, true, false};
    ghost use Rattle.script_engine.specs.Play.{play_line};
    ghost use Rattle.script_engine.specs.Engine.{fresh, IsTrue, LineAnswer, EndAnswer};
    ghost use Rattle.script_engine.specs.calls.Tries.{PlayAnswer};
    ghost use Rattle.script_engine.specs.End.{summary_of};
    ghost use Rattle.script_engine.specs.calls.Ending.{FinishAnswer, SettledAnswer};

    /// An engine that has read nothing. `alloc` serves all that it keeps; names that senders choose
    /// are hashed with `hashes`.
    pub fn new(alloc: Global, hashes: RandomState) -> Engine
        ensures fresh { result ≡ fresh }
        ensures holds { IsTrue result }
    {
        Engine {
            alloc,
            hashes,
            setup: SetupText::new(alloc),
            player: None,
            reader: Reader::new(alloc),
            failed: false,
        }
    }

    // Plays a line before OPEN. At OPEN the switch opens.
    fn read_setup(&mut self, line: &[u8], out: &mut Vec<u8>) -> Result<(), EngineFault>
        requires { self.old.play.setup.is_open ≡ false }
        ensures line { PlayAnswer (play_line self.old.play line.now) self.old.play out.old.items out.new.items self.new.play result }
        ensures failed { self.new.failed ≡ self.old.failed }
    {
        match self.setup.line(line, out)? {
            SetupStep::More => Ok(()),
            SetupStep::Opened => {
                let text = mem::replace(&mut self.setup, SetupText::new(self.alloc));
                let player = Player::new(self.alloc, self.hashes, text.into_directory())?;
                self.player = Some(player);
                Ok(())
            }
        }
    }

    // Plays a line. Only at want of memory a part of it may be played, and written.
    fn play(&mut self, line: &[u8], out: &mut Vec<u8>) -> Result<(), EngineFault>
        ensures line { PlayAnswer (play_line self.old.play line.now) self.old.play out.old.items out.new.items self.new.play result }
        ensures failed { self.new.failed ≡ self.old.failed }
    {
        if let Some(player) = &mut self.player {
            return player.line(&mut self.reader, line, out);
        }
        self.read_setup(line, out)
    }

    // Plays the end of a script. Only at want of memory a part of it may be played, and written.
    fn finish(&mut self, out: &mut Vec<u8>) -> Result<(), EngineFault>
        ensures end { FinishAnswer self.old.play out.old.items out.new.items self.new.play result }
        ensures failed { self.new.failed ≡ self.old.failed }
    {
        if let Some(player) = &mut self.player {
            return Ok(player.end(out)?);
        }
        Err(EngineFault::Bad {
            field: 0,
            why: Why::End,
        })
    }

    // From now on there is no memory.
    fn give_up(&mut self) -> EngineFault
        ensures fault { result ≡ EngineFault.NoMemory }
        ensures failed { self.new ≡ record self.old { failed = true } }
        ensures holds { IsTrue self.new }
    {
        self.failed = true;
        EngineFault::NoMemory
    }

    // Appends what a call has written, and answers as it did. Where there was or is no memory, it
    // appends nothing, and the engine gives up.
    fn settle(
        &mut self,
        answer: Result<(), EngineFault>,
        text: &[u8],
        out: &mut Vec<u8>,
    ) -> Result<(), EngineFault>
        ensures settled { SettledAnswer self.old answer text.now out.old.items out.new.items self.new result }
        ensures holds { IsTrue self.new }
    {
        let _failed = self.failed;
        if is_no_memory(&answer) {
            return Err(self.give_up());
        }
        match out.extend_from_slice(text) {
            Ok(()) => answer,
            Err(_error) => Err(self.give_up()),
        }
    }

    /// Plays a line, which comes without its line end, and appends what it writes. A line that is
    /// refused changes and appends nothing. At want of memory nothing is appended, and the engine
    /// answers `NoMemory` from then on, and changes nothing any more.
    pub fn line(&mut self, line: &[u8], out: &mut Vec<u8>) -> Result<(), EngineFault>
        ensures line { LineAnswer self.old line.now out.old.items out.new.items self.new result }
        ensures holds { IsTrue self.new }
    {
        if self.failed {
            return Err(EngineFault::NoMemory);
        }
        let mut text = Vec::new(self.alloc);
        let answer = self.play(line, &mut text);
        self.settle(answer, &text, out)
    }

    /// The end of the input: closes where nothing has closed, and appends the report. It is `Bad`
    /// with `End` exactly where OPEN wasn't read, and then changes nothing. At want of memory it
    /// does as `line`.
    pub fn end(&mut self, out: &mut Vec<u8>) -> Result<(), EngineFault>
        ensures end { EndAnswer self.old out.old.items out.new.items self.new result }
        ensures holds { IsTrue self.new }
    {
        if self.failed {
            return Err(EngineFault::NoMemory);
        }
        let mut text = Vec::new(self.alloc);
        let answer = self.finish(&mut text);
        self.settle(answer, &text, out)
    }

    /// The counts of the history: how transactions ended, reconciliation items, the money in
    /// flight, entries and messages. It fails only for want of memory, and always where memory has
    /// failed before.
    pub fn summary(&self) -> Result<Summary, NoMemory>
        ensures counts { IfOk result (λ s. s ≡ summary_of self.now.play.setup.lines self.now.play.history) }
        ensures alive { IfOk result (λ _. self.now.failed ≡ false) }
    {
        if self.failed {
            return Err(NoMemory);
        }
        match &self.player {
            Some(player) => player.summary(),
            None => Ok(Summary {
                success: 0,
                failure: 0,
                deemed: 0,
                items: 0,
                flight: 0,
                entries: 0,
                messages: 0,
            }),
        }
    }
}
