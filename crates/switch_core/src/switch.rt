//! The core: one switch, called by one caller.
use crate::enter::enter;
use crate::fault::CoreFault;
use core_shards::CoreShards;
use entry_log::Log;
use std::alloc::Global;
use std::hash::RandomState;
use std::marker::Model;
use upi_base::{Call, Done, Moment, NoMemory, Setup};
use vpa_directory::{At, Directory, SetupFault};

/// A switch. Contracts see its setup, which is accepted, and its history, which is legal.
#[derive(Drop)]
pub struct Core {
    pub(crate) alloc: Global,
    pub(crate) tables: CoreShards,
    pub(crate) log: Log,
}

impl Model for Core {
    ghost use Rattle.upi_model.specs.Chronicle.{Chronicle};
    ghost use Rattle.core_shards.specs.Tables.{StandsAll};

    ghost Value = { Chronicle };

    ghost view = { λ c. record { setup = c.tables.lines; history = c.log } };

    ghost invariant = { λ c. StandsAll c.log c.tables };
}

impl Core {
    ghost use Rattle.std.specs.Prelude.{◌≡◌, IfOk, OnErr, None, []};
    ghost use Rattle.switch_core.specs.Calls;

    /// A switch over a setup, with no history yet. `alloc` serves what it will keep; accounts and
    /// transactions are hashed with `hashes`, so whoever chooses their names can't choose them to
    /// collide. It refuses exactly where a line isn't accepted behind those before it, with the
    /// first such line; it may also find no memory, and then the place says nothing.
    pub fn new(alloc: Global, hashes: RandomState, setup: Setup) -> Result<Core, At>
        ensures answer { Calls.NewAnswer setup.lines result }
        ensures switch { IfOk result Calls.IsSwitch }
    {
        let directory = Directory::build(alloc, setup)?;
        match Core::over(alloc, hashes, directory) {
            Ok(core) => Ok(core),
            Err(_) => Err(At {
                at: 0,
                fault: SetupFault::NoMemory,
            }),
        }
    }

    /// A switch over the setup of a directory, with no history yet. `alloc` serves what it will
    /// keep; accounts and transactions are hashed with `hashes`. It fails only for want of memory.
    pub fn over(alloc: Global, hashes: RandomState, directory: Directory) -> Result<Core, NoMemory>
        ensures new { IfOk result (λ c. c ≡ record { setup = directory.lines; history = [] }) }
        ensures switch { IfOk result Calls.IsSwitch }
    {
        let tables = CoreShards::new(alloc, hashes, directory)?;
        Ok(Core {
            alloc,
            tables,
            log: Log::new(alloc),
        })
    }

    // Takes a call that nothing refuses.
    fn accept(&mut self, call: Call, now: Moment) -> Result<Done, NoMemory>
        requires known { Calls.IsKnown self.old.setup call }
        requires free { Calls.refused_by self.old.history call ≡ None }
        ensures ok { IfOk result (λ done. (self.new ≡ Calls.with_call self.old call now) × (done ≡ Calls.done_of self.old call now)) }
        ensures err { OnErr result (self.new ≡ self.old) }
        ensures switch { Calls.IsSwitch self.new }
    {
        let reply = enter(self.alloc, &mut self.tables, &mut self.log, call, now)?;
        Ok(Done {
            reply,
            place: self.log.len(),
        })
    }

    /// Takes a call at a moment. Condition: the PSP of a Hear is in the setup. An accepted call
    /// adds its entry, with caller 0; the answer has the reply and the entry's place, counted
    /// from 1. A refused one changes nothing, and want of memory neither.
    pub fn apply(&mut self, call: Call, now: Moment) -> Result<Done, CoreFault>
        requires { Calls.IsKnown self.old.setup call }
        ensures answer { Calls.ApplyAnswer self.old call now self.new result }
        ensures switch { Calls.IsSwitch self.new }
    {
        match self.refusal(&call) {
            Some(fault) => Err(fault),
            None => Ok(self.accept(call, now)?),
        }
    }
}
