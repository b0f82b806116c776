//! An audit, which reads a journal line by line.
ghost use Rattle.std.specs.Prelude.{◌≡◌};
ghost use Rattle.upi_audit.specs.calls.Trying.{is_no_memory};

use crate::judge::Judge;
use std::alloc::Global;
use std::hash::RandomState;
use std::marker::Model;
use std::mem;
use upi_base::{EngineFault, NoMemory, Verdict, Why};
use upi_text::{SetupStep, SetupText};

/// An audit. Contracts see what it keeps of the journal that it has read, and whether memory has
/// failed.
#[derive(Drop)]
pub struct Audit {
    alloc: Global,
    hashes: RandomState,
    setup: SetupText,
    judge: Option<Judge>,
    failed: bool,
}

impl Model for Audit {
    ghost use Rattle.upi_audit.specs.calls.Keeping.{AuditState, IsOpenedOnce};

    ghost Value = { AuditState };

    ghost view = { λ a. record { setup = a.setup; bench = a.judge; failed = a.failed } };

    ghost invariant = { λ a. IsOpenedOnce a.setup a.judge };
}

// Whether there was no memory.
fn is_no_memory(answer: &Result<(), EngineFault>) -> bool
    ensures { result ≡ is_no_memory answer.now }
{
    match answer {
        Ok(()) => false,
        Err(
            EngineFault::Bad {
                field: _field,
                why: _why,
            },
        ) => false,
        Err(EngineFault::NoMemory) => true,
    }
}

impl Audit {
    ghost use Rattle.std.specs.Prelude.{◌≡◌, true, None, Err};
    ghost use Rattle.upi_base.specs.declared.fault.EngineFault.{EngineFault};
    ghost use Rattle.upi_audit.specs.Journal.{blank_journal};
    ghost use Rattle.upi_audit.specs.Audit.{ReadsLine, ReadsEnd, StaysFailed};
    ghost use Rattle.upi_audit.specs.calls.Keeping.{HasRead, IsOpenedOnce};
    ghost use Rattle.upi_audit.specs.calls.Trying.{SetupLineAnswer, TryAnswer};

    /// An audit that has read nothing. `alloc` serves all that it keeps; names that senders choose
    /// are hashed with `hashes`.
    pub fn new(alloc: Global, hashes: RandomState) -> Audit
        ensures { HasRead blank_journal result }
    {
        Audit {
            alloc,
            hashes,
            setup: SetupText::new(alloc),
            judge: None,
            failed: false,
        }
    }

    // Reads a line before OPEN, and appends its one form. At OPEN the judge comes.
    fn setup_line(&mut self, line: &[u8], form: &mut Vec<u8>) -> Result<(), EngineFault>
        requires { self.old.bench ≡ None }
        ensures line { SetupLineAnswer self.old.setup line.now self.new result }
        ensures failed { self.new.failed ≡ self.old.failed }
    {
        match self.setup.line(line, form)? {
            SetupStep::More => Ok(()),
            SetupStep::Opened => {
                let text = mem::replace(&mut self.setup, SetupText::new(self.alloc));
                let judge = Judge::new(self.alloc, self.hashes, text.into_directory())?;
                self.judge = Some(judge);
                Ok(())
            }
        }
    }

    // Reads a line.
    fn read(&mut self, line: &[u8]) -> Result<(), EngineFault>
        ensures line { TryAnswer self.old.setup self.old.bench line.now self.new result }
        ensures failed { self.new.failed ≡ self.old.failed }
    {
        if let Some(judge) = &mut self.judge {
            return judge.line(line);
        }
        let mut form = Vec::new(self.alloc);
        self.setup_line(line, &mut form)
    }

    // From now on there is no memory.
    fn give_up(&mut self) -> EngineFault
        ensures fault { result ≡ EngineFault.NoMemory }
        ensures failed { self.new.failed ≡ true }
    {
        self.failed = true;
        EngineFault::NoMemory
    }

    /// Reads a line, which comes without its line end.
    ///
    /// It is `Bad` exactly outside the grammar of journals, with the first reason, and then changes
    /// nothing: setup lines up to OPEN, then E lines, each with the place after that of the one before
    /// it, and M lines after some E line, up to REPORT. Lines that are empty or begin with `#` are
    /// passed over until then; after REPORT each line is taken as it is. At want of memory the audit
    /// answers `NoMemory` from then on, and changes nothing any more.
    #[tactic(auto, using(crate::proofs::Kept::line_settled))]
    pub fn line(&mut self, line: &[u8]) -> Result<(), EngineFault>
        ensures line { ReadsLine self.old line.now self.new result }
        ensures failed { StaysFailed self.old self.new result }
    {
        if self.failed {
            return Err(EngineFault::NoMemory);
        }
        let answer = self.read(line);
        if is_no_memory(&answer) {
            return Err(self.give_up());
        }
        answer
    }

    /// The verdict over what was read.
    ///
    /// Yes, with the count of entries, exactly where the calls, moments, callers and replies of the E
    /// lines are those of a legal history that has a Close, the M lines after each E line are exactly
    /// those of its messages, and the lines after REPORT are exactly its report. Else no, with the
    /// first entry that isn't right and the first reason: its call may not come there, another reply
    /// is due, other M lines are; or, with the count of entries, that there is no Close; or, with its
    /// number, the first line of the report that differs, is missing or is too much.
    ///
    /// It is `Bad` with `End` exactly where OPEN or REPORT wasn't read, and `NoMemory` exactly where
    /// memory has failed before.
    #[tactic(auto, using(crate::proofs::Kept::verdict_ends, crate::proofs::Kept::none_ends))]
    pub fn end(&self) -> Result<Verdict, EngineFault>
        ensures end { ReadsEnd self.now result }
        ensures failed { self.now.failed ≡ true → result ≡ Err EngineFault.NoMemory }
    {
        if self.failed {
            return Err(EngineFault::NoMemory);
        }
        if let Some(judge) = &self.judge {
            if let Some(verdict) = judge.verdict() {
                return Ok(verdict);
            }
        }
        Err(EngineFault::Bad {
            field: 0,
            why: Why::End,
        })
    }
}
