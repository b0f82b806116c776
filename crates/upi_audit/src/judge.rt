//! What judges a journal after OPEN: each line is held against what the switch answers, and nothing of
//! it is kept.
ghost use Rattle.std.specs.Prelude.{◌≡◌, ◌<◌, ◌↔◌, IsTrue, IfOk, None, true};
ghost use Rattle.std.specs.Option.{option_copied, option_or};
ghost use Rattle.recon_report.specs.Report.{report_text};
ghost use Rattle.switch_core.specs.Calls.{is_known as knows};
ghost use Rattle.upi_audit.specs.calls.Steps;

use crate::closing::Closing;
use crate::wrong::Wrong;
use journal_lines::{EntryLine, JournalLine, JournalReader};
use recon_report::report;
use std::alloc::Global;
use std::hash::RandomState;
use std::marker::Model;
use switch_core::{Core, CoreFault};
use upi_base::{AuditWhy, Call, Done, EngineFault, NoMemory, Reply, Sent, Verdict};
use upi_text::message_line;
use vpa_directory::Directory;

/// What judges a journal after OPEN. Contracts see the switch that plays its calls, how many entries
/// and messages were read, what is wrong first, and the report that is due.
#[derive(Drop)]
pub(crate) struct Judge {
    alloc: Global,
    core: Core,
    lines: JournalReader,
    // The text of the message that is due; its memory is used again.
    text: Vec<u8>,
    entries: u64,
    matched: u64,
    wrong: Option<Wrong>,
    due: Option<Closing>,
}

impl Model for Judge {
    ghost use Rattle.upi_audit.specs.calls.Keeping.{Bench};

    ghost Value = { Bench };

    ghost view = { λ j. record { core = j.core; entries = j.entries; matched = j.matched; wrong = j.wrong; due = j.due } };
}

// Whether two replies are one.
fn same_reply(a: Reply, b: Reply) -> bool
    ensures { IsTrue result ↔ (a ≡ b) }
{
    a == b
}

// Whether the PSP of a Hear is in the setup.
fn is_known(directory: &Directory, call: &Call) -> bool
    ensures { result ≡ knows directory.now.lines call.now }
{
    match call {
        Call::Hear { psp, input: _input } => directory.has_psp(psp),
        _ => true,
    }
}

// What is wrong with an E line of this reply whose call was answered so, if something is.
fn judged(answer: Result<Done, CoreFault>, reply: Reply) -> Result<Option<AuditWhy>, NoMemory>
    ensures { Steps.CallJudged answer reply result }
{
    match answer {
        Ok(done) => {
            if same_reply(reply, done.reply) {
                Ok(None)
            } else {
                Ok(Some(AuditWhy::Reply))
            }
        }
        Err(CoreFault::NoMemory) => Err(NoMemory),
        Err(CoreFault::Full { len: _len }) => Ok(Some(AuditWhy::Call)),
        Err(CoreFault::NoMessage { n: _n, sent: _sent }) => Ok(Some(AuditWhy::Call)),
    }
}

// Plays a call. The answer is why its E line is wrong, if it is.
#[tactic(auto, using(crate::proofs::Calls::unknown_call, crate::proofs::Calls::call_judged))]
fn play(core: &mut Core, line: EntryLine) -> Result<Option<AuditWhy>, NoMemory>
    ensures { Steps.IsPlayed core.old line core.new result }
{
    if !is_known(core.directory(), &line.call) {
        return Ok(Some(AuditWhy::Call));
    }
    let reply = line.reply;
    let answer = core.apply(line.call, line.at);
    judged(answer, reply)
}

// Whether a line is the M line of a message with this number, if there is one.
fn is_line_of(
    n: u64,
    sent: Option<&Sent>,
    line: &[u8],
    text: &mut Vec<u8>,
) -> Result<bool, NoMemory>
    ensures { IfOk result (λ b. b ≡ Steps.is_line_of n (option_copied sent.entry) line.now) }
{
    match sent {
        None => Ok(false),
        Some(sent) => {
            text.clear();
            message_line(n, sent, text)?;
            Ok(text.as_slice() == line)
        }
    }
}

// What is wrong with an entry at a place, if something is.
fn wrong_at(place: u64, why: Option<AuditWhy>) -> Option<Wrong>
    ensures { result ≡ Steps.wrong_at place why }
{
    match why {
        None => None,
        Some(why) => Some(Wrong { place, why }),
    }
}

// What is wrong after a line of the report, which is taken where it is the next one and nothing was
// wrong before.
fn wrong_after(due: &mut Closing, wrong: Option<Wrong>, line: &[u8]) -> Option<Wrong>
    ensures wrong { result ≡ Steps.wrong_after due.old wrong (Steps.is_next_line due.old line.now) }
    ensures due { due.new ≡ Steps.due_after due.old wrong (Steps.is_next_line due.old line.now) }
{
    if wrong.is_some() {
        return wrong;
    }
    if due.take(line) {
        return None;
    }
    Some(Wrong {
        place: due.number(),
        why: AuditWhy::Report,
    })
}

impl Judge {
    /// A judge of a journal over the setup of a directory, after OPEN. Names that senders choose are
    /// hashed with `hashes`.
    pub(crate) fn new(
        alloc: Global,
        hashes: RandomState,
        directory: Directory,
    ) -> Result<Judge, NoMemory>
        ensures { IfOk result (λ j. j ≡ Steps.just_opened directory.lines) }
    {
        let core = Core::over(alloc, hashes, directory)?;
        Ok(Judge {
            alloc,
            core,
            lines: JournalReader::new(alloc),
            text: Vec::new(alloc),
            entries: 0,
            matched: 0,
            wrong: None,
            due: None,
        })
    }

    // That messages of the latest entry have no M line.
    fn unsent(&self) -> Option<Wrong>
        ensures { result ≡ Steps.unsent self.now }
    {
        if self.matched < self.core.sent_count() {
            Some(Wrong {
                place: self.entries,
                why: AuditWhy::Sent,
            })
        } else {
            None
        }
    }

    // That there is no Close.
    fn unclosed(&self) -> Option<Wrong>
        ensures { result ≡ Steps.unclosed self.now }
    {
        if self.core.is_closed() {
            None
        } else {
            Some(Wrong {
                place: self.entries,
                why: AuditWhy::NoClose,
            })
        }
    }

    // An E line where nothing was wrong before.
    fn entry_judged(&mut self, line: EntryLine) -> Result<(), NoMemory>
        ensures { IfOk result (λ _. Steps.EntryAnswer self.old line self.new None) }
    {
        let place = line.place;
        let why = play(&mut self.core, line)?;
        self.wrong = wrong_at(place, why);
        self.entries = place;
        Ok(())
    }

    // An E line.
    #[tactic(auto, using(crate::proofs::Calls::entry_some, crate::proofs::Calls::entry_none))]
    fn entry(&mut self, line: EntryLine) -> Result<(), NoMemory>
        ensures { IfOk result (λ _. Steps.EntryAnswer self.old line self.new (option_or self.old.wrong (Steps.unsent self.old))) }
    {
        match self.wrong.or(self.unsent()) {
            Some(wrong) => {
                self.wrong = Some(wrong);
                self.entries = line.place;
                Ok(())
            }
            None => self.entry_judged(line),
        }
    }

    // Whether a line is the M line that is due.
    fn is_due(&mut self, line: &[u8]) -> Result<bool, NoMemory>
        ensures is { IfOk result (λ b. b ≡ Steps.is_due_line self.old line.now) }
        ensures fits { IfOk result (λ b. b ≡ true → self.old.matched < 18_446_744_073_709_551_615) }
        ensures same { self.new ≡ self.old }
    {
        if self.matched >= self.core.sent_count() {
            return Ok(false);
        }
        let n = self.matched + 1;
        is_line_of(n, self.core.message(n), line, &mut self.text)
    }

    // An M line where nothing was wrong before: it is the one that is due, or not.
    fn note_message(&mut self, due: bool)
        requires { due ≡ true → self.old.matched < 18_446_744_073_709_551_615 }
        ensures { self.new ≡ Steps.message_judged self.old due }
    {
        if due {
            self.matched += 1;
        } else {
            self.wrong = Some(Wrong {
                place: self.entries,
                why: AuditWhy::Sent,
            });
        }
    }

    // An M line where nothing was wrong before.
    fn message_judged(&mut self, line: &[u8]) -> Result<(), NoMemory>
        ensures { IfOk result (λ _. self.new ≡ Steps.message_judged self.old (Steps.is_due_line self.old line.now)) }
    {
        let due = self.is_due(line)?;
        self.note_message(due);
        Ok(())
    }

    // An M line.
    #[tactic(auto, using(crate::proofs::Calls::message_some, crate::proofs::Calls::message_none))]
    fn message(&mut self, line: &[u8]) -> Result<(), NoMemory>
        ensures { IfOk result (λ _. self.new ≡ Steps.message_step self.old line.now self.old.wrong) }
    {
        match self.wrong {
            Some(_wrong) => Ok(()),
            None => self.message_judged(line),
        }
    }

    // The report that is due.
    fn report(&self) -> Result<Closing, NoMemory>
        ensures { IfOk result (λ c. c ≡ record { rest = report_text self.now.core.setup self.now.core.history; lines = 0 }) }
    {
        let rows = self.core.rows()?;
        let balances = self.core.balances()?;
        let text = report(
            self.alloc,
            self.core.directory(),
            &rows,
            &balances,
            self.core.flight(),
        )?;
        Ok(Closing::new(text))
    }

    // REPORT.
    fn end_entries(&mut self) -> Result<(), NoMemory>
        ensures { IfOk result (λ _. self.new ≡ Steps.report_step self.old) }
    {
        self.due = Some(self.report()?);
        self.wrong = self.wrong.or(self.unsent().or(self.unclosed()));
        Ok(())
    }

    // A line between OPEN and REPORT.
    fn step(&mut self, line: &[u8]) -> Result<(), EngineFault>
        ensures { Steps.BenchAnswer self.old line.now self.new None result }
    {
        match self.lines.line(self.entries, line)? {
            JournalLine::Skipped => Ok(()),
            JournalLine::Entry(entry) => Ok(self.entry(entry)?),
            JournalLine::Message => Ok(self.message(line)?),
            JournalLine::Report => Ok(self.end_entries()?),
        }
    }

    /// Reads a line after OPEN.
    pub(crate) fn line(&mut self, line: &[u8]) -> Result<(), EngineFault>
        ensures { Steps.BenchAnswer self.old line.now self.new self.old.due result }
    {
        if let Some(due) = &mut self.due {
            self.wrong = wrong_after(due, self.wrong, line);
            return Ok(());
        }
        self.step(line)
    }

    /// The verdict; `None` where REPORT wasn't read.
    pub(crate) fn verdict(&self) -> Option<Verdict>
        ensures { result ≡ Steps.verdict_of self.now self.now.due self.now.wrong }
    {
        let Some(due) = &self.due else {
            return None;
        };
        if let Some(wrong) = self.wrong {
            return Some(Verdict::No {
                entry: wrong.place,
                why: wrong.why,
            });
        }
        if due.is_done() {
            Some(Verdict::Yes {
                entries: self.entries,
            })
        } else {
            Some(Verdict::No {
                entry: due.number(),
                why: AuditWhy::Report,
            })
        }
    }
}
