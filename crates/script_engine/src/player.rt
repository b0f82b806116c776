//! A switch that is open, and what lines do on it.
ghost use Rattle.std.specs.Prelude.{◌≡◌, ◌++◌, ◌==◌, ◌%◌, ◌+◌, ◌&&◌, nat_lt, length, OnOk};
ghost use Rattle.entry_log.specs.Views.{shown};
ghost use Rattle.upi_text.specs.Journal.{entry_lines};
ghost use Rattle.script_engine.specs.Play.{divides, refusal_text};
ghost use Rattle.script_engine.specs.calls.Marks.{message_in};
ghost use Rattle.script_engine.specs.calls.Tries.{ToldAnswer, IfWritten};

use crate::counts::{count_deemed, count_failure, count_items, count_success};
use crate::line::{Command, call_read};
use crate::pending::Pending;
use entry_log::EntryView;
use recon_report::report;
use std::alloc::Global;
use std::hash::RandomState;
use std::marker::Model;
use switch_core::{Core, CoreFault};
use upi_base::{Call, Done, EngineFault, MAX_ENTRIES, Moment, NoMemory, Summary, write_number};
use upi_msg::Reader;
use upi_text::entry_text;
use vpa_directory::Directory;

/// How many turns RUN takes at most: a full journal ends it.
const TURNS: u64 = MAX_ENTRIES + 1;

/// The message that a call takes: that it delivers or loses.
fn message_in(call: &Call) -> Option<u64>
    ensures { result ≡ message_in call.now }
{
    match call {
        Call::Deliver(n) => Some(*n),
        Call::Lose(n) => Some(*n),
        Call::Hear {
            psp: _psp,
            input: _input,
        } => None,
        Call::Late(_txn) => None,
        Call::Close => None,
    }
}

/// Whether a number greater than 0 divides another.
fn divides(k: u64, n: u64) -> bool
    ensures { result ≡ divides k n }
{
    k > 0 && n % k == 0
}

/// Writes that a call was refused, and that the line's calls don't go on.
fn tell(fault: CoreFault, out: &mut Vec<u8>) -> Result<bool, NoMemory>
    ensures { ToldAnswer fault out.old.items out.new.items result }
{
    match fault {
        CoreFault::Full { len } => {
            out.extend_from_slice(b"# FULL ")?;
            write_number(len, out)?;
            out.push(b'\n')?;
            Ok(false)
        }
        CoreFault::NoMessage { n, sent } => {
            out.extend_from_slice(b"# NOMSG ")?;
            write_number(n, out)?;
            out.push(b' ')?;
            write_number(sent, out)?;
            out.push(b'\n')?;
            Ok(false)
        }
        CoreFault::NoMemory => Err(NoMemory),
    }
}

/// Writes an entry with its place, if the numbers of its messages from the first on fit a `u64`.
fn write_lines(
    alloc: Global,
    entry: &EntryView<'_>,
    place: u64,
    first: u64,
    out: &mut Vec<u8>,
) -> Result<(), NoMemory>
    ensures { OnOk result (out.new.items ≡ out.old.items ++ entry_lines (shown entry.now) place first) }
{
    let count = entry.sent.len() as u64;
    if count >= u64::MAX - first {
        return Err(NoMemory);
    }
    entry_text(alloc, entry, place, first, out)?;
    Ok(())
}

/// Writes the entry of a switch at a place, whose messages come behind so many.
fn write_entry(
    alloc: Global,
    core: &Core,
    place: u64,
    sent: u64,
    out: &mut Vec<u8>,
) -> Result<(), NoMemory>
    ensures { OnOk result (IfWritten core.now.history place sent out.old.items out.new.items) }
{
    let Some(first) = sent.checked_add(1) else {
        return Err(NoMemory);
    };
    let Some(entry) = core.entry(place) else {
        return Err(NoMemory);
    };
    write_lines(alloc, &entry, place, first, out)?;
    Ok(())
}

/// A switch behind OPEN, the messages that wait there, and the current moment. Contracts see the
/// play.
#[derive(Drop)]
pub(crate) struct Player {
    alloc: Global,
    start: Moment,
    core: Core,
    pending: Pending,
    moment: Moment,
}

impl Model for Player {
    ghost use Rattle.std.specs.Prelude.{Some, true};
    ghost use Rattle.script_engine.specs.Play.{Play};

    ghost Value = { Play };

    ghost use Rattle.script_engine.specs.calls.Playing.{IsPlaying};

    ghost view = { λ p. record { setup = record { start = Some p.start; lines = p.core.setup; is_open = true }; history = p.core.history; now = p.moment } };

    ghost invariant = { λ p. IsPlaying p.core p.pending };
}

impl Player {
    ghost use Rattle.std.specs.Prelude.{◌≡◌, ◌++◌, codes, IfOk, OnOk};
    ghost use Rattle.upi_words.specs.Prelude.{Call};
    ghost use Rattle.upi_model.specs.Pending.{lowest_pending};
    ghost use Rattle.switch_core.specs.Calls.{IsKnown};
    ghost use Rattle.script_engine.specs.Play.{try_call, try_calls, many, deliver_twice, treat, run_all, tick, played, call_done};
    ghost use Rattle.script_engine.specs.calls.Reading.{MayPlay};
    ghost use Rattle.script_engine.specs.calls.Tries.{AppliedAnswer, TriedAnswer, PlayAnswer};
    ghost use Rattle.script_engine.specs.Script.{call_read};
    ghost use Rattle.script_engine.specs.End.{closed_at_end, finished, summary_of};
    ghost use Rattle.recon_report.specs.Report.{report_text};
    ghost use Rattle.script_engine.specs.calls.Playing.{IsOpenPlay, opened_play};

    /// A switch that was just opened over the setup of a directory. Names that senders choose are
    /// hashed with `hashes`.
    pub(crate) fn new(
        alloc: Global,
        hashes: RandomState,
        directory: Directory,
    ) -> Result<Player, NoMemory>
        ensures play { IfOk result (λ p. p ≡ opened_play directory) }
        ensures sound { IfOk result IsOpenPlay }
    {
        let start = directory.setup().start;
        let core = Core::over(alloc, hashes, directory)?;
        Ok(Player {
            alloc,
            start,
            core,
            pending: Pending::new(alloc),
            moment: start,
        })
    }

    /// Applies a call at the current moment, and notes the message that it takes.
    fn apply(&mut self, call: Call) -> Result<Done, CoreFault>
        requires { IsKnown self.old.setup.lines call }
        ensures { AppliedAnswer self.old call self.new result }
    {
        let message = message_in(&call);
        self.pending.grow(self.core.sent_count())?;
        let done = self.core.apply(call, self.moment)?;
        if let Some(n) = message {
            self.pending.take(n);
        }
        Ok(done)
    }

    /// Tries a call. The answer is whether the line's calls go on.
    fn try_call(&mut self, call: Call, out: &mut Vec<u8>) -> Result<bool, NoMemory>
        requires { IsKnown self.old.setup.lines call }
        ensures { TriedAnswer (try_call self.old call) out.old.items out.new.items self.new result }
    {
        let sent = self.core.sent_count();
        match self.apply(call) {
            Ok(done) => {
                write_entry(self.alloc, &self.core, done.place, sent, out)?;
                Ok(true)
            }
            Err(fault) => tell(fault, out),
        }
    }

    /// Delivers a message so many times.
    fn repeat(&mut self, n: u64, times: u64, out: &mut Vec<u8>) -> Result<bool, NoMemory>
        ensures { TriedAnswer (try_calls (many times (Call.Deliver n)) self.old) out.old.items out.new.items self.new result }
    {
        for _time in 0..times {
            let goes = self.try_call(Call::Deliver(n), out)?;
            if !goes {
                return Ok(false);
            }
        }
        Ok(true)
    }

    /// Loses a message, or delivers it twice or once, by the numbers of RUN.
    fn treat(&mut self, k: u64, r: u64, n: u64, out: &mut Vec<u8>) -> Result<bool, NoMemory>
        ensures { TriedAnswer (treat k r n self.old) out.old.items out.new.items self.new result }
    {
        if divides(k, n) {
            return self.try_call(Call::Lose(n), out);
        }
        if divides(r, n) {
            return self.deliver_twice(n, out);
        }
        self.try_call(Call::Deliver(n), out)
    }

    /// Delivers a message twice.
    fn deliver_twice(&mut self, n: u64, out: &mut Vec<u8>) -> Result<bool, NoMemory>
        ensures { TriedAnswer (deliver_twice n self.old) out.old.items out.new.items self.new result }
    {
        let goes = self.try_call(Call::Deliver(n), out)?;
        if !goes {
            return Ok(false);
        }
        self.try_call(Call::Deliver(n), out)
    }

    /// The lowest pending message.
    fn lowest(&mut self) -> Option<u64>
        ensures same { self.new ≡ self.old }
        ensures lowest { result ≡ lowest_pending self.old.history }
    {
        self.pending.lowest(self.core.sent_count())
    }

    /// Takes the pending messages, lowest first, until there is none or a call is refused.
    fn run(&mut self, k: u64, r: u64, out: &mut Vec<u8>) -> Result<bool, NoMemory>
        ensures { TriedAnswer (run_all k r self.old) out.old.items out.new.items self.new result }
    {
        for _turn in 0..TURNS {
            match self.lowest() {
                None => return Ok(true),
                Some(n) => {
                    let goes = self.treat(k, r, n, out)?;
                    if !goes {
                        return Ok(false);
                    }
                }
            }
        }
        Ok(true)
    }

    /// Raises the current moment, and calls Late for each transaction that is then due.
    fn tick(&mut self, moment: Moment, out: &mut Vec<u8>) -> Result<bool, NoMemory>
        ensures { TriedAnswer (tick moment self.old) out.old.items out.new.items self.new result }
    {
        let due = self.core.due(moment.get())?;
        self.moment = moment;
        for late in &due {
            let goes = self.try_call(Call::Late(late.1.copy()), out)?;
            if !goes {
                return Ok(false);
            }
        }
        Ok(true)
    }

    /// Does what a line says.
    fn play(&mut self, command: Command, out: &mut Vec<u8>) -> Result<bool, NoMemory>
        requires { MayPlay self.old.setup.lines command }
        ensures { TriedAnswer (played self.old command) out.old.items out.new.items self.new result }
    {
        match command {
            Command::Skipped => Ok(true),
            Command::Send { psp, input } => self.try_call(Call::Hear { psp, input }, out),
            Command::Deliver(n) => self.try_call(Call::Deliver(n), out),
            Command::Repeat { n, times } => self.repeat(n, times, out),
            Command::Lose(n) => self.try_call(Call::Lose(n), out),
            Command::Run { k, r } => self.run(k, r, out),
            Command::Tick(moment) => self.tick(moment, out),
            Command::Close => self.try_call(Call::Close, out),
        }
    }

    /// Plays a line behind OPEN. A line that is refused changes nothing. Only at want of memory a
    /// part of it may be played.
    pub(crate) fn line(
        &mut self,
        reader: &mut Reader,
        line: &[u8],
        out: &mut Vec<u8>,
    ) -> Result<(), EngineFault>
        ensures line { PlayAnswer (call_done self.old (call_read self.old.setup.lines self.old.now line.now)) self.old out.old.items out.new.items self.new result }
        ensures sound { IsOpenPlay self.new }
    {
        let command = call_read(reader, self.core.directory(), self.moment, line)?;
        let answer = self.play(command, out);
        let _moment = self.moment;
        let _goes = answer?;
        Ok(())
    }

    /// Closes, where nothing has closed before.
    fn close_at_end(&mut self, out: &mut Vec<u8>) -> Result<(), NoMemory>
        ensures { OnOk result ((self.new ≡ (closed_at_end self.old).play) × (out.new.items ≡ out.old.items ++ (closed_at_end self.old).text)) }
    {
        if self.core.is_closed() {
            return Ok(());
        }
        let _goes = self.try_call(Call::Close, out)?;
        Ok(())
    }

    /// Appends the report of the history.
    fn write_report(&self, out: &mut Vec<u8>) -> Result<(), NoMemory>
        ensures { OnOk result (out.new.items ≡ out.old.items ++ codes "REPORT\n" ++ report_text self.now.setup.lines self.now.history) }
    {
        let rows = self.core.rows()?;
        let balances = self.core.balances()?;
        let text = report(
            self.alloc,
            self.core.directory(),
            &rows,
            &balances,
            self.core.flight(),
        )?;
        out.extend_from_slice(b"REPORT\n")?;
        out.extend_from_slice(&text)?;
        Ok(())
    }

    /// Closes, where nothing has closed, and appends the report.
    fn finish(&mut self, out: &mut Vec<u8>) -> Result<(), NoMemory>
        ensures { OnOk result ((self.new ≡ (finished self.old).play) × (out.new.items ≡ out.old.items ++ (finished self.old).text)) }
    {
        self.close_at_end(out)?;
        self.write_report(out)?;
        Ok(())
    }

    /// Plays the end of a script. Only at want of memory a part of it may be done.
    pub(crate) fn end(&mut self, out: &mut Vec<u8>) -> Result<(), NoMemory>
        ensures end { OnOk result ((self.new ≡ (finished self.old).play) × (out.new.items ≡ out.old.items ++ (finished self.old).text)) }
        ensures sound { IsOpenPlay self.new }
    {
        let answer = self.finish(out);
        let _moment = self.moment;
        answer
    }

    /// The counts of the history.
    pub(crate) fn summary(&self) -> Result<Summary, NoMemory>
        ensures { IfOk result (λ s. s ≡ summary_of self.now.setup.lines self.now.history) }
    {
        let rows = self.core.rows()?;
        Ok(Summary {
            success: count_success(&rows),
            failure: count_failure(&rows),
            deemed: count_deemed(&rows),
            items: count_items(&rows),
            flight: self.core.flight(),
            entries: self.core.len(),
            messages: self.core.sent_count(),
        })
    }
}
