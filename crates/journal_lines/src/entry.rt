//! The E lines of a journal.
ghost use Rattle.std.specs.Prelude.{◌≡◌};
ghost use Rattle.journal_lines.specs.Entries;
ghost use Rattle.journal_lines.specs.calls.Reading.{ReadAs};

use crate::call::{CallWord, MessageReader, call_fits, call_word, reply_field};
use crate::form::checked;
use crate::mark::at_reply;
use crate::reply::{ReplyWord, reply_fits, reply_value, reply_word};
use crate::spelled::moment_of;
use upi_base::{Call, EngineFault, Moment, Reply};
use upi_text::{Refusal, number, word};

/// What an E line says.
#[derive(Drop)]
pub struct EntryLine {
    /// Its place, which is one more than that of the E line before it; the first is 1.
    pub place: u64,
    /// Who made the call: a number.
    pub caller: u64,
    /// When, in seconds since 1970-01-01T00:00:00Z.
    pub at: Moment,
    /// What was asked of the switch.
    pub call: Call,
    /// What the switch said.
    pub reply: Reply,
}

// Whether a number is the place after so many entries.
fn is_next(entries: u64, place: Option<u64>) -> bool
    ensures { result ≡ Entries.is_next entries place }
{
    match place {
        None => false,
        Some(n) => n > 0 && n - 1 == entries,
    }
}

// The place of an E line, its second word.
fn place_value(entries: u64, line: &[u8]) -> Result<u64, Refusal>
    ensures { result ≡ Entries.place_value entries line.now }
{
    let place = number(word(line, 1));
    checked(2, is_next(entries, place))?;
    match place {
        Some(n) => Ok(n),
        None => Err(Refusal::value(2)),
    }
}

// The caller of an E line, its third word.
fn caller_value(line: &[u8]) -> Result<u64, Refusal>
    ensures { result ≡ Entries.caller_value line.now }
{
    match number(word(line, 2)) {
        Some(caller) => Ok(caller),
        None => Err(Refusal::value(3)),
    }
}

// The moment of an E line, its fourth word.
fn moment_value(line: &[u8]) -> Result<Moment, Refusal>
    ensures { result ≡ Entries.moment_value line.now }
{
    match moment_of(word(line, 3)) {
        Some(at) => Ok(at),
        None => Err(Refusal::value(4)),
    }
}

impl MessageReader {
    // Place, caller, moment, call and reply, each within its grammar.
    #[tactic(auto, unfolding(crate::specs::Entries::entry_values))]
    fn entry_values(
        &mut self,
        entries: u64,
        line: &[u8],
        named: Option<CallWord>,
        reply: &[u8],
        first: Option<ReplyWord>,
    ) -> Result<EntryLine, EngineFault>
        ensures { ReadAs (Entries.entry_values entries line.now named reply.now first) result }
    {
        let place = place_value(entries, line)?;
        let caller = caller_value(line)?;
        let at = moment_value(line)?;
        let call = self.call_value(line, named)?;
        let reply = reply_value(reply, reply_field(named), first)?;
        Ok(EntryLine {
            place,
            caller,
            at,
            call,
            reply,
        })
    }

    /// What an E line says after so many entries, or the first reason for which it isn't right.
    pub(crate) fn entry_read(&mut self, entries: u64, line: &[u8]) -> Result<EntryLine, EngineFault>
        ensures { ReadAs (Entries.entry_read entries line.now) result }
    {
        let Some((line, reply)) = at_reply(line) else {
            return Err(Refusal::other_fields().into());
        };
        let named = call_word(word(line, 4));
        let first = reply_word(word(reply, 0));
        if !call_fits(line, named) || !reply_fits(reply, first) {
            return Err(Refusal::other_fields().into());
        }
        self.entry_values(entries, line, named, reply, first)
    }
}
