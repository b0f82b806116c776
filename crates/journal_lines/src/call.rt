//! The call of an E line: what stands before its reply.
ghost use Rattle.std.specs.Prelude.{◌≡◌, ◌<◌, IfOk};
ghost use Rattle.upi_text.specs.Words.{words};
ghost use Rattle.journal_lines.specs.EntryCalls;
ghost use Rattle.journal_lines.specs.calls.Reading.{ReadAs};

use crate::spelled::{fault_of, is, path_of, psp_of, txn_of};
use std::alloc::Global;
use upi_base::{BadMessage, Call, EngineFault, Input, Message, NoMemory, PspName, TxnId};
use upi_msg::{Reader, text};
use upi_text::{Refusal, from_word, number, word, word_count};

/// What the fifth word of an E line names.
#[derive(Clone, Copy, Debug, PartialEq, Eq)]
pub(crate) enum CallWord {
    Hear,
    Bad,
    Deliver,
    Lose,
    Late,
    Close,
}

/// The call that a word names.
#[tactic(auto, unfolding(crate::specs::EntryCalls::call_word))]
pub(crate) fn call_word(word: &[u8]) -> Option<CallWord>
    ensures { result ≡ EntryCalls.call_word word.now }
{
    if is(word, b"HEAR") {
        Some(CallWord::Hear)
    } else if is(word, b"BAD") {
        Some(CallWord::Bad)
    } else if is(word, b"DELIVER") {
        Some(CallWord::Deliver)
    } else if is(word, b"LOSE") {
        Some(CallWord::Lose)
    } else if is(word, b"LATE") {
        Some(CallWord::Late)
    } else if is(word, b"CLOSE") {
        Some(CallWord::Close)
    } else {
        None
    }
}

/// Whether what stands before the reply has the number of words that the call has.
pub(crate) fn call_fits(line: &[u8], named: Option<CallWord>) -> bool
    ensures { result ≡ EntryCalls.call_fits line.now named }
{
    match named {
        Some(CallWord::Hear) => from_word(line, 6).len() != 0,
        Some(CallWord::Bad) => word_count(line) == 8,
        Some(CallWord::Deliver) | Some(CallWord::Lose) | Some(CallWord::Late) => {
            word_count(line) == 6
        }
        Some(CallWord::Close) => word_count(line) == 5,
        None => word_count(line) >= 5,
    }
}

/// The number of the first word of the reply.
pub(crate) fn reply_field(named: Option<CallWord>) -> u32
    ensures field { result ≡ EntryCalls.reply_field named }
    ensures small { result < 99 }
{
    match named {
        Some(CallWord::Hear) => 9,
        Some(CallWord::Bad) => 10,
        Some(CallWord::Deliver) | Some(CallWord::Lose) | Some(CallWord::Late) => 8,
        Some(CallWord::Close) | None => 7,
    }
}

/// Reads the messages that PSPs sent, where they stand in their written form. It keeps the room that
/// this takes from one to the next.
#[derive(Drop)]
pub(crate) struct MessageReader {
    alloc: Global,
    reader: Reader,
    written: Vec<u8>,
}

impl MessageReader {
    pub(crate) fn new(alloc: Global) -> MessageReader {
        MessageReader {
            alloc,
            reader: Reader::new(alloc),
            written: Vec::new(alloc),
        }
    }

    // Whether a text is the written form of a message.
    fn is_written(&mut self, message: &Message, json: &[u8]) -> Result<bool, NoMemory>
        ensures { IfOk result (λ b. b ≡ EntryCalls.is_written json.now message.now) }
    {
        self.written.clear();
        text(self.alloc, message, &mut self.written)?;
        Ok(is(&self.written, json))
    }

    // The message whose written form a text is.
    fn written(&mut self, json: &[u8]) -> Result<Option<Message>, NoMemory>
        ensures { IfOk result (λ m. m ≡ EntryCalls.written json.now) }
    {
        match self.reader.read(json)? {
            Input::Good(message) => {
                if self.is_written(&message, json)? {
                    Ok(Some(message))
                } else {
                    Ok(None)
                }
            }
            Input::Bad(_bad) => Ok(None),
        }
    }

    // `HEAR psp json`
    fn hear_value(&mut self, line: &[u8]) -> Result<Call, EngineFault>
        ensures { ReadAs (EntryCalls.hear_value line.now) result }
    {
        let psp = psp_value(line)?;
        match self.written(from_word(line, 6))? {
            Some(message) => Ok(Call::Hear {
                psp,
                input: Input::Good(message),
            }),
            None => Err(Refusal::value(7).into()),
        }
    }

    /// The call that an E line names.
    pub(crate) fn call_value(
        &mut self,
        line: &[u8],
        named: Option<CallWord>,
    ) -> Result<Call, EngineFault>
        ensures { ReadAs (EntryCalls.call_value line.now named) result }
    {
        match named {
            Some(CallWord::Hear) => self.hear_value(line),
            Some(CallWord::Bad) => Ok(bad_value(line)?),
            Some(CallWord::Deliver) => Ok(Call::Deliver(number_value(line)?)),
            Some(CallWord::Lose) => Ok(Call::Lose(number_value(line)?)),
            Some(CallWord::Late) => Ok(Call::Late(txn_value(line)?)),
            Some(CallWord::Close) => Ok(Call::Close),
            None => Err(Refusal::value(5).into()),
        }
    }
}

// The PSP, the sixth word.
fn psp_value(line: &[u8]) -> Result<PspName, Refusal>
    ensures { result ≡ EntryCalls.psp_value (words line.now) }
{
    match psp_of(word(line, 5)) {
        Some(psp) => Ok(psp),
        None => Err(Refusal::value(6)),
    }
}

// `BAD psp path WHY`
fn bad_value(line: &[u8]) -> Result<Call, Refusal>
    ensures { result ≡ EntryCalls.bad_value (words line.now) }
{
    let psp = psp_value(line)?;
    let Some(path) = path_of(word(line, 6)) else {
        return Err(Refusal::value(7));
    };
    let Some(why) = fault_of(word(line, 7)) else {
        return Err(Refusal::value(8));
    };
    Ok(Call::Hear {
        psp,
        input: Input::Bad(BadMessage { path, why }),
    })
}

// The number of a message, the sixth word.
fn number_value(line: &[u8]) -> Result<u64, Refusal>
    ensures { result ≡ EntryCalls.number_value (words line.now) }
{
    match number(word(line, 5)) {
        Some(n) => Ok(n),
        None => Err(Refusal::value(6)),
    }
}

// The name of a transaction, the sixth word.
fn txn_value(line: &[u8]) -> Result<TxnId, Refusal>
    ensures { result ≡ EntryCalls.txn_value (words line.now) }
{
    match txn_of(word(line, 5)) {
        Some(txn) => Ok(txn),
        None => Err(Refusal::value(6)),
    }
}
