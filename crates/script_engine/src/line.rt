//! What a line of a script says behind OPEN.
ghost use Rattle.std.specs.Prelude.{◌≡◌, ◌+◌, IfOk, List, true};
ghost use Rattle.std.specs.Str.{bytes_eq, is_utf8};
ghost use Rattle.upi_base.specs.Setup.{has_psp};
ghost use Rattle.upi_text.specs.Words.{words, number_of};
ghost use Rattle.script_engine.specs.Script.{within, verb_of, sender, send_line, number_line, repeat_line, run_line, raised, tick_line, close_line, line_of, call_read};
ghost use Rattle.script_engine.specs.calls.Reading.{MayPlay, ReadAs};

use std::str;
use upi_base::{EngineFault, Input, Moment, PspName, Why};
use upi_msg::Reader;
use upi_text::{Refusal, from_word, is_skipped, number, word, word_count};
use vpa_directory::Directory;

/// What the first word of a line calls for.
#[derive(Clone, Copy, Debug, PartialEq, Eq)]
pub(crate) enum Verb {
    Send,
    Deliver,
    Repeat,
    Lose,
    Run,
    Tick,
    Close,
}

/// What a line behind OPEN says.
#[derive(Drop)]
pub enum Command {
    /// Nothing: the line is passed over.
    Skipped,
    /// SEND: a PSP of the setup sends something.
    Send { psp: PspName, input: Input },
    /// DELIVER: the message of this number is delivered.
    Deliver(u64),
    /// REPEAT: the message of a number is delivered so many times, 1 to 1,000.
    Repeat { n: u64, times: u64 },
    /// LOSE: the message of this number is lost.
    Lose(u64),
    /// RUN: the pending messages are taken, lowest first. Every `k`th is lost and every `r`th
    /// delivered twice, each 0 to 1,000; 0 stands for none.
    Run { k: u64, r: u64 },
    /// TICK: the current moment is raised to this one.
    Tick(Moment),
    /// CLOSE: the switch closes.
    Close,
}

/// How often REPEAT delivers at most.
const MAX_TIMES: u64 = 1_000;

/// The greatest number that RUN takes.
const MAX_DIVISOR: u64 = 1_000;

/// By how many seconds TICK raises the moment at most.
const MAX_SECONDS: u64 = 100_000_000;

fn is(word: &[u8], text: &[u8]) -> bool
    ensures { result ≡ bytes_eq word.now text.now }
{
    word == text
}

#[tactic(auto, unfolding(crate::specs::Script::verb_of))]
fn verb_of(word: &[u8]) -> Option<Verb>
    ensures { result ≡ verb_of word.now }
{
    if is(word, b"SEND") {
        Some(Verb::Send)
    } else if is(word, b"DELIVER") {
        Some(Verb::Deliver)
    } else if is(word, b"REPEAT") {
        Some(Verb::Repeat)
    } else if is(word, b"LOSE") {
        Some(Verb::Lose)
    } else if is(word, b"RUN") {
        Some(Verb::Run)
    } else if is(word, b"TICK") {
        Some(Verb::Tick)
    } else if is(word, b"CLOSE") {
        Some(Verb::Close)
    } else {
        None
    }
}

/// The number that a word spells, if it lies from the least to the most.
fn number_within(text: &[u8], least: u64, most: u64) -> Option<u64>
    ensures { result ≡ within least most (number_of text.now) }
{
    match number(text) {
        None => None,
        Some(n) => {
            if least <= n && n <= most {
                Some(n)
            } else {
                None
            }
        }
    }
}

/// The PSP of a SEND line.
fn sender(directory: &Directory, line: &[u8]) -> Result<PspName, Refusal>
    ensures sender { result ≡ sender directory.now.lines (words line.now) }
    ensures known { IfOk result (λ psp. has_psp directory.now.lines psp ≡ true) }
{
    match PspName::read(word(line, 1)) {
        None => Err(Refusal::value(2)),
        Some(name) => {
            if directory.has_psp(&name) {
                Ok(name)
            } else {
                Err(Refusal {
                    field: 2,
                    why: Why::NoPsp,
                })
            }
        }
    }
}

#[tactic(auto, unfolding(crate::specs::Script::send_line))]
fn send_line(
    reader: &mut Reader,
    directory: &Directory,
    line: &[u8],
) -> Result<Command, EngineFault>
    ensures line { ReadAs (send_line directory.now.lines line.now) result }
    ensures known { IfOk result (MayPlay directory.now.lines) }
{
    let text = from_word(line, 2);
    if text.len() == 0 {
        return Err(Refusal::other_fields().into());
    }
    let psp = sender(directory, line)?;
    Ok(Command::Send {
        psp,
        input: reader.read(text)?,
    })
}

/// The number of a line of two words.
#[tactic(auto, unfolding(crate::specs::Script::number_line))]
fn number_line(line: &[u8]) -> Result<u64, Refusal>
    ensures { result ≡ number_line (words line.now) }
{
    if word_count(line) != 2 {
        return Err(Refusal::other_fields());
    }
    match number(word(line, 1)) {
        None => Err(Refusal::value(2)),
        Some(n) => Ok(n),
    }
}

#[tactic(auto, unfolding(crate::specs::Script::repeat_line))]
fn repeat_line(line: &[u8]) -> Result<(u64, u64), Refusal>
    ensures { result ≡ repeat_line (words line.now) }
{
    if word_count(line) != 3 {
        return Err(Refusal::other_fields());
    }
    let Some(n) = number(word(line, 1)) else {
        return Err(Refusal::value(2));
    };
    let Some(times) = number_within(word(line, 2), 1, MAX_TIMES) else {
        return Err(Refusal::value(3));
    };
    Ok((n, times))
}

#[tactic(auto, unfolding(crate::specs::Script::run_line))]
fn run_line(line: &[u8]) -> Result<(u64, u64), Refusal>
    ensures { result ≡ run_line (words line.now) }
{
    let count = word_count(line);
    if count == 1 {
        return Ok((0, 0));
    }
    if count != 3 {
        return Err(Refusal::other_fields());
    }
    let Some(k) = number_within(word(line, 1), 0, MAX_DIVISOR) else {
        return Err(Refusal::value(2));
    };
    let Some(r) = number_within(word(line, 2), 0, MAX_DIVISOR) else {
        return Err(Refusal::value(3));
    };
    Ok((k, r))
}

/// The moment to which so many seconds raise another, if it is a moment.
fn raised(now: Moment, seconds: Option<u64>) -> Option<Moment>
    ensures { result ≡ raised now seconds }
{
    match seconds {
        None => None,
        Some(seconds) => {
            if seconds <= MAX_SECONDS {
                Moment::of(now.get() + seconds)
            } else {
                None
            }
        }
    }
}

#[tactic(auto, unfolding(crate::specs::Script::tick_line))]
fn tick_line(now: Moment, line: &[u8]) -> Result<Moment, Refusal>
    ensures { result ≡ tick_line now (words line.now) }
{
    if word_count(line) != 2 {
        return Err(Refusal::other_fields());
    }
    match raised(now, number(word(line, 1))) {
        None => Err(Refusal::value(2)),
        Some(moment) => Ok(moment),
    }
}

#[tactic(auto, unfolding(crate::specs::Script::close_line))]
fn close_line(line: &[u8]) -> Result<(), Refusal>
    ensures { result ≡ close_line (words line.now) }
{
    if word_count(line) == 1 {
        Ok(())
    } else {
        Err(Refusal::other_fields())
    }
}

#[tactic(auto, using(upi_base::proofs::Utf8::utf8_yes, upi_base::proofs::Utf8::utf8_no))]
fn is_utf8(text: &[u8]) -> bool
    ensures { result ≡ is_utf8 text.now }
{
    match str::from_utf8(text) {
        Ok(_) => true,
        Err(_) => false,
    }
}

fn line_of(
    reader: &mut Reader,
    directory: &Directory,
    now: Moment,
    line: &[u8],
    verb: Option<Verb>,
) -> Result<Command, EngineFault>
    ensures line { ReadAs (line_of directory.now.lines now line.now verb) result }
    ensures known { IfOk result (MayPlay directory.now.lines) }
{
    match verb {
        None => Err(Refusal::no_command().into()),
        Some(Verb::Send) => send_line(reader, directory, line),
        Some(Verb::Deliver) => Ok(Command::Deliver(number_line(line)?)),
        Some(Verb::Repeat) => {
            let (n, times) = repeat_line(line)?;
            Ok(Command::Repeat { n, times })
        }
        Some(Verb::Lose) => Ok(Command::Lose(number_line(line)?)),
        Some(Verb::Run) => {
            let (k, r) = run_line(line)?;
            Ok(Command::Run { k, r })
        }
        Some(Verb::Tick) => Ok(Command::Tick(tick_line(now, line)?)),
        Some(Verb::Close) => {
            close_line(line)?;
            Ok(Command::Close)
        }
    }
}

/// What a line says behind OPEN, over this setup and at this current moment. A PSP that sends is
/// of the setup.
pub(crate) fn call_read(
    reader: &mut Reader,
    directory: &Directory,
    now: Moment,
    line: &[u8],
) -> Result<Command, EngineFault>
    ensures line { ReadAs (call_read directory.now.lines now line.now) result }
    ensures known { IfOk result (MayPlay directory.now.lines) }
{
    if is_skipped(line) {
        return Ok(Command::Skipped);
    }
    if !is_utf8(line) {
        return Err(Refusal::not_utf8().into());
    }
    line_of(reader, directory, now, line, verb_of(word(line, 0)))
}
