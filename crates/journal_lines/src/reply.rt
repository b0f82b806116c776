//! The reply of an E line.
ghost use Rattle.std.specs.Prelude.{◌≡◌, ◌<◌};
ghost use Rattle.upi_text.specs.Words.{words};
ghost use Rattle.journal_lines.specs.Replies;

use crate::outcome::{outcome_fits, outcome_value, outcome_word};
use crate::spelled::{code_of, is};
use upi_base::{Answer, Code, Reply};
use upi_text::{Refusal, word, word_count};

/// How a reply begins.
#[derive(Clone, Copy, Debug, PartialEq, Eq)]
pub(crate) enum ReplyWord {
    /// It is the whole reply.
    Whole(Reply),
    /// NO, before a code.
    No,
    /// DECLINED, before a code.
    Declined,
    /// STATUS, before PENDING or an outcome.
    Status,
}

// The reply that a word is alone.
#[tactic(auto, unfolding(crate::specs::Replies::whole_reply))]
fn whole_reply(word: &[u8]) -> Option<Reply>
    ensures { result ≡ Replies.whole_reply word.now }
{
    if is(word, b"OK") {
        Some(Reply::Ack(None))
    } else if is(word, b"POSTED") {
        Some(Reply::Leg(Answer::Posted))
    } else if is(word, b"TOLD") {
        Some(Reply::Told)
    } else if is(word, b"LOST") {
        Some(Reply::Lost)
    } else if is(word, b"DONE") {
        Some(Reply::Acted)
    } else if is(word, b"NOTDUE") {
        Some(Reply::NotDue)
    } else if is(word, b"CLOSED") {
        Some(Reply::Closed)
    } else {
        None
    }
}

/// How a reply begins that begins with this word.
#[tactic(auto, unfolding(crate::specs::Replies::reply_word))]
pub(crate) fn reply_word(word: &[u8]) -> Option<ReplyWord>
    ensures { result ≡ Replies.reply_word word.now }
{
    if is(word, b"NO") {
        Some(ReplyWord::No)
    } else if is(word, b"DECLINED") {
        Some(ReplyWord::Declined)
    } else if is(word, b"STATUS") {
        Some(ReplyWord::Status)
    } else {
        match whole_reply(word) {
            Some(reply) => Some(ReplyWord::Whole(reply)),
            None => None,
        }
    }
}

// Whether STATUS and what follows it have so many words.
fn status_fits(count: usize, word: &[u8]) -> bool
    ensures { result ≡ Replies.status_fits count word.now }
{
    if is(word, b"PENDING") {
        count == 2
    } else {
        outcome_fits(count, 1, outcome_word(word))
    }
}

/// Whether a reply has the number of its words.
pub(crate) fn reply_fits(reply: &[u8], first: Option<ReplyWord>) -> bool
    ensures { result ≡ Replies.reply_fits (words reply.now) first }
{
    match first {
        Some(ReplyWord::Whole(_)) => word_count(reply) == 1,
        Some(ReplyWord::No) => word_count(reply) == 2,
        Some(ReplyWord::Declined) => word_count(reply) == 2,
        Some(ReplyWord::Status) => status_fits(word_count(reply), word(reply, 1)),
        None => true,
    }
}

// The code that is the second word of a reply, which has this number.
fn code_value(reply: &[u8], field: u32) -> Result<Code, Refusal>
    ensures { result ≡ Replies.code_value (words reply.now) field }
{
    match code_of(word(reply, 1)) {
        Some(code) => Ok(code),
        None => Err(Refusal::value(field)),
    }
}

// The status of a reply, whose second word has this number.
fn status_value(reply: &[u8], field: u32) -> Result<Reply, Refusal>
    requires { field < 100 }
    ensures { result ≡ Replies.status_value (words reply.now) field }
{
    let first = word(reply, 1);
    if is(first, b"PENDING") {
        return Ok(Reply::Status(None));
    }
    let outcome = outcome_value(reply, 1, field, outcome_word(first))?;
    Ok(Reply::Status(Some(outcome)))
}

/// The reply that begins so, whose first word has this number.
pub(crate) fn reply_value(
    reply: &[u8],
    field: u32,
    first: Option<ReplyWord>,
) -> Result<Reply, Refusal>
    requires { field < 99 }
    ensures { result ≡ Replies.reply_value (words reply.now) field first }
{
    match first {
        Some(ReplyWord::Whole(whole)) => Ok(whole),
        Some(ReplyWord::No) => Ok(Reply::Ack(Some(code_value(reply, field + 1)?))),
        Some(ReplyWord::Declined) => {
            let code = code_value(reply, field + 1)?;
            Ok(Reply::Leg(Answer::Declined(code)))
        }
        Some(ReplyWord::Status) => status_value(reply, field + 1),
        None => Err(Refusal::value(field)),
    }
}
