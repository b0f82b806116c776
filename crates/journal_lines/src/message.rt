//! The M lines of a journal.
ghost use Rattle.std.specs.Prelude.{◌≡◌, is_some, ◌||◌, codes};
ghost use Rattle.std.specs.Str.{bytes_eq};
ghost use Rattle.upi_base.specs.Accounts.{account_of};
ghost use Rattle.upi_base.specs.Money.{paise_of};
ghost use Rattle.upi_base.specs.Texts.{is_txn_id};
ghost use Rattle.upi_text.specs.Words.{number_of, words};
ghost use Rattle.journal_lines.specs.Messages;

use crate::form::checked;
use crate::outcome::{outcome_fits, outcome_value, outcome_word};
use crate::spelled::{code_of, is, is_party, leg_of, txn_of};
use upi_base::{AccountRef, Paise};
use upi_text::{Refusal, number, word, word_count};

/// How what a message says begins.
#[derive(Clone, Copy, Debug, PartialEq, Eq)]
pub(crate) enum BodyWord {
    /// REQAUTH.
    Question,
    /// RESPAUTH.
    Approval,
    /// DEBIT, CREDIT or REVERSAL.
    Order,
    /// ANSWER.
    Answer,
    /// RESPPAY or CONFIRM.
    Outcome,
    /// CONFIRMED.
    Confirmed,
}

// How what a message says begins that begins with this word.
#[tactic(auto, unfolding(crate::specs::Messages::body_word))]
fn body_word(word: &[u8]) -> Option<BodyWord>
    ensures { result ≡ Messages.body_word word.now }
{
    if is(word, b"REQAUTH") {
        Some(BodyWord::Question)
    } else if is(word, b"RESPAUTH") {
        Some(BodyWord::Approval)
    } else if leg_of(word).is_some() {
        Some(BodyWord::Order)
    } else if is(word, b"ANSWER") {
        Some(BodyWord::Answer)
    } else if is(word, b"RESPPAY") {
        Some(BodyWord::Outcome)
    } else if is(word, b"CONFIRM") {
        Some(BodyWord::Outcome)
    } else if is(word, b"CONFIRMED") {
        Some(BodyWord::Confirmed)
    } else {
        None
    }
}

// Whether a line has so many words, by its eighth.
fn answer_fits(count: usize, word: &[u8]) -> bool
    ensures { result ≡ Messages.answer_fits count word.now }
{
    if is(word, b"POSTED") {
        count == 8
    } else if is(word, b"DECLINED") {
        count == 9
    } else {
        8 <= count && count <= 9
    }
}

// Whether the line has the number of words that its fifth calls for.
fn message_fits(line: &[u8], first: Option<BodyWord>) -> bool
    ensures { result ≡ Messages.message_fits (words line.now) first }
{
    let count = word_count(line);
    match first {
        Some(BodyWord::Question) => count == 7,
        Some(BodyWord::Approval) => count == 8,
        Some(BodyWord::Order) => count == 8,
        Some(BodyWord::Answer) => answer_fits(count, word(line, 7)),
        Some(BodyWord::Outcome) => outcome_fits(count, 6, outcome_word(word(line, 6))),
        Some(BodyWord::Confirmed) => count == 6,
        None => 6 <= count && count <= 9,
    }
}

// Number, sender and receiver.
fn head_value(line: &[u8]) -> Result<(), Refusal>
    ensures { result ≡ Messages.head_value (words line.now) }
{
    checked(2, number(word(line, 1)).is_some())?;
    checked(3, is_party(word(line, 2)))?;
    checked(4, is_party(word(line, 3)))
}

fn is_txn(word: &[u8]) -> bool
    ensures { result ≡ is_txn_id word.now }
{
    txn_of(word).is_some()
}

// The sixth word names a transaction.
fn txn_value(line: &[u8]) -> Result<(), Refusal>
    ensures { result ≡ Messages.txn_value (words line.now) }
{
    checked(6, is_txn(word(line, 5)))
}

// And the seventh is a sum.
fn sum_value(line: &[u8]) -> Result<(), Refusal>
    ensures { result ≡ Messages.sum_value (words line.now) }
{
    txn_value(line)?;
    checked(7, Paise::read(word(line, 6)).is_some())
}

fn is_yes_or_no(word: &[u8]) -> bool
    ensures { result ≡ (bytes_eq word.now (codes "YES") || bytes_eq word.now (codes "NO")) }
{
    is(word, b"YES") || is(word, b"NO")
}

// The eighth word is POSTED, or DECLINED before a code.
fn answer_value(line: &[u8]) -> Result<(), Refusal>
    ensures { result ≡ Messages.answer_value (words line.now) }
{
    let answer = word(line, 7);
    if is(answer, b"POSTED") {
        Ok(())
    } else if is(answer, b"DECLINED") {
        checked(9, code_of(word(line, 8)).is_some())
    } else {
        Err(Refusal::value(8))
    }
}

// What follows RESPAUTH.
fn approval_value(line: &[u8]) -> Result<(), Refusal>
    ensures { result ≡ Messages.approval_value (words line.now) }
{
    sum_value(line)?;
    checked(8, is_yes_or_no(word(line, 7)))
}

// What follows the word of a leg.
fn order_value(line: &[u8]) -> Result<(), Refusal>
    ensures { result ≡ Messages.order_value (words line.now) }
{
    sum_value(line)?;
    checked(8, AccountRef::read(word(line, 7)).is_some())
}

// What follows ANSWER.
fn bank_value(line: &[u8]) -> Result<(), Refusal>
    ensures { result ≡ Messages.bank_value (words line.now) }
{
    txn_value(line)?;
    checked(7, leg_of(word(line, 6)).is_some())?;
    answer_value(line)
}

// What follows RESPPAY and CONFIRM.
fn told_value(line: &[u8]) -> Result<(), Refusal>
    ensures { result ≡ Messages.told_value (words line.now) }
{
    txn_value(line)?;
    let _outcome = outcome_value(line, 6, 7, outcome_word(word(line, 6)))?;
    Ok(())
}

// What follows the fifth word.
fn body_value(line: &[u8], first: Option<BodyWord>) -> Result<(), Refusal>
    ensures { result ≡ Messages.body_value (words line.now) first }
{
    match first {
        Some(BodyWord::Question) => sum_value(line),
        Some(BodyWord::Approval) => approval_value(line),
        Some(BodyWord::Order) => order_value(line),
        Some(BodyWord::Answer) => bank_value(line),
        Some(BodyWord::Outcome) => told_value(line),
        Some(BodyWord::Confirmed) => txn_value(line),
        None => Err(Refusal::value(5)),
    }
}

/// Whether a line is an M line, or the first reason for which it isn't.
#[tactic(auto, unfolding(crate::specs::Messages::message_read))]
pub(crate) fn message_read(line: &[u8]) -> Result<(), Refusal>
    ensures { result ≡ Messages.message_read (words line.now) }
{
    let first = body_word(word(line, 4));
    if !message_fits(line, first) {
        return Err(Refusal::other_fields());
    }
    head_value(line)?;
    body_value(line, first)
}
