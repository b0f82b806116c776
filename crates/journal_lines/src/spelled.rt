//! Values by the words that spell them.
ghost use Rattle.std.specs.Prelude.{◌≡◌, is_some, not};
ghost use Rattle.std.specs.Str.{bytes_eq, is_utf8};
ghost use Rattle.upi_base.specs.Lists.{pick, when};
ghost use Rattle.upi_text.specs.Pieces.{code_text, fault_text, leg_text};
ghost use Rattle.upi_base.specs.Texts.{is_bank_code, is_path_text, is_psp_name, is_txn_id};
ghost use Rattle.journal_lines.specs.Spelled;

use std::str;
use upi_base::{
    BankCode, Code, Leg, Moment, MsgWhy, PathText, PspName, TxnId, code_word, leg_word,
};
use upi_text::{fault_word, number};

/// All codes.
const CODES: [Code; 22] = [
    Code::Format,
    Code::Closed,
    Code::Dup,
    Code::NotYours,
    Code::Addr,
    Code::Account,
    Code::Same,
    Code::Amt,
    Code::Full,
    Code::NoTxn,
    Code::Early,
    Code::Expired,
    Code::AuthLate,
    Code::Declined,
    Code::DebitLate,
    Code::CreditLate,
    Code::Funds,
    Code::NoDebit,
    Code::NoCredit,
    Code::Cap,
    Code::Reversed,
    Code::Nothing,
];

/// All legs.
const LEGS: [Leg; 3] = [Leg::Debit, Leg::Credit, Leg::Reversal];

/// All faults of messages.
const FAULTS: [MsgWhy; 7] = [
    MsgWhy::Json,
    MsgWhy::Root,
    MsgWhy::Missing,
    MsgWhy::Kind,
    MsgWhy::Value,
    MsgWhy::Count,
    MsgWhy::Differs,
];

/// Whether a word is this one.
pub(crate) fn is(word: &[u8], text: &[u8]) -> bool
    ensures { result ≡ bytes_eq word.now text.now }
{
    word == text
}

/// Whether a text is UTF-8.
#[tactic(auto, using(upi_base::proofs::Utf8::utf8_yes, upi_base::proofs::Utf8::utf8_no))]
pub(crate) fn is_utf8(text: &[u8]) -> bool
    ensures { result ≡ is_utf8 text.now }
{
    match str::from_utf8(text) {
        Ok(_) => true,
        Err(_) => false,
    }
}

// The first of these codes that a word spells.
fn code_among(codes: &[Code], word: &[u8]) -> Option<Code>
    ensures { result ≡ pick (Spelled.if_spelled code_text word.now) codes.now }
{
    for code in codes {
        if is(code_word(*code), word) {
            return Some(*code);
        }
    }
    None
}

/// The code that a word spells.
pub(crate) fn code_of(word: &[u8]) -> Option<Code>
    ensures { result ≡ Spelled.code_of word.now }
{
    code_among(&CODES, word)
}

// The first of these legs that a word spells.
fn leg_among(legs: &[Leg], word: &[u8]) -> Option<Leg>
    ensures { result ≡ pick (Spelled.if_spelled leg_text word.now) legs.now }
{
    for leg in legs {
        if is(leg_word(*leg), word) {
            return Some(*leg);
        }
    }
    None
}

/// The leg that a word spells.
pub(crate) fn leg_of(word: &[u8]) -> Option<Leg>
    ensures { result ≡ Spelled.leg_of word.now }
{
    leg_among(&LEGS, word)
}

// The first of these faults that a word spells.
fn fault_among(faults: &[MsgWhy], word: &[u8]) -> Option<MsgWhy>
    ensures { result ≡ pick (Spelled.if_spelled fault_text word.now) faults.now }
{
    for fault in faults {
        if is(fault_word(*fault), word) {
            return Some(*fault);
        }
    }
    None
}

/// The fault that a word spells.
pub(crate) fn fault_of(word: &[u8]) -> Option<MsgWhy>
    ensures { result ≡ Spelled.fault_of word.now }
{
    fault_among(&FAULTS, word)
}

/// The name of a PSP.
pub(crate) fn psp_of(word: &[u8]) -> Option<PspName>
    ensures { result ≡ when (is_psp_name word.now) word.now }
{
    PspName::read(word)
}

/// The name of a transaction.
pub(crate) fn txn_of(word: &[u8]) -> Option<TxnId>
    ensures { result ≡ when (is_txn_id word.now) word.now }
{
    TxnId::read(word)
}

/// The path to a fault.
pub(crate) fn path_of(word: &[u8]) -> Option<PathText>
    ensures { result ≡ when (is_path_text word.now) word.now }
{
    PathText::read(word)
}

/// Whether a word is the code of a bank.
fn is_bank(word: &[u8]) -> bool
    ensures { result ≡ is_bank_code word.now }
{
    BankCode::read(word).is_some()
}

/// Whether a word is the name of a PSP.
fn is_psp(word: &[u8]) -> bool
    ensures { result ≡ is_psp_name word.now }
{
    PspName::read(word).is_some()
}

/// Whether a word names the switch, a PSP or a bank.
pub(crate) fn is_party(word: &[u8]) -> bool
    ensures { result ≡ Spelled.is_party word.now }
{
    is(word, b"SWITCH") || is_psp(word) || is_bank(word)
}

/// The moment whose seconds a word spells.
pub(crate) fn moment_of(word: &[u8]) -> Option<Moment>
    ensures { result ≡ Spelled.moment_of word.now }
{
    match number(word) {
        None => None,
        Some(second) => Moment::of(second),
    }
}
