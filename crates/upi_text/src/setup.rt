//! The lines of a setup, read.
ghost use Rattle.std.specs.Prelude.{◌≡◌, true, IfOk, List};
ghost use Rattle.std.specs.Str.{is_utf8, bytes_eq};
ghost use Rattle.upi_base.specs.Lists.{when};
ghost use Rattle.upi_base.specs.Texts.{is_bank_code, is_psp_name, is_addr};
ghost use Rattle.upi_text.specs.Words.{words};
ghost use Rattle.upi_text.specs.Setup.{bank_line, psp_line, flag_of, flags_of, account_line, policy_of, address_line, open_line, start_line, field_of, accepted, command_of, later_line, MayFollow};

use crate::refusal::Refusal;
use crate::words::{word, word_count};
use std::str;
use upi_base::{AccountRef, Addr, BankCode, Moment, Paise, Policy, PspName, SetupLine, Why};
use vpa_directory::Directory;

/// What a line of the setup says.
#[derive(Clone, Drop, PartialEq, Eq)]
pub enum SetupRead {
    /// Nothing: the line is passed over.
    Skipped,
    /// START: the moment at which the switch starts.
    Start(Moment),
    /// A bank, a PSP, an account or an address.
    Line(SetupLine),
    /// OPEN: the setup ends.
    Open,
}

/// What a line behind START gives.
#[derive(Clone, Copy, Debug, PartialEq, Eq)]
pub(crate) enum Command {
    Bank,
    Psp,
    Account,
    Address,
    Open,
}

/// Which postings an account doesn't take.
#[derive(Clone, Copy, Debug, PartialEq, Eq)]
pub(crate) struct Flags {
    pub(crate) no_debit: bool,
    pub(crate) no_credit: bool,
}

#[tactic(auto, using(upi_base::proofs::Utf8::utf8_yes, upi_base::proofs::Utf8::utf8_no))]
pub(crate) fn is_utf8(text: &[u8]) -> bool
    ensures { result ≡ is_utf8 text.now }
{
    match str::from_utf8(text) {
        Ok(_) => true,
        Err(_) => false,
    }
}

// Whether a word is this one.
fn is(word: &[u8], text: &[u8]) -> bool
    ensures { result ≡ bytes_eq word.now text.now }
{
    word == text
}

fn bank_code(text: &[u8]) -> Option<BankCode>
    ensures { result ≡ when (is_bank_code text.now) text.now }
{
    BankCode::read(text)
}

fn psp_name(text: &[u8]) -> Option<PspName>
    ensures { result ≡ when (is_psp_name text.now) text.now }
{
    PspName::read(text)
}

fn address(text: &[u8]) -> Option<Addr>
    ensures { result ≡ when (is_addr text.now) text.now }
{
    Addr::read(text)
}

// `BANK code`
#[tactic(auto, unfolding(crate::specs::Setup::bank_line))]
fn bank_line(line: &[u8]) -> Result<SetupLine, Refusal>
    ensures { result ≡ bank_line (words line.now) }
{
    if word_count(line) != 2 {
        return Err(Refusal::other_fields());
    }
    match bank_code(word(line, 1)) {
        Some(code) => Ok(SetupLine::Bank(code)),
        None => Err(Refusal::value(2)),
    }
}

// `PSP name`
#[tactic(auto, unfolding(crate::specs::Setup::psp_line))]
fn psp_line(line: &[u8]) -> Result<SetupLine, Refusal>
    ensures { result ≡ psp_line (words line.now) }
{
    if word_count(line) != 2 {
        return Err(Refusal::other_fields());
    }
    match psp_name(word(line, 1)) {
        Some(name) => Ok(SetupLine::Psp(name)),
        None => Err(Refusal::value(2)),
    }
}

#[tactic(auto, unfolding(crate::specs::Setup::flag_of))]
fn flag_of(word: &[u8]) -> Option<Flags>
    ensures { result ≡ flag_of word.now }
{
    if is(word, b"NODEBIT") {
        Some(Flags {
            no_debit: true,
            no_credit: false,
        })
    } else if is(word, b"NOCREDIT") {
        Some(Flags {
            no_debit: false,
            no_credit: true,
        })
    } else {
        None
    }
}

// What follows the opening balance, in a line of three to five words.
#[tactic(auto, unfolding(crate::specs::Setup::flags_of))]
fn flags_of(line: &[u8]) -> Result<Flags, Refusal>
    ensures { result ≡ flags_of (words line.now) }
{
    let count = word_count(line);
    if count == 3 {
        return Ok(Flags {
            no_debit: false,
            no_credit: false,
        });
    }
    if count == 4 {
        return match flag_of(word(line, 3)) {
            Some(flags) => Ok(flags),
            None => Err(Refusal::value(4)),
        };
    }
    if !is(word(line, 3), b"NODEBIT") {
        return Err(Refusal::value(4));
    }
    if !is(word(line, 4), b"NOCREDIT") {
        return Err(Refusal::value(5));
    }
    Ok(Flags {
        no_debit: true,
        no_credit: true,
    })
}

// `ACCOUNT account value` and the flags
#[tactic(auto, unfolding(crate::specs::Setup::account_line))]
fn account_line(line: &[u8]) -> Result<SetupLine, Refusal>
    ensures { result ≡ account_line (words line.now) }
{
    let count = word_count(line);
    if count < 3 || count > 5 {
        return Err(Refusal::other_fields());
    }
    let Some(ac) = AccountRef::read(word(line, 1)) else {
        return Err(Refusal::value(2));
    };
    let Some(opening) = Paise::read(word(line, 2)) else {
        return Err(Refusal::value(3));
    };
    let flags = flags_of(line)?;
    Ok(SetupLine::Account {
        ac,
        opening,
        no_debit: flags.no_debit,
        no_credit: flags.no_credit,
    })
}

#[tactic(auto, unfolding(crate::specs::Setup::policy_of))]
fn policy_of(word: &[u8]) -> Option<Policy>
    ensures { result ≡ policy_of word.now }
{
    if is(word, b"YES") {
        Some(Policy::Yes)
    } else if is(word, b"NO") {
        Some(Policy::No)
    } else if is(word, b"ASK") {
        Some(Policy::Ask)
    } else {
        None
    }
}

// `ADDR addr account policy`
#[tactic(auto, unfolding(crate::specs::Setup::address_line))]
fn address_line(line: &[u8]) -> Result<SetupLine, Refusal>
    ensures { result ≡ address_line (words line.now) }
{
    if word_count(line) != 4 {
        return Err(Refusal::other_fields());
    }
    let Some(addr) = address(word(line, 1)) else {
        return Err(Refusal::value(2));
    };
    let Some(ac) = AccountRef::read(word(line, 2)) else {
        return Err(Refusal::value(3));
    };
    let Some(policy) = policy_of(word(line, 3)) else {
        return Err(Refusal::value(4));
    };
    Ok(SetupLine::Address { addr, ac, policy })
}

// `OPEN`
#[tactic(auto, unfolding(crate::specs::Setup::open_line))]
fn open_line(line: &[u8]) -> Result<SetupRead, Refusal>
    ensures read { result ≡ open_line (words line.now) }
    ensures follows { (lines : List SetupLine) → IfOk result (λ r. MayFollow lines r) }
{
    if word_count(line) == 1 {
        Ok(SetupRead::Open)
    } else {
        Err(Refusal::other_fields())
    }
}

// `START ts`
#[tactic(auto, unfolding(crate::specs::Setup::start_line))]
pub(crate) fn start_line(line: &[u8]) -> Result<SetupRead, Refusal>
    ensures read { result ≡ start_line (words line.now) }
    ensures follows { (lines : List SetupLine) → IfOk result (λ r. MayFollow lines r) }
{
    if !is(word(line, 0), b"START") {
        return Err(Refusal::no_command());
    }
    if word_count(line) != 2 {
        return Err(Refusal::other_fields());
    }
    match Moment::read(word(line, 1)) {
        Some(start) => Ok(SetupRead::Start(start)),
        None => Err(Refusal::value(2)),
    }
}

// The word at which a reason of the setup stands.
fn field(why: Why) -> u32
    ensures { result ≡ field_of why }
{
    match why {
        Why::Twice | Why::NoBank | Why::NoPsp => 2,
        Why::NoAccount => 3,
        Why::Limit => 1,
        _ => 0,
    }
}

// The line, if the setup takes it behind those that it has.
fn accepted(directory: &Directory, line: SetupLine) -> Result<SetupRead, Refusal>
    ensures read { result ≡ accepted directory.now.lines line }
    ensures follows { IfOk result (λ r. MayFollow directory.now.lines r) }
{
    match directory.refusal(&line) {
        None => Ok(SetupRead::Line(line)),
        Some(why) => Err(Refusal {
            field: field(why),
            why,
        }),
    }
}

#[tactic(auto, unfolding(crate::specs::Setup::command_of))]
fn command_of(word: &[u8]) -> Option<Command>
    ensures { result ≡ command_of word.now }
{
    if is(word, b"BANK") {
        Some(Command::Bank)
    } else if is(word, b"PSP") {
        Some(Command::Psp)
    } else if is(word, b"ACCOUNT") {
        Some(Command::Account)
    } else if is(word, b"ADDR") {
        Some(Command::Address)
    } else if is(word, b"OPEN") {
        Some(Command::Open)
    } else {
        None
    }
}

// A line behind START.
pub(crate) fn later_line(directory: &Directory, line: &[u8]) -> Result<SetupRead, Refusal>
    ensures read { result ≡ later_line directory.now.lines (words line.now) }
    ensures follows { IfOk result (λ r. MayFollow directory.now.lines r) }
{
    let Some(command) = command_of(word(line, 0)) else {
        return Err(Refusal::no_command());
    };
    match command {
        Command::Bank => accepted(directory, bank_line(line)?),
        Command::Psp => accepted(directory, psp_line(line)?),
        Command::Account => accepted(directory, account_line(line)?),
        Command::Address => accepted(directory, address_line(line)?),
        Command::Open => open_line(line),
    }
}
