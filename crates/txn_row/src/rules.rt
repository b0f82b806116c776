//! The rules that a payment and an answer are judged by.
ghost use Rattle.std.specs.Prelude.{◌≡◌};
ghost use Rattle.std.specs.Option.{option_copied};
ghost use Rattle.upi_model.specs.Places;
ghost use Rattle.upi_model.specs.Replies;
ghost use Rattle.txn_row.specs.calls.Parts;

use upi_base::{
    AccountRef, Addr, Code, DEFAULT_MINUTES, Extra, Kind, MAX_AMOUNT, Minutes, PayReq, PspName,
    SHARD_ROOM, Ver, provider, same_account,
};
use upi_model::AuthWord;
use vpa_directory::Directory;

fn same_kind(a: Kind, b: Kind) -> bool
    ensures { result ≡ Places.same_kind a b }
{
    match (a, b) {
        (Kind::Pay, Kind::Pay) | (Kind::Collect, Kind::Collect) => true,
        _ => false,
    }
}

fn same_ver(a: Ver, b: Ver) -> bool
    ensures { result ≡ Replies.same_ver a b }
{
    match (a, b) {
        (Ver::One, Ver::One) | (Ver::Two, Ver::Two) => true,
        _ => false,
    }
}

fn same_extra(a: &Option<Extra>, b: &Option<Extra>) -> bool
    ensures { result ≡ Replies.same_extra a.now b.now }
{
    match (a, b) {
        (None, None) => true,
        (Some(a), Some(b)) => a.mode == b.mode && a.purpose == b.purpose,
        _ => false,
    }
}

// Of two addresses, that of the side that asks.
fn side<'a>(kind: Kind, payer: &'a Addr, payee: &'a Addr) -> &'a Addr
    ensures { result.now ≡ Places.side kind payer.now payee.now }
{
    match kind {
        Kind::Pay => payer,
        Kind::Collect => payee,
    }
}

/// The address of the side that asks.
pub(crate) fn asking_addr(terms: &PayReq) -> &Addr
    ensures { result.now ≡ Places.side terms.now.kind terms.now.payer terms.now.payee }
{
    side(terms.kind, &terms.payer, &terms.payee)
}

/// The address of the side that is asked.
pub(crate) fn asked_addr(terms: &PayReq) -> &Addr
    ensures { result.now ≡ Places.side terms.now.kind terms.now.payee terms.now.payer }
{
    side(terms.kind, &terms.payee, &terms.payer)
}

/// The PSP of the side that asks.
pub(crate) fn asking(terms: &PayReq) -> &[u8]
    ensures { result.now ≡ Places.asking terms.now }
{
    provider(asking_addr(terms).bytes())
}

/// The PSP of the side that is asked.
pub(crate) fn asked(terms: &PayReq) -> &[u8]
    ensures { result.now ≡ Places.asked terms.now }
{
    provider(asked_addr(terms).bytes())
}

/// The account at an address, if the directory has it.
pub(crate) fn account<'a>(dir: &'a Directory, addr: &Addr) -> Option<&'a AccountRef>
    ensures { option_copied result ≡ Parts.account_ref dir.now.lines addr.now }
{
    let _setup = dir.setup();
    dir.find(addr)
}

fn agrees(given: &Option<AccountRef>, there: Option<&AccountRef>) -> bool
    ensures { result ≡ Parts.agrees_with given.now (option_copied there.entry) }
{
    match given {
        None => true,
        Some(given) => match there {
            None => false,
            Some(there) => same_account(given, there),
        },
    }
}

fn one_account(a: Option<&AccountRef>, b: Option<&AccountRef>) -> bool
    ensures { result ≡ Parts.one_of (option_copied a.entry) (option_copied b.entry) }
{
    match a {
        None => false,
        Some(a) => match b {
            None => false,
            Some(b) => same_account(a, b),
        },
    }
}

// Whether payer and payee are in the directory.
fn both_known(dir: &Directory, terms: &PayReq) -> bool
    ensures { result ≡ Parts.both_known dir.now.lines terms.now }
{
    account(dir, &terms.payer).is_some() && account(dir, &terms.payee).is_some()
}

// Whether the accounts that are given are the directory's.
fn both_agree(
    dir: &Directory,
    terms: &PayReq,
    payer: &Option<AccountRef>,
    payee: &Option<AccountRef>,
) -> bool
    ensures { result ≡ Parts.both_agree dir.now.lines terms.now payer.now payee.now }
{
    agrees(payer, account(dir, &terms.payer)) && agrees(payee, account(dir, &terms.payee))
}

// Whether payer and payee have one account.
fn pays_itself(dir: &Directory, terms: &PayReq) -> bool
    ensures { result ≡ Parts.pays_itself dir.now.lines terms.now }
{
    one_account(account(dir, &terms.payer), account(dir, &terms.payee))
}

/// The first rule that a payment breaks, of a PSP that asks for it where its shard has opened so
/// many; `None` exactly where it breaks none.
pub fn refusal(dir: &Directory, room: usize, psp: &PspName, terms: &PayReq) -> Option<Code>
    ensures { result ≡ Places.refusal_at dir.now.lines room psp.now terms.now }
{
    first_broken(dir, room, psp, terms)
}

// The first rule that it breaks, by the names of the accounts.
fn first_broken(dir: &Directory, room: usize, psp: &PspName, terms: &PayReq) -> Option<Code>
    ensures { result ≡ Parts.refusal_by dir.now.lines room psp.now terms.now }
{
    if asking(terms) != psp.bytes() {
        Some(Code::NotYours)
    } else if !both_known(dir, terms) {
        Some(Code::Addr)
    } else if !both_agree(dir, terms, &terms.payer_ac, &terms.payee_ac) {
        Some(Code::Account)
    } else if pays_itself(dir, terms) {
        Some(Code::Same)
    } else if terms.amount.get() == 0 || terms.amount.get() > MAX_AMOUNT {
        Some(Code::Amt)
    } else if room >= SHARD_ROOM {
        Some(Code::Full)
    } else {
        None
    }
}

/// Whether the accounts that an answer gives are the directory's.
pub(crate) fn accounts_agree(dir: &Directory, terms: &PayReq, word: &AuthWord) -> bool
    ensures { result ≡ Places.accounts_agree dir.now.lines terms.now word.now }
{
    both_agree(dir, terms, &word.payer_ac, &word.payee_ac)
}

/// How many minutes a COLLECT may take.
fn minutes(terms: &PayReq) -> u32
    ensures { result ≡ Places.minutes terms.now }
{
    match &terms.expire {
        None => DEFAULT_MINUTES,
        Some(minutes) => minutes.get(),
    }
}

/// How long a COLLECT may take.
pub(crate) fn time(terms: &PayReq) -> Minutes
    ensures { result ≡ Places.minutes terms.now }
{
    match &terms.expire {
        None => Minutes::of(DEFAULT_MINUTES).unwrap(),
        Some(minutes) => minutes.copy(),
    }
}

/// Whether a payment comes again as it was opened.
pub(crate) fn repeats(opened: &PayReq, psp: &PspName, terms: &PayReq) -> bool
    ensures { result ≡ Replies.repeats opened.now psp.now terms.now }
{
    asking(opened) == psp.bytes()
        && same_kind(opened.kind, terms.kind)
        && opened.payer == terms.payer
        && opened.payee == terms.payee
        && opened.amount == terms.amount
        && minutes(opened) == minutes(terms)
        && same_ver(opened.head.ver, terms.head.ver)
        && same_extra(&opened.extra, &terms.extra)
}
