//! Reading a `ReqPay`.
ghost use Rattle.std.specs.Prelude.{◌≡◌, ◌≤◌, ◌<◌, length, codes, Some, option_map};
ghost use Rattle.std.specs.List.{prefix_len};
ghost use Rattle.std.specs.Char.{is_ascii_digit};
ghost use Rattle.std.specs.Str.Parse.{digits_value, AllDigits};
ghost use Rattle.json_tree.specs.Spots.{spot_data};
ghost use Rattle.upi_msg.specs.Payments;
ghost use Rattle.upi_msg.specs.Types.{Items};
ghost use Rattle.upi_msg.specs.Lots.{IsLot};

use crate::head::head_of;
use crate::member::{list_in, object_in, object_of, of_value, small_in, text_at, text_of};
use crate::named::{Lot, lots_of};
use crate::party::{account_in, amount_in, amount_of, payee_of};
use crate::place::{Fault, Name, Part, Place, Root, Who};
use json_tree::{Spot, member};
use upi_base::{
    AccountRef, Addr, Extra, Head, Kind, Minutes, MsgWhy, Note, Paise, PayReq, TwoDigits, TxnId,
    Ver,
};

/// What a `Txn` gives.
#[derive(Drop)]
pub struct Terms {
    /// `id`.
    pub txn: TxnId,
    /// `type`.
    pub kind: Kind,
    /// `note`, where it is given and isn't empty.
    pub note: Option<Note>,
    /// `Rules`, EXPIREAFTER.
    pub expire: Option<Minutes>,
    /// `initiationMode`, `00` where it isn't read.
    pub mode: TwoDigits,
    /// `purpose`, `00` where it isn't read.
    pub purpose: TwoDigits,
}

/// What a `Payer` gives.
#[derive(Drop)]
pub struct Payer {
    /// `addr`.
    pub addr: Addr,
    /// `Amount`.
    pub amount: Paise,
    /// `Ac`, where it names an account.
    pub ac: Option<AccountRef>,
}

/// What a payee gives.
#[derive(Drop)]
pub struct Payee {
    /// `addr`.
    pub addr: Addr,
    /// `Ac`, where it names an account.
    pub ac: Option<AccountRef>,
}

// The kind of a word.
fn kind_named(text: &str) -> Option<Kind>
    ensures { result ≡ Payments.kind_named text.now }
{
    if text == "PAY" {
        Some(Kind::Pay)
    } else if text == "COLLECT" {
        Some(Kind::Collect)
    } else {
        None
    }
}

// `type`.
#[tactic(auto, unfolding(crate::specs::Payments::kind_in))]
fn kind_in(part: Part, value: &Spot<'_, '_>) -> Result<Kind, Fault>
    ensures { result ≡ Payments.kind_in part (spot_data value.now) }
{
    let place = Place::Member(part, Name::Type);
    let text = text_at(place, Name::Type, value)?;
    of_value(place, kind_named(text))
}

// A note, of which an empty text counts as absent.
fn note_of(place: Place, text: &[u8]) -> Result<Option<Note>, Fault>
    ensures { result ≡ Payments.note_of place text.now }
{
    match text {
        [] => Ok(None),
        [_, ..] => {
            let note: Note = of_value(place, Note::read(text))?;
            Ok(Some(note))
        }
    }
}

// `note`.
#[tactic(auto, unfolding(crate::specs::Payments::note_in))]
fn note_in(part: Part, value: &Spot<'_, '_>) -> Result<Option<Note>, Fault>
    ensures { result ≡ Payments.note_in part (spot_data value.now) }
{
    let place = Place::Member(part, Name::Note);
    match member(value, "note") {
        None => Ok(None),
        Some(note) => {
            let text = text_of(place, &note)?;
            note_of(place, text.as_bytes())
        }
    }
}

// How many digits a text begins with.
fn digit_run(text: &[u8]) -> usize
    ensures count { result ≡ prefix_len is_ascii_digit text.now }
    ensures within { result ≤ length text.now }
{
    for (i, c) in text.iter().enumerate() {
        if !c.is_ascii_digit() {
            return i;
        }
    }
    text.len()
}

// The number that the digits spell.
#[tactic(auto, using(crate::proofs::Numbers::digit_steps))]
fn number(digits: &[u8]) -> u64
    requires digits { AllDigits 10 digits.now }
    requires few { length digits.now ≤ 14 }
    ensures value { result ≡ digits_value 10 digits.now }
    ensures bound { result < 100_000_000_000_000 }
{
    let mut value = 0u64;
    for c in digits {
        value = value * 10 + u64::from(*c - b'0');
    }
    value
}

// The minutes of a text.
#[tactic(auto, using(crate::proofs::Numbers::digit_runs), unfolding(crate::specs::Payments::minutes_of))]
fn minutes_of(text: &[u8]) -> Option<Minutes>
    ensures { result ≡ Payments.minutes_of text.now }
{
    let count = digit_run(text);
    if count < 1 || count > 5 || count != text.len() {
        return None;
    }
    let number = number(&text[..count]);
    if number > 64_800 {
        return None;
    }
    Minutes::of(number as u32)
}

// The minutes of the one rule.
fn minutes_at(part: Part, index: usize, text: &str) -> Result<Option<Minutes>, Fault>
    ensures { result ≡ Payments.minutes_at part (Some (index, text.now)) }
{
    let place = Place::InItem(part, Name::Rule, index, Name::Value);
    let minutes = of_value(place, minutes_of(text.as_bytes()))?;
    Ok(Some(minutes))
}

// The minutes of what a list of rules has of EXPIREAFTER.
fn minutes_in(part: Part, lot: Lot<'_>) -> Result<Option<Minutes>, Fault>
    ensures { (ds : Items) → IsLot lot.entry (codes "EXPIREAFTER") ds
        → result ≡ Payments.minutes_in part ds }
{
    match lot {
        Lot::Nothing => Ok(None),
        Lot::One(index, text) => minutes_at(part, index, text),
        Lot::Several => Err(Fault {
            place: Place::Member(part, Name::Rule),
            why: MsgWhy::Count,
        }),
    }
}

// The members of `Rules`.
#[tactic(auto, unfolding(crate::specs::Payments::rules_of))]
fn rules_of(part: Part, value: &Spot<'_, '_>) -> Result<Option<Minutes>, Fault>
    ensures { result ≡ Payments.rules_of part (spot_data value.now) }
{
    let items = list_in(part, Name::Rule, value)?;
    let (lot, _) = lots_of(part, Name::Rule, items, "EXPIREAFTER", "")?;
    minutes_in(part, lot)
}

// `Rules`, which may be there.
fn rules_in(root: Root, value: &Spot<'_, '_>) -> Result<Option<Minutes>, Fault>
    ensures { result ≡ Payments.rules_in root (spot_data value.now) }
{
    match member(value, "Rules") {
        None => Ok(None),
        Some(rules) => {
            let rules = object_of(Place::Member(Part::Txn(root), Name::Rules), rules)?;
            rules_of(Part::Rules(root), &rules)
        }
    }
}

// The digits that stand for an absent text of two digits.
fn no_digits() -> TwoDigits
    ensures { result ≡ Payments.no_digits }
{
    match TwoDigits::read(b"00") {
        Some(digits) => digits,
        None => unreachable!(),
    }
}

// Two digits that may be there.
fn digits_at(place: Place, value: Option<Spot<'_, '_>>) -> Result<TwoDigits, Fault>
    ensures { result ≡ Payments.digits_at place (option_map spot_data value.entry) }
{
    match value {
        None => Ok(no_digits()),
        Some(value) => {
            let text = text_of(place, &value)?;
            of_value(place, TwoDigits::read(text.as_bytes()))
        }
    }
}

// Two digits that version 2.0 has.
fn digits_in(ver: Ver, place: Place, value: Option<Spot<'_, '_>>) -> Result<TwoDigits, Fault>
    ensures { result ≡ Payments.digits_in ver place (option_map spot_data value.entry) }
{
    match ver {
        Ver::One => Ok(no_digits()),
        Ver::Two => digits_at(place, value),
    }
}

// `Txn`.
#[tactic(auto, unfolding(crate::specs::Payments::terms_of))]
fn terms_of(root: Root, ver: Ver, value: &Spot<'_, '_>) -> Result<Terms, Fault>
    ensures { result ≡ Payments.terms_of root ver (spot_data value.now) }
{
    let txn = object_in(Part::Root(root), Name::Txn, value)?;
    let part = Part::Txn(root);
    let id: TxnId = small_in(part, Name::Id, &txn)?;
    let kind = kind_in(part, &txn)?;
    let note = note_in(part, &txn)?;
    let expire = rules_in(root, &txn)?;
    let place = Place::Member(part, Name::InitiationMode);
    let mode = digits_in(ver, place, member(&txn, "initiationMode"))?;
    let place = Place::Member(part, Name::Purpose);
    let purpose = digits_in(ver, place, member(&txn, "purpose"))?;
    Ok(Terms {
        txn: id,
        kind,
        note,
        expire,
        mode,
        purpose,
    })
}

// `Payer`.
#[tactic(auto, unfolding(crate::specs::Payments::payer_of))]
fn payer_of(root: Root, value: &Spot<'_, '_>) -> Result<Payer, Fault>
    ensures { result ≡ Payments.payer_of root (spot_data value.now) }
{
    let payer = object_in(Part::Root(root), Name::Payer, value)?;
    let addr: Addr = small_in(Part::Party(root, Who::Payer), Name::Addr, &payer)?;
    let amount = amount_in(root, Who::Payer, &payer)?;
    let ac = account_in(root, Who::Payer, &payer)?;
    Ok(Payer { addr, amount, ac })
}

// An amount that is given twice has to be the same.
fn same_amount(place: Place, first: Paise, second: Paise) -> Result<Paise, Fault>
    ensures { result ≡ Payments.same_amount place first second }
{
    if first.get() == second.get() {
        Ok(first)
    } else {
        Err(Fault {
            place,
            why: MsgWhy::Differs,
        })
    }
}

// The payee's `Amount`, which may be there.
fn again_at(root: Root, amount: Paise, value: Option<Spot<'_, '_>>) -> Result<Paise, Fault>
    ensures { result ≡ Payments.again_at root amount (option_map spot_data value.entry) }
{
    match value {
        None => Ok(amount),
        Some(value) => {
            let place = Place::Member(Part::Party(root, Who::Payee), Name::Amount);
            let again = object_of(place, value)?;
            let part = Part::Amount(root, Who::Payee);
            let again = amount_of(part, &again)?;
            same_amount(Place::Member(part, Name::Value), amount, again)
        }
    }
}

// `Payees`.
#[tactic(auto, unfolding(crate::specs::Payments::payee_in))]
fn payee_in(root: Root, amount: Paise, value: &Spot<'_, '_>) -> Result<Payee, Fault>
    ensures { result ≡ Payments.payee_in root amount (spot_data value.now) }
{
    let payees = object_in(Part::Root(root), Name::Payees, value)?;
    let payee = payee_of(root, &payees)?;
    let addr: Addr = small_in(Part::Party(root, Who::Payee), Name::Addr, &payee)?;
    again_at(root, amount, member(&payee, "Amount"))?;
    let ac = account_in(root, Who::Payee, &payee)?;
    Ok(Payee { addr, ac })
}

// What a payment has besides, by its version.
fn extra_by(ver: Ver, mode: TwoDigits, purpose: TwoDigits) -> Option<Extra>
    ensures { result ≡ Payments.extra_by ver mode purpose }
{
    match ver {
        Ver::One => None,
        Ver::Two => Some(Extra { mode, purpose }),
    }
}

/// The payment of what was read.
#[tactic(auto, using(crate::specs::Payments::extra_by_version))]
pub(crate) fn request(head: Head, terms: Terms, payer: Payer, payee: Payee) -> PayReq
    ensures { result ≡ Payments.request head terms payer payee }
{
    let extra = extra_by(head.ver, terms.mode, terms.purpose);
    PayReq {
        head,
        kind: terms.kind,
        txn: terms.txn,
        note: terms.note,
        expire: terms.expire,
        payer: payer.addr,
        payee: payee.addr,
        amount: payer.amount,
        payer_ac: payer.ac,
        payee_ac: payee.ac,
        extra,
    }
}

/// A `ReqPay`.
#[tactic(auto, unfolding(crate::specs::Payments::pay_of))]
pub(crate) fn pay_of(value: &Spot<'_, '_>) -> Result<PayReq, Fault>
    ensures { result ≡ Payments.pay_of (spot_data value.now) }
{
    let root = Root::ReqPay;
    let head = head_of(root, value)?;
    let terms = terms_of(root, head.ver, value)?;
    let payer = payer_of(root, value)?;
    let payee = payee_in(root, payer.amount, value)?;
    Ok(request(head, terms, payer, payee))
}
