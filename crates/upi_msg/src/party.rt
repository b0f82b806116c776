//! Reading the members of a party: `Amount` and `Ac`.
ghost use Rattle.std.specs.Prelude.{◌≡◌, option_map};
ghost use Rattle.json_tree.specs.Spots.{spot_data, spots_data};
ghost use Rattle.upi_msg.specs.Parties;
ghost use Rattle.upi_msg.specs.Members.{Gives};

use crate::member::{list_in, object_in, object_of, of_count, of_value, text_at, text_in};
use crate::named::two_named;
use crate::place::{Fault, Name, Part, Place, Root, Who};
use json_tree::{Spot, Spots, member, next_item};
use upi_base::{AcNum, AccountRef, BankCode, MsgWhy, Paise};

// `value` of an `Amount`.
#[tactic(auto, unfolding(crate::specs::Parties::value_in))]
fn value_in(part: Part, value: &Spot<'_, '_>) -> Result<Paise, Fault>
    ensures { result ≡ Parties.value_in part (spot_data value.now) }
{
    let place = Place::Member(part, Name::Value);
    let text = text_at(place, Name::Value, value)?;
    of_value(place, Paise::read(text.as_bytes()))
}

/// The members of an `Amount`.
#[tactic(auto, unfolding(crate::specs::Parties::amount_of))]
pub(crate) fn amount_of(part: Part, value: &Spot<'_, '_>) -> Result<Paise, Fault>
    ensures { result ≡ Parties.amount_of part (spot_data value.now) }
{
    let place = Place::Member(part, Name::Curr);
    let currency = text_at(place, Name::Curr, value)?;
    if currency == "INR" {
        value_in(part, value)
    } else {
        Err(Fault {
            place,
            why: MsgWhy::Value,
        })
    }
}

/// The `Amount` of a party that has to have one.
#[tactic(auto, unfolding(crate::specs::Parties::amount_in))]
pub(crate) fn amount_in(root: Root, who: Who, value: &Spot<'_, '_>) -> Result<Paise, Fault>
    ensures { result ≡ Parties.amount_in root who (spot_data value.now) }
{
    let amount = object_in(Part::Party(root, who), Name::Amount, value)?;
    amount_of(Part::Amount(root, who), &amount)
}

// The bank of an IFSC.
#[tactic(auto, unfolding(crate::specs::Parties::bank_of_ifsc))]
fn bank_of_ifsc(text: &[u8]) -> Option<BankCode>
    ensures { result ≡ Parties.bank_of_ifsc text.now }
{
    if text.len() != 11 {
        return None;
    }
    let letters: Option<AcNum> = AcNum::read(text);
    match letters {
        Some(_) => BankCode::read(&text[..4]),
        None => None,
    }
}

// The account of the one item of each name that a `Detail` has.
#[tactic(auto, unfolding(crate::specs::Parties::account_of_parts))]
fn account_of_parts(
    part: Part,
    ifsc: Option<(usize, &str)>,
    number: Option<(usize, &str)>,
) -> Result<AccountRef, Fault>
    ensures { result ≡ Parties.account_of_parts part (option_map (λ p. (p.0, p.1.now)) ifsc.entry)
        (option_map (λ p. (p.0, p.1.now)) number.entry) }
{
    let count = Place::Member(part, Name::Detail);
    let (first, ifsc) = of_count(count, ifsc)?;
    let (second, number) = of_count(count, number)?;
    let place = Place::InItem(part, Name::Detail, first, Name::Value);
    let bank = of_value(place, bank_of_ifsc(ifsc.as_bytes()))?;
    let place = Place::InItem(part, Name::Detail, second, Name::Value);
    let num: AcNum = of_value(place, AcNum::read(number.as_bytes()))?;
    Ok(AccountRef { bank, num })
}

// The account of an `Ac` that names one.
#[tactic(auto, unfolding(crate::specs::Parties::account_of, crate::specs::Parties::account_of_items))]
fn account_of(part: Part, value: &Spot<'_, '_>) -> Result<AccountRef, Fault>
    ensures { result ≡ Parties.account_of part (spot_data value.now) }
{
    let items = list_in(part, Name::Detail, value)?;
    let (ifsc, number) = two_named(part, Name::Detail, items, "IFSC", "ACNUM")?;
    account_of_parts(part, ifsc, number)
}

// Whether an `Ac` names an account.
fn names_account(value: &Spot<'_, '_>) -> bool
    ensures { result ≡ Parties.names_account (spot_data value.now) }
{
    match text_in(value, "addrType") {
        Some(text) => text == "ACCOUNT",
        None => false,
    }
}

// An `Ac`, which counts as absent where it names no account.
#[tactic(auto, unfolding(crate::specs::Parties::ac_of))]
fn ac_of(part: Part, place: Place, value: Spot<'_, '_>) -> Result<Option<AccountRef>, Fault>
    ensures { result ≡ Parties.ac_of part place (spot_data value.entry) }
{
    let ac = object_of(place, value)?;
    if names_account(&ac) {
        let account = account_of(part, &ac)?;
        Ok(Some(account))
    } else {
        Ok(None)
    }
}

/// The `Ac` of a party, which may be there.
#[tactic(auto, unfolding(crate::specs::Parties::account_in))]
pub(crate) fn account_in(
    root: Root,
    who: Who,
    value: &Spot<'_, '_>,
) -> Result<Option<AccountRef>, Fault>
    ensures { result ≡ Parties.account_in root who (spot_data value.now) }
{
    match member(value, "Ac") {
        None => Ok(None),
        Some(ac) => ac_of(
            Part::Ac(root, who),
            Place::Member(Part::Party(root, who), Name::Ac),
            ac,
        ),
    }
}

// A list of exactly one.
fn one_of<'t, 'a>(place: Place, items: Spots<'t, 'a>) -> Result<Spot<'t, 'a>, Fault>
    ensures { Gives spot_data result (Parties.one_of place (spots_data items.entry)) }
{
    let mut items = items;
    match next_item(&mut items) {
        None => Err(Fault {
            place,
            why: MsgWhy::Count,
        }),
        Some(one) => match next_item(&mut items) {
            None => Ok(one.1),
            Some(_) => Err(Fault {
                place,
                why: MsgWhy::Count,
            }),
        },
    }
}

/// The one item of `Payees.Payee`, an object.
#[tactic(auto, unfolding(crate::specs::Parties::payee_of))]
pub(crate) fn payee_of<'t, 'a>(root: Root, payees: &Spot<'t, 'a>) -> Result<Spot<'t, 'a>, Fault>
    ensures { Gives spot_data result (Parties.payee_of root (spot_data payees.entry.now)) }
{
    let part = Part::Payees(root);
    let items = list_in(part, Name::Payee, payees)?;
    let one = one_of(Place::Member(part, Name::Payee), items)?;
    object_of(Place::Item(part, Name::Payee, 0), one)
}
