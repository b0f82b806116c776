//! Lists of named values.
ghost use Rattle.std.specs.Prelude.{◌≡◌, ◌+◌, Err, IfOk, MatchResult, option_map};
ghost use Rattle.std.specs.Str.{bytes_eq};
ghost use Rattle.json_tree.specs.Spots.{spot_data, spots_data, spots_passed};
ghost use Rattle.upi_msg.specs.Types.{Text, Data, Items, item};
ghost use Rattle.upi_msg.specs.Named;
ghost use Rattle.upi_msg.specs.Lots.{Holds, IsLot};
ghost use Rattle.upi_msg.specs.Members.{Gives};

use crate::member::{object_of, text_at};
use crate::place::{Fault, Name, Part, Place};
use json_tree::{Spot, Spots, next_item};

/// What a list has of one name.
#[derive(Clone, Copy)]
pub enum Lot<'a> {
    /// No item.
    Nothing,
    /// One item: its number, and its value.
    One(usize, &'a str),
    /// Several items.
    Several,
}

// An item, which has to be an object with the texts `name` and `value`: these two.
#[tactic(auto, unfolding(crate::specs::Named::named_item))]
fn named_item<'a>(
    part: Part,
    list: Name,
    index: usize,
    value: Spot<'_, 'a>,
) -> Result<(&'a str, &'a str), Fault>
    ensures value { Gives (λ p. p.1.now) result
        (Named.named_item part list index (spot_data value.entry)) }
    ensures names { IfOk result
        (λ p. ((k : Text) → bytes_eq p.0.now k ≡ Named.is_named k (spot_data value.entry))
        × (p.1.now ≡ Named.value_of (spot_data value.entry))) }
{
    let item = object_of(Place::Item(part, list, index), value)?;
    let place = Place::InItem(part, list, index, Name::Name);
    let name = text_at(place, Name::Name, &item)?;
    let place = Place::InItem(part, list, index, Name::Value);
    let text = text_at(place, Name::Value, &item)?;
    Ok((name, text))
}

// Whether two names are the same.
fn is_same(name: &str, other: &str) -> bool
    ensures { result ≡ bytes_eq name.now other.now }
{
    name == other
}

// What a list has of a name behind one more item, which has this name or not.
fn lot_after<'a>(lot: Lot<'a>, same: bool, index: usize, value: &'a str) -> Lot<'a>
    ensures { (k : Text) → (all : Items) → (d : Data) → (rest : Items)
        → same ≡ Named.is_named k d → value.now ≡ Named.value_of d
        → Holds k all lot.entry index (item d rest) → Holds k all result (index + 1) rest }
{
    match lot {
        Lot::Nothing => {
            if same {
                Lot::One(index, value)
            } else {
                Lot::Nothing
            }
        }
        Lot::One(first, text) => {
            if same {
                Lot::Several
            } else {
                Lot::One(first, text)
            }
        }
        Lot::Several => Lot::Several,
    }
}

/// What a list has of two names, where each of its items is a named value.
#[tactic(auto, using(crate::proofs::Lots::passed_item, crate::proofs::Lots::faulty_item, crate::proofs::Lots::held_item, crate::proofs::Lots::ended_items, crate::proofs::Lots::ended_lot))]
pub(crate) fn lots_of<'a>(
    part: Part,
    list: Name,
    items: Spots<'_, 'a>,
    one: &str,
    other: &str,
) -> Result<(Lot<'a>, Lot<'a>), Fault>
    requires { spots_passed items ≡ 0 }
    ensures fault { MatchResult result
        (λ _. Named.IsNamedList (Named.named_items part list 0 (spots_data items.entry)))
        (λ e. Named.named_items part list 0 (spots_data items.entry) ≡ Err e) }
    ensures first { IfOk result (λ p. IsLot p.0 one.now (spots_data items.entry)) }
    ensures second { IfOk result (λ p. IsLot p.1 other.now (spots_data items.entry)) }
{
    let mut items = items;
    let mut first = Lot::Nothing;
    let mut second = Lot::Nothing;
    'items: while let Some(next) = next_item(&mut items) {
        let (name, value) = named_item(part, list, next.0, next.1)?;
        first = lot_after(first, is_same(name, one), next.0, value);
        second = lot_after(second, is_same(name, other), next.0, value);
    }
    Ok((first, second))
}

// The one item of a name.
fn only_named<'a>(lot: Lot<'a>) -> Option<(usize, &'a str)>
    ensures { (k : Text) → (ds : Items) → IsLot lot.entry k ds
        → option_map (λ p. (p.0, p.1.now)) result ≡ Named.only_named k ds }
{
    match lot {
        Lot::Nothing => None,
        Lot::One(index, value) => Some((index, value)),
        Lot::Several => None,
    }
}

/// The one item of each of two names, where each item of a list is a named value: its number, and
/// its value.
pub(crate) fn two_named<'a>(
    part: Part,
    list: Name,
    items: Spots<'_, 'a>,
    one: &str,
    other: &str,
) -> Result<(Option<(usize, &'a str)>, Option<(usize, &'a str)>), Fault>
    requires { spots_passed items ≡ 0 }
    ensures fault { MatchResult result
        (λ _. Named.IsNamedList (Named.named_items part list 0 (spots_data items.entry)))
        (λ e. Named.named_items part list 0 (spots_data items.entry) ≡ Err e) }
    ensures first { IfOk result (λ p. option_map (λ q. (q.0, q.1.now)) p.0
        ≡ Named.only_named one.now (spots_data items.entry)) }
    ensures second { IfOk result (λ p. option_map (λ q. (q.0, q.1.now)) p.1
        ≡ Named.only_named other.now (spots_data items.entry)) }
{
    let (first, second) = lots_of(part, list, items, one, other)?;
    Ok((only_named(first), only_named(second)))
}
