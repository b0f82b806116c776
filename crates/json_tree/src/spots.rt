//! Looking into the values of a text that was read.
ghost use Rattle.std.specs.Prelude.{◌≡◌, ◌<◌, ◌+◌, is_some, option_map, MatchOption, OnSome, IfSome};
ghost use Rattle.std.specs.Str.{bytes_eq};
ghost use Rattle.serde_json.specs.Data.{no_items, item};
ghost use Rattle.serde_json.specs.Find.{get, as_str, as_array, as_object};
ghost use Rattle.json_tree.specs.Seen.{only_of, name_of};
ghost use Rattle.json_tree.specs.Placed.{placed};
ghost use Rattle.json_tree.specs.Spots.{spot_data, spots_data, spots_size, spots_passed};

use crate::begin::{Spot, Spots};
use json::Tape;

/// The whole value of a text.
pub fn root<'t, 'a>(tape: &'t Tape<'a>) -> Spot<'t, 'a>
    ensures { spot_data result ≡ placed tape.now }
{
    Spot {
        at: tape.root(),
        most: tape.len(),
    }
}

/// The member of a name, where the value is an object that has one. Of those that come twice it is
/// the last.
pub fn member<'t, 'a>(spot: &Spot<'t, 'a>, name: &str) -> Option<Spot<'t, 'a>>
    ensures { option_map spot_data result ≡ get name.now (spot_data spot.now) }
{
    match spot.at.get(name) {
        Some(at) => Some(Spot {
            at,
            most: spot.most,
        }),
        None => None,
    }
}

/// The text, where the value is one.
pub fn text<'a>(spot: &Spot<'_, 'a>) -> Option<&'a str>
    ensures { option_map (λ s. s.now) result ≡ as_str (spot_data spot.now) }
{
    spot.at.as_str()
}

/// Whether the value is an object.
pub fn is_object(spot: &Spot<'_, '_>) -> bool
    ensures { result ≡ is_some (as_object (spot_data spot.now)) }
{
    spot.at.members().is_some()
}

/// The items, where the value is a list.
pub fn list<'t, 'a>(spot: &Spot<'t, 'a>) -> Option<Spots<'t, 'a>>
    ensures value { option_map spots_data result ≡ as_array (spot_data spot.now) }
    ensures first { IfSome result (λ s. spots_passed s ≡ 0) }
{
    match spot.at.items() {
        Some(rest) => Some(Spots {
            rest,
            passed: 0,
            most: spot.most,
        }),
        None => None,
    }
}

/// The next item, if there is one, with how many came before.
pub fn next_item<'t, 'a>(spots: &mut Spots<'t, 'a>) -> Option<(usize, Spot<'t, 'a>)>
    ensures value { MatchOption result (spots_data spots.old ≡ no_items)
        (λ p. spots_data spots.old ≡ item (spot_data p.1) (spots_data spots.new)) }
    ensures passed { IfSome result
        (λ p. (p.0 ≡ spots_passed spots.old) × (spots_passed spots.new ≡ p.0 + 1)) }
    ensures shorter { OnSome result (spots_size spots.new < spots_size spots.old) }
{
    let most = spots.most;
    let passed = spots.passed;
    match spots.rest.next() {
        Some(at) => {
            spots.passed = passed + 1;
            Some((passed, Spot { at, most }))
        }
        None => None,
    }
}

// Whether two names are the same.
fn is_same(name: &str, other: &str) -> bool
    ensures { result ≡ bytes_eq name.now other.now }
{
    name == other
}

// The one name that the members have, where the value is an object that has some.
fn only_name<'a>(spot: &Spot<'_, 'a>) -> Option<&'a str>
    ensures { option_map (λ s. s.now) result ≡ name_of (only_of (as_object (spot_data spot.now))) }
{
    let mut members = spot.at.members()?;
    let first = members.next()?;
    'members: while let Some(other) = members.next() {
        if !is_same(other.0, first.0) {
            return None;
        }
    }
    Some(first.0)
}

/// The name and the value of the one member, where the value is an object that has one.
pub fn only_member<'t, 'a>(spot: &Spot<'t, 'a>) -> Option<(&'a str, Spot<'t, 'a>)>
    ensures { option_map (λ p. (p.0.now, spot_data p.1)) result
        ≡ only_of (as_object (spot_data spot.now)) }
{
    let name = only_name(spot)?;
    match member(spot, name) {
        Some(value) => Some((name, value)),
        None => None,
    }
}
