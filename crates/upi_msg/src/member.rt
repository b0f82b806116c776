//! Members of a JSON tree, each with its first fault.
ghost use Rattle.std.specs.Prelude.{◌≡◌, ◌<◌, IfOk, option_map, option_and_then};
ghost use Rattle.json_tree.specs.Spots.{spot_data, spots_data, spots_passed};
ghost use Rattle.serde_json.specs.Find.{get, as_str};
ghost use Rattle.upi_base.specs.Texts.{fits};
ghost use Rattle.upi_msg.specs.Members;
ghost use Rattle.upi_msg.specs.Members.{Gives};

use crate::place::{Fault, Name, Part, Place, name_text};
use json_tree::{Spot, Spots, is_object, list, member, text};
use upi_base::{Moment, MsgWhy, Rule, Text};

/// What has to be within its grammar.
pub(crate) fn of_value<X>(place: Place, value: Option<X>) -> Result<X, Fault>
    ensures { result ≡ Members.of_value place value }
{
    match value {
        Some(value) => Ok(value),
        None => Err(Fault {
            place,
            why: MsgWhy::Value,
        }),
    }
}

/// What has to be there once.
pub(crate) fn of_count<X>(place: Place, value: Option<X>) -> Result<X, Fault>
    ensures { result ≡ Members.of_count place value }
{
    match value {
        Some(value) => Ok(value),
        None => Err(Fault {
            place,
            why: MsgWhy::Count,
        }),
    }
}

/// A tree that has to be a text.
#[tactic(auto, unfolding(crate::specs::Members::text_of))]
pub(crate) fn text_of<'a>(place: Place, value: &Spot<'_, 'a>) -> Result<&'a str, Fault>
    ensures { Gives (λ s. s.now) result (Members.text_of place (spot_data value.entry.now)) }
{
    match text(value) {
        Some(text) => Ok(text),
        None => Err(Fault {
            place,
            why: MsgWhy::Kind,
        }),
    }
}

/// The text of a member, where there is one.
pub(crate) fn text_in<'a>(value: &Spot<'_, 'a>, name: &str) -> Option<&'a str>
    ensures { option_map (λ s. s.now) result
        ≡ option_and_then as_str (get name.now (spot_data value.entry.now)) }
{
    match member(value, name) {
        Some(found) => text(&found),
        None => None,
    }
}

/// A tree that has to be an object.
#[tactic(auto, unfolding(crate::specs::Members::object_of))]
pub(crate) fn object_of<'t, 'a>(place: Place, value: Spot<'t, 'a>) -> Result<Spot<'t, 'a>, Fault>
    ensures { Gives spot_data result (Members.object_of place (spot_data value.entry)) }
{
    if is_object(&value) {
        Ok(value)
    } else {
        Err(Fault {
            place,
            why: MsgWhy::Kind,
        })
    }
}

/// A tree that has to be a list.
#[tactic(auto, unfolding(crate::specs::Members::list_of))]
pub(crate) fn list_of<'t, 'a>(place: Place, value: &Spot<'t, 'a>) -> Result<Spots<'t, 'a>, Fault>
    ensures value { Gives spots_data result (Members.list_of place (spot_data value.entry.now)) }
    ensures first { IfOk result (λ l. spots_passed l ≡ 0) }
{
    match list(value) {
        Some(items) => Ok(items),
        None => Err(Fault {
            place,
            why: MsgWhy::Kind,
        }),
    }
}

/// A member that has to be there.
#[tactic(auto, unfolding(crate::specs::Members::member_at))]
pub(crate) fn member_at<'t, 'a>(
    place: Place,
    name: Name,
    value: &Spot<'t, 'a>,
) -> Result<Spot<'t, 'a>, Fault>
    ensures { Gives spot_data result
        (Members.member_at place name (spot_data value.entry.now)) }
{
    match member(value, name_text(name)) {
        Some(member) => Ok(member),
        None => Err(Fault {
            place,
            why: MsgWhy::Missing,
        }),
    }
}

/// A member that has to be there, and a text.
#[tactic(auto, unfolding(crate::specs::Members::text_at))]
pub(crate) fn text_at<'a>(place: Place, name: Name, value: &Spot<'_, 'a>) -> Result<&'a str, Fault>
    ensures { Gives (λ s. s.now) result (Members.text_at place name (spot_data value.entry.now)) }
{
    let member = member_at(place, name, value)?;
    text_of(place, &member)
}

/// A member that has to be there, and an object.
#[tactic(auto, unfolding(crate::specs::Members::object_in))]
pub(crate) fn object_in<'t, 'a>(
    part: Part,
    name: Name,
    value: &Spot<'t, 'a>,
) -> Result<Spot<'t, 'a>, Fault>
    ensures { Gives spot_data result (Members.object_in part name (spot_data value.entry.now)) }
{
    let place = Place::Member(part, name);
    let member = member_at(place, name, value)?;
    object_of(place, member)
}

/// A member that has to be there, and a list.
#[tactic(auto, unfolding(crate::specs::Members::list_in))]
pub(crate) fn list_in<'t, 'a>(
    part: Part,
    name: Name,
    value: &Spot<'t, 'a>,
) -> Result<Spots<'t, 'a>, Fault>
    ensures value { Gives spots_data result
        (Members.list_in part name (spot_data value.entry.now)) }
    ensures first { IfOk result (λ l. spots_passed l ≡ 0) }
{
    let place = Place::Member(part, name);
    let member = member_at(place, name, value)?;
    list_of(place, &member)
}

/// A member that has to be there, and a text of some grammar.
#[tactic(auto, unfolding(crate::specs::Members::small_in))]
pub(crate) fn small_in<R: Rule, const N: usize>(
    part: Part,
    name: Name,
    value: &Spot<'_, '_>,
) -> Result<Text<R, N>, Fault>
    requires { N < 256 }
    ensures { result ≡ Members.small_in (fits N R.allows) part name (spot_data value.now) }
{
    let place = Place::Member(part, name);
    let text = text_at(place, name, value)?;
    of_value(place, Text::read(text.as_bytes()))
}

/// A member that has to be there, and a moment.
#[tactic(auto, unfolding(crate::specs::Members::moment_in))]
pub(crate) fn moment_in(part: Part, name: Name, value: &Spot<'_, '_>) -> Result<Moment, Fault>
    ensures { result ≡ Members.moment_in part name (spot_data value.now) }
{
    let place = Place::Member(part, name);
    let text = text_at(place, name, value)?;
    of_value(place, Moment::read(text.as_bytes()))
}
