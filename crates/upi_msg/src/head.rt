//! Reading a `Head`.
ghost use Rattle.std.specs.Prelude.{◌≡◌};
ghost use Rattle.json_tree.specs.Spots.{spot_data};
ghost use Rattle.upi_msg.specs.Heads;

use crate::member::{moment_in, object_in, of_value, small_in, text_at};
use crate::place::{Fault, Name, Part, Place, Root};
use json_tree::Spot;
use upi_base::{Head, MsgId, OrgId, Ver};

// The version of a word.
fn ver_named(text: &str) -> Option<Ver>
    ensures { result ≡ Heads.ver_named text.now }
{
    if text == "1.0" {
        Some(Ver::One)
    } else if text == "2.0" {
        Some(Ver::Two)
    } else {
        None
    }
}

// `ver`.
#[tactic(auto, unfolding(crate::specs::Heads::ver_in))]
fn ver_in(part: Part, value: &Spot<'_, '_>) -> Result<Ver, Fault>
    ensures { result ≡ Heads.ver_in part (spot_data value.now) }
{
    let place = Place::Member(part, Name::Ver);
    let text = text_at(place, Name::Ver, value)?;
    of_value(place, ver_named(text))
}

/// A `Head`.
#[tactic(auto, unfolding(crate::specs::Heads::head_of))]
pub(crate) fn head_of(root: Root, value: &Spot<'_, '_>) -> Result<Head, Fault>
    ensures { result ≡ Heads.head_of root (spot_data value.now) }
{
    let head = object_in(Part::Root(root), Name::Head, value)?;
    let part = Part::Head(root);
    let msg_id: MsgId = small_in(part, Name::MsgId, &head)?;
    let org: OrgId = small_in(part, Name::OrgId, &head)?;
    let ts = moment_in(part, Name::Ts, &head)?;
    let ver = ver_in(part, &head)?;
    Ok(Head {
        msg_id,
        org,
        ts,
        ver,
    })
}
