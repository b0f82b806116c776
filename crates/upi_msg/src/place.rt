//! Where a fault of a message is.
ghost use Rattle.std.specs.Prelude.{◌≡◌, ◌++◌, true, OnOk, IfOk};
ghost use Rattle.upi_base.specs.Texts.{fits, is_path};
ghost use Rattle.upi_msg.specs.Places;
ghost use Rattle.upi_msg.specs.Tree.{api_text};

use crate::words::api_text;
use itoa::Buffer;
use std::alloc::Global;
use upi_base::{Api, BadMessage, MsgWhy, NoMemory, PathText};

/// The name of a message's root.
#[derive(Clone, Copy, Debug, PartialEq, Eq)]
pub enum Root {
    /// `ReqPay`: a payment.
    ReqPay,
    /// `RespAuthDetails`: a yes or a no.
    RespAuthDetails,
    /// `ReqChkTxn`: a question for a status.
    ReqChkTxn,
    /// `RespTxnConfirmation`: the answer to a confirmation.
    RespTxnConfirmation,
    /// A message that a PSP may not send.
    Foreign(Api),
}

/// Who is one of the two parties of a payment.
#[derive(Clone, Copy, Debug, PartialEq, Eq)]
pub enum Who {
    /// `Payer`.
    Payer,
    /// `Payees.Payee[0]`.
    Payee,
}

/// An object in a message.
#[derive(Clone, Copy, Debug, PartialEq, Eq)]
pub enum Part {
    /// What stands behind the root name.
    Root(Root),
    /// `Head`.
    Head(Root),
    /// `Txn`.
    Txn(Root),
    /// `Txn.Rules`.
    Rules(Root),
    /// `Resp`.
    Resp(Root),
    /// `Payees`.
    Payees(Root),
    /// `Payer` or `Payees.Payee[0]`.
    Party(Root, Who),
    /// `Amount` of a party.
    Amount(Root, Who),
    /// `Ac` of a party.
    Ac(Root, Who),
}

/// The name of a member.
#[derive(Clone, Copy, Debug, PartialEq, Eq)]
pub enum Name {
    /// `Ac`: the account of a party.
    Ac,
    /// `addr`: the address of a party.
    Addr,
    /// `addrType`: what an `Ac` names.
    AddrType,
    /// `Amount`.
    Amount,
    /// `curr`: the currency of an `Amount`.
    Curr,
    /// `Detail`: the named values of an `Ac`.
    Detail,
    /// `Head`.
    Head,
    /// `id`: the name of a transaction.
    Id,
    /// `initiationMode`.
    InitiationMode,
    /// `msgId`: the name of a message.
    MsgId,
    /// `name`: the name of a named value.
    Name,
    /// `note`.
    Note,
    /// `orgId`: who sends a message.
    OrgId,
    /// `Payee`: the list of payees.
    Payee,
    /// `Payees`.
    Payees,
    /// `Payer`.
    Payer,
    /// `purpose`.
    Purpose,
    /// `reqMsgId`: the name of the message that is answered.
    ReqMsgId,
    /// `Resp`.
    Resp,
    /// `result`.
    Result,
    /// `Rule`: the named values of `Rules`.
    Rule,
    /// `Rules`.
    Rules,
    /// `ts`: a moment.
    Ts,
    /// `Txn`.
    Txn,
    /// `type`: the kind of a payment.
    Type,
    /// `value`: of an `Amount`, or of a named value.
    Value,
    /// `ver`: a version.
    Ver,
}

/// A place in a message.
#[derive(Clone, Copy, Debug, PartialEq, Eq)]
pub enum Place {
    /// The whole text.
    Text,
    /// An object.
    Part(Part),
    /// A member of an object.
    Member(Part, Name),
    /// An item of a list that is a member. Items are counted from 0.
    Item(Part, Name, usize),
    /// A member of an item.
    InItem(Part, Name, usize, Name),
}

/// A fault: where it is, and which.
#[derive(Clone, Copy, Debug, PartialEq, Eq)]
pub struct Fault {
    /// Where.
    pub place: Place,
    /// Which.
    pub why: MsgWhy,
}

/// The text of a root's name.
pub(crate) fn root_text(root: Root) -> &'static [u8]
    ensures { result.now ≡ Places.root_text root }
{
    match root {
        Root::ReqPay => b"ReqPay",
        Root::RespAuthDetails => b"RespAuthDetails",
        Root::ReqChkTxn => b"ReqChkTxn",
        Root::RespTxnConfirmation => b"RespTxnConfirmation",
        Root::Foreign(api) => api_text(api),
    }
}

/// The text of a member's name.
pub(crate) fn name_text(name: Name) -> &'static str
    ensures { result.now ≡ Places.name_text name }
{
    match name {
        Name::Ac => "Ac",
        Name::Addr => "addr",
        Name::AddrType => "addrType",
        Name::Amount => "Amount",
        Name::Curr => "curr",
        Name::Detail => "Detail",
        Name::Head => "Head",
        Name::Id => "id",
        Name::InitiationMode => "initiationMode",
        Name::MsgId => "msgId",
        Name::Name => "name",
        Name::Note => "note",
        Name::OrgId => "orgId",
        Name::Payee => "Payee",
        Name::Payees => "Payees",
        Name::Payer => "Payer",
        Name::Purpose => "purpose",
        Name::ReqMsgId => "reqMsgId",
        Name::Resp => "Resp",
        Name::Result => "result",
        Name::Rule => "Rule",
        Name::Rules => "Rules",
        Name::Ts => "ts",
        Name::Txn => "Txn",
        Name::Type => "type",
        Name::Value => "value",
        Name::Ver => "ver",
    }
}

// What leads from the root to a party.
fn who_text(who: Who) -> &'static [u8]
    ensures { result.now ≡ Places.who_text who }
{
    match who {
        Who::Payer => b".Payer",
        Who::Payee => b".Payees.Payee[0]",
    }
}

// Appends a root's name, and what leads on from it.
fn push_two(out: &mut Vec<u8>, root: Root, rest: &[u8]) -> Result<(), NoMemory>
    ensures { OnOk result (out.new.items ≡ out.old.items ++ (Places.root_text root ++ rest.now)) }
{
    out.extend_from_slice(root_text(root))?;
    out.extend_from_slice(rest)?;
    Ok(())
}

// Appends a root's name, what leads from it to a party, and what leads on from there.
fn push_three(out: &mut Vec<u8>, root: Root, who: Who, rest: &[u8]) -> Result<(), NoMemory>
    ensures { OnOk result (out.new.items
        ≡ out.old.items ++ (Places.root_text root ++ (Places.who_text who ++ rest.now))) }
{
    push_two(out, root, who_text(who))?;
    out.extend_from_slice(rest)?;
    Ok(())
}

// Appends the path to an object.
fn push_part(out: &mut Vec<u8>, part: Part) -> Result<(), NoMemory>
    ensures { OnOk result (out.new.items ≡ out.old.items ++ Places.part_text part) }
{
    match part {
        Part::Root(root) => push_two(out, root, b""),
        Part::Head(root) => push_two(out, root, b".Head"),
        Part::Txn(root) => push_two(out, root, b".Txn"),
        Part::Rules(root) => push_two(out, root, b".Txn.Rules"),
        Part::Resp(root) => push_two(out, root, b".Resp"),
        Part::Payees(root) => push_two(out, root, b".Payees"),
        Part::Party(root, who) => push_three(out, root, who, b""),
        Part::Amount(root, who) => push_three(out, root, who, b".Amount"),
        Part::Ac(root, who) => push_three(out, root, who, b".Ac"),
    }
}

// Appends the path to a member of an object.
fn push_named(out: &mut Vec<u8>, part: Part, name: Name) -> Result<(), NoMemory>
    ensures { OnOk result (out.new.items ≡ out.old.items ++ Places.member_text part name) }
{
    push_part(out, part)?;
    out.extend_from_slice(b".")?;
    out.extend_from_slice(name_text(name).as_bytes())?;
    Ok(())
}

// Appends the path to an item.
fn push_item(out: &mut Vec<u8>, part: Part, list: Name, index: usize) -> Result<(), NoMemory>
    ensures text { OnOk result (out.new.items ≡ out.old.items ++ Places.item_text part list index) }
    ensures path { OnOk result (Places.IsPathText 79 (Places.item_text part list index)) }
{
    push_named(out, part, list)?;
    out.extend_from_slice(b"[")?;
    let mut buffer = Buffer::new();
    out.extend_from_slice(buffer.format(index).as_bytes())?;
    out.extend_from_slice(b"]")?;
    Ok(())
}

// Appends the path to a member of an item.
fn push_in_item(
    out: &mut Vec<u8>,
    part: Part,
    list: Name,
    index: usize,
    name: Name,
) -> Result<(), NoMemory>
    ensures text { OnOk result (out.new.items
        ≡ out.old.items ++ Places.in_item_text part list index name) }
    ensures path { OnOk result (Places.IsPathText 94 (Places.in_item_text part list index name)) }
{
    push_item(out, part, list, index)?;
    out.extend_from_slice(b".")?;
    out.extend_from_slice(name_text(name).as_bytes())?;
    Ok(())
}

// Appends a path.
#[tactic(auto, unfolding(crate::specs::Places::place_text))]
fn push_place(out: &mut Vec<u8>, place: Place) -> Result<(), NoMemory>
    ensures text { OnOk result (out.new.items ≡ out.old.items ++ Places.place_text place) }
    ensures path { OnOk result (fits 100 is_path (Places.place_text place) ≡ true) }
{
    match place {
        Place::Text => out.extend_from_slice(b"-")?,
        Place::Part(part) => push_part(out, part)?,
        Place::Member(part, name) => push_named(out, part, name)?,
        Place::Item(part, list, index) => push_item(out, part, list, index)?,
        Place::InItem(part, list, index, name) => push_in_item(out, part, list, index, name)?,
    }
    Ok(())
}

/// The fault, with its path as a text. It fails only for want of memory.
pub(crate) fn bad_of(alloc: Global, fault: Fault) -> Result<BadMessage, NoMemory>
    ensures { IfOk result (λ b. b ≡ Places.bad_of fault) }
{
    let mut text = Vec::new(alloc);
    push_place(&mut text, fault.place)?;
    match PathText::read(&text) {
        Some(path) => Ok(BadMessage {
            path,
            why: fault.why,
        }),
        None => unreachable!(),
    }
}
