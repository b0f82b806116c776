//! Reading what a PSP sends.
ghost use Rattle.std.specs.Prelude.{◌≡◌, IfOk};
ghost use Rattle.serde_json.specs.Find.{as_object};
ghost use Rattle.json_tree.specs.Spots.{spot_data};
ghost use Rattle.upi_msg.specs.Read;
ghost use Rattle.upi_msg.specs.Members.{Gives};
ghost use Rattle.upi_msg.specs.Typed.{ReadsBack};

use crate::answer::{answer_of, check_of, confirmed_of};
use crate::guess::guessed;
use crate::head::head_of;
use crate::member::object_of;
use crate::pay::pay_of;
use crate::place::{Fault, Part, Place, Root, bad_of};
use json::Scratch;
use json_tree::{Spot, only_member, places, root};
use std::alloc::Global;
use upi_base::{Api, Boxed, Input, Message, MsgWhy, NoMemory};

// The root of a name.
fn root_named(name: &str) -> Option<Root>
    ensures { result ≡ Read.root_named name.now }
{
    if name == "ReqPay" {
        Some(Root::ReqPay)
    } else if name == "RespAuthDetails" {
        Some(Root::RespAuthDetails)
    } else if name == "ReqChkTxn" {
        Some(Root::ReqChkTxn)
    } else if name == "RespTxnConfirmation" {
        Some(Root::RespTxnConfirmation)
    } else if name == "RespPay" {
        Some(Root::Foreign(Api::RespPay))
    } else if name == "ReqAuthDetails" {
        Some(Root::Foreign(Api::ReqAuthDetails))
    } else if name == "RespChkTxn" {
        Some(Root::Foreign(Api::RespChkTxn))
    } else if name == "ReqTxnConfirmation" {
        Some(Root::Foreign(Api::ReqTxnConfirmation))
    } else {
        None
    }
}

// What isn't one member with the name of a root.
fn no_root() -> Fault
    ensures { result ≡ Read.no_root }
{
    Fault {
        place: Place::Text,
        why: MsgWhy::Root,
    }
}

// A member, which has the name of a root.
fn root_and<'t, 'a>(name: &str, body: Spot<'t, 'a>) -> Result<(Root, Spot<'t, 'a>), Fault>
    ensures { Gives (λ p. (p.0, spot_data p.1)) result
        (Read.known (spot_data body.entry) (Read.root_named name.now)) }
{
    match root_named(name) {
        Some(root) => Ok((root, body)),
        None => Err(no_root()),
    }
}

// The one member of a tree, which has the name of a root.
fn root_in<'t, 'a>(value: &Spot<'t, 'a>) -> Result<(Root, Spot<'t, 'a>), Fault>
    ensures { Gives (λ p. (p.0, spot_data p.1)) result
        (Read.root_in (as_object (spot_data value.entry.now))) }
{
    match only_member(value) {
        Some((name, body)) => root_and(name, body),
        None => Err(no_root()),
    }
}

// What is told of a fault.
fn bad_input(alloc: Global, fault: Fault) -> Result<Input, NoMemory>
    ensures { IfOk result (λ i. i ≡ Read.bad_input fault) }
{
    Ok(Input::Bad(bad_of(alloc, fault)?))
}

// What is told of a payment.
fn pay_input(alloc: Global, value: &Spot<'_, '_>) -> Result<Input, NoMemory>
    ensures { IfOk result (λ i. i ≡ Read.judged (Read.body_of Root.ReqPay (spot_data value.now))) }
{
    match pay_of(value) {
        Ok(request) => Ok(Input::Good(Message::Pay(Boxed::new(alloc, request)?))),
        Err(fault) => bad_input(alloc, fault),
    }
}

// What is told of a yes or a no.
fn answer_input(alloc: Global, value: &Spot<'_, '_>) -> Result<Input, NoMemory>
    ensures { IfOk result (λ i. i ≡ Read.judged (Read.body_of Root.RespAuthDetails (spot_data value.now))) }
{
    match answer_of(value) {
        Ok(answer) => Ok(Input::Good(Message::AuthAnswer(Boxed::new(alloc, answer)?))),
        Err(fault) => bad_input(alloc, fault),
    }
}

// What is told of a question for a status.
fn check_input(alloc: Global, value: &Spot<'_, '_>) -> Result<Input, NoMemory>
    ensures { IfOk result (λ i. i ≡ Read.judged (Read.body_of Root.ReqChkTxn (spot_data value.now))) }
{
    match check_of(value) {
        Ok(check) => Ok(Input::Good(Message::Check(check))),
        Err(fault) => bad_input(alloc, fault),
    }
}

// What is told of the answer to a confirmation.
fn confirmed_input(alloc: Global, value: &Spot<'_, '_>) -> Result<Input, NoMemory>
    ensures { IfOk result
        (λ i. i ≡ Read.judged (Read.body_of Root.RespTxnConfirmation (spot_data value.now))) }
{
    match confirmed_of(value) {
        Ok(answer) => Ok(Input::Good(Message::Confirmed(Boxed::new(alloc, answer)?))),
        Err(fault) => bad_input(alloc, fault),
    }
}

// What is told of a message that a PSP may not send.
fn foreign_input(alloc: Global, api: Api, value: &Spot<'_, '_>) -> Result<Input, NoMemory>
    ensures { IfOk result (λ i. i ≡ Read.judged (Read.body_of (Root.Foreign api) (spot_data value.now))) }
{
    match head_of(Root::Foreign(api), value) {
        Ok(head) => Ok(Input::Good(Message::Foreign { api, head })),
        Err(fault) => bad_input(alloc, fault),
    }
}

// What is told of the message of a root.
fn body_input(alloc: Global, root: Root, value: &Spot<'_, '_>) -> Result<Input, NoMemory>
    ensures { IfOk result (λ i. i ≡ Read.judged (Read.body_of root (spot_data value.now))) }
{
    match root {
        Root::ReqPay => pay_input(alloc, value),
        Root::RespAuthDetails => answer_input(alloc, value),
        Root::ReqChkTxn => check_input(alloc, value),
        Root::RespTxnConfirmation => confirmed_input(alloc, value),
        Root::Foreign(api) => foreign_input(alloc, api, value),
    }
}

// The root of a tree, and its body, an object.
#[tactic(auto, unfolding(crate::specs::Read::parts_of))]
fn parts_of<'t, 'a>(value: &Spot<'t, 'a>) -> Result<(Root, Spot<'t, 'a>), Fault>
    ensures { Gives (λ p. (p.0, spot_data p.1)) result (Read.parts_of (spot_data value.entry.now)) }
{
    let (root, body) = root_in(value)?;
    let body = object_of(Place::Part(Part::Root(root)), body)?;
    Ok((root, body))
}

// What is told of a tree.
#[tactic(auto, unfolding(crate::specs::Read::message_of))]
fn tree_input(alloc: Global, value: &Spot<'_, '_>) -> Result<Input, NoMemory>
    ensures { IfOk result (λ i. i ≡ Read.judged (Read.message_of (spot_data value.now))) }
{
    match parts_of(value) {
        Ok((root, body)) => body_input(alloc, root, &body),
        Err(fault) => bad_input(alloc, fault),
    }
}

// What any text says.
fn read_any(alloc: Global, text: &[u8], scratch: &mut Scratch) -> Result<Input, NoMemory>
    ensures { IfOk result (λ i. i ≡ Read.input_of text.now) }
{
    match places(alloc, text, scratch)? {
        Some(tape) => tree_input(alloc, &root(&tape)),
        None => bad_input(
            alloc,
            Fault {
                place: Place::Text,
                why: MsgWhy::Json,
            },
        ),
    }
}

/// Reads what PSPs send. One reader is kept from message to message, with the room that reading
/// takes.
#[derive(Drop)]
pub struct Reader {
    alloc: Global,
    scratch: Scratch,
    // Where a payment that was guessed is written.
    written: Vec<u8>,
}

impl Reader {
    /// A reader without room. It takes what it needs, and keeps it.
    pub fn new(alloc: Global) -> Reader {
        Reader {
            alloc,
            scratch: Scratch::new(alloc),
            written: Vec::new(alloc),
        }
    }

    /// Reads what a PSP sends: a message, or its first fault, with the path to it. What was read
    /// before makes no difference. It fails only for want of memory, and may be called again then.
    pub fn read(&mut self, text: &[u8]) -> Result<Input, NoMemory>
        ensures { IfOk result (λ i. i ≡ Read.input_of text.now) }
    {
        match guessed(self.alloc, text, &mut self.written)? {
            Some(input) => Ok(input),
            None => read_any(self.alloc, text, &mut self.scratch),
        }
    }
}

/// Reads one message, as a new [`Reader`] does.
pub fn read(alloc: Global, text: &[u8]) -> Result<Input, NoMemory>
    ensures { IfOk result (λ i. i ≡ Read.input_of text.now) }
{
    match guessed(alloc, text, &mut Vec::new(alloc))? {
        Some(input) => Ok(input),
        None => read_any(alloc, text, &mut Scratch::new(alloc)),
    }
}

/// A message that is written is read back as it was, in both versions.
pub fn reads_back()
    ensures { ReadsBack }
{}
