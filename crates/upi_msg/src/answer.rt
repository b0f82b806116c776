//! Reading what a PSP answers or asks.
ghost use Rattle.std.specs.Prelude.{◌≡◌, option_map};
ghost use Rattle.json_tree.specs.Spots.{spot_data};
ghost use Rattle.upi_msg.specs.Answering;

use crate::head::head_of;
use crate::member::{object_in, object_of, of_value, small_in, text_at};
use crate::party::{account_in, amount_in, payee_of};
use crate::place::{Fault, Name, Part, Place, Root, Who};
use json_tree::{Spot, member};
use upi_base::{AccountRef, AuthResp, Chk, ConfResp, MsgId, TxnId};

// The yes or no of a word.
fn result_named(text: &str) -> Option<bool>
    ensures { result ≡ Answering.result_named text.now }
{
    if text == "SUCCESS" {
        Some(true)
    } else if text == "FAILURE" {
        Some(false)
    } else {
        None
    }
}

// `result`.
#[tactic(auto, unfolding(crate::specs::Answering::result_in))]
fn result_in(part: Part, value: &Spot<'_, '_>) -> Result<bool, Fault>
    ensures { result ≡ Answering.result_in part (spot_data value.now) }
{
    let place = Place::Member(part, Name::Result);
    let text = text_at(place, Name::Result, value)?;
    of_value(place, result_named(text))
}

// `Txn`, of which the id is read.
#[tactic(auto, unfolding(crate::specs::Answering::txn_in))]
fn txn_in(root: Root, value: &Spot<'_, '_>) -> Result<TxnId, Fault>
    ensures { result ≡ Answering.txn_in root (spot_data value.now) }
{
    let txn = object_in(Part::Root(root), Name::Txn, value)?;
    small_in(Part::Txn(root), Name::Id, &txn)
}

// `Payees`, of which the account is read.
#[tactic(auto, unfolding(crate::specs::Answering::payees_of))]
fn payees_of(root: Root, value: Spot<'_, '_>) -> Result<Option<AccountRef>, Fault>
    ensures { result ≡ Answering.payees_of root (spot_data value.entry) }
{
    let payees = object_of(Place::Member(Part::Root(root), Name::Payees), value)?;
    let payee = payee_of(root, &payees)?;
    account_in(root, Who::Payee, &payee)
}

// `Payees`, which may be there.
fn payees_in(root: Root, value: &Spot<'_, '_>) -> Result<Option<AccountRef>, Fault>
    ensures { result ≡ Answering.payees_in root (spot_data value.now) }
{
    match member(value, "Payees") {
        None => Ok(None),
        Some(payees) => payees_of(root, payees),
    }
}

/// A `RespAuthDetails`.
#[tactic(auto, unfolding(crate::specs::Answering::answer_of))]
pub(crate) fn answer_of(value: &Spot<'_, '_>) -> Result<AuthResp, Fault>
    ensures { result ≡ Answering.answer_of (spot_data value.now) }
{
    let root = Root::RespAuthDetails;
    let head = head_of(root, value)?;
    let resp = object_in(Part::Root(root), Name::Resp, value)?;
    let req_msg: MsgId = small_in(Part::Resp(root), Name::ReqMsgId, &resp)?;
    let yes = result_in(Part::Resp(root), &resp)?;
    let txn = txn_in(root, value)?;
    let payer = object_in(Part::Root(root), Name::Payer, value)?;
    let amount = amount_in(root, Who::Payer, &payer)?;
    let payer_ac = account_in(root, Who::Payer, &payer)?;
    let payee_ac = payees_in(root, value)?;
    Ok(AuthResp {
        head,
        req_msg,
        txn,
        yes,
        amount,
        payer_ac,
        payee_ac,
    })
}

/// A `ReqChkTxn`.
#[tactic(auto, unfolding(crate::specs::Answering::check_of))]
pub(crate) fn check_of(value: &Spot<'_, '_>) -> Result<Chk, Fault>
    ensures { result ≡ Answering.check_of (spot_data value.now) }
{
    let head = head_of(Root::ReqChkTxn, value)?;
    let txn = txn_in(Root::ReqChkTxn, value)?;
    Ok(Chk { head, txn })
}

/// A `RespTxnConfirmation`.
#[tactic(auto, unfolding(crate::specs::Answering::confirmed_of))]
pub(crate) fn confirmed_of(value: &Spot<'_, '_>) -> Result<ConfResp, Fault>
    ensures { result ≡ Answering.confirmed_of (spot_data value.now) }
{
    let root = Root::RespTxnConfirmation;
    let head = head_of(root, value)?;
    let resp = object_in(Part::Root(root), Name::Resp, value)?;
    let req_msg: MsgId = small_in(Part::Resp(root), Name::ReqMsgId, &resp)?;
    let txn = txn_in(root, value)?;
    Ok(ConfResp { head, req_msg, txn })
}
