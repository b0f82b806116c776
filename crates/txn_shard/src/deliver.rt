//! Plans: the delivery of a message.
ghost use Rattle.std.specs.Prelude.{◌≡◌, ◌≤◌, ◌<◌, ℕ, [], None, Some, Option, IfOk};
ghost use Rattle.upi_words.specs.Prelude.{Event, Owner, Reply as AReply, Said, Sent as AMessage};
ghost use Rattle.upi_model.specs.History.{read_message, said_by};
ghost use Rattle.upi_model.specs.Owners.{delivered_owner};
ghost use Rattle.upi_model.specs.Postings.{Answers};
ghost use Rattle.upi_model.specs.Sending.{answers_to};
ghost use Rattle.psp_role.specs.Roles.{answer_of};
ghost use Rattle.txn_shard.specs.Shard.{IsPlanned, MakesAll};
ghost use Rattle.txn_shard.specs.calls.Plans.{quiet};

use crate::plan::{gone, still};
use crate::shard::TxnShard;
use crate::step::Step;
use psp_role::answer;
use upi_base::{
    Answer, Body, Leg, Moment, NoMemory, Paise, Party, PspName, Reply, Sent, SentList, TxnId,
};
use upi_model::AuthWord;
use vpa_directory::Directory;

// The word of a model PSP, which gives no accounts.
fn model_word(txn: &TxnId, amount: Paise, yes: bool) -> AuthWord
    ensures { result ≡ record { txn = txn.now; yes = yes; amount = amount; payer_ac = None; payee_ac = None } }
{
    AuthWord {
        txn: txn.copy(),
        yes,
        amount,
        payer_ac: None,
        payee_ac: None,
    }
}

impl TxnShard {
    // A message is told to its receiver, which may answer.
    fn told(&self, dir: &Directory, message: &Sent) -> Result<Step, NoMemory>
        ensures { IfOk result (λ p. p ≡ quiet AReply.Told (answer_of dir.now.lines message.now)) }
    {
        let mut items = Vec::new(self.alloc);
        if let Some(answered) = answer(dir, message) {
            items.push(answered)?;
        }
        Ok(still(self.alloc, Reply::Told, SentList::of(items)))
    }

    // A bank's answer to a leg.
    fn hear_leg(
        &self,
        dir: &Directory,
        txn: &TxnId,
        leg: Leg,
        answer: Answer,
        now: Moment,
    ) -> Result<Step, NoMemory>
        requires { 0 < self.now.spare }
        ensures planned { IfOk result (λ p. IsPlanned self.now p) }
        ensures makes { IfOk result (λ p. (s : ℕ) (m : Option AMessage) → ((says : Answers) → [] ≡ answers_to dir.now.lines says m) → MakesAll dir.now.lines s self.now.rows (Event.Answered txn.now leg answer) m now p) }
    {
        match self.find(txn) {
            Some(row) => {
                let turn = row.hear_leg(self.alloc, dir, leg, answer, now)?;
                Ok(gone(self.alloc, txn, turn))
            }
            None => Ok(self.replied(Reply::Ack(None))),
        }
    }

    // A model PSP's word, if a PSP sent it.
    fn model_says(
        &self,
        dir: &Directory,
        message: &Sent,
        word: &AuthWord,
        now: Moment,
    ) -> Result<Step, NoMemory>
        requires answers { (says : Answers) → [] ≡ answers_to dir.now.lines says (Some message.now) }
        requires room { 0 < self.now.spare }
        ensures planned { IfOk result (λ p. IsPlanned self.now p) }
        ensures makes { IfOk result (λ p. (s : ℕ) → MakesAll dir.now.lines s self.now.rows (said_by message.now.from (Said.Auth word.now)) (Some message.now) now p) }
    {
        match &message.from {
            Party::Psp(psp) => self.hear_auth(dir, psp, word, now),
            Party::Bank(_bank) => self.told(dir, message),
            Party::Switch => self.told(dir, message),
        }
    }

    // A model PSP's answer to a confirmation, if a PSP sent it.
    fn model_was_told(&self, dir: &Directory, message: &Sent, txn: &TxnId) -> Result<Step, NoMemory>
        requires answers { (says : Answers) → [] ≡ answers_to dir.now.lines says (Some message.now) }
        requires room { 0 < self.now.spare }
        ensures planned { IfOk result (λ p. IsPlanned self.now p) }
        ensures makes { IfOk result (λ p. (s now : ℕ) → MakesAll dir.now.lines s self.now.rows (said_by message.now.from (Said.Confirmed txn.now)) (Some message.now) now p) }
    {
        match &message.from {
            Party::Psp(psp) => Ok(self.hear_confirmed(psp, txn)),
            Party::Bank(_bank) => self.told(dir, message),
            Party::Switch => self.told(dir, message),
        }
    }

    // The delivery of a message, where there is room.
    fn delivered(&self, dir: &Directory, message: &Sent, now: Moment) -> Result<Step, NoMemory>
        requires { 0 < self.now.spare }
        ensures planned { IfOk result (λ p. IsPlanned self.now p) }
        ensures makes { IfOk result (λ p. (s : ℕ) → delivered_owner (Some message.now) ≡ Owner.Txns s → MakesAll dir.now.lines s self.now.rows (read_message (Some message.now)) (Some message.now) now p) }
    {
        match &message.body {
            Body::RespAuth { txn, amount, yes } => {
                self.model_says(dir, message, &model_word(txn, *amount, *yes), now)
            }
            Body::Confirmed { txn } => self.model_was_told(dir, message, txn),
            Body::LegAnswer { txn, leg, answer } => self.hear_leg(dir, txn, *leg, *answer, now),
            Body::ReqAuth(_question) => self.told(dir, message),
            Body::Result {
                txn: _txn,
                kind: _kind,
                outcome: _outcome,
                req_msg: _req_msg,
            } => self.told(dir, message),
            Body::Confirm {
                txn: _txn,
                kind: _kind,
                outcome: _outcome,
            } => self.told(dir, message),
            Body::Order {
                txn: _txn,
                leg: _leg,
                amount: _amount,
                ac: _ac,
                addr: _addr,
                extra: _extra,
            } => self.told(dir, message),
        }
    }

    /// Plans the delivery of a message. It takes all memory of the change, and changes nothing but
    /// the room. An order to a bank is never the shard's.
    pub fn plan_delivered(
        &mut self,
        dir: &Directory,
        message: &Sent,
        now: Moment,
    ) -> Result<Step, NoMemory>
        ensures planned { IfOk result (λ p. IsPlanned self.new p) }
        ensures makes { IfOk result (λ p. (s : ℕ) → delivered_owner (Some message.now) ≡ Owner.Txns s → MakesAll dir.now.lines s self.old.rows (read_message (Some message.now)) (Some message.now) now p) }
        ensures rows { self.new.rows ≡ self.old.rows }
        ensures room { self.old.spare ≤ self.new.spare }
    {
        self.reserve(1)?;
        self.delivered(dir, message, now)
    }
}
