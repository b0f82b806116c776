//! Plans: what a PSP says, a Late, a message that is lost, and any call.
ghost use Rattle.std.specs.Prelude.{◌≡◌, ◌≤◌, ◌<◌, ℕ, List, [], None, Some, Option, IfOk};
ghost use Rattle.upi_words.specs.Prelude.{Event, Owner, Said, Sent as AMessage, Setup};
ghost use Rattle.upi_base.specs.Shards;
ghost use Rattle.upi_model.specs.History.{heard_from, said_in};
ghost use Rattle.upi_model.specs.Owners.{input_owner, message_owner};
ghost use Rattle.upi_model.specs.Postings.{Answers};
ghost use Rattle.upi_model.specs.Sending.{answers_to};
ghost use Rattle.txn_shard.specs.Rows.{row_at};
ghost use Rattle.txn_shard.specs.Shard.{IsPlanned, MakesAll, event_in, delivered_in, owner_in};
ghost use Rattle.txn_shard.specs.calls.Plans.{quiet, going, IsOpening, word_of as word};

use crate::shard::TxnShard;
use crate::step::{Change, Step};
use std::alloc::Global;
use txn_row::{Row, Turn, question, refusal};
use upi_base::{
    AccountRef, AuthResp, Code, Input, Message, Moment, NoMemory, PayReq, PspName, Reply, SentList,
    ShardCall, TxnId,
};
use upi_model::AuthWord;
use vpa_directory::Directory;

// The same account, where there is one.
fn copy_account(ac: &Option<AccountRef>) -> Option<AccountRef>
    ensures { result ≡ ac.now }
{
    match ac {
        None => None,
        Some(ac) => Some(ac.copy()),
    }
}

// The word of an answer.
fn word_of(answer: &AuthResp) -> AuthWord
    ensures { result ≡ word answer.now }
{
    AuthWord {
        txn: answer.txn.copy(),
        yes: answer.yes,
        amount: answer.amount,
        payer_ac: copy_account(&answer.payer_ac),
        payee_ac: copy_account(&answer.payee_ac),
    }
}

// Nothing but these messages and this reply.
pub(crate) fn still(alloc: Global, reply: Reply, sent: SentList) -> Step
    ensures { result ≡ quiet reply sent }
{
    Step {
        alloc,
        reply,
        sent,
        change: Change::Still,
    }
}

// The step of a turn of a transaction.
pub(crate) fn gone(alloc: Global, txn: &TxnId, turn: Turn) -> Step
    ensures { result ≡ going txn.now turn }
{
    Step {
        alloc,
        reply: turn.reply,
        sent: turn.sent,
        change: Change::Goes(txn.copy(), turn.progress),
    }
}

impl TxnShard {
    // Nothing but this reply.
    pub(crate) fn replied(&self, reply: Reply) -> Step
        ensures { result ≡ quiet reply [] }
    {
        still(self.alloc, reply, SentList::new(self.alloc))
    }

    // A payment of a new name.
    fn open(
        &self,
        dir: &Directory,
        psp: &PspName,
        terms: &PayReq,
        now: Moment,
    ) -> Result<Step, NoMemory>
        requires new { None ≡ row_at self.now.rows terms.now.txn }
        requires room { 0 < self.now.spare }
        ensures planned { IfOk result (λ p. IsPlanned self.now p) }
        ensures makes { IfOk result (λ p. (s : ℕ) → Shards.txn_shard terms.now.txn ≡ s → MakesAll dir.now.lines s self.now.rows (Event.Heard psp.now (Said.Pay terms.now)) None now p) }
    {
        match refusal(dir, self.len(), psp, terms) {
            Some(code) => Ok(self.replied(Reply::Ack(Some(code)))),
            None => self.opened(terms, now),
        }
    }

    // The step of a payment that opens.
    fn opened(&self, terms: &PayReq, now: Moment) -> Result<Step, NoMemory>
        ensures { IfOk result (λ p. IsOpening terms.now now p) }
    {
        let row = Row::begin(terms.copy(), now);
        let sent = question(self.alloc, terms)?;
        Ok(Step {
            alloc: self.alloc,
            reply: Reply::Ack(None),
            sent,
            change: Change::Opens(row),
        })
    }

    // A PSP asks for a payment.
    fn hear_pay(
        &self,
        dir: &Directory,
        psp: &PspName,
        terms: &PayReq,
        now: Moment,
    ) -> Result<Step, NoMemory>
        requires { 0 < self.now.spare }
        ensures planned { IfOk result (λ p. IsPlanned self.now p) }
        ensures makes { IfOk result (λ p. (s : ℕ) → Shards.txn_shard terms.now.txn ≡ s → MakesAll dir.now.lines s self.now.rows (Event.Heard psp.now (Said.Pay terms.now)) None now p) }
    {
        match self.find(&terms.txn) {
            Some(row) => {
                let turn = row.repeated(self.alloc, psp, terms);
                Ok(gone(self.alloc, &terms.txn, turn))
            }
            None => self.open(dir, psp, terms, now),
        }
    }

    // A PSP says yes or no, by a message of its own or as its model.
    pub(crate) fn hear_auth(
        &self,
        dir: &Directory,
        psp: &PspName,
        word: &AuthWord,
        now: Moment,
    ) -> Result<Step, NoMemory>
        requires { 0 < self.now.spare }
        ensures planned { IfOk result (λ p. IsPlanned self.now p) }
        ensures makes { IfOk result (λ p. (s : ℕ) (m : Option AMessage) → ((says : Answers) → [] ≡ answers_to dir.now.lines says m) → MakesAll dir.now.lines s self.now.rows (Event.Heard psp.now (Said.Auth word.now)) m now p) }
    {
        match self.find(&word.txn) {
            Some(row) => {
                let turn = row.hear_auth(self.alloc, dir, psp, word, now)?;
                Ok(gone(self.alloc, &word.txn, turn))
            }
            None => Ok(self.replied(Reply::Ack(Some(Code::NoTxn)))),
        }
    }

    // A PSP asks for a status.
    fn hear_check(&self, psp: &PspName, txn: &TxnId) -> Step
        requires { 0 < self.now.spare }
        ensures planned { IsPlanned self.now result }
        ensures makes { (S : Setup) (s now : ℕ) → MakesAll S s self.now.rows (Event.Heard psp.now (Said.Check txn.now)) None now result }
    {
        match self.find(txn) {
            Some(row) => gone(self.alloc, txn, row.check(self.alloc, psp)),
            None => self.replied(Reply::Ack(Some(Code::NoTxn))),
        }
    }

    // A PSP says that it was told, by a message of its own or as its model.
    pub(crate) fn hear_confirmed(&self, psp: &PspName, txn: &TxnId) -> Step
        requires { 0 < self.now.spare }
        ensures planned { IsPlanned self.now result }
        ensures makes { (S : Setup) (s now : ℕ) (m : Option AMessage) → ((says : Answers) → [] ≡ answers_to S says m) → MakesAll S s self.now.rows (Event.Heard psp.now (Said.Confirmed txn.now)) m now result }
    {
        match self.find(txn) {
            Some(row) => gone(self.alloc, txn, row.confirmed(self.alloc, psp)),
            None => self.replied(Reply::Ack(Some(Code::NoTxn))),
        }
    }

    // A message of a PSP.
    fn hear(
        &self,
        dir: &Directory,
        psp: &PspName,
        message: &Message,
        now: Moment,
    ) -> Result<Step, NoMemory>
        requires { 0 < self.now.spare }
        ensures planned { IfOk result (λ p. IsPlanned self.now p) }
        ensures makes { IfOk result (λ p. (s : ℕ) → message_owner message.now ≡ Owner.Txns s → MakesAll dir.now.lines s self.now.rows (Event.Heard psp.now (said_in message.now)) None now p) }
    {
        match message {
            Message::Pay(terms) => self.hear_pay(dir, psp, terms.get(), now),
            Message::AuthAnswer(answer) => self.hear_auth(dir, psp, &word_of(answer.get()), now),
            Message::Check(question) => Ok(self.hear_check(psp, &question.txn)),
            Message::Confirmed(answer) => Ok(self.hear_confirmed(psp, &answer.get().txn)),
            Message::Foreign {
                api: _api,
                head: _head,
            } => Ok(self.replied(Reply::Ack(Some(Code::NotYours)))),
        }
    }

    // What a PSP says, where there is room.
    fn heard(
        &self,
        dir: &Directory,
        psp: &PspName,
        input: &Input,
        now: Moment,
    ) -> Result<Step, NoMemory>
        requires { 0 < self.now.spare }
        ensures planned { IfOk result (λ p. IsPlanned self.now p) }
        ensures makes { IfOk result (λ p. (s : ℕ) → input_owner input.now ≡ Owner.Txns s → MakesAll dir.now.lines s self.now.rows (heard_from psp.now input.now) None now p) }
    {
        match input {
            Input::Bad(_fault) => Ok(self.replied(Reply::Ack(Some(Code::Format)))),
            Input::Good(message) => self.hear(dir, psp, message, now),
        }
    }

    /// Plans what a PSP says. It takes all memory of the change, and changes nothing but the room.
    pub fn plan_heard(
        &mut self,
        dir: &Directory,
        psp: &PspName,
        input: &Input,
        now: Moment,
    ) -> Result<Step, NoMemory>
        ensures planned { IfOk result (λ p. IsPlanned self.new p) }
        ensures makes { IfOk result (λ p. (s : ℕ) → input_owner input.now ≡ Owner.Txns s → MakesAll dir.now.lines s self.old.rows (heard_from psp.now input.now) None now p) }
        ensures rows { self.new.rows ≡ self.old.rows }
        ensures room { self.old.spare ≤ self.new.spare }
    {
        self.reserve(1)?;
        self.heard(dir, psp, input, now)
    }

    // A look whether a transaction is due, where there is room.
    fn late(&self, dir: &Directory, txn: &TxnId, now: Moment) -> Result<Step, NoMemory>
        requires { 0 < self.now.spare }
        ensures planned { IfOk result (λ p. IsPlanned self.now p) }
        ensures makes { IfOk result (λ p. (s : ℕ) → MakesAll dir.now.lines s self.now.rows (Event.Late txn.now) None now p) }
    {
        match self.find(txn) {
            Some(row) => {
                let turn = row.late(self.alloc, dir, now)?;
                Ok(gone(self.alloc, txn, turn))
            }
            None => Ok(self.replied(Reply::NotDue)),
        }
    }

    /// Plans a look whether a transaction is due. It takes all memory of the change, and changes
    /// nothing but the room.
    pub fn plan_late(&mut self, dir: &Directory, txn: &TxnId, now: Moment) -> Result<Step, NoMemory>
        ensures planned { IfOk result (λ p. IsPlanned self.new p) }
        ensures makes { IfOk result (λ p. (s : ℕ) → MakesAll dir.now.lines s self.old.rows (Event.Late txn.now) None now p) }
        ensures rows { self.new.rows ≡ self.old.rows }
        ensures room { self.old.spare ≤ self.new.spare }
    {
        self.reserve(1)?;
        self.late(dir, txn, now)
    }

    /// Plans that a message is lost. It takes no memory.
    pub fn plan_lost(&self) -> Step
        ensures planned { IsPlanned self.now result }
        ensures makes { (S : Setup) (s now : ℕ) → MakesAll S s self.now.rows Event.Lost None now result }
    {
        self.replied(Reply::Lost)
    }

    /// Plans a call. It takes all memory of the change, and changes nothing but the room. Nothing is
    /// asked of the call: what is said of it holds where the shard owns it.
    pub fn plan(&mut self, dir: &Directory, call: &ShardCall, now: Moment) -> Result<Step, NoMemory>
        ensures planned { IfOk result (λ p. IsPlanned self.new p) }
        ensures makes { IfOk result (λ p. (s : ℕ) → owner_in call.now ≡ Owner.Txns s → MakesAll dir.now.lines s self.old.rows (event_in call.now) (delivered_in call.now) now p) }
        ensures rows { self.new.rows ≡ self.old.rows }
        ensures room { self.old.spare ≤ self.new.spare }
    {
        match call {
            ShardCall::Hear { psp, input } => self.plan_heard(dir, psp, input, now),
            ShardCall::Deliver(message) => self.plan_delivered(dir, message, now),
            ShardCall::Lose(_message) => Ok(self.plan_lost()),
            ShardCall::Late(txn) => self.plan_late(dir, txn, now),
        }
    }
}
