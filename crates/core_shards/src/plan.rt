//! Plans: each call by the shard that owns it.
ghost use Rattle.std.specs.Prelude.{◌≡◌, ◌<◌, ℕ, Option, Some, None, true, false, is_some, IfOk, IsSomeAnd};
ghost use Rattle.std.specs.Option.{option_copied};
ghost use Rattle.upi_words.specs.Prelude.{Call as ACall, Sent as ASent, History, is_closed};
ghost use Rattle.upi_model.specs.Accounts.{order_of};
ghost use Rattle.upi_model.specs.Owners.{message_of};
ghost use Rattle.bank_shards.specs.Banks.{CanPostIn};
ghost use Rattle.core_shards.specs.Steps.{CanOrder, CanPlan, IsDefined, IsPlannedAt, IsStep, IsStepOf};
ghost use Rattle.core_shards.specs.Tables.{IsSame, StandsAll};

use crate::step::Step;
use crate::tables::CoreShards;
use upi_base::{Body, Call, Input, Moment, NoMemory, PspName, Sent, TxnId};

// Whether a message is an order to a bank.
fn is_order(message: &Sent) -> bool
    ensures { result ≡ is_some (order_of message.now.body) }
{
    match &message.body {
        Body::Order {
            txn: _txn,
            leg: _leg,
            amount: _amount,
            ac: _ac,
            addr: _addr,
            extra: _extra,
        } => true,
        _ => false,
    }
}

impl CoreShards {
    // Plans what a PSP says.
    fn plan_heard(&mut self, psp: &PspName, input: &Input, now: Moment) -> Result<Step, NoMemory>
        ensures planned { IfOk result (λ x. IsPlannedAt self.new.txns self.new.banks x) }
        ensures step { IfOk result (λ x. (m : Option ASent) → IsStepOf self.old (ACall.Hear psp.now input.now) m now x) }
        ensures defined { IfOk result (λ x. (h : History) → StandsAll h self.old → is_closed h ≡ false → IsDefined self.old.lines h (ACall.Hear psp.now input.now) now x) }
        ensures same { IsSame self.old self.new }
        ensures opened { self.new.opened ≡ self.old.opened }
    {
        let step = self.txns.plan_heard(&self.dir, psp, input, now)?;
        Ok(Step::Txn(step))
    }

    // Plans a look whether a transaction is due.
    fn plan_late(&mut self, txn: &TxnId, now: Moment) -> Result<Step, NoMemory>
        ensures planned { IfOk result (λ x. IsPlannedAt self.new.txns self.new.banks x) }
        ensures step { IfOk result (λ x. (m : Option ASent) → IsStepOf self.old (ACall.Late txn.now) m now x) }
        ensures defined { IfOk result (λ x. (h : History) → StandsAll h self.old → is_closed h ≡ false → IsDefined self.old.lines h (ACall.Late txn.now) now x) }
        ensures same { IsSame self.old self.new }
        ensures opened { self.new.opened ≡ self.old.opened }
    {
        let step = self.txns.plan_late(&self.dir, txn, now)?;
        Ok(Step::Txn(step))
    }

    // Plans the delivery of an order.
    fn plan_order(&mut self, message: &Sent, now: Moment) -> Result<Step, NoMemory>
        requires { IsSomeAnd (order_of message.now.body) (λ o. CanPostIn self.old.banks o) }
        ensures planned { IfOk result (λ x. IsPlannedAt self.new.txns self.new.banks x) }
        ensures step { IfOk result (λ x. (n : ℕ) → IsStepOf self.old (ACall.Deliver n) (Some message.now) now x) }
        ensures defined { IfOk result (λ x. (h : History) (n : ℕ) → StandsAll h self.old → is_closed h ≡ false → message_of h (ACall.Deliver n) ≡ Some message.now → IsDefined self.old.lines h (ACall.Deliver n) now x) }
        ensures same { IsSame self.old self.new }
        ensures opened { self.new.opened ≡ self.old.opened }
    {
        let _now = now;
        let step = self.banks.plan(message)?;
        Ok(Step::Leg(step))
    }

    // Plans the delivery of any other message.
    fn plan_other(&mut self, message: &Sent, now: Moment) -> Result<Step, NoMemory>
        requires { order_of message.now.body ≡ None }
        ensures planned { IfOk result (λ x. IsPlannedAt self.new.txns self.new.banks x) }
        ensures step { IfOk result (λ x. (n : ℕ) → IsStepOf self.old (ACall.Deliver n) (Some message.now) now x) }
        ensures defined { IfOk result (λ x. (h : History) (n : ℕ) → StandsAll h self.old → is_closed h ≡ false → message_of h (ACall.Deliver n) ≡ Some message.now → IsDefined self.old.lines h (ACall.Deliver n) now x) }
        ensures same { IsSame self.old self.new }
        ensures opened { self.new.opened ≡ self.old.opened }
    {
        let step = self.txns.plan_delivered(&self.dir, message, now)?;
        Ok(Step::Txn(step))
    }

    // Plans the delivery of a message.
    fn plan_delivered(&mut self, message: &Sent, now: Moment) -> Result<Step, NoMemory>
        requires { CanOrder self.old.banks (order_of message.now.body) }
        ensures planned { IfOk result (λ x. IsPlannedAt self.new.txns self.new.banks x) }
        ensures step { IfOk result (λ x. (n : ℕ) → IsStepOf self.old (ACall.Deliver n) (Some message.now) now x) }
        ensures defined { IfOk result (λ x. (h : History) (n : ℕ) → StandsAll h self.old → is_closed h ≡ false → message_of h (ACall.Deliver n) ≡ Some message.now → IsDefined self.old.lines h (ACall.Deliver n) now x) }
        ensures same { IsSame self.old self.new }
        ensures opened { self.new.opened ≡ self.old.opened }
    {
        if is_order(message) {
            self.plan_order(message, now)
        } else {
            self.plan_other(message, now)
        }
    }

    // Plans that a message is lost.
    fn plan_lost(&self, message: &Sent) -> Step
        ensures planned { IsPlannedAt self.now.txns self.now.banks result }
        ensures step { (n now : ℕ) → IsStepOf self.now (ACall.Lose n) (Some message.now) now result }
        ensures defined { (h : History) (n now : ℕ) → StandsAll h self.now → is_closed h ≡ false → message_of h (ACall.Lose n) ≡ Some message.now → IsDefined self.now.lines h (ACall.Lose n) now result }
    {
        Step::Txn(self.txns.plan_lost(message))
    }

    // Whether the delivery of a message can be planned.
    fn can_deliver(&self, message: &Sent) -> bool
        ensures then { result ≡ true → CanOrder self.now.banks (order_of message.now.body) }
        ensures only { CanOrder self.now.banks (order_of message.now.body) → result ≡ true }
    {
        if is_order(message) {
            self.banks.can_post(message)
        } else {
            true
        }
    }

    /// Whether a call can be planned with this message: it is no Close, it has the message that it
    /// names, and an order can be posted.
    pub fn can_plan(&self, call: &Call, message: Option<&Sent>) -> bool
        ensures then { result ≡ true → CanPlan self.now.banks call.now (option_copied message.entry) }
        ensures only { CanPlan self.now.banks call.now (option_copied message.entry) → result ≡ true }
    {
        match call {
            Call::Hear {
                psp: _psp,
                input: _input,
            } => true,
            Call::Late(_txn) => true,
            Call::Deliver(_n) => match message {
                Some(message) => self.can_deliver(message),
                None => false,
            },
            Call::Lose(_n) => message.is_some(),
            Call::Close => false,
        }
    }

    // Plans a call by the shard that owns it.
    fn plan_call(
        &mut self,
        call: &Call,
        message: Option<&Sent>,
        now: Moment,
    ) -> Result<Step, NoMemory>
        requires { CanPlan self.old.banks call.now (option_copied message) }
        ensures planned { IfOk result (λ x. IsPlannedAt self.new.txns self.new.banks x) }
        ensures step { IfOk result (λ x. IsStepOf self.old call.now (option_copied message.entry) now x) }
        ensures defined { IfOk result (λ x. (h : History) → StandsAll h self.old → is_closed h ≡ false → message_of h call.now ≡ option_copied message.entry → IsDefined self.old.lines h call.now now x) }
        ensures same { IsSame self.old self.new }
        ensures opened { self.new.opened ≡ self.old.opened }
    {
        match call {
            Call::Hear { psp, input } => self.plan_heard(psp, input, now),
            Call::Late(txn) => self.plan_late(txn, now),
            Call::Deliver(_n) => self.plan_delivered(message.unwrap(), now),
            Call::Lose(_n) => Ok(self.plan_lost(message.unwrap())),
            Call::Close => unreachable!(),
        }
    }

    /// Plans a call, with the message that it is about. It takes all memory of the change, and
    /// changes nothing but room. Condition: the call is no Close, it has its message, and an order
    /// can be posted, as all that may come after a history without a Close can be.
    pub fn plan(
        &mut self,
        call: &Call,
        message: Option<&Sent>,
        now: Moment,
    ) -> Result<Step, NoMemory>
        requires { CanPlan self.old.banks call.now (option_copied message) }
        ensures planned { IfOk result (λ x. IsStep self.new x) }
        ensures step { IfOk result (λ x. IsStepOf self.new call.now (option_copied message.entry) now x) }
        ensures defined { IfOk result (λ x. (h : History) → StandsAll h self.old → is_closed h ≡ false → message_of h call.now ≡ option_copied message.entry → IsDefined self.old.lines h call.now now x) }
        ensures lines { self.new.lines ≡ self.old.lines }
        ensures same { (h : History) → StandsAll h self.old → StandsAll h self.new }
    {
        self.opened.reserve()?;
        self.plan_call(call, message, now)
    }
}
