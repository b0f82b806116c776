//! The shard: its postings, and the calls on it.
ghost use Rattle.std.specs.Prelude.{◌≡◌, ◌&&◌, ◌+◌, ◌<◌, ◌≤◌, ◌∷◌, ◌++◌, [], ℕ, List, Some, None, true, false, length, IsOk, IfOk, OnOk, OnErr, IsSomeAnd};
ghost use Rattle.std.specs.Option.{option_and_then};
ghost use Rattle.upi_words.specs.Prelude.{Setup, History, Entry, Call, Order, Owner, Legal, is_closed, is_posted};
ghost use Rattle.upi_base.specs.Shards.{account_shard};
ghost use Rattle.upi_model.specs.Accounts.{order_of, more, own_orders, kept, kept_answer};
ghost use Rattle.upi_model.specs.History.{message_at};
ghost use Rattle.upi_model.specs.Own.{Deed, own_deeds};
ghost use Rattle.bank_book.specs.Book.{holding_of, balance_of};
ghost use Rattle.leg_post.specs.Posts.{says, is_first, opening};
ghost use Rattle.account_shard.specs.Closing.{AreReturns};
ghost use Rattle.account_shard.specs.Shard.{Stands, IsBookOf, CanPost, IsPlanned, IsAnswer, IsLocalPlan, IsPlanOf, IsAfter, line_of, moved_on, balance_after, balance_at};

use crate::orders::{answer_message, order_in};
use crate::step::Step;
use leg_post::Posts;
use std::alloc::Global;
use std::marker::Model;
use upi_base::limits::MAX_AMOUNT;
use upi_base::{Account, AccountRef, Answer, Leg, NoMemory, Paise, Reply, Sent, TxnId};
use upi_model::Order as AnOrder;

/// A shard of accounts. Contracts see its ledger: the legs that arrived, the book as it is now, and
/// how many legs more there is room for.
#[derive(Drop)]
pub struct AccountShard {
    alloc: Global,
    posts: Posts,
}

impl Model for AccountShard {
    ghost use Rattle.leg_post.specs.Posts.{Ledger};

    ghost Value = { Ledger };

    ghost view = { λ a. a.posts };
}

// Whether a leg was posted.
fn is_made(answer: Answer) -> bool
    ensures { result ≡ is_posted (Some answer) }
{
    match answer {
        Answer::Posted => true,
        Answer::Declined(_code) => false,
    }
}

impl AccountShard {
    /// The shard of these postings, of which there are none yet. `alloc` serves what it will plan.
    pub fn new(alloc: Global, posts: Posts) -> AccountShard
        requires { posts.legs ≡ [] }
        ensures ledger { result ≡ posts }
        ensures stands { (S : Setup) (s : ℕ) → IsBookOf S s posts.book → Stands S s [] result }
    {
        AccountShard { alloc, posts }
    }

    /// Adds an account, before the first order. Condition: it isn't there, and no leg is kept. It
    /// fails only for want of memory, and then changes nothing.
    pub fn open(&mut self, account: Account) -> Result<(), NoMemory>
        requires free { holding_of self.old.book account.ac ≡ None }
        requires before { self.old.legs ≡ [] }
        ensures ok { OnOk result (self.new ≡ record self.old { book = self.old.book ++ (account.ac, opening account) ∷ [] }) }
        ensures err { OnErr result (self.new ≡ self.old) }
        ensures stands { OnOk result ((S : Setup) → Stands S (account_shard account.ac) [] self.old → Stands (S ++ line_of account ∷ []) (account_shard account.ac) [] self.new) }
    {
        self.posts.open(account)
    }

    /// Makes room for `n` legs more. It fails only for want of memory; legs and book stay either way.
    pub fn reserve(&mut self, n: usize) -> Result<(), NoMemory>
        ensures ok { OnOk result (n ≤ self.new.spare) }
        ensures ready { n ≤ self.old.spare → IsOk result }
        ensures legs { self.new.legs ≡ self.old.legs }
        ensures book { self.new.book ≡ self.old.book }
        ensures room { self.old.spare ≤ self.new.spare }
    {
        self.posts.reserve(n)
    }

    /// How many legs more there is room for.
    pub fn spare(&self) -> usize
        ensures { result ≡ self.now.spare }
    {
        self.posts.spare()
    }

    /// How many legs have arrived.
    pub fn kept(&self) -> usize
        ensures { result ≡ length self.now.legs }
    {
        self.posts.kept()
    }

    /// How a leg was answered, if an order for it has arrived here. It takes no memory.
    #[tactic(auto, using(crate::proofs::Stays::answered_stands))]
    pub fn answered(&self, txn: &TxnId, leg: Leg) -> Option<Answer>
        ensures ledger { result ≡ kept_answer self.now.legs txn.now leg }
        ensures definition { (S : Setup) (s : ℕ) (orders : List Order) → Stands S s orders self.now → result ≡ kept_answer (kept S orders) txn.now leg }
    {
        self.posts.answered(txn, leg)
    }

    // How an order is answered now, and whether it moves its amount.
    #[tactic(auto, using(crate::proofs::Planned::said_before, crate::proofs::Planned::moves_no_more, crate::proofs::Planned::moves_first))]
    fn say(&self, order: &AnOrder) -> (Answer, bool)
        requires { CanPost self.now order.now }
        ensures answer { Some result.0 ≡ says self.now order.now }
        ensures moves { result.1 ≡ (is_first self.now.legs order.now && is_posted (Some result.0)) }
    {
        if let Some(answer) = self.posts.answered(&order.txn, order.its_leg) {
            return (answer, false);
        }
        let answer = self
            .posts
            .look(&order.txn, order.its_leg, &order.ac, order.amount);
        (answer, is_made(answer))
    }

    // The step of an order, where there is room.
    fn planned(&self, message: &Sent, order: AnOrder) -> Result<Step, NoMemory>
        requires order { order_of message.now.body ≡ Some order }
        requires fits { CanPost self.now order }
        requires room { 0 < self.now.spare }
        ensures planned { IfOk result (λ x. IsPlanned self.now x) }
        ensures answer { IfOk result (λ x. IsAnswer message.now x) }
    {
        let (answer, moves) = self.say(&order);
        let sent = answer_message(self.alloc, message, &order, answer)?;
        let moved = moves.then_some((order.its_leg, order.amount));
        Ok(Step {
            alloc: self.alloc,
            order,
            answer,
            moved,
            reply: Reply::Leg(answer),
            sent,
        })
    }

    /// Whether a message is an order that can be posted here: its account is there, its amount is
    /// within an order's, and there are not too many legs.
    pub fn can_post(&self, order: &Sent) -> bool
        ensures then { result ≡ true → IsSomeAnd (order_of order.now.body) (λ o. CanPost self.now o) }
        ensures only { IsSomeAnd (order_of order.now.body) (λ o. CanPost self.now o) → result ≡ true }
    {
        let Some(order) = order_in(order) else {
            return false;
        };
        let there = self.posts.book().find(&order.ac).is_some();
        there && order.amount.get() <= MAX_AMOUNT && self.posts.kept() < 1 << 31
    }

    /// Plans the delivery of an order. It takes all memory of the change, and changes nothing but
    /// the room. Condition: the message is an order that can be posted here, as each is that a legal
    /// history has sent to an account of the shard.
    pub fn plan(&mut self, order: &Sent) -> Result<Step, NoMemory>
        requires { IsSomeAnd (order_of order.now.body) (λ o. CanPost self.old o) }
        ensures planned { IfOk result (λ x. IsPlanned self.new x) }
        ensures answer { IfOk result (λ x. IsAnswer order.now x) }
        ensures local { IfOk result (λ x. (S : Setup) (s : ℕ) (mine : List Deed) (now : ℕ) → Stands S s (own_orders mine) self.old → IsLocalPlan S mine order.now now x) }
        ensures legal { IfOk result (λ x. (S : Setup) (h : History) (n now : ℕ) → Legal S h → is_closed h ≡ false → message_at h n ≡ Some order.now
            → Stands S (account_shard x.order.ac) (own_orders (own_deeds (Owner.Accounts (account_shard x.order.ac)) h)) self.old → IsPlanOf S h n now x) }
        ensures legs { self.new.legs ≡ self.old.legs }
        ensures book { self.new.book ≡ self.old.book }
        ensures room { self.old.spare ≤ self.new.spare }
    {
        self.posts.reserve(1)?;
        let asked = order_in(order).unwrap();
        self.planned(order, asked)
    }

    /// Commits what was planned here. It takes no memory, and always succeeds.
    pub fn commit(&mut self, step: Step)
        requires { IsPlanned self.old step }
        ensures after { IsAfter self.old step.order self.new }
        ensures stands { (S : Setup) (s : ℕ) (orders : List Order) → Stands S s orders self.old → Stands S s (step.order ∷ orders) self.new }
    {
        let order = step.order;
        self.posts
            .post(order.txn, order.its_leg, &order.ac, order.amount);
    }

    /// Posts an order that a Close makes arrive, and says what it moved, if it moved anything. It
    /// takes no memory.
    pub fn arrive(&mut self, order: Sent) -> Option<Paise>
        requires order { IsSomeAnd (order_of order.body) (λ o. CanPost self.old o) }
        requires room { 0 < self.old.spare }
        ensures moved { result ≡ option_and_then (moved_on self.old) (order_of order.body) }
        ensures after { IsSomeAnd (order_of order.body) (λ o. IsAfter self.old o self.new) }
        ensures room { self.old.spare ≤ self.new.spare + 1 }
        ensures stands { (S : Setup) (s : ℕ) (orders : List Order) → Stands S s orders self.old → Stands S s (more (order_of order.body) orders) self.new }
    {
        let asked = order_in(&order).unwrap();
        let amount = asked.amount;
        let first = self.posts.answered(&asked.txn, asked.its_leg).is_none();
        let answer = self.posts.post(asked.txn, asked.its_leg, &asked.ac, amount);
        (first && is_made(answer)).then_some(amount)
    }

    /// What an account has, in paise; `None` exactly where it isn't this shard's.
    pub fn balance(&self, ac: &AccountRef) -> Option<u64>
        ensures book { result ≡ balance_of self.now.book ac.now }
        ensures definition { (S : Setup) (s : ℕ) (orders : List Order) → Stands S s orders self.now → result ≡ balance_after S s orders ac.now }
        ensures legal { (S : Setup) (s : ℕ) (h : History) → Legal S h → is_closed h ≡ false → Stands S s (own_orders (own_deeds (Owner.Accounts s) h)) self.now → result ≡ balance_at S s h ac.now }
        ensures closed { (S : Setup) (s : ℕ) (h : History) (e : Entry) (rs : List Order) → Legal S h → is_closed h ≡ false → e.call ≡ Call.Close → AreReturns S s h rs
            → Stands S s (rs ++ own_orders (own_deeds (Owner.Accounts s) h)) self.now → result ≡ balance_at S s (e ∷ h) ac.now }
    {
        self.posts.book().balance(ac)
    }
}
