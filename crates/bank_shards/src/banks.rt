//! The sixteen shards, and the calls on them.
ghost use Rattle.std.specs.Prelude.{◌≡◌, ◌+◌, ◌∷◌, ◌++◌, [], ℕ, List, Some, None, true, false, map, length, IfOk, OnOk, IsSomeAnd};
ghost use Rattle.std.specs.List.{AllByRecursion};
ghost use Rattle.upi_base.specs.Setup.{is_setup, account_at};
ghost use Rattle.upi_words.specs.Prelude.{Setup, History, Order, Opening, Account as AnAccount, Legal, is_closed, opening};
ghost use Rattle.upi_model.specs.Accounts.{order_of};
ghost use Rattle.upi_model.specs.History.{message_at};
ghost use Rattle.upi_model.specs.Postings.{answer, posted_at};
ghost use Rattle.account_shard.specs.Shard.{IsAnswer, IsPlanOf, line_of};
ghost use Rattle.bank_shards.specs.Banks.{StandAll, HasRoom, HasNoLeg, IsFresh, CanTake, CanPostIn, IsPlannedIn, answer_all, holding_in, with_order, with_one, with_messages, without_room, balance_all};
ghost use Rattle.bank_shards.specs.Histories.{orders_in, balance_named};

use crate::orders::{account_in, place_of};
use account_shard::{AccountShard, Step};
use bank_book::Book;
use leg_post::Posts;
use std::alloc::Global;
use std::hash::RandomState;
use std::marker::Model;
use upi_base::{Account, AccountRef, Answer, Leg, NoMemory, Sent, SetupLine, TxnId, account_shard};
use vpa_directory::Directory;

/// The sixteen shards of accounts. Contracts see the list of their ledgers.
#[derive(Drop)]
pub struct BankShards {
    shards: Vec<AccountShard>,
}

impl Model for BankShards {
    ghost use Rattle.std.specs.Prelude.{List, ◌≡◌, length};
    ghost use Rattle.leg_post.specs.Posts.{Ledger};

    ghost Value = { List Ledger };

    ghost view = { λ b. b.shards.items };

    ghost invariant = { λ b. length b.shards.items ≡ 16 };
}

// A shard with no account and no leg.
fn fresh(alloc: Global, hashes: RandomState) -> AccountShard
    ensures legs { result.legs ≡ [] }
    ensures book { result.book ≡ [] }
{
    let book = Book::new(alloc, hashes);
    AccountShard::new(alloc, Posts::new(alloc, hashes, book))
}

// Appends so many fresh shards.
fn fill(
    alloc: Global,
    hashes: RandomState,
    shards: &mut Vec<AccountShard>,
    count: usize,
) -> Result<(), NoMemory>
    requires { AllByRecursion IsFresh shards.old.items }
    ensures count { OnOk result (length shards.new.items ≡ length shards.old.items + count) }
    ensures fresh { AllByRecursion IsFresh shards.new.items }
{
    for _made in 0..count {
        shards.push(fresh(alloc, hashes))?;
    }
    Ok(())
}

// Makes room for so many legs more in each of these shards.
fn reserve_each(shards: &mut Vec<AccountShard>, n: usize) -> Result<(), NoMemory>
    ensures ok { OnOk result (HasRoom n shards.new.items) }
    ensures same { map without_room shards.new.items ≡ map without_room shards.old.items }
{
    for place in 0..shards.len() {
        let shard = &mut shards[place];
        shard.reserve(n)?;
    }
    Ok(())
}

impl BankShards {
    // Sixteen shards with no account and no leg.
    fn empty(alloc: Global, hashes: RandomState) -> Result<BankShards, NoMemory>
        ensures { IfOk result (StandAll [] (λ s. [])) }
    {
        let mut shards = Vec::new(alloc);
        fill(alloc, hashes, &mut shards, 16)?;
        Ok(BankShards { shards })
    }

    // The shards of these lines, each of which is accepted behind those before it.
    fn of_lines(
        alloc: Global,
        hashes: RandomState,
        lines: &[SetupLine],
    ) -> Result<BankShards, NoMemory>
        requires { is_setup lines.now ≡ true }
        ensures { IfOk result (StandAll lines.now (λ s. [])) }
    {
        let mut banks = BankShards::empty(alloc, hashes)?;
        for at in 0..lines.len() {
            match account_in(&lines[at]) {
                Some(account) => banks.open(account)?,
                None => {}
            }
        }
        Ok(banks)
    }

    /// The shards of a setup, before the first order. The accounts and the legs are hashed with
    /// `hashes`, so whoever chooses their names can't choose them to collide. It fails only for want
    /// of memory.
    pub fn over(alloc: Global, hashes: RandomState, dir: &Directory) -> Result<BankShards, NoMemory>
        ensures { IfOk result (StandAll dir.now.lines (λ s. [])) }
    {
        BankShards::of_lines(alloc, hashes, dir.setup().lines.items())
    }

    // Adds an account, before the first order.
    fn open(&mut self, account: Account) -> Result<(), NoMemory>
        requires free { holding_in self.old account.ac ≡ None }
        requires before { AllByRecursion HasNoLeg self.old }
        ensures stands { OnOk result ((S : Setup) → StandAll S (λ s. []) self.old → StandAll (S ++ line_of account ∷ []) (λ s. []) self.new) }
    {
        let place = account_shard(&account.ac) as usize;
        let shard = &mut self.shards[place];
        shard.open(account)
    }

    /// Makes room for `n` legs more in each shard. It fails only for want of memory, and changes
    /// nothing but the room.
    pub fn reserve(&mut self, n: usize) -> Result<(), NoMemory>
        ensures ok { OnOk result (HasRoom n self.new) }
        ensures same { map without_room self.new ≡ map without_room self.old }
    {
        reserve_each(&mut self.shards, n)
    }

    /// Whether a message is an order that can be posted here: its account is there, its amount is
    /// within an order's, and its shard hasn't too many legs.
    pub fn can_post(&self, order: &Sent) -> bool
        ensures then { result ≡ true → IsSomeAnd (order_of order.now.body) (λ o. CanPostIn self.now o) }
        ensures only { IsSomeAnd (order_of order.now.body) (λ o. CanPostIn self.now o) → result ≡ true }
    {
        let place = place_of(order);
        let shard = &self.shards[place];
        shard.can_post(order)
    }

    /// Plans the delivery of an order. It takes all memory of the change, and changes nothing but
    /// the room. Condition: the message is an order that can be posted here, as each is that a legal
    /// history has sent.
    pub fn plan(&mut self, order: &Sent) -> Result<Step, NoMemory>
        requires { IsSomeAnd (order_of order.now.body) (λ o. CanPostIn self.old o) }
        ensures planned { IfOk result (λ x. IsPlannedIn self.new x) }
        ensures answer { IfOk result (λ x. IsAnswer order.now x) }
        ensures history { IfOk result (λ x. (S : Setup) (h : History) (n now : ℕ) → Legal S h → is_closed h ≡ false → message_at h n ≡ Some order.now → StandAll S (orders_in S h) self.old → IsPlanOf S h n now x) }
        ensures same { map without_room self.new ≡ map without_room self.old }
    {
        let place = place_of(order);
        let shard = &mut self.shards[place];
        shard.plan(order)
    }

    /// Commits what was planned here. It takes no memory, and always succeeds.
    pub fn commit(&mut self, step: Step)
        requires { IsPlannedIn self.old step }
        ensures stands { (S : Setup) (orders : ℕ → List Order) → StandAll S orders self.old → StandAll S (with_order step.order orders) self.new }
    {
        let place = account_shard(step.account()) as usize;
        let shard = &mut self.shards[place];
        shard.commit(step);
    }

    // Posts an order. It takes no memory.
    fn arrive(&mut self, order: Sent)
        requires order { IsSomeAnd (order_of order.body) (λ o. CanPostIn self.old o) }
        requires room { HasRoom 1 self.old }
        ensures stands { (S : Setup) (orders : ℕ → List Order) → StandAll S orders self.old → StandAll S (with_one (order_of order.body) orders) self.new }
        ensures room { (n : ℕ) → HasRoom (n + 1) self.old → HasRoom n self.new }
    {
        let place = place_of(&order);
        let shard = &mut self.shards[place];
        let _moved = shard.arrive(order);
    }

    /// Posts the orders that a Close makes arrive, one after the other. It takes no memory, and
    /// always succeeds. Condition: the shards stand for a setup that has the orders' accounts, each
    /// amount is within an order's, and there is room for all of them.
    pub fn arrive_all(&mut self, orders: Vec<Sent>)
        requires { CanTake self.old orders.items }
        ensures { (S : Setup) (before : ℕ → List Order) → StandAll S before self.old → StandAll S (with_messages orders.items before) self.new }
    {
        for order in orders {
            self.arrive(order);
        }
    }

    /// What an account has, in paise; `None` exactly where the setup has no such account.
    pub fn balance(&self, ac: &AccountRef) -> Option<u64>
        ensures definition { (S : Setup) (orders : ℕ → List Order) → StandAll S orders self.now → result ≡ balance_all S orders ac.now }
        ensures history { (S : Setup) (h : History) → Legal S h → StandAll S (orders_in S h) self.now → result ≡ balance_named S h ac.now }
    {
        let place = account_shard(ac) as usize;
        let shard = &self.shards[place];
        shard.balance(ac)
    }

    /// How a leg of a transaction was answered, by the account at which it is posted, if an order
    /// for it has arrived there. It takes no memory.
    pub fn answered(&self, ac: &AccountRef, txn: &TxnId, leg: Leg) -> Option<Answer>
        ensures definition { (S : Setup) (orders : ℕ → List Order) → StandAll S orders self.now → result ≡ answer_all S orders ac.now txn.now leg }
        ensures history { (S : Setup) (h : History) (q : Opening) (a : AnAccount) → Legal S h → StandAll S (orders_in S h) self.now → opening S txn.now h ≡ Some q → account_at S (posted_at leg q.terms) ≡ Some a → a.ac ≡ ac.now
            → result ≡ answer S h txn.now leg }
    {
        let place = account_shard(ac) as usize;
        let shard = &self.shards[place];
        shard.answered(txn, leg)
    }
}
