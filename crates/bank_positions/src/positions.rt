//! The sums, how shares of them are given out, and how they are gathered.
ghost use Rattle.std.specs.Prelude.{◌≡◌, ◌<◌, ◌≤◌, ◌+◌, ◌*◌, ◌^◌, ℕ, List, [], All, IfOk, length, slice_index, slice_index_or, vec_capacity};
ghost use Rattle.part_sums.specs.Totals.{total};
ghost use Rattle.bank_positions.specs.Sums.{more, place, sum_of, gathered};
ghost use Rattle.bank_positions.specs.calls.Rule.{sums, IsLaid, IsSeat, Knows};

use crate::name::PositionsName;
use crate::position::Position;
use crate::rule::{Adding, Cut, Reading, Shape, Sums, Words};
use crate::share::Share;
use atomic_table::{Seat, Table};
use std::alloc::Global;
use std::marker::{Brand, Model, PhantomData};
use upi_base::{Leg, NoMemory, Paise};

/// Sums of 0, which have no name yet. Contracts see their table, and how many banks and shards they
/// have.
#[derive(Drop)]
pub struct PositionsBlank {
    alloc: Global,
    table: Words,
    seat: Seat<(), Sums>,
    banks: u32,
    shards: u32,
}

impl Model for PositionsBlank {
    ghost use Rattle.bank_positions.specs.Sums.{Layout};
    ghost use Rattle.bank_positions.specs.calls.Rule.{IsBlank};

    ghost Value = { Layout };

    ghost view = { λ b. record { table = b.table.shared.table_id; banks = b.banks; shards = b.shards } };

    ghost invariant = { λ b. IsBlank b.table.shared.table_id b.table.shared.key.words b.banks b.shards b.seat };
}

/// One sum in paise for each bank and leg, to which many threads add, each by a share of its own.
#[derive(Drop)]
pub struct Positions<N: PositionsName> {
    table: Words,
    banks: u32,
    shards: u32,
    name: PhantomData<N>,
    ghost named: { table.shared.table_id ≡ N.layout.table },
    ghost counts: { (banks ≡ N.layout.banks) × (shards ≡ N.layout.shards) },
    ghost laid: { IsLaid N.layout.table table.shared.key.words N.layout.banks N.layout.shards },
}

/// The word of a bank and leg.
fn word_of(bank: u32, leg: Leg) -> usize
    ensures { result ≡ place bank leg }
{
    let leg = match leg {
        Leg::Debit => 0,
        Leg::Reversal => 1,
        Leg::Credit => 2,
    };
    bank as usize * 3 + leg
}

impl Positions<Brand> {
    /// The sums of so many banks, at least one, for so many shares, 1 to 16. They get their name
    /// when the blank is opened. It fails only for want of memory.
    pub fn new(alloc: Global, banks: u32, shards: u32) -> Result<PositionsBlank, NoMemory>
        requires banks { 0 < banks }
        requires shards { (0 < shards) × (shards ≤ 16) }
        ensures { IfOk result (λ blank. (blank.banks ≡ banks) × (blank.shards ≡ shards)) }
    {
        let words = Vec::from_elem(alloc, 0u64, banks as usize * 3)?;
        let slots = Vec::from_elem(alloc, (), shards as usize)?;
        let shape = Shape {
            words: u64::from(banks) * 3,
            shares: u64::from(shards),
        };
        let Ok((table, seat)) = Table::new(alloc, words.as_slice(), slots, &shape) else {
            return Err(NoMemory);
        };
        Ok(PositionsBlank {
            alloc,
            table,
            seat,
            banks,
            shards,
        })
    }
}

impl PositionsBlank {
    /// Names the sums, and gives one share for each shard, in which nothing was added. It fails only
    /// for want of memory, and then the blank is gone.
    pub fn open<N: PositionsName>(self) -> Result<(Positions<N>, Vec<Share<N>>), NoMemory>
        requires { self ≡ N.layout }
        ensures { IfOk result (λ r. (length r.1.items ≡ self.shards) × All (λ share. share ≡ []) r.1.items) }
    {
        let PositionsBlank {
            alloc,
            table,
            seat,
            banks,
            shards,
        } = self;
        let mut shares = Vec::with_capacity(alloc, shards as usize)?;
        let positions = Positions {
            table,
            banks,
            shards,
            name: PhantomData,
        };
        positions.deal(seat, &mut shares);
        Ok((positions, shares))
    }
}

impl<N: PositionsName> Positions<N> {
    // A share for each part of the seat.
    fn deal(&self, mut seat: Seat<(), Sums>, shares: &mut Vec<Share<N>>)
        requires seat { (seat.table_id ≡ N.layout.table) × (seat.me ≡ (sums N.layout.shards [], [])) }
        requires room { (shares.old.items ≡ []) × (N.layout.shards ≤ vec_capacity shares.old) }
        ensures { (length shares.new.items ≡ N.layout.shards) × All (λ share. share ≡ []) shares.new.items }
    {
        for made in 1..self.shards {
            let other = self.table.shared.split_seat::<Cut>(&mut seat);
            shares.push_reserved(Share::of(other));
        }
        shares.push_reserved(Share::of(seat));
    }

    /// Adds an amount to what moved at a bank by a leg. It waits for nobody, and takes no memory.
    pub fn add(&self, share: &mut Share<N>, bank: u32, leg: Leg, amount: Paise)
        requires bank { bank < N.layout.banks }
        requires room { sum_of share.old bank leg + amount < 2 ^ 60 }
        ensures { share.new ≡ more share.old (place bank leg) amount }
    {
        let word = word_of(bank, leg);
        self.table
            .shared
            .fetch_add::<Adding>(&mut share.seat, word, amount.get());
    }

    // The seat takes in what all shares have added.
    fn join_to(&self, seat: Seat<(), Sums>, shares: Vec<Share<N>>) -> Seat<(), Sums>
        requires seat { IsSeat N.layout.table seat }
        ensures seat { (result.table_id ≡ N.layout.table) × (result.me.1 ≡ []) × (result.me.0.parts ≡ length shares.items + 1) }
        ensures added { (i : ℕ) → slice_index result.me.0.added i ≡ slice_index seat.me.0.added i + total (λ s. slice_index s i) shares.items }
    {
        let mut all = seat;
        for share in shares {
            let other = share.into_seat();
            self.table.shared.join_seat::<Cut>(&mut all, other);
        }
        all
    }

    // One seat that has added what all shares have.
    fn join_all(&self, mut shares: Vec<Share<N>>) -> Seat<(), Sums>
        requires { length shares.items ≡ N.layout.shards }
        ensures { Knows N.layout.table N.layout.shards shares.items result }
    {
        let Some(last) = shares.pop() else {
            unreachable!()
        };
        self.join_to(last.into_seat(), shares)
    }

    // A word, read by who has every part.
    fn read(&self, all: &mut Seat<(), Sums>, bank: u32, leg: Leg) -> u64
        requires bank { bank < N.layout.banks }
        requires all { (all.old.table_id ≡ N.layout.table) × (all.old.me.0.parts ≡ N.layout.shards) }
        ensures sum { result ≡ sum_of all.old.me.0.added bank leg }
        ensures all { (all.new.table_id ≡ all.old.table_id) × (all.new.me ≡ all.old.me) }
    {
        self.table.shared.load::<Reading>(all, word_of(bank, leg))
    }

    // What all shares have added for a bank.
    fn position(&self, all: &mut Seat<(), Sums>, bank: u32) -> Position
        requires bank { bank < N.layout.banks }
        requires all { (all.old.table_id ≡ N.layout.table) × (all.old.me.0.parts ≡ N.layout.shards) }
        ensures sums { (shares : List (List ℕ)) → Knows N.layout.table N.layout.shards shares all.old → result ≡ gathered shares bank }
        ensures all { (all.new.table_id ≡ all.old.table_id) × (all.new.me ≡ all.old.me) }
    {
        let debits = self.read(all, bank, Leg::Debit);
        let reversals = self.read(all, bank, Leg::Reversal);
        let credits = self.read(all, bank, Leg::Credit);
        Position {
            debits,
            reversals,
            credits,
        }
    }

    /// What all shares have added, for each bank in turn. It takes no memory, and can't fail.
    pub fn gather(self, shares: Vec<Share<N>>, out: &mut [Position])
        requires shares { length shares.items ≡ N.layout.shards }
        requires out { length out.old ≡ N.layout.banks }
        ensures { (bank : ℕ) (d : Position) → bank < N.layout.banks → slice_index_or out.new bank d ≡ gathered shares.items bank }
    {
        let mut all = self.join_all(shares);
        for bank in 0..self.banks {
            let position = self.position(&mut all, bank);
            out[bank as usize] = position;
        }
    }
}
