//! A table of each kind, and the calls that are timed.
ghost use Rattle.std.specs.Prelude.{IfOk};
ghost use Rattle.leg_post.specs.Posts.{IsBounded};

use bank_book::Book;
use dup_table::{DupTable, Put};
use expiry_clock::DueIndex;
use leg_post::Posts;
use std::alloc::Global;
use std::hash::RandomState;
use upi_base::limits::MAX_AMOUNT;
use upi_base::{AccountRef, Answer, Leg, NoMemory, Paise, TxnId};

/// A call that is timed.
#[derive(Clone, Copy)]
pub enum Call {
    /// `DupTable::get` of a key that is there.
    Get,
    /// `DupTable::put` of a key that is new.
    PutFirst,
    /// `Book::find` of an account, `at` and `take_at` of its place.
    Take,
    /// `Posts::post` of an order that is the first for its leg.
    PostFirst,
    /// `Posts::post` of an order that comes again.
    PostAgain,
    /// `DueIndex::set` of a moment for a transaction that has one.
    Set,
    /// `DueIndex::remove`, and a `set` behind it.
    RemoveSet,
    /// `DueIndex::least`.
    Least,
    /// `DueIndex::due` at a moment at which one transaction is due.
    DueOne,
    /// No call: what new tables cost.
    Nothing,
}

impl Call {
    /// Whether each round needs tables without entries.
    pub fn is_first(self) -> bool {
        match self {
            Call::PutFirst => true,
            Call::PostFirst => true,
            Call::Nothing => true,
            _ => false,
        }
    }
}

/// When a transaction is due: the first at 0, and each other at 1,000 or later.
pub fn moment(at: usize, turn: u32) -> u64 {
    if at == 0 {
        return 0;
    }
    let mixed = (at as u64).wrapping_add(u64::from(turn)).wrapping_mul(7919);
    mixed % 100_000 + 1000
}

/// A table of each kind.
#[derive(Drop)]
pub struct Tables {
    puts: DupTable<TxnId, u64>,
    book: Book,
    posts: Posts,
    dues: DueIndex,
    payer: AccountRef,
    paisa: Paise,
}

impl Tables {
    /// Tables without entries, but for a book with these accounts, each with 10,000,000 rupees. There
    /// is room for an entry for each account, and for one more.
    pub fn new(
        alloc: Global,
        hashes: RandomState,
        accounts: &[AccountRef],
    ) -> Result<Tables, NoMemory> {
        let payer = AccountRef::read(b"AAAA/1").ok_or(NoMemory)?;
        let paisa = Paise::of(1).ok_or(NoMemory)?;
        let room = accounts.len().saturating_add(1);
        Ok(Tables {
            puts: puts(alloc, hashes, room)?,
            book: book(alloc, hashes, accounts)?,
            posts: posts(alloc, hashes, room, &payer)?,
            dues: dues(alloc, hashes, room)?,
            payer,
            paisa,
        })
    }

    /// Makes a call for a transaction, an account and a moment. Whether it gave what it must.
    pub fn ask(&mut self, call: Call, name: &TxnId, ac: &AccountRef, due: u64) -> bool {
        match call {
            Call::Get => self.puts.get(name).is_some(),
            Call::PutFirst => put(&mut self.puts, name),
            Call::Take => take(&mut self.book, ac, self.paisa),
            Call::PostFirst => post(&mut self.posts, name, &self.payer, self.paisa),
            Call::PostAgain => post(&mut self.posts, name, &self.payer, self.paisa),
            Call::Set => set(&mut self.dues, name, due),
            Call::RemoveSet => remove_set(&mut self.dues, name, due),
            Call::Least => self.dues.least() == Some(0),
            Call::DueOne => is_one_due(&self.dues),
            Call::Nothing => true,
        }
    }
}

fn puts(alloc: Global, hashes: RandomState, room: usize) -> Result<DupTable<TxnId, u64>, NoMemory> {
    let mut puts = DupTable::new(alloc, hashes);
    puts.reserve(room)?;
    Ok(puts)
}

fn dues(alloc: Global, hashes: RandomState, room: usize) -> Result<DueIndex, NoMemory> {
    let mut dues = DueIndex::new(alloc, hashes);
    dues.reserve(room)?;
    Ok(dues)
}

// Postings over a book with one account.
fn posts(
    alloc: Global,
    hashes: RandomState,
    room: usize,
    payer: &AccountRef,
) -> Result<Posts, NoMemory> {
    let mut posts = Posts::new(alloc, hashes, payers_book(alloc, hashes, payer)?);
    posts.reserve(room)?;
    Ok(posts)
}

// A book with these accounts.
fn book(alloc: Global, hashes: RandomState, accounts: &[AccountRef]) -> Result<Book, NoMemory> {
    let opening = Paise::of(1_000_000_000).ok_or(NoMemory)?;
    let mut book = Book::new(alloc, hashes);
    for ac in accounts {
        if book.holding(ac).is_none() {
            book.add(ac.copy(), opening, false, false)?;
        }
    }
    Ok(book)
}

// A book with one account, that takes the postings.
fn payers_book(alloc: Global, hashes: RandomState, ac: &AccountRef) -> Result<Book, NoMemory>
    ensures { IfOk result (λ book. IsBounded 0 book) }
{
    let opening = Paise::of(1_000_000_000).ok_or(NoMemory)?;
    let mut book = Book::new(alloc, hashes);
    if book.holding(ac).is_none() {
        book.add(ac.copy(), opening, false, false)?;
    }
    Ok(book)
}

fn put(puts: &mut DupTable<TxnId, u64>, name: &TxnId) -> bool {
    puts.spare() > 0 && puts.put(name.copy(), 1) == Put::First
}

fn take(book: &mut Book, ac: &AccountRef, amount: Paise) -> bool {
    let Some(place) = book.find(ac) else {
        return false;
    };
    if book.at(place).balance < amount.get() {
        return false;
    }
    book.take_at(place, amount);
    true
}

// Whether a debit for this transaction is posted.
fn post(posts: &mut Posts, name: &TxnId, ac: &AccountRef, amount: Paise) -> bool {
    let there = posts.book().holding(ac).is_some();
    if !there || posts.spare() == 0 || posts.kept() > 1_000_000 || amount.get() > MAX_AMOUNT {
        return false;
    }
    posts.post(name.copy(), Leg::Debit, ac, amount) == Answer::Posted
}

fn set(dues: &mut DueIndex, name: &TxnId, due: u64) -> bool {
    if dues.spare() == 0 {
        return false;
    }
    dues.set(name.copy(), due);
    true
}

fn remove_set(dues: &mut DueIndex, name: &TxnId, due: u64) -> bool {
    dues.remove(name);
    set(dues, name, due)
}

fn is_one_due(dues: &DueIndex) -> bool {
    match dues.due(999) {
        Ok(found) => found.len() == 1,
        Err(_) => false,
    }
}
