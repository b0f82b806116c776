//! The setup, and the payments' calls.
use std::alloc::Global;
use upi_base::{
    AccountRef, Addr, BankCode, Boxed, Call, Head, Input, Kind, Message, Moment, MsgId, OrgId,
    Paise, PayReq, Policy, PspName, Setup, SetupLine, SetupLines, TxnId, Ver, txn_shard,
};

/// How many payers there are, and how many payees.
pub const USERS: u64 = 1_000;

/// When all calls are made: 2024-01-01T00:00:00Z, in seconds since 1970-01-01T00:00:00Z.
pub const START: u64 = 1_704_067_200;

/// How many transactions a shard opens.
const SHARD_ROOM: u64 = 4_096;

/// What a payer has at first, in paise.
const OPENING: u64 = 100_000_000;

// The account of a payer or a payee, and its address behind it.
fn push_user(
    alloc: Global,
    lines: &mut SetupLines,
    bank: &str,
    psp: &str,
    number: u64,
) -> Option<()> {
    let account = format!(in alloc; "{bank}/{number}").ok()?;
    let name = format!(in alloc; "u{number}@{psp}").ok()?;
    let ac = AccountRef::read(account.as_bytes())?;
    lines
        .push(SetupLine::Account {
            ac: ac.copy(),
            opening: Paise::of(OPENING)?,
            no_debit: false,
            no_credit: false,
        })
        .ok()?;
    lines
        .push(SetupLine::Address {
            addr: Addr::read(name.as_bytes())?,
            ac,
            policy: Policy::Yes,
        })
        .ok()
}

// Two banks and their PSPs.
fn push_banks(lines: &mut SetupLines) -> Option<()> {
    lines.push(SetupLine::Bank(BankCode::read(b"AAAA")?)).ok()?;
    lines.push(SetupLine::Bank(BankCode::read(b"BBBB")?)).ok()?;
    lines.push(SetupLine::Psp(PspName::read(b"alpha")?)).ok()?;
    lines.push(SetupLine::Psp(PspName::read(b"beta")?)).ok()
}

/// A setup with two banks, two PSPs, and as many payers and payees.
pub fn setup(alloc: Global) -> Option<Setup> {
    let mut lines = SetupLines::new(alloc);
    push_banks(&mut lines)?;
    for number in 0..USERS {
        push_user(alloc, &mut lines, "AAAA", "alpha", number)?;
        push_user(alloc, &mut lines, "BBBB", "beta", number)?;
    }
    Some(Setup {
        start: Moment::of(START)?,
        lines,
    })
}

/// Names of payments, of which no shard gets more than it opens.
#[derive(Drop)]
pub struct Names {
    next: u64,
    given: [u64; 16],
}

impl Names {
    /// Names, of which none was given.
    pub fn new() -> Names {
        Names {
            next: 0,
            given: [0; 16],
        }
    }

    // Counts a name for its shard, if the shard has room for it.
    fn takes(&mut self, name: &TxnId) -> bool {
        match self.given.get_mut(txn_shard(name) as usize) {
            Some(given) => {
                let fits = *given < SHARD_ROOM;
                *given = given.saturating_add(1);
                fits
            }
            None => false,
        }
    }

    /// The next name, and its number.
    pub fn next(&mut self, alloc: Global) -> Option<(u64, TxnId)> {
        for number in self.next..100_000 {
            self.next = self.next.saturating_add(1);
            let text = format!(in alloc; "T{number}").ok()?;
            let name = TxnId::read(text.as_bytes())?;
            if self.takes(&name) {
                return Some((number, name));
            }
        }
        None
    }
}

fn head() -> Option<Head> {
    Some(Head {
        msg_id: MsgId::read(b"A1")?,
        org: OrgId::read(b"alpha")?,
        ts: Moment::of(START)?,
        ver: Ver::One,
    })
}

// The address of a user at a PSP.
fn address(alloc: Global, number: u64, psp: &str) -> Option<Addr> {
    let user = number.checked_rem(USERS)?;
    let text = format!(in alloc; "u{user}@{psp}").ok()?;
    Addr::read(text.as_bytes())
}

/// A payer asks for a payment of 0.01.
pub fn payment(alloc: Global, number: u64, txn: TxnId) -> Option<Call> {
    let asked = PayReq {
        head: Head {
            ver: Ver::One,
            ..head()?
        },
        kind: Kind::Pay,
        txn,
        note: None,
        expire: None,
        payer: address(alloc, number, "alpha")?,
        payee: address(alloc, number, "beta")?,
        amount: Paise::of(1)?,
        payer_ac: None,
        payee_ac: None,
        extra: None,
    };
    let message = Message::Pay(Boxed::new(alloc, asked).ok()?);
    let psp = PspName::read(b"alpha")?;
    let input = Input::Good(message);
    Some(Call::Hear { psp, input })
}
