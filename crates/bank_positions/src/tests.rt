ghost use Rattle.std.specs.Prelude.{◌≡◌, ◌<◌, [], length};

use super::*;
use std::marker::Brand;
use std::test::Fail;
use std::thread;
use std::thread::Threads;
use upi_base::{Leg, Paise};

/// How often each thread adds.
const TIMES: u64 = 1000;

/// What nothing was added to.
const NONE: Position = Position {
    debits: 0,
    reversals: 0,
    credits: 0,
};

// One share adds a debit, the other a credit.
fn debit_and_credit<N: PositionsName>(
    blank: PositionsBlank,
    debit: Paise,
    credit: Paise,
    out: &mut [Position],
) -> Result<(), Fail>
    requires named { blank ≡ N.layout }
    requires sized { (blank.banks ≡ 1) × (blank.shards ≡ 2) × (length out.old ≡ 1) }
{
    let (positions, mut shares) = blank.open::<N>()?;
    positions.add(&mut shares[0], 0, Leg::Debit, debit);
    positions.add(&mut shares[1], 0, Leg::Credit, credit);
    positions.gather(shares, out);
    Ok(())
}

#[test]
fn one_bank_and_two_shares(rt: HostRuntime) -> Result<(), Fail> {
    let debit = Paise::of(3000).expect(&rt, "an amount");
    let credit = Paise::of(1000).expect(&rt, "an amount");
    let blank = Positions::new(rt.alloc(), 1, 2)?;
    let mut out = [NONE];
    debit_and_credit::<Brand>(blank, debit, credit, &mut out)?;
    let wanted = Position {
        debits: 3000,
        reversals: 0,
        credits: 1000,
    };
    assert_eq!(rt; out[0], wanted);
    Ok(())
}

// Adds to one bank, again and again.
fn add_often<N: PositionsName>(positions: &Positions<N>, share: &mut Share<N>, amount: Paise)
    requires bank { 1 < N.layout.banks }
    requires fresh { share.old ≡ [] }
{
    for _done in 0..TIMES {
        positions.add(share, 1, Leg::Reversal, amount);
    }
}

// Sixteen threads, each with a share, add to the second of two banks at once.
fn all_at_once<N: PositionsName + Send + Sync, R: Threads + Sync>(
    rt: &R,
    blank: PositionsBlank,
    amount: Paise,
    out: &mut [Position],
) -> Result<(), Fail>
    requires named { blank ≡ N.layout }
    requires sized { (blank.banks ≡ 2) × (blank.shards ≡ 16) × (length out.old ≡ 2) }
{
    let (positions, mut shares) = blank.open::<N>()?;
    let sums = &positions;
    thread::for_each_mut(
        rt,
        shares.as_mut_slice(),
        16,
        &|_, share| { add_often(sums, share, amount) },
    );
    if shares.len() != 16 {
        return Ok(());
    }
    positions.gather(shares, out);
    Ok(())
}

#[test]
fn sixteen_threads_add_at_once(rt: HostRuntime) -> Result<(), Fail> {
    let amount = Paise::of(7).expect(&rt, "an amount");
    let blank = Positions::new(rt.alloc(), 2, 16)?;
    let mut out = [NONE, NONE];
    all_at_once::<Brand, _>(&rt, blank, amount, &mut out)?;
    // 16 shares, 1,000 times 7 paise each.
    assert_eq!(rt; out[1].reversals, 112_000);
    assert_eq!(rt; out[0], NONE);
    Ok(())
}
