//! The limits: a history that is full, and shards that are.
use crate::both::{apply, switch};
use std::alloc::Global;
use std::test::Fail;
use switch_core::{Core, CoreFault};
use upi_base::{Call, Code, Moment, Reply, TxnId, txn_shard};
use worked_rows::journal::{call_of, setup_of};
use worked_rows::rows;

// How many payments are asked for: by their names at least 4,097 of each shard.
const MANY: u64 = 65_735;

fn start() -> Result<Moment, Fail> {
    Ok(Moment::of(1_704_067_200).ok_or("no moment")?)
}

fn unknown() -> Result<TxnId, Fail> {
    Ok(TxnId::read(b"X1").ok_or("no name")?)
}

// Whether a call is refused, since there are so many entries.
fn is_full(core: &mut Core, call: Call, now: Moment, len: u64) -> bool {
    match apply(core, call, now) {
        Some(Err(fault)) => fault == CoreFault::Full { len },
        _ => false,
    }
}

// Whether a call is answered so.
fn is_answered(core: &mut Core, call: Call, now: Moment, reply: Reply) -> bool {
    match apply(core, call, now) {
        Some(Ok(done)) => done.reply == reply,
        _ => false,
    }
}

// Whether so many Lates of a transaction that isn't known are each answered so.
fn are_not_due(core: &mut Core, count: u64) -> Result<bool, Fail> {
    let (now, txn) = (start()?, unknown()?);
    for _place in 0..count {
        if !is_answered(core, Call::Late(txn.copy()), now, Reply::NotDue) {
            return Ok(false);
        }
    }
    Ok(core.len() == count)
}

// Whether what comes behind a full history is right: a Late, the Close, and a second Close.
fn is_right_behind(core: &mut Core) -> Result<bool, Fail> {
    let now = start()?;
    let late = is_full(core, Call::Late(unknown()?), now, 2_097_152);
    let close = is_answered(core, Call::Close, now, Reply::Closed);
    let again = is_full(core, Call::Close, now, 2_097_153);
    Ok(late && close && again)
}

// Whether a history is filled by Lates, and takes the first Close alone then.
fn fills(core: &mut Core) -> Result<bool, Fail> {
    if !are_not_due(core, 2_097_152)? {
        return Ok(false);
    }
    is_right_behind(core)
}

// Fills a new switch's history.
fn full_history(rt: &HostRuntime) -> Result<bool, Fail> {
    let mut core = switch(rt, setup_of(rt.alloc(), rows::SETUP)?)?;
    fills(&mut core)
}

#[test]
fn a_full_history_takes_the_first_close_alone(rt: HostRuntime) -> Result<(), Fail> {
    let right = full_history(&rt)?;
    assert!(rt; right);
    Ok(())
}

// The name of a payment by its number.
fn name(alloc: Global, number: u64) -> Result<TxnId, Fail> {
    let text = format!(in alloc; "L{number}")?;
    Ok(TxnId::read(text.as_bytes()).ok_or("no name")?)
}

// The reply to alpha's payment of this number.
fn asked(alloc: Global, core: &mut Core, number: u64) -> Result<Reply, Fail> {
    let line = format!(in alloc; "E - - 0 HEAR alpha PAY L{number} 0.01 ann@alpha bob@beta - - -")?;
    let call = call_of(alloc, line.as_bytes())?;
    match apply(core, call, start()?) {
        Some(Ok(done)) => Ok(done.reply),
        _ => Err(Fail::new("not taken")),
    }
}

// Whether a shard's next payment is answered as it must be, where so many of it were opened.
fn is_right(reply: Reply, opened: &mut u64) -> bool {
    if *opened < 4_096 {
        *opened = opened.saturating_add(1);
        reply == Reply::Ack(None)
    } else {
        reply == Reply::Ack(Some(Code::Full))
    }
}

// Asks for the payment of a number. Whether it's answered by how many its shard has opened.
fn ask(alloc: Global, core: &mut Core, opened: &mut [u64; 16], number: u64) -> Result<bool, Fail> {
    let shard = txn_shard(&name(alloc, number)?) as usize;
    let reply = asked(alloc, core, number)?;
    match opened.get_mut(shard) {
        Some(count) => Ok(is_right(reply, count)),
        None => Ok(false),
    }
}

// Asks for payments, so many that more than 4,096 are of each shard. Whether all are answered so.
fn ask_all(alloc: Global, core: &mut Core) -> Result<bool, Fail> {
    let mut opened = [0u64; 16];
    for number in 0..MANY {
        if !ask(alloc, core, &mut opened, number)? {
            return Ok(false);
        }
    }
    Ok(core.rows()?.len() == 65_536)
}

// Fills the shards of a new switch.
fn full_shards(rt: &HostRuntime) -> Result<bool, Fail> {
    let mut core = switch(rt, setup_of(rt.alloc(), rows::SETUP)?)?;
    ask_all(rt.alloc(), &mut core)
}

#[test]
fn each_shard_opens_4096(rt: HostRuntime) -> Result<(), Fail> {
    let right = full_shards(&rt)?;
    assert!(rt; right);
    Ok(())
}
