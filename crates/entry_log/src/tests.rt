use crate::Log;
use std::alloc::Global;
use std::test::Fail;
use upi_base::{Call, Entry, Moment, Party, PspName, Reply, Sent, SentList, TxnId, Ver};

fn message(txn: &TxnId) -> Result<Sent, Fail> {
    let psp = PspName::read(b"alpha").ok_or("a name")?;
    Ok(Sent {
        from: Party::Psp(psp),
        to: Party::Switch,
        body: upi_base::Body::Confirmed { txn: txn.copy() },
        ver: Ver::One,
    })
}

// Appends the entry of a call, with so many messages as its caller's number says.
fn append(log: &mut Log, alloc: Global, call: Call, caller: u64) -> Result<(), Fail> {
    let txn = TxnId::read(b"T1").ok_or("a name")?;
    let at = Moment::of(7).ok_or("a moment")?;
    let mut sent = Vec::new(alloc);
    for _more in 0..caller {
        sent.push(message(&txn)?)?;
    }
    log.append(Entry {
        call,
        at,
        caller,
        reply: Reply::Told,
        sent: SentList::of(sent),
    })?;
    Ok(())
}

// Whether the entry at a place is of this caller, with so many messages.
fn is_from(log: &Log, place: u64, caller: u64) -> bool {
    match log.entry(place) {
        Some(entry) => entry.caller == caller && entry.sent.len() as u64 == caller,
        None => false,
    }
}

#[test]
fn entries_come_back(rt: HostRuntime) -> Result<(), Fail> {
    let alloc = rt.alloc();
    let mut log = Log::new(alloc);
    let txn = TxnId::read(b"T1").ok_or("a name")?;
    append(&mut log, alloc, Call::Late(txn), 0)?;
    append(&mut log, alloc, Call::Deliver(1), 1)?;
    append(&mut log, alloc, Call::Close, 2)?;
    assert!(rt; log.len() == 3 && log.sent_count() == 3);
    assert!(rt; log.message(3).is_some() && log.message(4).is_none() && log.message(0).is_none());
    assert!(rt; is_from(&log, 3, 2) && is_from(&log, 1, 0) && !is_from(&log, 4, 2));
    Ok(())
}
