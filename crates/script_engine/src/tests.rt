//! What an engine counts.
use super::*;
use std::alloc::Global;
use std::hash::RandomState;
use std::test::Fail;
use upi_base::Summary;

// A payment that succeeds; one whose account takes no credits, and whose answer is lost; and one that
// nobody is asked about in time.
const SCRIPT: &[u8] =
    b"START 2024-01-01T05:30:00+05:30\nBANK AAAA\nBANK BBBB\nPSP alpha\nPSP beta\nACCOUNT AAAA/1 100.00\nACCOUNT BBBB/1 5.00 NOCREDIT\nACCOUNT BBBB/2 0.00\nADDR ann@alpha AAAA/1 YES\nADDR bob@beta BBBB/1 YES\nADDR cy@beta BBBB/2 YES\nOPEN\nSEND alpha {\"ReqPay\":{\"Head\":{\"msgId\":\"A1\",\"orgId\":\"alpha\",\"ts\":\"2024-01-01T05:30:00+05:30\",\"ver\":\"1.0\"},\"Payees\":{\"Payee\":[{\"addr\":\"cy@beta\"}]},\"Payer\":{\"Amount\":{\"curr\":\"INR\",\"value\":\"30.00\"},\"addr\":\"ann@alpha\"},\"Txn\":{\"id\":\"T1\",\"type\":\"PAY\"}}}\nRUN\nSEND alpha {\"ReqPay\":{\"Head\":{\"msgId\":\"A2\",\"orgId\":\"alpha\",\"ts\":\"2024-01-01T05:30:00+05:30\",\"ver\":\"1.0\"},\"Payees\":{\"Payee\":[{\"addr\":\"bob@beta\"}]},\"Payer\":{\"Amount\":{\"curr\":\"INR\",\"value\":\"30.00\"},\"addr\":\"ann@alpha\"},\"Txn\":{\"id\":\"T2\",\"type\":\"PAY\"}}}\nDELIVER 10\nDELIVER 11\nDELIVER 12\nDELIVER 13\nDELIVER 14\nLOSE 15\nSEND alpha {\"ReqPay\":{\"Head\":{\"msgId\":\"A3\",\"orgId\":\"alpha\",\"ts\":\"2024-01-01T05:30:00+05:30\",\"ver\":\"1.0\"},\"Payees\":{\"Payee\":[{\"addr\":\"cy@beta\"}]},\"Payer\":{\"Amount\":{\"curr\":\"INR\",\"value\":\"30.00\"},\"addr\":\"ann@alpha\"},\"Txn\":{\"id\":\"T3\",\"type\":\"PAY\"}}}\nLOSE 16\nTICK 30\nCLOSE";

// What the script comes to on an engine.
fn count(alloc: Global, engine: &mut Engine) -> Result<Summary, Fail> {
    let mut out = Vec::new(alloc);
    for line in SCRIPT.split(|c| *c == b'\n') {
        engine.line(line, &mut out)?;
    }
    Ok(engine.summary()?)
}

// What it comes to on a new one.
fn counted(alloc: Global, hashes: RandomState) -> Result<Summary, Fail> {
    let mut engine = Engine::new(alloc, hashes);
    count(alloc, &mut engine)
}

#[test]
fn ends_items_and_flight_are_counted(rt: HostRuntime) -> Result<(), Fail> {
    let summary = counted(rt.alloc(), RandomState::new(&rt)?)?;
    let expected = Summary {
        success: 1,
        failure: 1,
        deemed: 1,
        items: 1,
        flight: 3_000,
        entries: 22,
        messages: 20,
    };
    assert!(rt; summary == expected);
    Ok(())
}
