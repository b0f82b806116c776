use super::*;
use std::test::Fail;

const FRONT: &[u8] =
    b"START 2024-01-01T05:30:00+05:30\nBANK AAAA\nBANK BBBB\nBANK CCCC\nBANK DDDD\nPSP alpha\nPSP beta\nPSP gamma\nPSP delta\nACCOUNT AAAA/1 1000.00\n";

const END: &[u8] =
    b"\nADDR u39@gamma CCCC/39 YES\nADDR u40@delta DDDD/40 NO\nOPEN\nSEND gamma {\"ReqPay\":{\"Head\":{\"msgId\":\"G000001\",\"orgId\":\"gamma\",\"ts\":\"2024-01-01T05:30:00+05:30\",\"ver\":\"1.0\"},\"Payees\":{\"Payee\":[{\"addr\":\"u25@alpha\"}]},\"Payer\":{\"Amount\":{\"curr\":\"INR\",\"value\":\"101.14\"},\"addr\":\"u39@gamma\"},\"Txn\":{\"id\":\"L000001\",\"type\":\"PAY\"}}}\n";

// The first payment of the seed 1: the draws are 16838, 5758, 10113 and 17515.
#[test]
fn first_payment(rt: HostRuntime) -> Result<(), Fail> {
    let mut out = Vec::new(rt.alloc());
    generate(rt.alloc(), 1, 1, &mut out)?;
    assert!(rt; out.starts_with(FRONT));
    assert!(rt; out.ends_with(END));
    assert!(rt; out.iter().filter(|c| **c == b'\n').count() == 91);
    Ok(())
}
