use super::*;
use std::test::Fail;
use upi_base::Code;

fn begun() -> Result<CollectMachine, Fail> {
    let amount = Paise::of(3000).ok_or("an amount")?;
    let now = Moment::of(1_704_067_200).ok_or("a moment")?;
    let minutes = Minutes::of(1).ok_or("minutes")?;
    Ok(CollectMachine::begin(amount, now, minutes))
}

// A yes counts in the last second of the minute, and no longer at its end.
#[test]
fn a_yes_comes_in_time_or_not(rt: HostRuntime) -> Result<(), Fail> {
    let amount = Paise::of(3000).ok_or("an amount")?;
    let before = Moment::of(1_704_067_259).ok_or("a moment")?;
    let end = Moment::of(1_704_067_260).ok_or("a moment")?;
    let mut machine = begun()?;
    assert!(rt; machine.due() == Some(1_704_067_260));
    assert!(rt; machine.hear_auth(amount, true, before).wants == Wants::Debit);
    assert!(rt; machine.phase() == Phase::Debiting);
    let mut machine = begun()?;
    let moved = machine.hear_auth(amount, true, end);
    assert!(rt; moved.reply == Reply::Ack(Some(Code::Expired)) && moved.wants == Wants::Nothing);
    assert!(rt; machine.phase() == Phase::Asking && machine.outcome() == None);
    assert!(rt; machine.late(end).wants == Wants::Outcome);
    assert!(rt; machine.outcome() == Some(Outcome::Failure(Code::Expired)));
    Ok(())
}
