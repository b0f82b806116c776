use super::*;
use std::test::Fail;
use upi_base::Code;

#[test]
fn an_outcome_is_confirmed_four_times(rt: HostRuntime) -> Result<(), Fail> {
    let mut confirm = Confirm::begin(Moment::of(1000).ok_or("a moment")?);
    assert!(rt; confirm.due() == Some(1030));
    assert!(rt; !confirm.late(Moment::of(1029).ok_or("a moment")?));
    for at in [1030, 1061, 1091] {
        assert!(rt; confirm.late(Moment::of(at).ok_or("a moment")?));
        assert!(rt; !confirm.late(Moment::of(at + 29).ok_or("a moment")?));
    }
    assert!(rt; confirm.due() == None);
    assert!(rt; !confirm.late(Moment::of(9999).ok_or("a moment")?));
    Ok(())
}

#[test]
fn an_answer_ends_it(rt: HostRuntime) -> Result<(), Fail> {
    let mut confirm = Confirm::begin(Moment::of(1000).ok_or("a moment")?);
    confirm.answered();
    assert!(rt; confirm.due() == None);
    assert!(rt; !confirm.late(Moment::of(1030).ok_or("a moment")?));
    assert!(rt; status(None) == Reply::Status(None));
    let failed = Some(Outcome::Failure(Code::Expired));
    assert!(rt; status(failed) == Reply::Status(failed));
    Ok(())
}
