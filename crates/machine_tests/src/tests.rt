use crate::driven::{Driven, Row};
use crate::rows::*;
use std::test::Fail;
use upi_base::Kind;

// Whether a machine does what a row says.
fn does(machine: &mut Driven, row: Row) -> Result<bool, Fail> {
    let Row(what, at, reply, wants, after) = row;
    let moved = machine.happens(what, at)?;
    Ok(moved.reply == reply && moved.wants == wants && machine.stands(after))
}

// Whether a machine goes that way.
fn goes(machine: &mut Driven, path: &[Row]) -> Result<bool, Fail> {
    for row in path {
        if !does(machine, *row)? {
            return Ok(false);
        }
    }
    Ok(true)
}

// Whether each row holds of a machine that went that way; else the first that doesn't.
fn failing(kind: Kind, path: &[Row], rows: &[Row]) -> Result<Option<usize>, Fail> {
    for (place, row) in rows.iter().enumerate() {
        let mut machine = Driven::begin(kind)?;
        if !goes(&mut machine, path)? || !does(&mut machine, *row)? {
            return Ok(Some(place));
        }
    }
    Ok(None)
}

#[test]
fn questions(rt: HostRuntime) -> Result<(), Fail> {
    assert!(rt; failing(Kind::Pay, &[], &ASKING_PAY)? == None);
    assert!(rt; failing(Kind::Collect, &[], &ASKING_COLLECT)? == None);
    assert!(rt; failing(Kind::Pay, &UNANSWERED_PAY_PATH, &UNANSWERED_PAY)? == None);
    assert!(rt; failing(Kind::Collect, &UNANSWERED_COLLECT_PATH, &UNANSWERED_COLLECT)? == None);
    Ok(())
}

#[test]
fn legs_and_outcomes(rt: HostRuntime) -> Result<(), Fail> {
    for kind in [Kind::Pay, Kind::Collect] {
        assert!(rt; failing(kind, &DEBITING_PATH, &DEBITING)? == None);
        assert!(rt; failing(kind, &CREDITING_PATH, &CREDITING)? == None);
        assert!(rt; failing(kind, &REVERSING_DEBIT_PATH, &REVERSING_DEBIT)? == None);
        assert!(rt; failing(kind, &REVERSING_CREDIT_PATH, &REVERSING_CREDIT)? == None);
        assert!(rt; failing(kind, &SUCCESS_PATH, &SUCCESS)? == None);
        assert!(rt; failing(kind, &DEEMED_PATH, &DEEMED)? == None);
        assert!(rt; failing(kind, &DECLINED_PATH, &DECLINED)? == None);
        assert!(rt; failing(kind, &DEBIT_DECLINED_PATH, &DEBIT_DECLINED)? == None);
        assert!(rt; failing(kind, &DEBIT_RETURNED_PATH, &DEBIT_RETURNED)? == None);
        assert!(rt; failing(kind, &CREDIT_RETURNED_PATH, &CREDIT_RETURNED)? == None);
    }
    Ok(())
}

#[test]
fn closes(rt: HostRuntime) -> Result<(), Fail> {
    assert!(rt; failing(Kind::Pay, &CLOSED_ASKING_PAY_PATH, &CLOSED_ASKING_PAY)? == None);
    assert!(rt;
        failing(
            Kind::Collect,
            &CLOSED_ASKING_COLLECT_PATH,
            &CLOSED_ASKING_COLLECT
        )? == None
    );
    for kind in [Kind::Pay, Kind::Collect] {
        assert!(rt; failing(kind, &CLOSED_DEBITING_PATH, &CLOSED_DEBITING)? == None);
        assert!(rt; failing(kind, &CLOSED_CREDITING_PATH, &CLOSED_CREDITING)? == None);
        assert!(rt; failing(kind, &CLOSED_REVERSING_DEBIT_PATH, &DEBIT_RETURNED)? == None);
        assert!(rt; failing(kind, &CLOSED_REVERSING_CREDIT_PATH, &CREDIT_RETURNED)? == None);
    }
    Ok(())
}
