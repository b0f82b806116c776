use crate::play::play;
use std::alloc::Global;
use std::test::Fail;
use upi_base::{
    AcNum, AccountRef, Answer, AuditWhy, BankCode, Call, Code, Entry, Moment, Outcome, Paise,
    Reply, SentList, Setup, TxnId, Verdict, account_named, txn_shard, write_number,
};
use upi_replay::{Replay, replay, reply_of};
use upi_text::word;
use worked_rows::journal::{call_of, moment, setup_of, wanted, written};
use worked_rows::{edges, rows};

fn field(line: &[u8], place: usize) -> &[u8] {
    line.split(|c| *c == b',').nth(place).unwrap_or(b"")
}

fn paise(text: &[u8]) -> Result<u128, Fail> {
    Ok(u128::from(Paise::read(text).ok_or("no sum")?.get()))
}

// An entry at the first moment that sends nothing.
fn silent(alloc: Global, call: Call, reply: Reply) -> Result<Entry, Fail> {
    Ok(Entry {
        call,
        at: Moment::of(0).ok_or("no moment")?,
        caller: 0,
        reply,
        sent: SentList::new(alloc),
    })
}

// The status that a report's line gives of a transaction.
fn status_wanted(alloc: Global, line: &[u8]) -> Result<Vec<u8>, Fail> {
    let mut out = Vec::new(alloc);
    out.extend_from_slice(b"= STATUS ")?;
    out.extend_from_slice(field(line, 3))?;
    let code = field(line, 5);
    if !code.is_empty() {
        out.push(b' ')?;
        out.extend_from_slice(code)?;
    }
    out.push(b'\n')?;
    Ok(out)
}

fn status_found(alloc: Global, outcome: Option<Outcome>) -> Result<Vec<u8>, Fail> {
    written(
        alloc,
        &[silent(alloc, Call::Close, Reply::Status(outcome))?],
    )
}

// Whether a transaction has the amount and the outcome that a report's line gives.
fn outcome_is_so(alloc: Global, switch: &Replay, line: &[u8]) -> Result<bool, Fail> {
    let txn = TxnId::read(field(line, 1)).ok_or("no transaction")?;
    for row in &switch.rows()? {
        if row.txn == txn {
            let given = status_found(alloc, switch.outcome(&txn))?;
            let amount = u128::from(row.amount.get());
            return Ok(
                amount == paise(field(line, 4))?
                    && given.as_slice() == status_wanted(alloc, line)?.as_slice(),
            );
        }
    }
    Err(Fail::new("not opened"))
}

fn balance(switch: &Replay, line: &[u8]) -> Result<u128, Fail> {
    let ac = AccountRef {
        bank: BankCode::read(field(line, 2)).ok_or("no bank")?,
        num: AcNum::read(field(line, 1)).ok_or("no number")?,
    };
    let account = account_named(switch.lines(), &ac).ok_or("no account")?;
    Ok(switch.balance(&account))
}

// Whether what a report's line says is found. A line that isn't known is not so.
fn line_is_so(alloc: Global, switch: &Replay, line: &[u8]) -> Result<bool, Fail> {
    match field(line, 0) {
        b"OUTCOME" => outcome_is_so(alloc, switch, line),
        b"BALANCE" => Ok(balance(switch, line)? == paise(field(line, 4))?),
        b"FLIGHT" => Ok(switch.flight() == paise(field(line, 4))?),
        _ => Ok(false),
    }
}

// Whether as many outcomes are reported as there are.
fn all_are_told(switch: &Replay, text: &[u8]) -> Result<bool, Fail> {
    let told = text
        .split(|c| *c == b'\n')
        .filter(|line| field(line, 0) == b"OUTCOME".as_slice())
        .count();
    let rows = switch.rows()?;
    let ended = rows.iter().filter(|row| row.outcome.is_some()).count();
    Ok(told == ended)
}

// Whether a history comes to what is reported: that is each line but those of the journal.
fn ends_so(alloc: Global, switch: &Replay, text: &[u8]) -> Result<bool, Fail> {
    for line in text.split(|c| *c == b'\n') {
        match word(line, 0) {
            b"E" => {}
            b"M" => {}
            _ => {
                if !line_is_so(alloc, switch, line)? {
                    return Ok(false);
                }
            }
        }
    }
    all_are_told(switch, text)
}

// What of a row doesn't go as written: nothing, where it is empty.
fn difference(alloc: Global, setup: &[u8], text: &[u8]) -> Result<&'static str, Fail> {
    let setup = setup_of(alloc, setup)?;
    let switch = play(alloc, &setup, text)?;
    let all = switch.len();
    if written(alloc, switch.entries())?.as_slice() != wanted(alloc, text)?.as_slice() {
        Ok("replies or messages")
    } else if replay(alloc, &setup, switch.entries())? != (Verdict::Yes { entries: all }) {
        Ok("verdict")
    } else if !ends_so(alloc, &switch, text)? {
        Ok("report")
    } else {
        Ok("")
    }
}

#[test]
fn payments_go_as_written(rt: HostRuntime) -> Result<(), Fail> {
    let rows = [
        ("a payment", rows::SETUP, rows::PAID),
        ("the whole balance", rows::SETUP, rows::ALL_OF_IT),
        ("more than the balance", rows::SETUP, rows::NO_FUNDS),
        ("amounts", rows::SETUP, rows::AMOUNTS),
        ("a payment asked for twice", rows::SETUP, rows::ASKED_TWICE),
        ("up to the cap", rows::SETUP_BELOW_CAP, rows::UP_TO_CAP),
        ("past the cap", rows::SETUP_AT_CAP, rows::PAST_CAP),
        (
            "a payee who takes no credits",
            rows::SETUP_NO_CREDIT,
            rows::NO_CREDIT,
        ),
        (
            "a payee who refuses",
            rows::SETUP_BOB_REFUSES,
            rows::REFUSED,
        ),
        ("a close before the answer", rows::SETUP, rows::CLOSED_EARLY),
    ];
    for (name, setup, text) in rows {
        assert_eq!(rt; difference(rt.alloc(), setup, text)?, "", "{name}");
    }
    Ok(())
}

#[test]
fn losses_and_delays_go_as_written(rt: HostRuntime) -> Result<(), Fail> {
    let rows = [
        (
            "a debit delivered three times",
            rows::SETUP,
            rows::DEBITED_THRICE,
        ),
        (
            "a credit whose answer is lost",
            rows::SETUP,
            rows::CREDIT_UNHEARD,
        ),
        ("a credit that is lost", rows::SETUP, rows::CREDIT_LOST),
        (
            "a reversal before its debit",
            rows::SETUP,
            rows::REVERSED_FIRST,
        ),
        (
            "a debit whose answer is lost",
            rows::SETUP,
            rows::DEBIT_UNHEARD,
        ),
        (
            "confirmations without an answer",
            rows::SETUP,
            rows::UNCONFIRMED,
        ),
    ];
    for (name, setup, text) in rows {
        assert_eq!(rt; difference(rt.alloc(), setup, text)?, "", "{name}");
    }
    Ok(())
}

#[test]
fn approvals_go_as_written(rt: HostRuntime) -> Result<(), Fail> {
    let rows = [
        ("an approval in time", rows::IN_TIME),
        ("an approval too late", rows::EXPIRED),
        ("approvals too late, then Lates", rows::LATE_BEHIND),
        ("an approval of another amount", rows::OTHER_AMOUNT),
        ("an approval by the other PSP", rows::OTHER_SENDER),
    ];
    for (name, text) in rows {
        assert_eq!(rt;
            difference(rt.alloc(), rows::SETUP_ANN_ASKS, text)?,
            "",
            "{name}"
        );
    }
    Ok(())
}

#[test]
fn refusals_go_as_written(rt: HostRuntime) -> Result<(), Fail> {
    let rows = [
        (
            "a status of an unknown payment",
            rows::SETUP,
            rows::UNKNOWN_TXN,
        ),
        (
            "a payment within one account",
            rows::SETUP_ONE_ACCOUNT,
            rows::ONE_ACCOUNT,
        ),
        (
            "an account that is not the payer's",
            rows::SETUP,
            rows::OTHER_ACCOUNT,
        ),
        ("a payee who is unknown", rows::SETUP, rows::UNKNOWN_PAYEE),
        ("a payment by the other PSP", rows::SETUP, rows::OTHER_PSP),
        (
            "a confirmation before the outcome",
            rows::SETUP,
            rows::CONFIRMED_EARLY,
        ),
    ];
    for (name, setup, text) in rows {
        assert_eq!(rt; difference(rt.alloc(), setup, text)?, "", "{name}");
    }
    Ok(())
}

#[test]
fn what_rows_leave_out_goes_as_written(rt: HostRuntime) -> Result<(), Fail> {
    let rows = [
        ("moments that go back", edges::SETUP_BOB_ASKS, edges::BACK),
        (
            "answers to the question",
            edges::SETUP_BOB_ASKS,
            edges::WORDS,
        ),
        ("what is refused", edges::SETUP_THREE, edges::ASKED),
        ("what a close finds", edges::SETUP_FLAGS, edges::CLOSES),
    ];
    for (name, setup, text) in rows {
        assert_eq!(rt; difference(rt.alloc(), setup, text)?, "", "{name}");
    }
    Ok(())
}

#[test]
fn wrong_reports_are_noticed(rt: HostRuntime) -> Result<(), Fail> {
    let closed = b"E 1 0 0 CLOSE = CLOSED
FLIGHT,,,,0.01,";
    let unknown = b"E 1 0 0 CLOSE = CLOSED
FLOAT,,,,0.00,";
    let untold = b"E 1 0 0 HEAR alpha PAY T1 30.00 ann@alpha bob@beta - - - = OK
M 1 SWITCH beta REQAUTH T1 30.00
E 2 0 0 CLOSE = CLOSED";
    let rows = [
        ("another sum", closed.as_slice()),
        ("a line that isn't known", unknown.as_slice()),
        ("an outcome that isn't told", untold.as_slice()),
    ];
    for (name, text) in rows {
        assert_eq!(rt;
            difference(rt.alloc(), rows::SETUP, text)?,
            "report",
            "{name}"
        );
    }
    Ok(())
}

// What is done to an entry of a history.
#[derive(Clone, Copy)]
enum Spoil {
    Replied(Reply),
    Unsent,
    SentTwice,
    Turned,
    At(u64),
    Called(&'static [u8]),
    Omitted,
    Twice,
    By(u64),
}

fn resent(alloc: Global, entry: &Entry, spoil: Spoil) -> Result<SentList, Fail> {
    let mut list = entry.sent.copy(alloc)?.into_items();
    match spoil {
        Spoil::Unsent => list.clear(),
        Spoil::Turned => list.reverse(),
        Spoil::SentTwice => {
            for sent in entry.sent.items() {
                list.push(sent.copy(alloc)?)?;
            }
        }
        _ => {}
    }
    Ok(SentList::of(list))
}

fn changed(alloc: Global, entry: &Entry, spoil: Spoil) -> Result<Entry, Fail> {
    Ok(Entry {
        call: match spoil {
            Spoil::Called(line) => call_of(alloc, line)?,
            _ => entry.call.copy(alloc)?,
        },
        at: match spoil {
            Spoil::At(second) => Moment::of(second).ok_or("too late")?,
            _ => entry.at,
        },
        caller: match spoil {
            Spoil::By(caller) => caller,
            _ => entry.caller,
        },
        reply: match spoil {
            Spoil::Replied(reply) => reply,
            _ => entry.reply,
        },
        sent: resent(alloc, entry, spoil)?,
    })
}

// The history with the entry at a place changed.
fn spoiled(
    alloc: Global,
    history: &[Entry],
    place: usize,
    spoil: Spoil,
) -> Result<Vec<Entry>, Fail> {
    let mut out = Vec::new(alloc);
    for (i, entry) in history.iter().enumerate() {
        if i + 1 != place {
            out.push(entry.copy(alloc)?)?;
            continue;
        }
        match spoil {
            Spoil::Omitted => {}
            Spoil::Twice => {
                out.push(entry.copy(alloc)?)?;
                out.push(entry.copy(alloc)?)?;
            }
            _ => out.push(changed(alloc, entry, spoil)?)?,
        }
    }
    Ok(out)
}

// The verdict on a payment with the entry at a place changed.
fn verdict(alloc: Global, place: usize, spoil: Spoil) -> Result<Verdict, Fail> {
    let setup = setup_of(alloc, rows::SETUP)?;
    let switch = play(alloc, &setup, rows::PAID)?;
    let copy = spoiled(alloc, switch.entries(), place, spoil)?;
    Ok(replay(alloc, &setup, &copy)?)
}

fn no(entry: u64, why: AuditWhy) -> Verdict {
    Verdict::No { entry, why }
}

#[test]
fn the_first_wrong_reply_or_message_is_told(rt: HostRuntime) -> Result<(), Fail> {
    let declined = Reply::Leg(Answer::Declined(Code::Funds));
    let table = [
        (4, Spoil::Replied(declined), no(4, AuditWhy::Reply)),
        (11, Spoil::Replied(Reply::Told), no(11, AuditWhy::Reply)),
        (4, Spoil::Unsent, no(4, AuditWhy::Sent)),
        (1, Spoil::SentTwice, no(1, AuditWhy::Sent)),
        (7, Spoil::Turned, no(7, AuditWhy::Sent)),
        (3, Spoil::At(1_704_067_230), no(3, AuditWhy::Reply)),
        (5, Spoil::By(9), Verdict::Yes { entries: 11 }),
    ];
    for (i, (place, spoil, wanted)) in table.iter().enumerate() {
        assert_eq!(rt; verdict(rt.alloc(), *place, *spoil)?, *wanted, "{i}");
    }
    Ok(())
}

#[test]
fn the_first_wrong_call_is_told(rt: HostRuntime) -> Result<(), Fail> {
    let gamma = b"E 1 0 0 HEAR gamma PAY T1 30.00 ann@alpha bob@beta - - -".as_slice();
    let table = [
        (1, Spoil::Called(gamma), no(1, AuditWhy::Call)),
        (
            2,
            Spoil::Called(b"E 2 0 0 DELIVER 2"),
            no(2, AuditWhy::Call),
        ),
        (
            2,
            Spoil::Called(b"E 2 0 0 DELIVER 0"),
            no(2, AuditWhy::Call),
        ),
        (2, Spoil::Called(b"E 2 0 0 LOSE 7"), no(2, AuditWhy::Call)),
        (
            10,
            Spoil::Called(b"E 10 0 0 LATE T1"),
            no(10, AuditWhy::Reply),
        ),
        (3, Spoil::Omitted, no(3, AuditWhy::Call)),
        (4, Spoil::Twice, no(7, AuditWhy::Reply)),
        (8, Spoil::Omitted, Verdict::Yes { entries: 10 }),
        (8, Spoil::Twice, Verdict::Yes { entries: 12 }),
    ];
    for (i, (place, spoil, wanted)) in table.iter().enumerate() {
        assert_eq!(rt; verdict(rt.alloc(), *place, *spoil)?, *wanted, "{i}");
    }
    Ok(())
}

// There is room for 2,097,152 entries, and behind them for the first Close.
#[test]
fn an_entry_after_the_limit_is_told(rt: HostRuntime) -> Result<(), Fail> {
    let alloc = rt.alloc();
    let unknown = TxnId::read(b"X1").ok_or("no name")?;
    let mut switch = Replay::new(alloc, setup_of(alloc, rows::SETUP)?.lines);
    for _place in 0..2_097_152 {
        switch.push(silent(alloc, Call::Late(unknown.copy()), Reply::NotDue)?)?;
    }
    assert_eq!(rt; switch.len(), 2_097_152);
    let more = silent(alloc, Call::Late(unknown), Reply::NotDue)?;
    assert_eq!(rt; switch.fault(&more)?, Some(AuditWhy::Call));
    let close = silent(alloc, Call::Close, Reply::Closed)?;
    assert_eq!(rt; switch.fault(&close)?, None);
    switch.push(close)?;
    let again = silent(alloc, Call::Close, Reply::Ack(Some(Code::Closed)))?;
    assert_eq!(rt; switch.fault(&again)?, Some(AuditWhy::Call));
    Ok(())
}

// The name of a payment.
fn name(alloc: Global, number: u64) -> Result<Vec<u8>, Fail> {
    let mut name = Vec::new(alloc);
    name.extend_from_slice(b"L")?;
    write_number(number, &mut name)?;
    Ok(name)
}

fn shard_of(alloc: Global, number: u64) -> Result<u8, Fail> {
    let name = name(alloc, number)?;
    Ok(txn_shard(&TxnId::read(&name).ok_or("no name")?))
}

// The numbers of so many payments whose names have the first shard.
fn first_shard(alloc: Global, count: usize) -> Result<Vec<u64>, Fail> {
    let mut numbers = Vec::new(alloc);
    for number in 0..100_000 {
        if numbers.len() < count && shard_of(alloc, number)? == 0 {
            numbers.push(number)?;
        }
    }
    Ok(numbers)
}

// Alpha asks for a payment of this number.
fn asked_for(alloc: Global, number: u64) -> Result<Call, Fail> {
    let mut line = Vec::new(alloc);
    line.extend_from_slice(b"E 1 0 0 HEAR alpha PAY ")?;
    line.extend_from_slice(&name(alloc, number)?)?;
    line.extend_from_slice(b" 0.01 ann@alpha bob@beta = OK")?;
    call_of(alloc, &line)
}

// The switch of which these payments were asked for.
fn asked(alloc: Global, numbers: &[u64]) -> Result<Replay, Fail> {
    let mut switch = Replay::new(alloc, setup_of(alloc, rows::SETUP)?.lines);
    for number in numbers {
        switch.push(silent(alloc, asked_for(alloc, *number)?, Reply::Ack(None))?)?;
    }
    Ok(switch)
}

#[test]
fn a_shard_is_full(rt: HostRuntime) -> Result<(), Fail> {
    let alloc = rt.alloc();
    let now = Moment::of(0).ok_or("no moment")?;
    let mut numbers = first_shard(alloc, 4097)?;
    let last = numbers.pop().ok_or("no numbers")?;
    let switch = asked(alloc, &numbers)?;
    assert_eq!(rt; switch.rows()?.len(), 4096);
    let full = switch.plan(0, asked_for(alloc, last)?, now)?;
    assert_eq!(rt; full.entry.reply, Reply::Ack(Some(Code::Full)));
    assert!(rt; shard_of(alloc, 1)? != 0);
    let other = switch.plan(0, asked_for(alloc, 1)?, now)?;
    assert_eq!(rt; other.entry.reply, Reply::Ack(None));
    Ok(())
}

#[test]
fn a_reply_behind_a_history_is_that_of_the_switch(rt: HostRuntime) -> Result<(), Fail> {
    let alloc = rt.alloc();
    let setup = setup_of(alloc, rows::SETUP)?;
    let switch = play(alloc, &setup, rows::PAID)?;
    let call = call_of(alloc, b"E 1 0 0 HEAR alpha CHECK T1")?;
    let now = moment(b"1704067300")?;
    let (reply, sent) = reply_of(alloc, &setup, switch.entries(), &call, now)?;
    assert_eq!(rt; reply, Reply::Status(Some(Outcome::Success)));
    assert!(rt; sent.items().is_empty());
    Ok(())
}
