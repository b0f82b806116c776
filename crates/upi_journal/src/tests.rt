ghost use Rattle.std.specs.Prelude.{◌≡◌};

use super::*;
use std::alloc::{AllocError, Global};
use std::marker::Brand;
use std::process::Abort;
use std::sync::Wait;
use std::test::Fail;

#[derive(Clone, Copy, Debug, PartialEq, Eq)]
struct Remark {
    owner: u32,
    caller: u64,
    sent: u64,
}

impl JournalEntry for Remark {
    ghost marks = { record { owner = λ r. r.owner; caller = λ r. r.caller; sent = λ r. r.sent } };

    fn owner(&self) -> u32 {
        self.owner
    }

    fn caller(&self) -> u64 {
        self.caller
    }

    fn sent_len(&self) -> u64 {
        self.sent
    }

    fn copy(&self, _: Global) -> Result<Remark, AllocError> {
        Ok(*self)
    }
}

const QUIET: Remark = Remark {
    owner: 0,
    caller: 1,
    sent: 0,
};

const ONE: Remark = Remark {
    owner: 1,
    caller: 0,
    sent: 1,
};

const THREE: Remark = Remark {
    owner: 0,
    caller: 0,
    sent: 3,
};

const LAST: Remark = Remark {
    owner: 7,
    caller: 9,
    sent: 0,
};

// Appends the remark where the passes are those of its owner and its caller.
fn add<N: JournalName<Remark>, R: Wait>(
    rt: &R,
    journal: &Journal<N, Remark>,
    owner: &mut Pass<N, Remark>,
    caller: &mut Pass<N, Remark>,
    remark: Remark,
) -> Option<Result<u64, AppendFault<Remark>>>
    requires fits { (h : _) (e : _) → N.charter.fits h e }
    requires fact { (h : _) (e : _) → N.charter.fact h e }
{
    if owner.role() != Role::Owner(remark.owner) {
        return None;
    }
    if caller.role() != Role::Caller(remark.caller) {
        return None;
    }
    if remark.sent >= 1 << 31 {
        return None;
    }
    Some(journal.append(rt, owner, caller, remark))
}

// Three entries are all that there is room for.
fn fill<N: JournalName<Remark>, R: Wait + Abort>(
    rt: &R,
    journal: &Journal<N, Remark>,
    owners: &mut [Pass<N, Remark>],
    callers: &mut [Pass<N, Remark>],
) -> Result<(), Fail>
    requires fits { (h : _) (e : _) → N.charter.fits h e }
    requires fact { (h : _) (e : _) → N.charter.fact h e }
{
    let ([zero, one], [first, second]) = (owners, callers) else {
        return Err("two owners and two callers".into());
    };
    assert!(rt; first.number() == 0 && second.number() == 1);
    assert!(rt; matches!(add(rt, journal, zero, second, QUIET), Some(Ok(1))));
    assert!(rt; matches!(add(rt, journal, one, first, ONE), Some(Ok(2))));
    assert!(rt; matches!(add(rt, journal, zero, first, THREE), Some(Ok(3))));
    let fault = add(rt, journal, zero, first, THREE);
    assert!(rt;
        matches!(
            fault,
            Some(Err(AppendFault::Full {
                len: 3,
                entry: THREE
            }))
        )
    );
    assert!(rt; journal.look(rt, one) == 3);
    assert!(rt; journal.meet(rt, first, second) == 3);
    Ok(())
}

// One entry sends none, one sends message 1, one sends messages 2, 3 and 4.
fn read<N: JournalName<Remark>, R: Wait + Abort>(
    rt: &R,
    journal: &Journal<N, Remark>,
    callers: &mut [Pass<N, Remark>],
) -> Result<(), Fail> {
    let [pass, ..] = callers else {
        return Err("a caller".into());
    };
    for n in [0, 5] {
        assert!(rt; matches!(journal.find(rt, pass, n)?, Found::Past { sent: 4 }));
    }
    for (n, at, which) in [(1, 2, 0), (2, 3, 0), (3, 3, 1), (4, 3, 2)] {
        let Found::At {
            place,
            index,
            entry,
        } = journal.find(rt, pass, n)?
        else {
            return Err("the message is sent".into());
        };
        assert!(rt; place == at && index == which);
        assert!(rt; entry == if n == 1 { ONE } else { THREE });
    }
    assert!(rt; journal.entries(rt, pass, 1)?.as_slice() == [ONE, THREE].as_slice());
    assert!(rt; journal.entries(rt, pass, 9)?.is_empty());
    Ok(())
}

fn story<N: JournalName<Remark>, R: Wait + Abort>(
    rt: &R,
    blank: JournalBlank<Remark>,
) -> Result<(), Fail>
    requires name { blank ≡ N.charter.shape }
    requires fits { (h : _) (e : _) → N.charter.fits h e }
    requires fact { (h : _) (e : _) → N.charter.fact h e }
{
    let (journal, mut owners, mut callers) = blank.open::<N>()?;
    fill(rt, &journal, owners.as_mut_slice(), callers.as_mut_slice())?;
    read(rt, &journal, callers.as_mut_slice())?;
    match journal.close(owners, callers, Some(LAST)) {
        Ok(all) => {
            assert!(rt; all.as_slice() == [QUIET, ONE, THREE, LAST].as_slice());
            Ok(())
        }
        Err(_) => Err("there is memory".into()),
    }
}

#[test]
fn three_entries_and_a_last_one(rt: HostRuntime) -> Result<(), Fail> {
    let blank = Journal::new(rt.alloc(), 2, 2, 3)?;
    story::<Brand, HostRuntime>(&rt, blank)
}
