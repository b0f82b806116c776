// Threads that append to a shared journal.
ghost use Rattle.std.specs.Prelude.{◌≡◌, ◌<◌};

use crate::Load;
use crate::note::Note;
use std::alloc::Global;
use std::marker::Brand;
use std::rt::Clock;
use std::sync::Wait;
use std::thread::{self, Threads};
use std::time::Instant;
use upi_journal::{Journal, JournalBlank, JournalName, Pass, Role};

// The passes of one thread, and how many notes it has appended.
#[derive(Drop)]
struct Writer<N: JournalName<Note>> {
    owner: Pass<N, Note>,
    caller: Pass<N, Note>,
    written: u64,
}

// Appends one note of the thread whose passes these are.
fn write<N: JournalName<Note>, R: Wait>(
    rt: &R,
    journal: &Journal<N, Note>,
    writer: &mut Writer<N>,
    note: Note,
) -> Option<u64>
    requires fits { (h : _) (e : _) → N.charter.fits h e }
    requires fact { (h : _) (e : _) → N.charter.fact h e }
{
    if writer.owner.role() != Role::Owner(note.thread) {
        return None;
    }
    if writer.caller.role() != Role::Caller(u64::from(note.thread)) {
        return None;
    }
    journal
        .append(rt, &mut writer.owner, &mut writer.caller, note)
        .ok()
}

// Appends the thread's notes, until there are so many or one is refused.
fn write_all<N: JournalName<Note>, R: Wait>(
    rt: &R,
    journal: &Journal<N, Note>,
    writer: &mut Writer<N>,
    count: u64,
)
    requires fits { (h : _) (e : _) → N.charter.fits h e }
    requires fact { (h : _) (e : _) → N.charter.fact h e }
{
    let Role::Owner(thread) = writer.owner.role() else {
        return;
    };
    for number in 0..count {
        if write(rt, journal, writer, Note::of(thread, number)).is_none() {
            return;
        }
        writer.written = number;
    }
}

// The same in a journal that has a name.
fn load_named<N: JournalName<Note> + Send + Sync, R: Threads + Wait + Sync + Clock>(
    rt: &R,
    alloc: Global,
    blank: JournalBlank<Note>,
    count: u64,
) -> Option<Load>
    requires name { blank ≡ N.charter.shape }
    requires fits { (h : _) (e : _) → N.charter.fits h e }
    requires fact { (h : _) (e : _) → N.charter.fact h e }
{
    let (journal, owners, callers) = blank.open::<N>().ok()?;
    let mut writers = Vec::new(alloc);
    for (owner, caller) in owners.into_iter().zip(callers) {
        let writer = Writer {
            owner,
            caller,
            written: 0,
        };
        writers.push(writer).ok()?;
    }
    let shared = &journal;
    let threads = writers.len().max(1);
    let start = Instant::now(rt).ok()?;
    thread::for_each_mut(
        rt,
        writers.as_mut_slice(),
        threads,
        &|_, writer| { write_all(rt, shared, writer, count) },
    );
    let took = start.elapsed(rt).ok()?;
    let mut owners = Vec::new(alloc);
    let mut callers = Vec::new(alloc);
    for Writer {
        owner,
        caller,
        written: _,
    } in writers {
        owners.push(owner).ok()?;
        callers.push(caller).ok()?;
    }
    let notes = journal.close(owners, callers, None).ok()?;
    Some(Load { notes, took })
}

/// So many threads append so many notes each to a shared journal, each with an owner and a caller of
/// its own. The answer is `None` where there was no memory or no clock.
pub fn load<R: Threads + Wait + Sync + Clock>(
    rt: &R,
    alloc: Global,
    threads: u32,
    count: u64,
) -> Option<Load> {
    let blank = Journal::new(alloc, threads, threads, 1 << 31).ok()?;
    load_named::<Brand, R>(rt, alloc, blank, count)
}
