//! A call on both programs, and whether they answer alike.
ghost use Rattle.std.specs.Prelude.{◌≡◌};
ghost use Rattle.switch_core.specs.Calls.{is_known as knows};

use entry_log::{CallView, EntryView};
use std::alloc::Global;
use std::hash::RandomState;
use std::test::Fail;
use switch_core::{Core, CoreFault};
use upi_base::{Call, Done, Entry, Moment, NoMemory, Setup};
use upi_replay::Replay;
use vpa_directory::Directory;
use worked_rows::journal::push_view;

/// A switch by tables over a setup.
pub(crate) fn switch(rt: &HostRuntime, setup: Setup) -> Result<Core, Fail> {
    let hashes = RandomState::new(rt)?;
    let core = Core::new(rt.alloc(), hashes, setup).ok();
    Ok(core.ok_or("a switch")?)
}

// Whether the PSP of a Hear is in the setup.
fn is_known(directory: &Directory, call: &Call) -> bool
    ensures { result ≡ knows directory.now.lines call.now }
{
    match call {
        Call::Hear { psp, input: _input } => directory.has_psp(psp),
        _ => true,
    }
}

/// A call on the switch by tables. It isn't made where it comes of a PSP that isn't in the setup.
pub(crate) fn apply(core: &mut Core, call: Call, now: Moment) -> Option<Result<Done, CoreFault>> {
    if !is_known(core.directory(), &call) {
        return None;
    }
    Some(core.apply(call, now))
}

// Makes a call on the plain program, if it may come.
fn apply_plain(plain: &mut Replay, call: Call, now: Moment) -> Result<bool, Fail> {
    if !plain.may_come(&call) {
        return Ok(false);
    }
    let step = plain.plan(0, call, now)?;
    plain.commit(step)?;
    Ok(true)
}

/// The lines of an entry behind which so many messages were sent in all.
pub(crate) fn lines_of(
    alloc: Global,
    entry: &EntryView<'_>,
    place: u64,
    all: u64,
) -> Result<Vec<u8>, NoMemory> {
    let mut out = Vec::new(alloc);
    let first = all.saturating_sub(entry.sent.len() as u64);
    push_view(alloc, entry, place, first.saturating_add(1), &mut out)?;
    Ok(out)
}

/// The lines of the last entry of the switch by tables, if there is one.
pub(crate) fn last_lines(alloc: Global, core: &Core) -> Result<Vec<u8>, NoMemory> {
    let Some(entry) = core.entry(core.len()) else {
        return Ok(Vec::new(alloc));
    };
    lines_of(alloc, &entry, core.len(), core.sent_count())
}

// Whether a view shows a call.
fn shows_call(view: &CallView<'_>, call: &Call) -> bool {
    match view {
        CallView::Whole(whole) => **whole == *call,
        CallView::Deliver(n) => *call == Call::Deliver(*n),
        CallView::Lose(n) => *call == Call::Lose(*n),
        CallView::Close => *call == Call::Close,
    }
}

// Whether a view shows an entry: its call, moment, caller, reply and messages.
fn shows(view: &EntryView<'_>, entry: &Entry) -> bool {
    shows_call(&view.call, &entry.call)
        && view.at == entry.at
        && view.caller == entry.caller
        && view.reply == entry.reply
        && view.sent == entry.sent.items()
}

/// Whether the switch by tables has an entry at a place.
pub(crate) fn has_entry(core: &Core, place: u64, entry: &Entry) -> bool {
    match core.entry(place) {
        Some(view) => shows(&view, entry),
        None => false,
    }
}

// What differs behind an entry that both took, as the switch by tables told it.
fn last_differs(core: &Core, plain: &Replay, done: Done) -> &'static str {
    match plain.entries().last() {
        None => "the entry",
        Some(entry) => {
            if done.reply != entry.reply {
                "the reply"
            } else if done.place != plain.len() || core.len() != plain.len() {
                "the place"
            } else if !has_entry(core, done.place, entry) {
                "the entry"
            } else {
                ""
            }
        }
    }
}

/// Makes a call on both. What differs then; nothing, where it is empty.
pub(crate) fn call_both(
    alloc: Global,
    core: &mut Core,
    plain: &mut Replay,
    call: Call,
    now: Moment,
) -> Result<&'static str, Fail> {
    let taken = apply_plain(plain, call.copy(alloc)?, now)?;
    match apply(core, call, now) {
        Some(Ok(done)) => {
            if taken {
                Ok(last_differs(core, plain, done))
            } else {
                Ok("a call that may not come")
            }
        }
        _ => Ok(if taken { "a call that is refused" } else { "" }),
    }
}
