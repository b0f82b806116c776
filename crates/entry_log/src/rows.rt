//! A row of the list: an entry without its messages.
ghost use Rattle.std.specs.Prelude.{◌≡◌, ◌≤◌, IfOk, length};
ghost use Rattle.std.specs.Option.{option_copied};
ghost use Rattle.entry_log.specs.Rows;

use std::alloc::Global;
use upi_base::{Boxed, Call, Moment, NoMemory, Reply, Sent};

/// The call of an entry: its number where it has one, which most have, or all of it on the heap.
#[derive(Drop)]
pub(crate) enum Made {
    Whole(Boxed<Call>),
    Deliver(u64),
    Lose(u64),
    Close,
}

/// An entry without its messages: these are the ones behind those of the row before, up to `upto`.
#[derive(Drop)]
pub(crate) struct Row {
    pub(crate) made: Made,
    pub(crate) at: Moment,
    pub(crate) caller: u64,
    pub(crate) reply: Reply,
    pub(crate) upto: u64,
}

/// A call as a row keeps it. It fails only for want of memory.
pub(crate) fn made_of(alloc: Global, call: Call) -> Result<Made, NoMemory>
    ensures { IfOk result (λ m. Rows.call_of m ≡ call) }
{
    match call {
        Call::Deliver(n) => Ok(Made::Deliver(n)),
        Call::Lose(n) => Ok(Made::Lose(n)),
        Call::Close => Ok(Made::Close),
        Call::Hear { psp, input } => {
            let call = Boxed::new(alloc, Call::Hear { psp, input })?;
            Ok(Made::Whole(call))
        }
        Call::Late(txn) => {
            let call = Boxed::new(alloc, Call::Late(txn))?;
            Ok(Made::Whole(call))
        }
    }
}

/// The row at a place, counted from 1, if there is one.
pub(crate) fn row_at(rows: &[Row], k: u64) -> Option<&Row>
    ensures { option_copied result ≡ Rows.row_of rows.now k }
{
    if k == 0 {
        return None;
    }
    rows.get(k as usize - 1)
}

/// How many messages were sent before the row at a place.
pub(crate) fn sent_before(rows: &[Row], place: usize) -> u64
    requires { place ≤ length rows.now }
    ensures { result ≡ Rows.sent_before 0 rows.now place }
{
    if place == 0 { 0 } else { rows[place - 1].upto }
}

/// The messages behind the first so many, up to the next so many.
pub(crate) fn between(messages: &[Sent], from: usize, upto: usize) -> &[Sent]
    requires order { from ≤ upto }
    requires there { upto ≤ length messages.now }
    ensures { result.now ≡ Rows.between from upto messages.now }
{
    &messages[from..upto]
}
