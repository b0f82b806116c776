//! An accepted call: its entry goes into the list, and the tables then stand for the longer history.
ghost use Rattle.std.specs.Prelude.{◌≡◌, ◌∷◌, true, false, IfOk, OnErr};
ghost use Rattle.std.specs.Option.{option_copied};
ghost use Rattle.upi_words.specs.Prelude.{is_closed};
ghost use Rattle.upi_model.specs.History.{is_close as closes};
ghost use Rattle.upi_model.specs.Legal.{entry_of, may_come};
ghost use Rattle.upi_model.specs.Owners;
ghost use Rattle.upi_model.specs.Replies.{reply_to};
ghost use Rattle.core_shards.specs.Tables.{StandsAll};

use crate::refusal::is_close;
use crate::shut::{enter_close, enter_shut};
use core_shards::CoreShards;
use entry_log::Log;
use std::alloc::Global;
use upi_base::{Call, Entry, Moment, NoMemory, Reply, Sent};

// The message that a call is about, if it was sent.
fn message_of<'a>(log: &'a Log, call: &Call) -> Option<&'a Sent>
    ensures { option_copied result ≡ Owners.message_of log.now call.now }
{
    match call {
        Call::Deliver(n) => log.message(*n),
        Call::Lose(n) => log.message(*n),
        _ => None,
    }
}

// A call that is no Close, before one: the tables plan it, the list takes its entry, and the tables
// take the plan, which needs no memory.
fn enter_open(
    tables: &mut CoreShards,
    log: &mut Log,
    call: Call,
    now: Moment,
) -> Result<Reply, NoMemory>
    requires stands { StandsAll log.old tables.old }
    requires comes { may_come tables.old.lines log.old call ≡ true }
    requires runs { is_closed log.old ≡ false }
    requires other { closes call ≡ false }
    ensures ok { IfOk result (λ reply. (log.new ≡ entry_of tables.old.lines log.old 0 call now ∷ log.old) × (reply ≡ reply_to tables.old.lines log.old call now)) }
    ensures err { OnErr result (log.new ≡ log.old) }
    ensures lines { tables.new.lines ≡ tables.old.lines }
    ensures stands { StandsAll log.new tables.new }
{
    let mut step = tables.plan(&call, message_of(log, &call), now)?;
    let reply = *step.reply();
    let sent = step.take_sent();
    log.append(Entry {
        call,
        at: now,
        caller: 0,
        reply,
        sent,
    })?;
    tables.commit(step);
    Ok(reply)
}

/// Enters a call of caller 0 that may come. Where there is no memory, nothing changes but room.
pub(crate) fn enter(
    alloc: Global,
    tables: &mut CoreShards,
    log: &mut Log,
    call: Call,
    now: Moment,
) -> Result<Reply, NoMemory>
    requires stands { StandsAll log.old tables.old }
    requires comes { may_come tables.old.lines log.old call ≡ true }
    ensures ok { IfOk result (λ reply. (log.new ≡ entry_of tables.old.lines log.old 0 call now ∷ log.old) × (reply ≡ reply_to tables.old.lines log.old call now)) }
    ensures err { OnErr result (log.new ≡ log.old) }
    ensures lines { tables.new.lines ≡ tables.old.lines }
    ensures stands { StandsAll log.new tables.new }
{
    if tables.is_closed() {
        enter_shut(alloc, tables, log, call, now)
    } else if is_close(&call) {
        enter_close(alloc, tables, log, call, now)
    } else {
        enter_open(tables, log, call, now)
    }
}
