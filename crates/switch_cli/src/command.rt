//! The call that a program makes: what the words ask for, from a source to a sink.
ghost use Rattle.std.specs.Prelude.{◌≡◌, ◌≢◌, ◌↔◌, ◌≤◌, true, false, Some, None};
ghost use Rattle.upi_io.specs.Faults.{Rose};
ghost use Rattle.command_words.specs.Commands.{command_of, IsWithin};
ghost use Rattle.switch_cli.specs.Audits.{is_final};
ghost use Rattle.switch_cli.specs.Does.{Does, CompletesAs, reads_input};

use crate::audit::run_audit;
use crate::script::run_script;
use command_words::{Command, command_of};
use load_commands::{run_generate, run_load_summary};
use std::alloc::Global;
use std::hash::RandomState;
use upi_io::{Sink, Source, Status, Words};

// Does what a command asks for.
fn perform<S: Source, K: Sink>(
    alloc: Global,
    hashes: RandomState,
    command: Command,
    source: &mut S,
    sink: &mut K,
) -> Status
    requires { IsWithin (Some command) }
    ensures does { Does (Some command) (S.left source.old) (S.left source.new) (K.taken sink.old) (K.taken sink.new) result }
    ensures unread { reads_input (Some command) ≡ false → source.new ≡ source.old }
    ensures usage { result ≢ Status.Usage }
    ensures ended { reads_input (Some command) ≡ true → is_final result ≡ true → S.ended source.new ≡ true }
    ensures read { result ≡ Status.ReadFault → Rose (S.faults source.old) (S.faults source.new) }
    ensures write { result ≡ Status.WriteFault → Rose (K.faults sink.old) (K.faults sink.new) }
    ensures reads { S.faults source.old ≤ S.faults source.new }
    ensures writes { K.faults sink.old ≤ K.faults sink.new }
    ensures sure { S.sure source.old ≡ true → result ≢ Status.ReadFault }
{
    match command {
        Command::Script => run_script(alloc, hashes, source, sink),
        Command::Audit => run_audit(alloc, hashes, source, sink),
        Command::Generate(size) => run_generate(alloc, size.count, size.seed, sink),
        Command::Load(size) => run_load_summary(alloc, hashes, size.count, size.seed, sink),
    }
}

/// Does what the words ask for, and answers how that ended. Names that senders choose are hashed with
/// `hashes`; nothing that is written depends on them.
///
/// - `script`: the lines of the source are run as a script, and what they write goes into the sink as
///   they are played, with the report at the end.
/// - `audit`: the lines of the source are judged as a journal. At their end the verdict is written; where
///   it is no, the status is `AuditNo`.
/// - `gen COUNT SEED`: the text of a load of so many payments is written.
/// - `load COUNT SEED`: that load is run, and the line that sums it up is written.
///
/// `Usage` comes exactly for other words, and then nothing is read or written. `BadLine` comes at the
/// first line outside the grammar, `TooLong` at the first line of more than 65,536 bytes; what the
/// lines of a script before it write is written then, and nothing more. `ReadFault` and `WriteFault`
/// come only where the source or the sink failed. `NoMemory` may come at any time.
pub fn run<S: Source, K: Sink>(
    alloc: Global,
    hashes: RandomState,
    words: &Words,
    source: &mut S,
    sink: &mut K,
) -> Status
    ensures usage { result ≡ Status.Usage ↔ (command_of words.now ≡ None) }
    ensures nothing { result ≡ Status.Usage → (source.new ≡ source.old) × (sink.new ≡ sink.old) }
    // What was written and why it ended is what the command calls for, over the lines of the source.
    ensures does { Does (command_of words.now) (S.left source.old) (S.left source.new) (K.taken sink.old) (K.taken sink.new) result }
    // `gen` and `load` read nothing.
    ensures unread { reads_input (command_of words.now) ≡ false → source.new ≡ source.old }
    // All is done, with all its text written, where the lines are a whole input, and neither the source
    // nor the sink failed.
    ensures complete { ¬ Rose (S.faults source.old) (S.faults source.new) → ¬ Rose (K.faults sink.old) (K.faults sink.new)
        → CompletesAs (command_of words.now) (S.left source.old) (K.taken sink.old) (K.taken sink.new) result }
    // Where an input is read, Done and AuditNo come only where the source answered that it has ended.
    ensures ended { reads_input (command_of words.now) ≡ true → is_final result ≡ true → S.ended source.new ≡ true }
    // Faults come only where that object's count rose, and counts never fall.
    ensures read { result ≡ Status.ReadFault → Rose (S.faults source.old) (S.faults source.new) }
    ensures write { result ≡ Status.WriteFault → Rose (K.faults sink.old) (K.faults sink.new) }
    ensures reads { S.faults source.old ≤ S.faults source.new }
    ensures writes { K.faults sink.old ≤ K.faults sink.new }
    // A source that can't fail hasn't.
    ensures sure { S.sure source.old ≡ true → result ≢ Status.ReadFault }
{
    match command_of(words) {
        Some(command) => perform(alloc, hashes, command, source, sink),
        None => Status::Usage,
    }
}
