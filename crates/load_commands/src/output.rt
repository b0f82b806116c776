//! What a command writes at its end.
ghost use Rattle.std.specs.Prelude.{◌≡◌, ◌≤◌};
ghost use Rattle.upi_io.specs.Faults.{Rose};
ghost use Rattle.load_commands.specs.Outputs.{Gives};

use upi_io::{Sink, Status, write_all};

/// Writes a text, after which all is done.
pub(crate) fn put<K: Sink>(text: &[u8], sink: &mut K) -> Status
    ensures gives { Gives text.now (K.taken sink.old) (K.taken sink.new) result }
    ensures write { result ≡ Status.WriteFault → Rose (K.faults sink.old) (K.faults sink.new) }
    ensures writes { K.faults sink.old ≤ K.faults sink.new }
{
    match write_all(sink, text) {
        Ok(()) => Status::Done,
        Err(_wrote) => Status::WriteFault,
    }
}
