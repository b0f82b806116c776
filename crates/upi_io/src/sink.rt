//! Sinks of bytes.
ghost use Rattle.std.specs.Prelude.{◌<◌, ◌≤◌, ◌+◌, ℕ, List, length, take, MatchResult};
ghost use Rattle.std.specs.Io.KnownBytes.{Appends};
ghost use Rattle.std.specs.declared.option.Option.{Option};
ghost use Rattle.upi_io.specs.Faults.{Rose};
ghost use Rattle.upi_io.specs.Streams.{Writes, WriteCause, WriteSurely};

/// What a sink answers to a write.
#[derive(Clone, Copy, Debug, PartialEq, Eq)]
pub enum WriteAnswer {
    /// The first bytes of the piece were taken, so many, at least one.
    Took(usize),
    /// The sink failed, and took nothing.
    Failed,
}

/// A sink of bytes.
///
/// Its count of faults never falls, and rises in each call that answers `Failed`. At the greatest
/// `u64` it stays.
pub trait Sink {
    /// The bytes that were taken, where the sink tells. A sink into memory does.
    ghost taken: { Self → Option (List ℕ) };

    /// How many calls have failed.
    ghost faults: { Self → ℕ };

    /// How many bytes more it takes for sure, in as many calls as it likes. A sink into memory that lists
    /// no call takes as many as it has room for.
    ghost sure_room: { Self → ℕ } = { λ _. 0 };

    /// Writes the first bytes of a piece, which isn't empty.
    fn write(&mut self, bytes: &[u8]) -> WriteAnswer
        requires { 0 < length bytes.now }
        ensures bytes { Writes (taken self.old) (taken self.new) bytes.now result }
        ensures cause { WriteCause (faults self.old) (faults self.new) result }
        ensures sure { WriteSurely (sure_room self.old) (sure_room self.new) result };
}

/// A write failed.
#[derive(Clone, Copy, Debug, PartialEq, Eq)]
pub struct Wrote {
    /// How many bytes went out before.
    pub n: usize,
}

/// Writes all the bytes, and takes no memory.
///
/// It fails only where the sink failed. Exactly the first `n` bytes then went out.
pub fn write_all<K: Sink>(sink: &mut K, bytes: &[u8]) -> Result<(), Wrote>
    ensures bytes { MatchResult result
        (λ _. Appends (K.taken sink.old) (K.taken sink.new) bytes.now)
        (λ w. Appends (K.taken sink.old) (K.taken sink.new) (take w.n bytes.now)) }
    ensures within { MatchResult result (λ _. Unit {0}) (λ w. w.n < length bytes.now) }
    ensures count { K.faults sink.old ≤ K.faults sink.new }
    ensures cause { MatchResult result (λ _. Unit {0}) (λ _. Rose (K.faults sink.old) (K.faults sink.new)) }
    // It fails only behind all the room that the sink had for sure.
    ensures sure { MatchResult result (λ _. K.sure_room sink.old ≤ K.sure_room sink.new + length bytes.now) (λ w. K.sure_room sink.old ≤ w.n) }
{
    let mut done = 0;
    while done < bytes.len() {
        match sink.write(&bytes[done..]) {
            WriteAnswer::Took(n) => done += n,
            WriteAnswer::Failed => return Err(Wrote { n: done }),
        }
    }
    Ok(())
}
