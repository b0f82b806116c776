//! Sources of bytes.
ghost use Rattle.std.specs.Prelude.{◌≡◌, ◌<◌, ℕ, Bool, false, List, length};
ghost use Rattle.std.specs.declared.option.Option.{Option};
ghost use Rattle.upi_io.specs.Streams.{Reads, ReadCause, ReadSurely, ended_after};

/// What a source answers to a read.
#[derive(Clone, Copy, Debug, PartialEq, Eq)]
pub enum ReadAnswer {
    /// So many bytes, at least one, stand at the front of the buffer.
    Got(usize),
    /// No byte is left.
    End,
    /// The source failed, and gave nothing.
    Failed,
}

/// A source of bytes.
///
/// Its count of faults never falls, and rises in each call that answers `Failed`. At the greatest
/// `u64` it stays.
pub trait Source {
    /// The bytes that are left, where the source tells. A source over memory does.
    ghost left: { Self → Option (List ℕ) };

    /// Whether it has answered `End`.
    ghost ended: { Self → Bool };

    /// How many calls have failed.
    ghost faults: { Self → ℕ };

    /// Whether no call of it can fail from here on. A source over memory that lists no call is so.
    ghost sure: { Self → Bool } = { λ _. false };

    /// Reads the next bytes into the front of a buffer, which isn't empty.
    fn read(&mut self, buf: &mut [u8]) -> ReadAnswer
        requires { 0 < length buf.old }
        ensures bytes { Reads (left self.old) (left self.new) buf.new result }
        ensures end { ended self.new ≡ ended_after (ended self.old) result }
        ensures cause { ReadCause (faults self.old) (faults self.new) result }
        ensures sure { ReadSurely (sure self.old) (sure self.new) result };
}
