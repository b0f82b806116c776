//! Readers and writers of std as a source and a sink, such as standard input and output of a program.
//!
//! What they have left or taken is what the library's contracts tell of the reader or the writer: all of
//! it for one over memory, and nothing for standard input and output.
ghost use Rattle.std.specs.Prelude.{◌≡◌, ◌≤◌, [], length, true, false};
ghost use Rattle.std.specs.Io.Buffered.{writer_buffer, writer_contents};
ghost use Rattle.std.specs.Io.KnownBytes.{Keeps};
ghost use Rattle.upi_io.specs.Standard.{reading_left, reading_ended, reading_faults, writing_inner, writing_taken, writing_faults, Gives, Takes};
ghost use Rattle.upi_io.specs.Faults.{Rose};

use crate::sink::{Sink, WriteAnswer};
use crate::source::{ReadAnswer, Source};
use std::io::{BufWriter, ErrorKind, Read, Write};

// How often a call is made again that a signal broke off.
const MAX_TRIES: usize = 1000;

/// A reader of std as a source.
///
/// A read that a signal broke off is made again, up to a thousand times.
#[derive(Drop)]
pub struct Reading<R> {
    inner: R,
    ended: bool,
    faults: u64,
}

impl<R: Read> Reading<R> {
    /// A source over a reader, which has had no fault.
    pub fn new(inner: R) -> Reading<R>
        ensures left { reading_left R.remaining result ≡ R.remaining inner }
        ensures ended { reading_ended result ≡ false }
        ensures faults { reading_faults result ≡ 0 }
    {
        Reading {
            inner,
            ended: false,
            faults: 0,
        }
    }
}

impl<R: Read> Source for Reading<R> {
    ghost left = { reading_left R.remaining };

    ghost ended = { λ s. s.ended };

    ghost faults = { λ s. s.faults };

    fn read(&mut self, buf: &mut [u8]) -> ReadAnswer {
        match read_once(&mut self.inner, buf) {
            Some(0) => {
                self.ended = true;
                ReadAnswer::End
            }
            Some(count) => ReadAnswer::Got(count),
            None => {
                self.faults = self.faults.saturating_add(1);
                ReadAnswer::Failed
            }
        }
    }
}

// Reads once. It answers how many bytes came, and None where the reader failed.
fn read_once<R: Read>(inner: &mut R, buf: &mut [u8]) -> Option<usize>
    ensures { Gives (R.remaining inner.old) (R.remaining inner.new) buf.new result }
{
    'tries: for _ in 0..MAX_TRIES {
        match inner.read(buf) {
            Ok(count) => return Some(count),
            Err(error) if error.kind() == ErrorKind::Interrupted => {}
            Err(_) => return None,
        }
    }
    None
}

/// A writer of std as a sink.
///
/// A write that a signal broke off is made again, up to a thousand times, and a write that takes
/// nothing is a fault. What the sink took was handed to the writer. `std::io::writer` hands each
/// piece to the system at once. Where the writer keeps bytes back, as a `BufWriter` does, call
/// `finish` before the program ends.
#[derive(Drop)]
pub struct Writing<W> {
    inner: W,
    faults: u64,
}

impl<W: Write> Writing<W> {
    /// A sink over a writer, which has had no fault.
    pub fn new(inner: W) -> Writing<W>
        ensures inner { writing_inner result ≡ inner }
        ensures faults { writing_faults result ≡ 0 }
    {
        Writing { inner, faults: 0 }
    }
}

impl<W: Write + Drop> Writing<BufWriter<W>> {
    /// Lets the writer hand on what it has kept back, and answers whether it did. Where it failed,
    /// that is one more fault, and what wasn't handed on is still kept back.
    pub fn finish(&mut self) -> bool
        ensures emptied { result ≡ true → writer_buffer (writing_inner self.new) ≡ [] }
        ensures bytes { Keeps (writing_taken (writer_contents W.contents) self.old) (writing_taken (writer_contents W.contents) self.new) }
        ensures count { writing_faults self.old ≤ writing_faults self.new }
        ensures cause { result ≡ false → Rose (writing_faults self.old) (writing_faults self.new) }
    {
        let done = flush(&mut self.inner);
        if !done {
            self.faults = self.faults.saturating_add(1);
        }
        done
    }
}

impl<W: Write> Sink for Writing<W> {
    ghost taken = { writing_taken W.contents };

    ghost faults = { λ s. s.faults };

    fn write(&mut self, bytes: &[u8]) -> WriteAnswer {
        match write_once(&mut self.inner, bytes) {
            Some(count) if count > 0 => WriteAnswer::Took(count),
            _ => {
                self.faults = self.faults.saturating_add(1);
                WriteAnswer::Failed
            }
        }
    }
}

// Writes once. It answers how many bytes were taken, and None where the writer failed.
fn write_once<W: Write>(inner: &mut W, bytes: &[u8]) -> Option<usize>
    ensures { Takes (W.contents inner.old) (W.contents inner.new) bytes.now result }
{
    'tries: for _ in 0..MAX_TRIES {
        match inner.write(bytes) {
            Ok(count) => return Some(count),
            Err(error) if error.kind() == ErrorKind::Interrupted => {}
            Err(_) => return None,
        }
    }
    None
}

// Flushes a writer, and answers whether that was done.
fn flush<W: Write + Drop>(inner: &mut BufWriter<W>) -> bool
    ensures emptied { result ≡ true → writer_buffer inner.new ≡ [] }
    ensures bytes { Keeps (writer_contents W.contents inner.old) (writer_contents W.contents inner.new) }
{
    'tries: for _ in 0..MAX_TRIES {
        match inner.flush() {
            Ok(()) => return true,
            Err(error) if error.kind() == ErrorKind::Interrupted => {}
            Err(_) => return false,
        }
    }
    false
}
