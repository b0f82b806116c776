//! A source and a sink over memory.
ghost use Rattle.std.specs.Prelude.{◌≡◌, ◌<◌, ◌≤◌, ◌↔◌, ℕ, Some, Ok, [], IfOk, IsOk, length, take, drop, min, vec_len, vec_capacity, true, false};
ghost use Rattle.upi_io.specs.Memory.{SourceState, SinkState, is_listed, is_sure, sure_room, read_answer, after_read, write_answer, after_write};
ghost use Rattle.upi_io.specs.Faults.{next_count};
ghost use Rattle.upi_io.specs.Streams.{Reads, ReadCause, ReadSurely, ended_after, Writes, WriteCause, WriteSurely};

use crate::sink::{Sink, WriteAnswer};
use crate::source::{ReadAnswer, Source};
use std::alloc::Global;
use std::marker::Model;
use upi_base::NoMemory;

/// A source of bytes in memory. It gives at most `piece` bytes a read, and fails at the calls listed.
#[derive(Drop)]
pub struct MemSource {
    bytes: Vec<u8>,
    at: usize,
    piece: usize,
    fail_at: Vec<u64>,
    calls: u64,
    faults: u64,
    ended: bool,
}

impl Model for MemSource {
    ghost use Rattle.std.specs.Prelude.{◌<◌, ◌≤◌, drop, vec_len};
    ghost use Rattle.upi_io.specs.Memory.{SourceState};

    ghost Value = { SourceState };

    ghost view = { λ s. record { left = drop s.at s.bytes.items; piece = s.piece; fail_at = s.fail_at.items; calls = s.calls; faults = s.faults; ended = s.ended } };

    ghost invariant = { λ s. (s.at ≤ vec_len s.bytes) × (0 < s.piece) };
}

impl MemSource {
    /// A source of these bytes. `piece` is the most bytes of a read, at least 1. Calls are counted
    /// from 1, and those in `fail_at` fail; where none is listed, no call ever fails.
    pub fn new(bytes: Vec<u8>, piece: usize, fail_at: Vec<u64>) -> MemSource
        requires { 0 < piece }
        ensures { result ≡ record { left = bytes.items; piece = piece; fail_at = fail_at.items; calls = 0; faults = 0; ended = false } }
    {
        MemSource {
            bytes,
            at: 0,
            piece,
            fail_at,
            calls: 0,
            faults: 0,
            ended: false,
        }
    }

    /// How many calls have failed.
    pub fn faults(&self) -> u64
        ensures { result ≡ self.now.faults }
    {
        self.faults
    }
}

impl Source for MemSource {
    ghost left = { λ s. Some s.left };

    ghost ended = { λ s. s.ended };

    ghost faults = { λ s. s.faults };

    ghost sure = { is_sure };

    fn read(&mut self, buf: &mut [u8]) -> ReadAnswer
        requires { 0 < length buf.old }
        ensures bytes { Reads (Some self.old.left) (Some self.new.left) buf.new result }
        ensures end { self.new.ended ≡ ended_after self.old.ended result }
        ensures cause { ReadCause self.old.faults self.new.faults result }
        ensures sure { ReadSurely (is_sure self.old) (is_sure self.new) result }
        // It fails exactly at the calls listed, and gives no less than it may.
        ensures answer { result ≡ read_answer self.old (length buf.old) }
        ensures state { self.new ≡ after_read self.old result }
    {
        self.calls = self.calls.saturating_add(1);
        if self.fail_at.contains(&self.calls) {
            self.faults = self.faults.saturating_add(1);
            return ReadAnswer::Failed;
        }
        let rest = &self.bytes[self.at..];
        if rest.is_empty() {
            self.ended = true;
            return ReadAnswer::End;
        }
        let count = give(rest, self.piece, buf);
        self.at += count;
        ReadAnswer::Got(count)
    }
}

// Copies the first bytes into a buffer, at most so many. It answers how many.
fn give(rest: &[u8], most: usize, buf: &mut [u8]) -> usize
    ensures count { result ≡ min (min (length rest.now) most) (length buf.old) }
    ensures front { take result buf.new ≡ take result rest.now }
{
    let count = rest.len().min(most).min(buf.len());
    let (front, _) = buf.split_at_mut(count);
    let (bytes, _) = rest.split_at(count);
    front.copy_from_slice(bytes);
    count
}

/// A sink into memory, with room for `room` bytes. It takes at most `piece` bytes a write, and fails
/// at the calls listed and where its room is full.
#[derive(Drop)]
pub struct MemSink {
    taken: Vec<u8>,
    room: usize,
    piece: usize,
    fail_at: Vec<u64>,
    calls: u64,
    faults: u64,
}

impl Model for MemSink {
    ghost use Rattle.std.specs.Prelude.{◌<◌, ◌≤◌, vec_len, vec_capacity};
    ghost use Rattle.upi_io.specs.Memory.{SinkState};

    ghost Value = { SinkState };

    ghost view = { λ k. record { taken = k.taken.items; room = k.room; piece = k.piece; fail_at = k.fail_at.items; calls = k.calls; faults = k.faults } };

    ghost invariant = { λ k. (vec_len k.taken ≤ k.room) × (k.room ≤ vec_capacity k.taken) × (0 < k.piece) };
}

impl MemSink {
    /// An empty sink. It takes the memory for all its `room` bytes at once, and no more later.
    /// `piece` is the most bytes of a write, at least 1. Calls are counted from 1, and those in
    /// `fail_at` fail.
    pub fn new(
        alloc: Global,
        room: usize,
        piece: usize,
        fail_at: Vec<u64>,
    ) -> Result<MemSink, NoMemory>
        requires { 0 < piece }
        ensures { IfOk result (λ k. k ≡ record { taken = []; room = room; piece = piece; fail_at = fail_at.items; calls = 0; faults = 0 }) }
    {
        let taken = Vec::with_capacity(alloc, room)?;
        Ok(MemSink {
            taken,
            room,
            piece,
            fail_at,
            calls: 0,
            faults: 0,
        })
    }

    /// The bytes that were taken.
    pub fn taken(&self) -> &[u8]
        ensures { result.now ≡ self.now.taken }
    {
        &self.taken
    }

    /// How many calls have failed.
    pub fn faults(&self) -> u64
        ensures { result ≡ self.now.faults }
    {
        self.faults
    }
}

impl Sink for MemSink {
    ghost taken = { λ k. Some k.taken };

    ghost faults = { λ k. k.faults };

    ghost sure_room = { sure_room };

    fn write(&mut self, bytes: &[u8]) -> WriteAnswer
        requires { 0 < length bytes.now }
        ensures bytes { Writes (Some self.old.taken) (Some self.new.taken) bytes.now result }
        ensures cause { WriteCause self.old.faults self.new.faults result }
        ensures sure { WriteSurely (sure_room self.old) (sure_room self.new) result }
        // It fails exactly at the calls listed and where its room is full, and takes no less than it may.
        ensures answer { result ≡ write_answer self.old bytes.now }
        ensures state { self.new ≡ after_write self.old bytes.now result }
    {
        self.calls = self.calls.saturating_add(1);
        let left = self.room - self.taken.len();
        if self.fail_at.contains(&self.calls) || left == 0 {
            self.faults = self.faults.saturating_add(1);
            return WriteAnswer::Failed;
        }
        let count = bytes.len().min(self.piece).min(left);
        match self.taken.extend_from_slice(&bytes[..count]) {
            Ok(()) => WriteAnswer::Took(count),
            Err(_) => WriteAnswer::Failed,
        }
    }
}
