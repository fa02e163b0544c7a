// Sources and sinks over bytes in memory, which say of each call exactly what it does.
ghost use Rattle.std.specs.Prelude.{◌≡◌, ◌≤◌, ◌<◌, ◌+◌, ◌↔◌, [], length, take, Some, IfOk, IsOk, IsErr, OnErr, IsTrue, Contains};
ghost use Rattle.std.specs.Io.{ReadsAtMost};
ghost use Rattle.std.specs.Io.KnownBytes.{ReadConsumes, WriteAppends};
ghost use Rattle.flip_io.specs.Causes.{HasCause, Progresses};
ghost use Rattle.flip_io.specs.Supplies.{Supply, Store, FailsNext, IsStuck, Refuses, Fills, TakesBy, after_fault, after_read, after_refusal, after_write};

use crate::{Failed, Sink, Source};
use std::alloc::{AllocError, Global};
use std::marker::Model;

// Copies the first bytes of `left` to the front of `buf`, at most so many, and answers how many.
fn hand_out(left: &[u8], most: usize, buf: &mut [u8]) -> usize
    ensures { Fills most left.now buf.old buf.new result }
{
    let count = most.min(left.len()).min(buf.len());
    buf[..count].copy_from_slice(&left[..count]);
    count
}

// Whether the call with this number is to fail.
fn lists(fails: &[u64], call: u64) -> bool
    ensures { IsTrue result ↔ Contains fails.now call }
{
    fails.contains(&call)
}

/// A source over bytes in memory, which gives them in pieces and fails at the calls that are listed.
///
/// Calls are counted from 1, and the count stops at `u64::MAX`.
#[derive(Drop)]
pub struct MemSource {
    bytes: Vec<u8>,
    at: usize,
    piece: usize,
    fails: Vec<u64>,
    calls: u64,
    faults: u64,
}

impl Model for MemSource {
    ghost use Rattle.std.specs.Prelude.{drop, ◌≤◌, ◌<◌, length};
    ghost use Rattle.flip_io.specs.Supplies.{Supply};

    ghost Value = { Supply };

    ghost view = { λ m. record { bytes = drop m.at m.bytes.items; piece = m.piece; fails = m.fails.items; calls = m.calls; faults = m.faults } };

    ghost invariant = { λ m. (m.at ≤ length m.bytes.items) × (0 < m.piece) };
}

impl MemSource {
    /// A source that gives at most `piece` bytes for each call, and fails at the calls whose numbers are in `fails`.
    pub fn new(bytes: Vec<u8>, piece: usize, fails: Vec<u64>) -> Self
        requires { 0 < piece }
        ensures { result ≡ record { bytes = bytes.items; piece = piece; fails = fails.items; calls = 0; faults = 0 } }
    {
        MemSource {
            bytes,
            at: 0,
            piece,
            fails,
            calls: 0,
            faults: 0,
        }
    }
}

impl Source for MemSource {
    ghost left = { λ m. Some m.bytes };

    ghost faults = { λ m. m.faults };

    fn read(&mut self, buf: &mut [u8]) -> Result<usize, Failed>
        ensures bound { ReadsAtMost result buf.new }
        ensures bytes { ReadConsumes (Some self.old.bytes) (Some self.new.bytes) result buf.new }
        ensures cause { HasCause self.old.faults self.new.faults result }

        ensures fails { IsErr result ↔ FailsNext self.old }
        ensures failed { OnErr result ((self.new ≡ after_fault self.old) × (buf.new ≡ buf.old)) }
        ensures given { IfOk result (Fills self.old.piece self.old.bytes buf.old buf.new) }
        ensures rest { IfOk result (λ n. self.new ≡ after_read self.old n) }
    {
        self.calls = self.calls.saturating_add(1);
        if lists(&self.fails, self.calls) {
            self.faults = self.faults.saturating_add(1);
            return Err(Failed);
        }
        let count = hand_out(&self.bytes[self.at..], self.piece, buf);
        self.at += count;
        Ok(count)
    }
}

/// A source over bytes in memory that never fails: its count of faults is always 0.
#[derive(Drop)]
pub struct SureSource {
    bytes: Vec<u8>,
    at: usize,
}

impl Model for SureSource {
    ghost use Rattle.std.specs.Prelude.{drop, ◌≤◌, length, List, ℕ};

    ghost Value = { List ℕ };

    ghost view = { λ m. drop m.at m.bytes.items };

    ghost invariant = { λ m. m.at ≤ length m.bytes.items };
}

impl SureSource {
    /// A source that gives as many bytes for each call as the buffer has room for.
    pub fn new(bytes: Vec<u8>) -> Self
        ensures { result ≡ bytes.items }
    {
        SureSource { bytes, at: 0 }
    }
}

impl Source for SureSource {
    ghost use Rattle.std.specs.Prelude.{drop, length};

    ghost left = { λ m. Some m };

    ghost faults = { λ _. 0 };

    fn read(&mut self, buf: &mut [u8]) -> Result<usize, Failed>
        ensures bound { ReadsAtMost result buf.new }
        ensures bytes { ReadConsumes (Some self.old) (Some self.new) result buf.new }
        ensures cause { HasCause 0 0 result }

        ensures sure { IsOk result }
        ensures given { IfOk result (Fills (length buf.old) self.old buf.old buf.new) }
        ensures rest { IfOk result (λ n. self.new ≡ drop n self.old) }
    {
        let count = hand_out(&self.bytes[self.at..], usize::MAX, buf);
        self.at += count;
        Ok(count)
    }
}

/// A sink over room in memory, which takes bytes in pieces and fails at the calls that are listed.
///
/// Calls are counted from 1, and the count stops at `u64::MAX`. A call takes no memory.
#[derive(Drop)]
pub struct MemSink {
    bytes: Vec<u8>,
    room: usize,
    piece: usize,
    fails: Vec<u64>,
    calls: u64,
    faults: u64,
}

impl Model for MemSink {
    ghost use Rattle.std.specs.Prelude.{◌≤◌, ◌≡◌, ◌+◌, length, vec_len, vec_capacity};
    ghost use Rattle.flip_io.specs.Supplies.{Store};

    ghost Value = { Store };

    ghost view = { λ m. record { bytes = m.bytes.items; room = m.room; piece = m.piece; fails = m.fails.items; calls = m.calls; faults = m.faults } };

    ghost invariant = { λ m. vec_len m.bytes + m.room ≤ vec_capacity m.bytes };
}

impl MemSink {
    /// A sink with room for so many bytes, which it takes at once.
    ///
    /// It takes at most `piece` bytes for each call, and fails at the calls whose numbers are in `fails`.
    pub fn new(
        alloc: Global,
        room: usize,
        piece: usize,
        fails: Vec<u64>,
    ) -> Result<Self, AllocError>
        ensures { IfOk result (λ m. m ≡ record { bytes = []; room = room; piece = piece; fails = fails.items; calls = 0; faults = 0 }) }
    {
        let bytes = Vec::with_capacity(alloc, room)?;
        Ok(MemSink {
            bytes,
            room,
            piece,
            fails,
            calls: 0,
            faults: 0,
        })
    }

    /// The bytes that were written.
    pub fn bytes(&self) -> &[u8]
        ensures { result.now ≡ self.now.bytes }
    {
        &self.bytes
    }

    // Whether it can take none of the bytes, and there are some.
    fn is_stuck(&self, bytes: &[u8]) -> bool
        ensures { IsTrue result ↔ IsStuck self.now bytes.now }
    {
        !bytes.is_empty() && self.piece.min(self.room) == 0
    }
}

impl Sink for MemSink {
    ghost written = { λ m. Some m.bytes };

    ghost faults = { λ m. m.faults };

    fn write(&mut self, piece: &[u8]) -> Result<usize, Failed>
        ensures bound { IfOk result (Progresses piece.now) }
        ensures bytes { WriteAppends (Some self.old.bytes) (Some self.new.bytes) result piece.now }
        ensures cause { HasCause self.old.faults self.new.faults result }

        ensures fails { IsErr result ↔ Refuses self.old piece.now }
        ensures failed { OnErr result (self.new ≡ after_refusal self.old) }
        ensures count { IfOk result (TakesBy self.old piece.now) }
        ensures rest { IfOk result (λ n. self.new ≡ after_write self.old piece.now n) }
    {
        self.calls = self.calls.saturating_add(1);
        if lists(&self.fails, self.calls) || self.is_stuck(piece) {
            self.faults = self.faults.saturating_add(1);
            return Err(Failed);
        }
        let count = self.piece.min(self.room).min(piece.len());
        match self.bytes.extend_from_slice(&piece[..count]) {
            Ok(()) => {
                self.room -= count;
                Ok(count)
            }
            Err(_) => unreachable!(),
        }
    }
}
