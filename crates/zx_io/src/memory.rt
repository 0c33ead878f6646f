//! A source and a sink in memory, of which it is said which calls fail.

ghost use Rattle.std.specs.Prelude.{◌≡◌, ◌⊎◌, ◌+◌, ◌-◌, ◌<◌, ◌≤◌, ◌↔◌, [], ◌++◌, length, take, drop, min, Some, IfOk, IsErr, MatchResult, OnOk, OnErr, vec_len, vec_capacity};
ghost use Rattle.std.specs.Io.{ReadsAtMost, WritesAtMost};
ghost use Rattle.std.specs.Io.KnownBytes.{Keeps, ReadConsumes, WriteAppends};
ghost use Rattle.zx_io.specs.Causes.{Rose};
ghost use Rattle.zx_io.specs.Memory.{SourceInMemory, SinkInMemory, SourceFails, SinkFails, source_moved, source_failed, empty_sink, sink_took, sink_flushed, sink_failed, place_left};

use crate::moving::move_bytes;
use crate::streams::{Failed, Sink, Source};
use std::alloc::{AllocError, Global};
use std::marker::Model;

/// A source of bytes in memory. Chosen calls fail, and each other call moves at most one piece.
#[derive(Drop)]
pub struct MemSource {
    bytes: Vec<u8>,
    // Where the bytes that are left begin.
    at: usize,
    piece: usize,
    fails: Vec<u64>,
    calls: u64,
    faults: u64,
}

impl Model for MemSource {
    ghost Value = { SourceInMemory };

    ghost view = { λ s. record { left = drop s.at s.bytes.items; piece = s.piece; fails = s.fails.items; calls = s.calls; faults = s.faults } };

    ghost invariant = { λ s. (1 ≤ s.piece) × (s.at ≤ length s.bytes.items) };
}

impl MemSource {
    /// A source of `bytes`, of which one call moves at most `piece`. The calls whose numbers are in
    /// `fails` fail; the first call is number 1.
    pub fn new(bytes: Vec<u8>, piece: usize, fails: Vec<u64>) -> MemSource
        requires { 1 ≤ piece }
        ensures { result ≡ record { left = bytes.items; piece = piece; fails = fails.items; calls = 0; faults = 0 } }
    {
        MemSource {
            bytes,
            at: 0,
            piece,
            fails,
            calls: 0,
            faults: 0,
        }
    }
}

impl Source for MemSource {
    ghost left = { λ s. Some s.left };

    ghost faults = { λ s. s.faults };

    fn read(&mut self, buf: &mut [u8]) -> Result<usize, Failed>
        requires { 0 < length buf.old }
        ensures bound { ReadsAtMost result buf.new }
        ensures bytes { ReadConsumes (Some self.old.left) (Some self.new.left) result buf.new }
        ensures later { self.old.faults ≤ self.new.faults }
        ensures fails { IsErr result ↔ SourceFails self.old }
        ensures count { IfOk result (λ k. k ≡ min self.old.piece (min (length buf.old) (length self.old.left))) }
        ensures moved { MatchResult result (λ k. buf.new ≡ take k self.old.left ++ drop k buf.old)
            (λ _. buf.new ≡ buf.old) }
        ensures after { MatchResult result (λ k. self.new ≡ source_moved self.old k)
            (λ _. self.new ≡ source_failed self.old) }
    {
        self.calls = self.calls.saturating_add(1);
        if self.fails.contains(&self.calls) {
            self.faults = self.faults.saturating_add(1);
            return Err(Failed);
        }
        let count = move_bytes(&self.bytes, self.at, self.piece, buf);
        self.at += count;
        Ok(count)
    }
}

/// A sink in memory, with room for a number of bytes. Chosen calls fail, and each other call takes at
/// most one piece. A write that finds no place left fails.
#[derive(Drop)]
pub struct MemSink {
    bytes: Vec<u8>,
    // How many bytes there were at the last flush that didn't fail.
    flushed: usize,
    room: usize,
    piece: usize,
    fails: Vec<u64>,
    calls: u64,
    faults: u64,
}

impl Model for MemSink {
    ghost Value = { SinkInMemory };

    ghost view = { λ k. record { taken = k.bytes.items; flushed = k.flushed; room = k.room; piece = k.piece; fails = k.fails.items; calls = k.calls; faults = k.faults } };

    // The room was made when the sink was, so no write takes memory.
    ghost invariant = { λ k. (1 ≤ k.piece) × (vec_len k.bytes ≤ k.room) × (k.room ≤ vec_capacity k.bytes) };
}

impl MemSink {
    /// A sink for `room` bytes, of which one call takes at most `piece`. The calls whose numbers are in
    /// `fails` fail; the first call is number 1, and a flush is a call too.
    pub fn new(
        alloc: Global,
        room: usize,
        piece: usize,
        fails: Vec<u64>,
    ) -> Result<MemSink, AllocError>
        requires { 1 ≤ piece }
        ensures { IfOk result (λ k. k ≡ empty_sink room piece fails.items) }
    {
        let bytes = Vec::with_capacity(alloc, room)?;
        Ok(MemSink {
            bytes,
            flushed: 0,
            room,
            piece,
            fails,
            calls: 0,
            faults: 0,
        })
    }

    /// The bytes that were taken.
    pub fn bytes(&self) -> &[u8]
        ensures taken { result.now ≡ self.now.taken }
        ensures within { length result.now ≤ self.now.room }
    {
        self.bytes.as_slice()
    }
}

impl Sink for MemSink {
    ghost taken = { λ k. Some k.taken };

    ghost faults = { λ k. k.faults };

    ghost pending = { λ k. length k.taken - k.flushed };

    fn write(&mut self, piece: &[u8]) -> Result<usize, Failed>
        requires { 0 < length piece.now }
        ensures bound { WritesAtMost result piece.now }
        ensures some { IfOk result (λ count. 1 ≤ count) }
        ensures bytes { WriteAppends (Some self.old.taken) (Some self.new.taken) result piece.now }
        ensures later { self.old.faults ≤ self.new.faults }
        ensures fails { IsErr result ↔ (SinkFails self.old ⊎ (place_left self.old ≡ 0)) }
        ensures count { IfOk result (λ k. k ≡ min self.old.piece (min (length piece.now) (place_left self.old))) }
        ensures after { MatchResult result (λ k. self.new ≡ sink_took self.old (take k piece.now))
            (λ _. self.new ≡ sink_failed self.old) }
    {
        self.calls = self.calls.saturating_add(1);
        let place = self.room - self.bytes.len();
        if self.fails.contains(&self.calls) || place == 0 {
            self.faults = self.faults.saturating_add(1);
            return Err(Failed);
        }
        let count = self.piece.min(piece.len().min(place));
        self.bytes.extend_from_slice(&piece[..count]).unwrap();
        Ok(count)
    }

    fn flush(&mut self) -> Result<(), Failed>
        ensures bytes { Keeps (Some self.old.taken) (Some self.new.taken) }
        ensures later { self.old.faults ≤ self.new.faults }
        ensures fails { IsErr result ↔ SinkFails self.old }
        ensures after { MatchResult result (λ _. self.new ≡ sink_flushed self.old)
            (λ _. self.new ≡ sink_failed self.old) }
    {
        self.calls = self.calls.saturating_add(1);
        if self.fails.contains(&self.calls) {
            self.faults = self.faults.saturating_add(1);
            return Err(Failed);
        }
        self.flushed = self.bytes.len();
        Ok(())
    }
}
