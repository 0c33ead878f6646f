//! A source and a sink that never fail.

ghost use Rattle.std.specs.Prelude.{◌≡◌, ℕ, ◌<◌, ◌≤◌, List, ◌++◌, length, take, drop, min, None, Some, IfOk, IsOk, IsOkAnd, OnOk, OnErr};
ghost use Rattle.std.specs.Io.{ReadsAtMost, WritesAtMost};
ghost use Rattle.std.specs.Io.KnownBytes.{Keeps, ReadConsumes, WriteAppends};
ghost use Rattle.zx_io.specs.Causes.{Rose};

use crate::moving::move_bytes;
use crate::streams::{Failed, Sink, Source};
use std::marker::Model;

/// Bytes in memory, of which each read moves as many as there is room for.
#[derive(Drop)]
pub struct NeverFailSource {
    bytes: Vec<u8>,
    at: usize,
}

// A clause sees the bytes that are left.
impl Model for NeverFailSource {
    ghost Value = { List ℕ };

    ghost view = { λ s. drop s.at s.bytes.items };

    ghost invariant = { λ s. s.at ≤ length s.bytes.items };
}

impl NeverFailSource {
    /// A source of these bytes.
    pub fn new(bytes: Vec<u8>) -> NeverFailSource
        ensures { result ≡ bytes.items }
    {
        NeverFailSource { bytes, at: 0 }
    }
}

impl Source for NeverFailSource {
    ghost left = { λ s. Some s };

    ghost faults = { λ _. 0 };

    fn read(&mut self, buf: &mut [u8]) -> Result<usize, Failed>
        requires { 0 < length buf.old }
        ensures bound { ReadsAtMost result buf.new }
        ensures bytes { ReadConsumes (Some self.old) (Some self.new) result buf.new }
        ensures count { IsOkAnd result (λ k. k ≡ min (length buf.old) (length self.old)) }
        ensures moved { IfOk result (λ k. buf.new ≡ take k self.old ++ drop k buf.old) }
        ensures rest { IfOk result (λ k. self.new ≡ drop k self.old) }
    {
        let count = move_bytes(&self.bytes, self.at, usize::MAX, buf);
        self.at += count;
        Ok(count)
    }
}

/// A sink that takes each piece whole, and keeps no byte.
#[derive(Debug, Clone, Copy, PartialEq, Eq)]
pub struct NeverFailSink;

impl NeverFailSink {
    /// A sink.
    pub fn new() -> NeverFailSink
        ensures { ⟦<NeverFailSink as Sink>⟧.faults result ≡ 0 }
    {
        NeverFailSink
    }
}

impl Sink for NeverFailSink {
    ghost taken = { λ _. None };

    ghost faults = { λ _. 0 };

    fn write(&mut self, piece: &[u8]) -> Result<usize, Failed>
        requires { 0 < length piece.now }
        ensures bound { WritesAtMost result piece.now }
        ensures some { IfOk result (λ count. 1 ≤ count) }
        ensures bytes { WriteAppends None None result piece.now }
        ensures whole { IsOkAnd result (λ count. count ≡ length piece.now) }
    {
        Ok(piece.len())
    }

    fn flush(&mut self) -> Result<(), Failed>
        ensures bytes { Keeps None None }
        ensures never { IsOk result }
    {
        Ok(())
    }
}
