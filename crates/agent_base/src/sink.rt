//! Sinks of bytes, and writing every byte of a text.
ghost use Rattle.std.specs.Prelude.{◌≡◌, ◌≢◌, ◌≤◌, ◌<◌, ◌+◌, ◌-◌, ◌++◌, ◌↔◌, ◌⊎◌, ℕ, List, [], Option, Some, None, Ok, Err, IfErr, IfOk, OnOk, OnErr, IsErr, IsTrue, MatchResult, length, take, min};
ghost use Rattle.agent_base.specs.Counts.{HasCause, next_count};
ghost use Rattle.agent_base.specs.Streams.{Takes, TakesPrefix};
ghost use Rattle.agent_base.specs.Memory.{SinkView, refuses};
ghost use Rattle.std.specs.Io.{WritesAtMost};
ghost use Rattle.std.specs.Io.KnownBytes.{WriteAppends};
ghost use Rattle.std.specs.IoError.{error_kind};

use crate::{Failed, NoMemory};
use std::alloc::Global;
use std::io;
use std::io::{ErrorKind, Write};
use std::marker::Model;

/// Where bytes go, in their order.
pub trait Sink {
    // the bytes that were taken, where the sink tells them
    ghost taken: { Self → Option (List ℕ) };

    // how many calls failed
    ghost faults: { Self → ℕ };

    /// Takes the first of these bytes, as many as it answers, and at least one.
    fn write(&mut self, bytes: &[u8]) -> Result<usize, Failed>
        requires { 0 < length bytes.now }
        ensures bound { IfOk result (λ n. (0 < n) × (n ≤ length bytes.now)) }
        ensures bytes { MatchResult result
            (λ n. Takes (taken self.old) (taken self.new) (take n bytes.now))
            (λ _. Takes (taken self.old) (taken self.new) []) }
        ensures cause { HasCause (faults self.old) (faults self.new) result };
}

/// Writes all of these bytes.
pub fn write_all<K: Sink>(sink: &mut K, bytes: &[u8]) -> Result<(), Failed>
    ensures all { OnOk result (Takes (K.taken sink.old) (K.taken sink.new) bytes.now) }
    ensures prefix { OnErr result (TakesPrefix (K.taken sink.old) (K.taken sink.new) bytes.now) }
    ensures cause { HasCause (K.faults sink.old) (K.faults sink.new) result }
{
    let mut at = 0;
    'pieces: while at < bytes.len() {
        at += sink.write(&bytes[at..])?;
    }
    Ok(())
}

/// A buffer in memory of a given room, with a list of calls that fail, for tests.
#[derive(Debug, Drop)]
pub struct MemSink {
    bytes: Vec<u8>,
    room: usize,
    fails: Vec<u64>,
    calls: u64,
    faults: u64,
}

impl Model for MemSink {
    ghost use Rattle.std.specs.Prelude.{length, vec_capacity, ◌≤◌};
    ghost use Rattle.agent_base.specs.Memory.{SinkView};

    ghost Value = { SinkView };

    ghost view = { λ s. record {
      taken = s.bytes.items;
      room = s.room;
      fails = s.fails.items;
      calls = s.calls;
      faults = s.faults;
    } };

    ghost invariant = { λ s. (length s.bytes.items ≤ s.room) × (s.room ≤ vec_capacity s.bytes) };
}

impl MemSink {
    /// An empty sink that takes `room` bytes in all. `fails` holds the numbers of the calls that
    /// fail, from 1.
    pub fn new(alloc: Global, room: usize, fails: Vec<u64>) -> Result<MemSink, NoMemory>
        ensures { IfOk result (λ s. s
            ≡ record { taken = []; room = room; fails = fails.items; calls = 0; faults = 0 }) }
    {
        let Ok(bytes) = Vec::with_capacity(alloc, room) else {
            return Err(NoMemory);
        };
        Ok(MemSink {
            bytes,
            room,
            fails,
            calls: 0,
            faults: 0,
        })
    }

    /// The bytes that were taken.
    pub fn bytes(&self) -> &[u8]
        ensures { result.now ≡ self.now.taken }
    {
        &self.bytes
    }

    fn refuses(&self) -> bool
        ensures { result ≡ refuses self.now }
    {
        self.fails.contains(&self.calls.saturating_add(1)) || self.room == self.bytes.len()
    }

    // Takes what fits into the room that is left, of which there is some.
    fn take_in(&mut self, bytes: &[u8]) -> usize
        requires { length self.old.taken < self.old.room }
        ensures count { result ≡ min (length bytes.now) (self.old.room - length self.old.taken) }
        ensures taken { self.new ≡ record self.old {
          taken = self.old.taken
              ++ take result bytes.now;
        } }
    {
        let count = bytes.len().min(self.room - self.bytes.len());
        let _ = self.bytes.extend_from_slice(&bytes[..count]);
        count
    }
}

impl Sink for MemSink {
    ghost taken = { λ s. Some s.taken };

    ghost faults = { λ s. s.faults };

    // The trait's clauses, and after them exactly what this sink answers.
    fn write(&mut self, bytes: &[u8]) -> Result<usize, Failed>
        requires { 0 < length bytes.now }
        ensures bound { IfOk result (λ n. (0 < n) × (n ≤ length bytes.now)) }
        ensures bytes { MatchResult result
            (λ n. Takes (Some self.old.taken) (Some self.new.taken) (take n bytes.now))
            (λ _. Takes (Some self.old.taken) (Some self.new.taken) []) }
        ensures cause { HasCause self.old.faults self.new.faults result }
        ensures count { IfOk result
            (λ n. n ≡ min (length bytes.now) (self.old.room - length self.old.taken)) }
        ensures fails { IsErr result ↔ IsTrue (refuses self.old) }
        ensures calls { self.new.calls ≡ next_count self.old.calls }
        ensures faults { OnErr result (self.new.faults ≡ next_count self.old.faults) }
        ensures kept { (self.new.fails ≡ self.old.fails) × (self.new.room ≡ self.old.room) }
    {
        let refused = self.refuses();
        self.calls = self.calls.saturating_add(1);
        if refused {
            self.faults = self.faults.saturating_add(1);
            return Err(Failed);
        }
        Ok(self.take_in(bytes))
    }
}

/// Any writer of std. It tells what the writer tells of the bytes that it holds.
#[derive(Debug, Drop)]
pub struct WriteSink<W: Write + Drop> {
    writer: W,
    faults: u64,
}

impl<W: Write + Drop> WriteSink<W> {
    /// A sink over a writer, with no fault yet.
    pub fn new(writer: W) -> WriteSink<W>
        ensures { result.faults ≡ 0 }
    {
        WriteSink { writer, faults: 0 }
    }
}

impl<W: Write + Drop> Sink for WriteSink<W> {
    ghost taken = { λ s. W.contents s.writer };

    ghost faults = { λ s. s.faults };

    // A writer that takes nothing, or more than it was given, is at fault.
    fn write(&mut self, bytes: &[u8]) -> Result<usize, Failed> {
        match write_again(&mut self.writer, bytes) {
            Ok(n) if n > 0 && n <= bytes.len() => Ok(n),
            _ => {
                self.faults = self.faults.saturating_add(1);
                Err(Failed)
            }
        }
    }
}

// One write, which is made again where a signal interrupts it: an interrupted one took no byte.
fn write_again<W: Write>(writer: &mut W, bytes: &[u8]) -> io::Result<usize>
    ensures bound { WritesAtMost result bytes.now }
    ensures bytes { WriteAppends (W.contents writer.old) (W.contents writer.new) result bytes.now }
    ensures uninterrupted { IfErr result (λ e. error_kind e ≢ ErrorKind.Interrupted) }
{
    'tries: for _ in 0..u64::MAX {
        match writer.write(bytes) {
            Err(error) if error.kind() == ErrorKind::Interrupted => {}
            answer => return answer,
        }
    }
    Err(ErrorKind::TimedOut.into())
}
