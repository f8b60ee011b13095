// Sinks, which take bytes in pieces.

ghost use Rattle.std.specs.Prelude.{◌≡◌, ℕ, ◌+◌, ◌<◌, ◌≤◌, ◌==◌, ◌&&◌, ◌||◌, nat_lt, List, [], ◌++◌, length, take, Option, None, Some, IfOk, OnOk, OnErr, is_err, vec_len, vec_capacity};
ghost use Rattle.bc_base.specs.Outside.{Rose, Appends, AppendsPart};
ghost use Rattle.bc_base.specs.Calls.{is_to_fail, calls_after, piece_len};

use crate::calls::{Calls, next_count};
use crate::fault::Failed;
use bc_data::list::List;
use std::alloc::{AllocError, Global};
use std::io::{Stderr, Stdout, Write};

/// What takes bytes in pieces.
pub trait Sink {
    /// How many writes failed. The count stays at the last value of `u64`.
    ghost faults: { Self → ℕ };

    /// The bytes that were taken, where the sink tells them.
    ghost taken: { Self → Option (List ℕ) } = { λ _. None };

    /// How many bytes it took from the front of `bytes`, at least one where there is one. After
    /// `Failed` it took none.
    fn write(&mut self, bytes: &[u8]) -> Result<usize, Failed>
        ensures bound { IfOk result (λ n. n ≤ length bytes.now) }
        ensures some { IfOk result (λ n. 0 < length bytes.now → 0 < n) }
        ensures grown { IfOk result (λ n. Appends (taken self.old) (taken self.new) (take n bytes.now)) }
        ensures kept { OnErr result (taken self.new ≡ taken self.old) }
        ensures failed { OnErr result (Rose (faults self.old) (faults self.new)) }
        ensures count { faults self.old ≤ faults self.new };
}

/// Writes all the bytes, in as many calls as it needs. `Failed` comes where a write failed; then the
/// sink took a part from the front.
pub fn write_all<K: Sink>(sink: &mut K, bytes: &[u8]) -> Result<(), Failed>
    ensures all { OnOk result (Appends (K.taken sink.old) (K.taken sink.new) bytes.now) }
    ensures part { OnErr result (AppendsPart (K.taken sink.old) (K.taken sink.new) bytes.now) }
    ensures failed { OnErr result (Rose (K.faults sink.old) (K.faults sink.new)) }
    ensures count { K.faults sink.old ≤ K.faults sink.new }
{
    let mut at = 0;
    while at < bytes.len() {
        at += sink.write(&bytes[at..])?;
    }
    Ok(())
}

/// A sink in memory, with a bound for its bytes.
#[derive(Drop)]
pub struct MemorySink {
    taken: Vec<u8>,
    room: usize,
    most: usize,
    calls: Calls,
    ghost reserved: { vec_len taken + room ≤ vec_capacity taken },
}

impl MemorySink {
    /// An empty sink that takes `room` bytes in all and at most `most` in a call. The calls in
    /// `fails`, from 1, fail, and so does a call that finds no room.
    pub fn new(
        alloc: Global,
        room: usize,
        most: usize,
        fails: List<u32>,
    ) -> Result<MemorySink, AllocError>
        ensures taken { IfOk result (λ sink. ⟦<MemorySink as Sink>⟧.taken sink ≡ Some []) }
        ensures faults { IfOk result (λ sink. ⟦<MemorySink as Sink>⟧.faults sink ≡ 0) }
        ensures room { IfOk result (λ sink. (sink.room ≡ room) × (sink.most ≡ most)) }
        ensures calls { IfOk result (λ sink. sink.calls ≡ record { fails = fails; made = 0; faults = 0 }) }
    {
        Ok(MemorySink {
            taken: Vec::with_capacity(alloc, room)?,
            room,
            most,
            calls: Calls::new(fails),
        })
    }

    /// What the sink took.
    pub fn taken(&self) -> &[u8]
        ensures { Some result.now ≡ ⟦<MemorySink as Sink>⟧.taken self.now }
    {
        self.taken.as_slice()
    }

    /// How many writes failed.
    pub fn faults(&self) -> u64
        ensures { result ≡ ⟦<MemorySink as Sink>⟧.faults self.now }
    {
        self.calls.faults()
    }
}

impl Sink for MemorySink {
    ghost faults = { λ s. s.calls.faults };

    ghost taken = { λ s. Some s.taken.items };

    fn write(&mut self, bytes: &[u8]) -> Result<usize, Failed>
        ensures bound { IfOk result (λ n. n ≤ length bytes.now) }
        ensures some { IfOk result (λ n. 0 < length bytes.now → 0 < n) }
        ensures grown { IfOk result (λ n. self.new.taken.items ≡ self.old.taken.items ++ take n bytes.now) }
        ensures kept { OnErr result (self.new.taken.items ≡ self.old.taken.items) }
        ensures failed { OnErr result (Rose self.old.calls.faults self.new.calls.faults) }
        ensures count { self.old.calls.faults ≤ self.new.calls.faults }
        ensures exact { IfOk result (λ n. n ≡ piece_len (length bytes.now) self.old.most self.old.room) }
        ensures room { IfOk result (λ n. self.new.room + n ≡ self.old.room) }
        ensures same_room { OnErr result (self.new.room ≡ self.old.room) }
        ensures same_most { self.new.most ≡ self.old.most }
        ensures calls { self.new.calls ≡ calls_after self.old.calls (is_err result) }
        ensures refused { is_err result ≡ (is_to_fail self.old.calls.fails self.old.calls.made
            || (nat_lt 0 (length bytes.now) && piece_len (length bytes.now) self.old.most self.old.room == 0)) }
    {
        let fails = self.calls.begin();
        let n = bytes.len().min(self.most.min(self.room));
        if fails || (n == 0 && !bytes.is_empty()) {
            self.calls.fail();
            return Err(Failed);
        }
        self.taken.extend_from_slice(&bytes[..n]).unwrap();
        self.room -= n;
        Ok(n)
    }
}

/// A sink that hands each piece on to a writer at once, and tells nothing.
#[derive(Drop)]
pub struct WriterSink<W> {
    writer: W,
    faults: u64,
}

/// Standard output.
pub type OutputSink = WriterSink<Stdout>;

/// Standard error.
pub type ErrorSink = WriterSink<Stderr>;

impl<W: Write> WriterSink<W> {
    /// A sink over a writer that holds nothing back.
    pub fn new(writer: W) -> Self
        ensures { ⟦<WriterSink<W> as Sink>⟧.faults result ≡ 0 }
    {
        WriterSink { writer, faults: 0 }
    }
}

impl<W: Write> Sink for WriterSink<W> {
    ghost faults = { λ s. s.faults };

    fn write(&mut self, bytes: &[u8]) -> Result<usize, Failed> {
        match self.writer.write(bytes) {
            Ok(n) if n > 0 || bytes.is_empty() => Ok(n),
            _ => {
                self.faults = next_count(self.faults);
                Err(Failed)
            }
        }
    }
}
