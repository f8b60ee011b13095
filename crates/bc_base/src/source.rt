// Sources, which give bytes in pieces.

ghost use Rattle.std.specs.Prelude.{◌≡◌, ℕ, ◌+◌, ◌-◌, ◌<◌, ◌≤◌, min, List, [], ◌++◌, length, take, drop, Option, None, Some, IfOk, IfSome, IsErrOf, OnOk, OnErr, is_err};
ghost use Rattle.std.specs.Io.KnownBytes.{ReadConsumes};
ghost use Rattle.bc_base.specs.Outside.{Rose, Consumes, IsAtEnd, GivesAll, Loses, LosesUpTo};
ghost use Rattle.bc_base.specs.Calls.{is_to_fail, calls_after};
ghost use Rattle.bc_base.specs.declared.source.ReadFault.TheVariants.{TooLong, Failed as Fault, Memory};

use crate::calls::{Calls, next_count};
use crate::fault::Failed;
use bc_data::list::{Bytes, List};
use bc_steps::Steps;
use std::alloc::{AllocError, Global};
use std::io::{Read, Stdin};
use std::marker::Brand;
use std::sync::ledger::{Blank, Ledger};

/// What gives bytes in pieces.
pub trait Source {
    /// How many reads failed. The count stays at the last value of `u64`.
    ghost faults: { Self → ℕ };

    /// The bytes that are left, where the source tells them.
    ghost left: { Self → Option (List ℕ) } = { λ _. None };

    /// How many bytes it put at the front of `buf`; the rest of `buf` stays as it was. 0 for a
    /// nonempty `buf` is the end. After `Failed` nothing was lost, and `buf` is as it was. The count
    /// of faults stays where the read didn't fail.
    fn read(&mut self, buf: &mut [u8]) -> Result<usize, Failed>
        ensures bound { IfOk result (λ n. n ≤ length buf.old) }
        ensures given { IfOk result (λ n. Consumes (left self.old) (left self.new) (take n buf.new)) }
        ensures rest { IfOk result (λ n. drop n buf.new ≡ drop n buf.old) }
        ensures end { IfOk result (λ n. n ≡ 0 → 0 < length buf.old → IsAtEnd (left self.new)) }
        ensures kept { OnErr result (left self.new ≡ left self.old) }
        ensures buffer { OnErr result (buf.new ≡ buf.old) }
        ensures failed { OnErr result (Rose (faults self.old) (faults self.new)) }
        ensures steady { OnOk result (faults self.new ≡ faults self.old) }
        ensures count { faults self.old ≤ faults self.new };
}

/// Why a source's bytes weren't all given.
#[derive(Clone, Copy, Debug, PartialEq, Eq)]
pub enum ReadFault {
    /// The source had more bytes than the limit.
    TooLong,
    /// A read failed. The source's count of faults rose.
    Failed,
    /// Want of memory.
    Memory,
}

impl From<AllocError> for ReadFault {
    ghost from_gives = { λ _ fault. fault ≡ Memory };

    fn from(_: AllocError) -> Self {
        ReadFault::Memory
    }
}

impl From<Failed> for ReadFault {
    ghost from_gives = { λ _ fault. fault ≡ Fault };

    fn from(_: Failed) -> Self {
        ReadFault::Failed
    }
}

/// All bytes of the source to its end, where they are at most `limit`. `TooLong` comes where one
/// more than `limit` was taken, and `Failed` where a read failed. What was taken before an error is
/// gone from the source: a part from the front, before `Failed` and `Memory` at most `limit` bytes.
pub fn read_all<S: Source>(alloc: Global, source: &mut S, limit: usize) -> Result<Bytes, ReadFault>
    ensures within { IfOk result (λ content. length content ≤ limit) }
    ensures all { IfOk result (λ content. GivesAll (S.left source.old) (S.left source.new) content) }
    ensures too_long { IsErrOf result TooLong → Loses (S.left source.old) (S.left source.new) (limit + 1) }
    ensures longer { IsErrOf result TooLong → IfSome (S.left source.old) (λ left. limit < length left) }
    ensures failed { IsErrOf result Fault → Rose (S.faults source.old) (S.faults source.new) }
    ensures failed_part { IsErrOf result Fault → LosesUpTo (S.left source.old) (S.left source.new) limit }
    ensures memory_part { IsErrOf result Memory → LosesUpTo (S.left source.old) (S.left source.new) limit }
    ensures steady { ¬ IsErrOf result Fault → S.faults source.new ≡ S.faults source.old }
    ensures count { S.faults source.old ≤ S.faults source.new }
{
    read_uncounted::<S, Brand>(alloc, source, limit, Blank::new(1))
}

// The same, where nobody asks for the steps.
fn read_uncounted<S: Source, L: Ledger>(
    alloc: Global,
    source: &mut S,
    limit: usize,
    blank: Blank,
) -> Result<Bytes, ReadFault>
    requires name { blank.name ≡ L.name }
    requires parts { blank.parts ≡ L.parts }
    requires some { 0 < L.parts }
    ensures within { IfOk result (λ content. length content ≤ limit) }
    ensures all { IfOk result (λ content. GivesAll (S.left source.old) (S.left source.new) content) }
    ensures too_long { IsErrOf result TooLong → Loses (S.left source.old) (S.left source.new) (limit + 1) }
    ensures longer { IsErrOf result TooLong → IfSome (S.left source.old) (λ left. limit < length left) }
    ensures failed { IsErrOf result Fault → Rose (S.faults source.old) (S.faults source.new) }
    ensures failed_part { IsErrOf result Fault → LosesUpTo (S.left source.old) (S.left source.new) limit }
    ensures memory_part { IsErrOf result Memory → LosesUpTo (S.left source.old) (S.left source.new) limit }
    ensures steady { ¬ IsErrOf result Fault → S.faults source.new ≡ S.faults source.old }
    ensures count { S.faults source.old ≤ S.faults source.new }
{
    let mut steps = Steps::<L>::new(blank);
    read_all_counted(alloc, source, limit, &mut steps)
}

/// The same as `read_all`, with its reads counted: one step is one turn of its loop, which reads once.
/// There are at most `limit + 1` turns, since each but the last takes a byte.
pub fn read_all_counted<S: Source, L: Ledger>(
    alloc: Global,
    source: &mut S,
    limit: usize,
    steps: &mut Steps<L>,
) -> Result<Bytes, ReadFault>
    ensures within { IfOk result (λ content. length content ≤ limit) }
    ensures all { IfOk result (λ content. GivesAll (S.left source.old) (S.left source.new) content) }
    ensures too_long { IsErrOf result TooLong → Loses (S.left source.old) (S.left source.new) (limit + 1) }
    ensures longer { IsErrOf result TooLong → IfSome (S.left source.old) (λ left. limit < length left) }
    ensures failed { IsErrOf result Fault → Rose (S.faults source.old) (S.faults source.new) }
    ensures failed_part { IsErrOf result Fault → LosesUpTo (S.left source.old) (S.left source.new) limit }
    ensures memory_part { IsErrOf result Memory → LosesUpTo (S.left source.old) (S.left source.new) limit }
    ensures steady { ¬ IsErrOf result Fault → S.faults source.new ≡ S.faults source.old }
    ensures count { S.faults source.old ≤ S.faults source.new }
    ensures turns { steps.new ≤ steps.old + (limit + 1) }
{
    let mut content = Bytes::new(alloc);
    loop {
        steps.tick();
        if read_piece(source, limit, &mut content)? == 0 {
            return Ok(content);
        }
    }
}

// Appends the next piece, and gives its length, which is 0 at the end. A piece that passes the
// limit is one byte too long, and takes no memory.
fn read_piece<S: Source>(
    source: &mut S,
    limit: usize,
    content: &mut Bytes,
) -> Result<usize, ReadFault>
    requires { length content.old ≤ limit }
    ensures within { IfOk result (λ n. length content.old + n ≤ limit) }
    ensures grown { IfOk result (λ n. length content.new ≡ length content.old + n) }
    ensures taken { IfOk result (λ n. (piece : List ℕ) × (content.new ≡ content.old ++ piece)
        × Consumes (S.left source.old) (S.left source.new) piece) }
    ensures end { IfOk result (λ n. n ≡ 0 → IsAtEnd (S.left source.new)) }
    ensures too_long { IsErrOf result TooLong →
        Loses (S.left source.old) (S.left source.new) ((limit + 1) - length content.old) }
    ensures failed { IsErrOf result Fault → Rose (S.faults source.old) (S.faults source.new) }
    ensures failed_part { IsErrOf result Fault → S.left source.new ≡ S.left source.old }
    ensures memory_part { IsErrOf result Memory →
        LosesUpTo (S.left source.old) (S.left source.new) (limit - length content.old) }
    ensures steady { ¬ IsErrOf result Fault → S.faults source.new ≡ S.faults source.old }
    ensures count { S.faults source.old ≤ S.faults source.new }
{
    let mut piece = [0u8; 4096];
    let room = limit - content.len();
    let most = room.min(piece.len() - 1) + 1;
    let n = source.read(&mut piece[..most])?;
    if n > room {
        return Err(ReadFault::TooLong);
    }
    content.extend_from_slice(&piece[..n])?;
    Ok(n)
}

/// A source in memory.
#[derive(Drop)]
pub struct MemorySource {
    content: Bytes,
    at: usize,
    calls: Calls,
    ghost inside: { at ≤ length content },
}

impl MemorySource {
    /// A source of these bytes. The calls in `fails`, from 1, fail.
    pub fn new(content: Bytes, fails: List<u32>) -> MemorySource
        ensures left { ⟦<MemorySource as Source>⟧.left result ≡ Some content }
        ensures faults { ⟦<MemorySource as Source>⟧.faults result ≡ 0 }
        ensures calls { result.calls ≡ record { fails = fails; made = 0; faults = 0 } }
    {
        MemorySource {
            content,
            at: 0,
            calls: Calls::new(fails),
        }
    }

    /// How many reads failed.
    pub fn faults(&self) -> u64
        ensures { result ≡ ⟦<MemorySource as Source>⟧.faults self.now }
    {
        self.calls.faults()
    }
}

impl Source for MemorySource {
    ghost faults = { λ s. s.calls.faults };

    ghost left = { λ s. Some (drop s.at s.content) };

    fn read(&mut self, buf: &mut [u8]) -> Result<usize, Failed>
        ensures bound { IfOk result (λ n. n ≤ length buf.old) }
        ensures given { IfOk result (λ n. drop self.old.at self.old.content
            ≡ take n buf.new ++ drop self.new.at self.new.content) }
        ensures rest { IfOk result (λ n. drop n buf.new ≡ drop n buf.old) }
        ensures end { IfOk result (λ n. n ≡ 0 → 0 < length buf.old → drop self.new.at self.new.content ≡ []) }
        ensures kept { OnErr result (drop self.new.at self.new.content ≡ drop self.old.at self.old.content) }
        ensures buffer { OnErr result (buf.new ≡ buf.old) }
        ensures failed { OnErr result (Rose self.old.calls.faults self.new.calls.faults) }
        ensures steady { OnOk result (self.new.calls.faults ≡ self.old.calls.faults) }
        ensures count { self.old.calls.faults ≤ self.new.calls.faults }
        ensures exact { IfOk result (λ n. n ≡ min (length buf.old) (length (drop self.old.at self.old.content))) }
        ensures calls { self.new.calls ≡ calls_after self.old.calls (is_err result) }
        ensures refused { is_err result ≡ is_to_fail self.old.calls.fails self.old.calls.made }
    {
        if self.calls.begin() {
            self.calls.fail();
            return Err(Failed);
        }
        let n = copy_front(&self.content.as_slice()[self.at..], buf);
        self.at += n;
        Ok(n)
    }
}

// Copies as many bytes as both have to the front of `buf`.
fn copy_front(from: &[u8], buf: &mut [u8]) -> usize
    ensures bound { result ≤ length buf.old }
    ensures front { take result buf.new ≡ take result from.now }
    ensures rest { drop result buf.new ≡ drop result buf.old }
    ensures count { result ≡ min (length buf.old) (length from.now) }
{
    let n = from.len().min(buf.len());
    buf[..n].copy_from_slice(&from[..n]);
    n
}

/// A source that asks a reader for each piece, and tells nothing.
#[derive(Drop)]
pub struct ReaderSource<R> {
    reader: R,
    faults: u64,
}

/// Standard input.
pub type InputSource = ReaderSource<Stdin>;

impl<R: Read> ReaderSource<R> {
    /// A source over a reader.
    pub fn new(reader: R) -> Self
        ensures { ⟦<ReaderSource<R> as Source>⟧.faults result ≡ 0 }
    {
        ReaderSource { reader, faults: 0 }
    }
}

impl<R: Read> Source for ReaderSource<R> {
    ghost faults = { λ s. s.faults };

    fn read(&mut self, buf: &mut [u8]) -> Result<usize, Failed>
        ensures bound { IfOk result (λ n. n ≤ length buf.old) }
        ensures rest { IfOk result (λ n. drop n buf.new ≡ drop n buf.old) }
        ensures buffer { OnErr result (buf.new ≡ buf.old) }
        ensures failed { OnErr result (Rose self.old.faults self.new.faults) }
        ensures steady { OnOk result (self.new.faults ≡ self.old.faults) }
        ensures count { self.old.faults ≤ self.new.faults }
        ensures reader { ReadConsumes (R.remaining self.old.reader) (R.remaining self.new.reader) result buf.new }
    {
        // A read that fails may have written to its buffer.
        let mut piece = [0u8; 4096];
        let most = buf.len().min(piece.len());
        match self.reader.read(&mut piece[..most]) {
            Ok(n) => Ok(copy_front(&piece[..n], buf)),
            Err(_) => {
                self.faults = next_count(self.faults);
                Err(Failed)
            }
        }
    }
}
