// Shelves, which give whole files by their names.

ghost use Rattle.std.specs.Prelude.{◌≡◌, ◌⊎◌, ℕ, ◌<◌, ◌≤◌, [], ◌∷◌, ◌++◌, false, length, Option, None, Some, IfOk, IfSome, IsSomeAnd, IsErrOf, OnOk, OnErr, find, bytes_eq, option_copied};
ghost use Rattle.bc_base.specs.Outside.{Rose};
ghost use Rattle.bc_base.specs.Files.{Told, file_of, told_after, told_of};
ghost use Rattle.bc_base.specs.Calls.{next_count, is_to_fail, calls_after, is_fault, shelf_answer};
ghost use Rattle.bc_base.specs.declared.shelf.ShelfFault.TheVariants.{TooLong, Failed, Memory};

use crate::calls::Calls;
use bc_data::list::{Bytes, List};
use std::alloc::{AllocError, Global};

/// A file with its name.
#[derive(Debug, Drop)]
pub struct NamedFile {
    pub name: Bytes,
    pub content: Bytes,
}

/// Why a shelf doesn't give a file.
#[derive(Clone, Copy, Debug, PartialEq, Eq)]
pub enum ShelfFault {
    /// The file has more bytes than the limit.
    TooLong,
    /// The file is missing, or the read failed. The shelf's count of faults rose.
    Failed,
    /// Want of memory.
    Memory,
}

/// What gives whole files by their names.
pub trait Shelf {
    /// How many reads failed. The count stays at the last value of `u64`.
    ghost faults: { Self → ℕ };

    /// The files and the names asked so far, where the shelf tells them.
    ghost told: { Self → Option Told } = { λ _. None };

    /// The content of the file, which has at most `limit` bytes. A shelf that tells its files gives
    /// the first of that name. `TooLong` comes where the file is longer; a missing file is `Failed`.
    /// Each call that doesn't answer `Memory` adds the name to those asked.
    fn read_file(&mut self, alloc: Global, name: &[u8], limit: usize) -> Result<Bytes, ShelfFault>
        ensures within { IfOk result (λ content. length content ≤ limit) }
        ensures file { IfOk result (λ content.
            IfSome (told self.old) (λ t. file_of t.files name.now ≡ Some content)) }
        ensures too_long { IsErrOf result TooLong → IfSome (told self.old) (λ t.
            IsSomeAnd (file_of t.files name.now) (λ content. limit < length content)) }
        ensures failed { IsErrOf result Failed → Rose (faults self.old) (faults self.new) }
        ensures count { faults self.old ≤ faults self.new }
        ensures asked { told self.new ≡ told_after (told self.old) name.now result };
}

impl From<AllocError> for ShelfFault {
    ghost from_gives = { λ _ fault. fault ≡ Memory };

    fn from(_: AllocError) -> Self {
        ShelfFault::Memory
    }
}

/// A shelf in memory.
#[derive(Drop)]
pub struct MemoryShelf {
    files: List<NamedFile>,
    asked: List<Bytes>,
    calls: Calls,
}

impl MemoryShelf {
    /// A shelf of these files. Of several with one name the first is the file. The calls in `fails`,
    /// from 1, fail.
    pub fn new(files: List<NamedFile>, fails: List<u32>) -> MemoryShelf
        ensures told { ⟦<MemoryShelf as Shelf>⟧.told result ≡ told_of files [] }
        ensures faults { ⟦<MemoryShelf as Shelf>⟧.faults result ≡ 0 }
        ensures calls { result.calls ≡ record { fails = fails; made = 0; faults = 0 } }
    {
        let files = files.into_vec();
        let asked = List::new(*files.allocator());
        MemoryShelf {
            files: List::from_vec(files),
            asked,
            calls: Calls::new(fails),
        }
    }

    /// The names that it was asked for, in order.
    pub fn asked(&self) -> &List<Bytes>
        ensures { result.now ≡ self.now.asked }
    {
        &self.asked
    }

    /// How many reads failed.
    pub fn faults(&self) -> u64
        ensures { result ≡ ⟦<MemoryShelf as Shelf>⟧.faults self.now }
    {
        self.calls.faults()
    }

    // What it answers, but for want of memory to note the name.
    fn answer(&mut self, alloc: Global, name: &[u8], limit: usize) -> Result<Bytes, ShelfFault>
        ensures value { IsErrOf result Memory ⊎ (result ≡ shelf_answer
            (is_to_fail self.old.calls.fails self.old.calls.made) (file_of self.old.files name.now) limit) }
        ensures counted { self.new ≡ record self.old {
          calls = record self.old.calls {
            made = next_count self.old.calls.made;
          };
        } }
    {
        if self.calls.begin() {
            return Err(ShelfFault::Failed);
        }
        copy_file(alloc, self.files.as_slice(), name, limit)
    }

    // Notes the name that it was asked for.
    fn note(&mut self, alloc: Global, name: &[u8]) -> Result<(), AllocError>
        ensures ok { OnOk result (self.new ≡ record self.old { asked = self.old.asked ++ name.now ∷ [] }) }
        ensures err { OnErr result (self.new ≡ self.old) }
    {
        let name = Bytes::from_slice(alloc, name)?;
        self.asked.push(name)?;
        Ok(())
    }
}

// A copy of the first file of that name.
fn copy_file(
    alloc: Global,
    files: &[NamedFile],
    name: &[u8],
    limit: usize,
) -> Result<Bytes, ShelfFault>
    ensures { IsErrOf result Memory ⊎ (result ≡ shelf_answer false (file_of files.now name.now) limit) }
{
    match find_file(files, name) {
        None => Err(ShelfFault::Failed),
        Some(file) => copy_within(alloc, file.content.as_slice(), limit),
    }
}

// The first file of that name.
fn find_file<'a>(files: &'a [NamedFile], name: &[u8]) -> Option<&'a NamedFile>
    ensures { option_copied result ≡ find (λ file. bytes_eq file.name name.now) files.now }
{
    files.iter().find(|file| file.name.as_slice() == name)
}

// A copy of a content that is within the limit.
fn copy_within(alloc: Global, content: &[u8], limit: usize) -> Result<Bytes, ShelfFault>
    ensures { IsErrOf result Memory ⊎ (result ≡ shelf_answer false (Some content.now) limit) }
{
    if content.len() > limit {
        return Err(ShelfFault::TooLong);
    }
    Ok(Bytes::from_slice(alloc, content)?)
}

impl Shelf for MemoryShelf {
    ghost faults = { λ s. s.calls.faults };

    ghost told = { λ s. told_of s.files s.asked };

    fn read_file(&mut self, alloc: Global, name: &[u8], limit: usize) -> Result<Bytes, ShelfFault>
        ensures within { IfOk result (λ content. length content ≤ limit) }
        ensures file { IfOk result (λ content. file_of self.old.files name.now ≡ Some content) }
        ensures too_long { IsErrOf result TooLong →
            IsSomeAnd (file_of self.old.files name.now) (λ content. limit < length content) }
        ensures failed { IsErrOf result Failed → Rose self.old.calls.faults self.new.calls.faults }
        ensures count { self.old.calls.faults ≤ self.new.calls.faults }
        ensures asked { told_of self.new.files self.new.asked
            ≡ told_after (told_of self.old.files self.old.asked) name.now result }
        ensures calls { self.new.calls ≡ calls_after self.old.calls (is_fault result) }
        ensures exact { IsErrOf result Memory ⊎ (result ≡ shelf_answer
            (is_to_fail self.old.calls.fails self.old.calls.made) (file_of self.old.files name.now) limit) }
    {
        let answer = self.answer(alloc, name, limit);
        if let Err(ShelfFault::Memory) = &answer {
            return answer;
        }
        self.note(alloc, name)?;
        if let Err(ShelfFault::Failed) = &answer {
            self.calls.fail();
        }
        answer
    }
}
