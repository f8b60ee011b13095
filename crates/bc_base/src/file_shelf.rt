// The shelf of std's files.

ghost use Rattle.std.specs.Prelude.{◌≡◌, ◌≤◌, length, IfOk};
ghost use Rattle.bc_base.specs.Calls.{shelf_fault};

use crate::calls::next_count;
use crate::shelf::{Shelf, ShelfFault};
use crate::source::{ReadFault, ReaderSource, read_all};
use bc_data::list::Bytes;
use std::alloc::Global;
use std::fs;
use std::rt::Files;

/// The files of the system, by their paths. It tells nothing.
#[derive(Drop)]
pub struct FileShelf<R> {
    files: R,
    faults: u64,
}

impl<R: Files> FileShelf<R> {
    /// The files that this handle reaches.
    pub fn new(files: R) -> Self
        ensures { ⟦<FileShelf<R> as Shelf>⟧.faults result ≡ 0 }
    {
        FileShelf { files, faults: 0 }
    }
}

impl<R: Files> Shelf for FileShelf<R> {
    ghost faults = { λ s. s.faults };

    fn read_file(&mut self, alloc: Global, name: &[u8], limit: usize) -> Result<Bytes, ShelfFault> {
        let answer = read_path(alloc, &self.files, name, limit);
        if let Err(ShelfFault::Failed) = &answer {
            self.faults = next_count(self.faults);
        }
        answer
    }
}

impl From<ReadFault> for ShelfFault {
    ghost from_gives = { λ fault shelf. shelf ≡ shelf_fault fault };

    fn from(fault: ReadFault) -> Self {
        match fault {
            ReadFault::TooLong => ShelfFault::TooLong,
            ReadFault::Failed => ShelfFault::Failed,
            ReadFault::Memory => ShelfFault::Memory,
        }
    }
}

// The content of the file at that path. A name that isn't UTF-8 is no path.
fn read_path<R: Files>(
    alloc: Global,
    files: &R,
    name: &[u8],
    limit: usize,
) -> Result<Bytes, ShelfFault>
    ensures { IfOk result (λ content. length content ≤ limit) }
{
    let Ok(path) = str::from_utf8(name) else {
        return Err(ShelfFault::Failed);
    };
    match fs::open(files, path) {
        Ok(file) => Ok(read_all(alloc, &mut ReaderSource::new(file), limit)?),
        Err(_) => Err(ShelfFault::Failed),
    }
}
