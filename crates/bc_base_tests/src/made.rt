// What the tests make: bytes, calls that fail, and a source that gives few bytes in a call.

ghost use Rattle.std.specs.Prelude.{ℕ, ◌<◌};

use bc_base::fault::Failed;
use bc_base::source::{MemorySource, Source};
use bc_data::list::{Bytes, List};
use std::alloc::{AllocError, Global};
use std::fs;
use std::rt::Files;
use std::test::Fail;

pub fn bytes(alloc: Global, text: &str) -> Result<Bytes, AllocError> {
    Bytes::from_slice(alloc, text.as_bytes())
}

pub fn calls(alloc: Global, numbers: &[u32]) -> Result<List<u32>, AllocError> {
    List::from_slice(alloc, numbers)
}

/// A source of this text, whose calls in `fails` fail.
pub fn memory_source(alloc: Global, text: &str, fails: &[u32]) -> Result<MemorySource, AllocError> {
    let content = bytes(alloc, text)?;
    Ok(MemorySource::new(content, calls(alloc, fails)?))
}

/// Writes "lantern" to a file for a test of this name in the process of this number, and gives its path.
pub fn lantern_file<R: Files>(
    alloc: Global,
    files: &R,
    name: &str,
    number: u32,
) -> Result<String, Fail> {
    let path = format!(in alloc; "/tmp/{name}_{number}")?;
    fs::write(files, &path, "lantern")?;
    Ok(path)
}

/// So many bytes, which aren't all the same.
pub fn many_bytes(alloc: Global, len: usize) -> Result<Bytes, AllocError> {
    let mut many = Bytes::with_capacity(alloc, len)?;
    let mut byte = 7u8;
    for _ in 0..len {
        many.push(byte)?;
        byte = byte.wrapping_mul(5).wrapping_add(3);
    }
    Ok(many)
}

/// A source in memory that gives at most `most` bytes in a call, or one.
#[derive(Drop)]
pub struct SlowSource {
    pub source: MemorySource,
    pub most: usize,
}

impl Source for SlowSource {
    ghost faults = { λ s. ⟦<MemorySource as Source>⟧.faults s.source };

    ghost left = { λ s. ⟦<MemorySource as Source>⟧.left s.source };

    fn read(&mut self, buf: &mut [u8]) -> Result<usize, Failed> {
        let most = buf.len().min(self.most.max(1));
        self.source.read(&mut buf[..most])
    }
}
