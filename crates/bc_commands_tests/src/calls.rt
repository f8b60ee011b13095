// The top call over objects in memory, and what it leaves.

use bc_base::shelf::{MemoryShelf, NamedFile};
use bc_base::sink::MemorySink;
use bc_base::source::{MemorySource, read_all};
use bc_commands::top::{Report, plain};
use bc_data::list::{Bytes, List};
use bc_data::run::Stop;
use std::alloc::{AllocError, Global};
use std::process::Abort;

/// The objects of a call: the content of the file `p`, the input, the most bytes that `out` takes in a call, and for each
/// object its calls that fail, from 1.
#[derive(Clone, Copy)]
pub struct Setting<'a> {
    pub file: &'a [u8],
    pub input: &'a [u8],
    pub most: usize,
    pub shelf_fails: &'a [u32],
    pub input_fails: &'a [u32],
    pub out_fails: &'a [u32],
    pub err_fails: &'a [u32],
}

/// What a call left. `left` is how many bytes of the input can still be read.
#[derive(Drop)]
pub struct Told {
    pub report: Report,
    pub out: Bytes,
    pub err: Bytes,
    pub asked: usize,
    pub left: usize,
    pub input_faults: u64,
}

/// Objects that don't fail, with this file and no input.
pub fn of_file(file: &[u8]) -> Setting<'_> {
    Setting {
        file,
        input: b"",
        most: 100_000_000,
        shelf_fails: &[],
        input_fails: &[],
        out_fails: &[],
        err_fails: &[],
    }
}

/// Objects that don't fail, with this file and this input.
pub fn sound<'a>(file: &'a str, input: &'a [u8]) -> Setting<'a> {
    Setting {
        input,
        ..of_file(file.as_bytes())
    }
}

/// So many bytes, each a space.
pub fn spaces(alloc: Global, len: usize) -> Result<Vec<u8>, AllocError> {
    Ok(vec![in alloc; b' '; len]?)
}

fn words(alloc: Global, all: &[&str]) -> Result<List<Bytes>, AllocError> {
    let mut words = List::new(alloc);
    for word in all {
        words.push(List::from_slice(alloc, word.as_bytes())?)?;
    }
    Ok(words)
}

fn shelf(alloc: Global, content: &[u8], fails: &[u32]) -> Result<MemoryShelf, AllocError> {
    let mut files = List::new(alloc);
    files.push(NamedFile {
        name: List::from_slice(alloc, b"p")?,
        content: List::from_slice(alloc, content)?,
    })?;
    Ok(MemoryShelf::new(files, List::from_slice(alloc, fails)?))
}

fn source(alloc: Global, content: &[u8], fails: &[u32]) -> Result<MemorySource, AllocError> {
    Ok(MemorySource::new(
        List::from_slice(alloc, content)?,
        List::from_slice(alloc, fails)?,
    ))
}

// A sink that has room for so many bytes, takes so many in a call and fails at these calls.
fn sink(alloc: Global, room: usize, most: usize, fails: &[u32]) -> Result<MemorySink, AllocError> {
    let fails = List::from_slice(alloc, fails)?;
    Ok(MemorySink::new(alloc, room, most, fails)?)
}

// The objects of a call.
#[derive(Drop)]
struct Objects {
    words: List<Bytes>,
    shelf: MemoryShelf,
    input: MemorySource,
    out: MemorySink,
    err: MemorySink,
}

fn set_up(alloc: Global, all: &[&str], setting: Setting<'_>) -> Result<Objects, AllocError> {
    let words = words(alloc, all)?;
    let shelf = shelf(alloc, setting.file, setting.shelf_fails)?;
    let input = source(alloc, setting.input, setting.input_fails)?;
    let out = sink(alloc, 17_000_000, setting.most, setting.out_fails)?;
    let err = sink(alloc, 10_000, 10_000, setting.err_fails)?;
    Ok(Objects {
        words,
        shelf,
        input,
        out,
        err,
    })
}

// How many bytes of a source can still be read.
fn left(alloc: Global, input: &mut MemorySource) -> usize {
    match read_all(alloc, input, 100_000) {
        Ok(rest) => rest.len(),
        Err(_) => 0,
    }
}

// What is left behind a call that reported this.
fn left_behind(alloc: Global, objects: &mut Objects, report: Report) -> Result<Told, AllocError> {
    let input_faults = objects.input.faults();
    let left = left(alloc, &mut objects.input);
    let out = List::from_slice(alloc, objects.out.taken())?;
    let err = List::from_slice(alloc, objects.err.taken())?;
    Ok(Told {
        report,
        out,
        err,
        asked: objects.shelf.asked().len(),
        left,
        input_faults,
    })
}

/// The call with these words.
pub fn call_with(alloc: Global, all: &[&str], setting: Setting<'_>) -> Result<Told, AllocError> {
    let mut objects = set_up(alloc, all, setting)?;
    let Objects {
        words,
        shelf,
        input,
        out,
        err,
    } = &mut objects;
    let report = plain(alloc, words, shelf, input, out, err);
    left_behind(alloc, &mut objects, report)
}

pub fn expect(rt: &impl Abort, told: &Told, status: u8, out: &str, err: &str) {
    assert_eq!(rt; told.report.status, status, "{out}{err}");
    assert_eq!(rt; told.out.as_slice(), out.as_bytes(), "{out}{err}");
    assert_eq!(rt; told.err.as_slice(), err.as_bytes(), "{out}{err}");
}

/// What a call left beside its bytes: whether its run has a stop, and ended with nothing left; and some counts.
#[derive(Clone, Copy)]
pub struct Rest {
    pub has_stop: bool,
    pub has_ended: bool,
    pub commits: usize,
    pub asked: usize,
    pub left: usize,
    pub input_faults: u64,
}

fn rest_of(told: &Told) -> Rest {
    Rest {
        has_stop: told.report.stop.is_some(),
        has_ended: matches!(told.report.stop, Some(Stop::End)),
        commits: told.report.history.len(),
        asked: told.asked,
        left: told.left,
        input_faults: told.input_faults,
    }
}

/// The call with these words has this status and writes these bytes. What it left besides.
pub fn is_told(
    rt: &impl Abort,
    alloc: Global,
    words: &[&str],
    setting: Setting<'_>,
    status: u8,
    out: &str,
    err: &str,
) -> Result<Rest, AllocError> {
    let told = call_with(alloc, words, setting)?;
    expect(rt, &told, status, out, err);
    Ok(rest_of(&told))
}

/// The call with these words, on a file of so many spaces, has this status and writes this to `err` alone.
pub fn is_told_of_spaces(
    rt: &impl Abort,
    alloc: Global,
    words: &[&str],
    len: usize,
    status: u8,
    err: &str,
) -> Result<(), AllocError> {
    let file = spaces(alloc, len)?;
    is_told(rt, alloc, words, of_file(&file), status, "", err)?;
    Ok(())
}
