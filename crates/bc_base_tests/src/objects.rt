// Objects in memory give and take exactly what they are made for, at pieces, at calls that fail and
// at the end of their room, and the real ones.

use crate::made::{bytes, calls, lantern_file, memory_source};
use bc_base::fault::Failed;
use bc_base::file_shelf::FileShelf;
use bc_base::shelf::{MemoryShelf, NamedFile, Shelf, ShelfFault};
use bc_base::sink::{MemorySink, OutputSink, Sink, WriterSink, write_all};
use bc_base::source::{InputSource, ReaderSource, Source};
use bc_data::list::{Bytes, List};
use std::alloc::{AllocError, Global};
use std::fs::{self, OpenOptions};
use std::process;
use std::rt::Files;
use std::test::Fail;

fn sink(alloc: Global, room: usize, most: usize, fails: &[u32]) -> Result<MemorySink, AllocError> {
    MemorySink::new(alloc, room, most, calls(alloc, fails)?)
}

// Whether the sink took these bytes, after so many faults.
fn took(sink: &MemorySink, text: &str, faults: u64) -> bool {
    sink.taken() == text.as_bytes() && sink.faults() == faults
}

fn takes_all<K: Sink>(sink: &mut K, text: &str) -> bool {
    write_all(sink, text.as_bytes()).is_ok()
}

fn fails_at<K: Sink>(sink: &mut K, text: &str) -> bool {
    write_all(sink, text.as_bytes()) == Err(Failed)
}

// Whether a call takes so many bytes of the text.
fn takes<K: Sink>(sink: &mut K, text: &str, n: usize) -> bool {
    sink.write(text.as_bytes()) == Ok(n)
}

#[test]
fn sink_takes_pieces(rt: HostRuntime) -> Result<(), AllocError> {
    let mut sink = sink(rt.alloc(), 16, 3, &[])?;
    assert!(rt; takes_all(&mut sink, "lantern"));
    assert!(rt; took(&sink, "lantern", 0));
    assert!(rt; takes(&mut sink, "post", 3));
    assert!(rt; takes(&mut sink, "", 0));
    assert!(rt; took(&sink, "lanternpos", 0));
    Ok(())
}

#[test]
fn sink_fails_at_its_second_call(rt: HostRuntime) -> Result<(), AllocError> {
    let mut sink = sink(rt.alloc(), 16, 3, &[2])?;
    assert!(rt; fails_at(&mut sink, "lantern"));
    assert!(rt; took(&sink, "lan", 1));
    assert!(rt; takes_all(&mut sink, "d"));
    assert!(rt; took(&sink, "land", 1));
    Ok(())
}

#[test]
fn sink_runs_out_of_room(rt: HostRuntime) -> Result<(), AllocError> {
    let mut sink = sink(rt.alloc(), 5, 9, &[])?;
    assert!(rt; fails_at(&mut sink, "lantern"));
    assert!(rt; took(&sink, "lante", 1));
    Ok(())
}

// Whether a read gives these bytes, and puts them at the front of the piece.
fn gives<S: Source>(source: &mut S, piece: &mut [u8], text: &str) -> bool {
    source.read(piece) == Ok(text.len()) && piece.starts_with(text.as_bytes())
}

fn fails_to_give<S: Source>(source: &mut S, piece: &mut [u8]) -> bool {
    source.read(piece) == Err(Failed)
}

// What a call doesn't give stays in the piece as it was.
#[test]
fn source_is_read_in_pieces(rt: HostRuntime) -> Result<(), AllocError> {
    let mut source = memory_source(rt.alloc(), "lantern", &[2])?;
    let mut piece = [46u8; 4];
    assert!(rt; gives(&mut source, &mut piece, "lant"));
    assert!(rt; fails_to_give(&mut source, &mut piece));
    assert!(rt; source.faults() == 1);
    assert!(rt; gives(&mut source, &mut piece, "ern"));
    assert!(rt; piece.as_slice() == "ernt".as_bytes());
    assert!(rt; gives(&mut source, &mut piece, ""));
    assert!(rt; source.faults() == 1);
    Ok(())
}

fn named_file(alloc: Global, name: &str, content: &str) -> Result<NamedFile, AllocError> {
    Ok(NamedFile {
        name: bytes(alloc, name)?,
        content: bytes(alloc, content)?,
    })
}

fn two_of_one_name(alloc: Global) -> Result<List<NamedFile>, AllocError> {
    let mut files = List::new(alloc);
    for (name, content) in [("a", "one"), ("b", "two"), ("a", "three")] {
        files.push(named_file(alloc, name, content)?)?;
    }
    Ok(files)
}

// A shelf of these, of which the fifth call fails.
fn shelf_of_two(alloc: Global) -> Result<MemoryShelf, AllocError> {
    let files = two_of_one_name(alloc)?;
    Ok(MemoryShelf::new(files, calls(alloc, &[5])?))
}

// Whether the shelf gives this content.
fn has<H: Shelf>(alloc: Global, shelf: &mut H, name: &[u8], limit: usize, content: &str) -> bool {
    match shelf.read_file(alloc, name, limit) {
        Ok(file) => file.as_slice() == content.as_bytes(),
        Err(_) => false,
    }
}

// Whether the shelf answers with this fault.
fn refuses<H: Shelf>(
    alloc: Global,
    shelf: &mut H,
    name: &[u8],
    limit: usize,
    fault: ShelfFault,
) -> bool {
    match shelf.read_file(alloc, name, limit) {
        Ok(_) => false,
        Err(answer) => answer == fault,
    }
}

// Whether these are the names, a byte each.
fn are_names(names: &[Bytes], wanted: &[u8]) -> bool {
    if names.len() != wanted.len() {
        return false;
    }
    for at in 0..wanted.len() {
        if names[at].as_slice() != &wanted[at..=at] {
            return false;
        }
    }
    true
}

#[test]
fn shelf_gives_the_first_of_a_name(rt: HostRuntime) -> Result<(), AllocError> {
    let alloc = rt.alloc();
    let mut shelf = shelf_of_two(alloc)?;
    assert!(rt; has(alloc, &mut shelf, b"a", 3, "one"));
    assert!(rt; refuses(alloc, &mut shelf, b"b", 2, ShelfFault::TooLong));
    assert!(rt; shelf.faults() == 0);
    assert!(rt; refuses(alloc, &mut shelf, b"c", 9, ShelfFault::Failed));
    assert!(rt; shelf.faults() == 1);
    assert!(rt; has(alloc, &mut shelf, b"b", 9, "two"));
    assert!(rt; refuses(alloc, &mut shelf, b"a", 9, ShelfFault::Failed));
    assert!(rt; shelf.faults() == 2);
    assert!(rt; are_names(shelf.asked().as_slice(), b"abcba"));
    Ok(())
}

// Whether the file's seven bytes are read, and aren't where the limit is less.
fn reads_lantern<R: Files>(alloc: Global, files: &R, path: &[u8]) -> bool {
    let mut shelf = FileShelf::new(files);
    has(alloc, &mut shelf, path, 7, "lantern")
        && refuses(alloc, &mut shelf, path, 6, ShelfFault::TooLong)
}

fn misses<R: Files>(alloc: Global, files: &R, path: &[u8]) -> bool {
    let mut shelf = FileShelf::new(files);
    refuses(alloc, &mut shelf, path, 7, ShelfFault::Failed)
}

#[test]
fn file_shelf_reads_files(rt: HostRuntime) -> Result<(), Fail> {
    let alloc = rt.alloc();
    let number = process::id(rt.process());
    let path = lantern_file(alloc, &rt, "file_shelf_reads_files", number)?;
    assert!(rt; reads_lantern(alloc, &rt, path.as_bytes()));
    fs::remove_file(&rt, &path)?;
    assert!(rt; misses(alloc, &rt, path.as_bytes()));
    Ok(())
}

#[test]
fn file_shelf_refuses_what_is_no_file(rt: HostRuntime) {
    let alloc = rt.alloc();
    let mut shelf = FileShelf::new(&rt);
    assert!(rt; refuses(alloc, &mut shelf, b"/tmp", 7, ShelfFault::Failed));
    assert!(rt; refuses(alloc, &mut shelf, &[255], 7, ShelfFault::Failed));
    assert!(rt; refuses(alloc, &mut shelf, b"/dev/zero", 5000, ShelfFault::TooLong));
}

#[test]
fn real_sinks(rt: HostRuntime) -> Result<(), Fail> {
    let full = OpenOptions::new().write(true).open(&rt, "/dev/full")?;
    let mut sink = WriterSink::new(full);
    assert!(rt; fails_at(&mut sink, "lantern"));
    let mut output = OutputSink::new(rt.stdout());
    assert!(rt; takes_all(&mut output, "lantern\n"));
    Ok(())
}

#[test]
fn real_sources(rt: HostRuntime) -> Result<(), Fail> {
    let mut piece = [46u8; 4];
    let mut source = ReaderSource::new(fs::open(&rt, "/dev/zero")?);
    assert!(rt; gives(&mut source, &mut piece, "\0\0\0\0"));
    let mut folder = ReaderSource::new(fs::open(&rt, "/tmp")?);
    assert!(rt; fails_to_give(&mut folder, &mut piece));
    Ok(())
}

#[test]
fn standard_input(rt: HostRuntime) {
    let mut input = InputSource::new(rt.stdin());
    assert!(rt; gives(&mut input, &mut [], ""));
}
