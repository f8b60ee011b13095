// A whole source is read, in pieces as it gives them, and what an error leaves of it.

use crate::made::{SlowSource, lantern_file, many_bytes, memory_source};
use bc_base::source::{MemorySource, ReadFault, ReaderSource, Source, read_all};
use bc_data::list::List;
use std::alloc::{AllocError, Global};
use std::test::Fail;
use std::{fs, process};

// The bytes of "lantern", three in a call.
fn lantern(alloc: Global, fails: &[u32]) -> Result<SlowSource, AllocError> {
    Ok(SlowSource {
        source: memory_source(alloc, "lantern", fails)?,
        most: 3,
    })
}

// Whether a whole read gives this text.
fn gives<S: Source>(alloc: Global, source: &mut S, limit: usize, text: &str) -> bool {
    match read_all(alloc, source, limit) {
        Ok(content) => content.as_slice() == text.as_bytes(),
        Err(_) => false,
    }
}

// Whether a whole read ends with this fault.
fn ends_with<S: Source>(alloc: Global, source: &mut S, limit: usize, fault: ReadFault) -> bool {
    match read_all(alloc, source, limit) {
        Ok(_) => false,
        Err(answer) => answer == fault,
    }
}

// Whether the source is read whole, and is then at its end.
fn gives_all(alloc: Global, limit: usize) -> Result<bool, AllocError> {
    let mut source = lantern(alloc, &[])?;
    Ok(
        gives(alloc, &mut source, limit, "lantern")
            && source.source.faults() == 0
            && gives(alloc, &mut source, 0, ""),
    )
}

#[test]
fn gives_all_in_small_pieces(rt: HostRuntime) -> Result<(), AllocError> {
    let alloc = rt.alloc();
    for limit in [7, 8, 5000, usize::MAX] {
        assert!(rt; gives_all(alloc, limit)?);
    }
    Ok(())
}

#[test]
fn too_long_takes_one_byte_more(rt: HostRuntime) -> Result<(), AllocError> {
    let alloc = rt.alloc();
    let mut source = lantern(alloc, &[])?;
    assert!(rt; ends_with(alloc, &mut source, 4, ReadFault::TooLong));
    assert!(rt; source.source.faults() == 0);
    assert!(rt; gives(alloc, &mut source, 4, "rn"));
    Ok(())
}

#[test]
fn fails_at_the_first_call(rt: HostRuntime) -> Result<(), AllocError> {
    let alloc = rt.alloc();
    let mut source = lantern(alloc, &[1])?;
    assert!(rt; ends_with(alloc, &mut source, 7, ReadFault::Failed));
    assert!(rt; source.source.faults() == 1);
    assert!(rt; gives(alloc, &mut source, 7, "lantern"));
    assert!(rt; source.source.faults() == 1);
    Ok(())
}

#[test]
fn fails_at_the_second_call(rt: HostRuntime) -> Result<(), AllocError> {
    let alloc = rt.alloc();
    let mut source = lantern(alloc, &[2])?;
    assert!(rt; ends_with(alloc, &mut source, 7, ReadFault::Failed));
    assert!(rt; source.source.faults() == 1);
    assert!(rt; gives(alloc, &mut source, 7, "tern"));
    Ok(())
}

#[test]
fn fails_where_the_end_is_asked(rt: HostRuntime) -> Result<(), AllocError> {
    let alloc = rt.alloc();
    let mut source = lantern(alloc, &[4])?;
    assert!(rt; ends_with(alloc, &mut source, 7, ReadFault::Failed));
    assert!(rt; gives(alloc, &mut source, 7, ""));
    Ok(())
}

const LIMIT: usize = 65536;

// Whether as many bytes as the limit are read whole.
fn gives_many_bytes(alloc: Global) -> Result<bool, AllocError> {
    let mut source = MemorySource::new(many_bytes(alloc, LIMIT)?, List::new(alloc));
    let Ok(content) = read_all(alloc, &mut source, LIMIT) else {
        return Ok(false);
    };
    Ok(content.as_slice() == many_bytes(alloc, LIMIT)?.as_slice())
}

#[test]
fn limit_of_many_bytes(rt: HostRuntime) -> Result<(), AllocError> {
    assert!(rt; gives_many_bytes(rt.alloc())?);
    Ok(())
}

#[test]
fn one_byte_more_than_many(rt: HostRuntime) -> Result<(), AllocError> {
    let alloc = rt.alloc();
    let mut source = MemorySource::new(many_bytes(alloc, LIMIT + 1)?, List::new(alloc));
    assert!(rt; ends_with(alloc, &mut source, LIMIT, ReadFault::TooLong));
    assert!(rt; source.faults() == 0);
    Ok(())
}

fn gives_nothing(alloc: Global, limit: usize) -> bool {
    let mut source = MemorySource::new(List::new(alloc), List::new(alloc));
    gives(alloc, &mut source, limit, "")
}

#[test]
fn empty_source(rt: HostRuntime) -> Result<(), AllocError> {
    let alloc = rt.alloc();
    for limit in [0, 1, usize::MAX] {
        assert!(rt; gives_nothing(alloc, limit));
    }
    let mut source = memory_source(alloc, "l", &[])?;
    assert!(rt; ends_with(alloc, &mut source, 0, ReadFault::TooLong));
    Ok(())
}

#[test]
fn reads_a_file(rt: HostRuntime) -> Result<(), Fail> {
    let alloc = rt.alloc();
    let number = process::id(rt.process());
    let path = lantern_file(alloc, &rt, "reads_a_file", number)?;
    let mut source = ReaderSource::new(fs::open(&rt, &path)?);
    assert!(rt; gives(alloc, &mut source, 7, "lantern"));
    fs::remove_file(&rt, &path)?;
    Ok(())
}

#[test]
fn real_readers(rt: HostRuntime) -> Result<(), Fail> {
    let alloc = rt.alloc();
    let mut endless = ReaderSource::new(fs::open(&rt, "/dev/zero")?);
    assert!(rt; ends_with(alloc, &mut endless, 5000, ReadFault::TooLong));
    let mut folder = ReaderSource::new(fs::open(&rt, "/tmp")?);
    assert!(rt; ends_with(alloc, &mut folder, 5000, ReadFault::Failed));
    Ok(())
}
