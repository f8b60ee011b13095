// Lists grow, shrink and are copied, with ample memory.

ghost use Rattle.std.specs.Prelude.{◌≡◌, ◌<◌, length, slice_set, IfOk};

use bc_data::list::{Bytes, List};
use std::alloc::{AllocError, Global};

fn grown(alloc: Global) -> Result<List<u32>, AllocError> {
    let mut list = List::with_capacity(alloc, 2)?;
    list.push(3)?;
    list.push(5)?;
    list.reserve(4)?;
    list.insert(1, 4)?;
    list.extend_from_slice(&[6, 7])?;
    Ok(list)
}

#[test]
fn grows(rt: HostRuntime) -> Result<(), AllocError> {
    let alloc = rt.alloc();
    let mut list = grown(alloc)?;
    let mut more = List::from_slice(alloc, &[8, 9])?;
    list.append(&mut more)?;
    assert!(rt; list.as_slice() == [3, 4, 5, 6, 7, 8, 9].as_slice());
    assert!(rt; more.is_empty());
    Ok(())
}

// Writes a one, exchanges the ends and takes two elements out, and the end.
fn shrink(list: &mut List<u32>) -> [u32; 2]
    requires { length list.old ≡ 7 }
{
    list[5] = 1;
    list.swap(0, 6);
    let removed = list.remove(1);
    let exchanged = list.swap_remove(1);
    list.truncate(4);
    [removed, exchanged]
}

#[test]
fn shrinks(rt: HostRuntime) -> Result<(), AllocError> {
    let mut list = List::from_slice(rt.alloc(), &[3, 4, 5, 6, 7, 8, 9])?;
    assert!(rt; shrink(&mut list) == [4, 5]);
    assert!(rt; list.as_slice() == [9, 3, 6, 7].as_slice());
    list.clear();
    assert!(rt; list.len() == 0);
    Ok(())
}

fn has_its_elements(list: &List<u32>) -> bool {
    list.first() == Some(&9) && list.last() == Some(&7) && list.contains(&6) && !list.contains(&8)
}

#[test]
fn finds_elements(rt: HostRuntime) -> Result<(), AllocError> {
    let list = List::from_slice(rt.alloc(), &[9, 3, 6, 7])?;
    assert!(rt; has_its_elements(&list));
    Ok(())
}

fn copied_text(alloc: Global) -> Result<Bytes, AllocError> {
    Bytes::from_slice(alloc, b"two")?.copy(alloc)
}

fn two_texts(alloc: Global) -> Result<List<Bytes>, AllocError> {
    let mut texts = List::new(alloc);
    texts.push(Bytes::from_slice(alloc, b"one")?)?;
    texts.push(copied_text(alloc)?)?;
    Ok(texts)
}

// A caller's proof follows a write by index, and copies of texts.
fn with_seven(
    alloc: Global,
    texts: &List<Bytes>,
    list: &mut List<u32>,
) -> Result<List<Bytes>, AllocError>
    requires { 0 < length list.old }
    ensures written { list.new ≡ slice_set list.old 0 7 }
    ensures copied { IfOk result (λ copy. copy ≡ texts.now) }
{
    list[0] = 7;
    texts.copy(alloc)
}

// A copy of texts that are gone.
fn copied(alloc: Global, numbers: &mut List<u32>) -> Result<List<Bytes>, AllocError>
    requires { 0 < length numbers.old }
{
    let mut texts = two_texts(alloc)?;
    let copy = with_seven(alloc, &texts, numbers)?;
    texts.clear();
    Ok(copy)
}

fn joined(alloc: Global, texts: &List<Bytes>) -> Result<Bytes, AllocError> {
    let mut joined = Bytes::new(alloc);
    for text in texts {
        joined.extend_from_slice(text.as_slice())?;
    }
    Ok(joined)
}

#[test]
fn copies_numbers_and_texts(rt: HostRuntime) -> Result<(), AllocError> {
    let alloc = rt.alloc();
    let mut numbers = List::from_slice(alloc, &[1, 2])?;
    let copy = copied(alloc, &mut numbers)?;
    assert!(rt; numbers.as_slice() == [7, 2].as_slice());
    let joined = joined(alloc, &copy)?;
    assert!(rt; joined.as_slice() == b"onetwo".as_slice());
    Ok(())
}

fn joined_of_all(alloc: Global, texts: List<Bytes>) -> Result<Bytes, AllocError> {
    let mut joined = Bytes::new(alloc);
    for text in texts {
        joined.extend_from_slice(text.as_slice())?;
    }
    Ok(joined)
}

#[test]
fn clones_texts(rt: HostRuntime) -> Result<(), AllocError> {
    let alloc = rt.alloc();
    let texts = two_texts(alloc)?;
    let joined = joined_of_all(alloc, texts.clone()?)?;
    assert!(rt; joined.as_slice() == b"onetwo".as_slice());
    Ok(())
}
