// Calls in a row, with ample memory.

use bc_tally::tally::Tally;
use std::alloc::AllocError;

#[test]
fn counts_what_lists_name(rt: HostRuntime) -> Result<(), AllocError> {
    let mut tally = Tally::make(rt.alloc(), 4)?;
    assert!(rt; tally.is_none(1));
    tally.add(&[1, 2]);
    tally.add(&[2]);
    assert!(rt; tally.is_none(0));
    assert!(rt; !tally.is_none(1));
    assert!(rt; !tally.is_none(2));
    tally.remove(&[1, 2]);
    assert!(rt; tally.is_none(1));
    assert!(rt; !tally.is_none(2));
    tally.remove(&[2]);
    assert!(rt; tally.is_none(2));
    assert!(rt; tally.is_none(3));
    Ok(())
}

#[test]
fn passes_over_those_that_it_does_not_count(rt: HostRuntime) -> Result<(), AllocError> {
    let mut tally = Tally::make(rt.alloc(), 4)?;
    tally.add(&[4, 3]);
    assert!(rt; !tally.is_none(4));
    assert!(rt; !tally.is_none(3));
    tally.remove(&[4, 3]);
    assert!(rt; !tally.is_none(4));
    assert!(rt; tally.is_none(3));
    Ok(())
}
