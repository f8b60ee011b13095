// Guards made once each, with ample memory, and their truth at masks.

ghost use Rattle.std.specs.Prelude.{◌≡◌, ◌<◌};

use bc_data::program::FlagExpr;
use bc_flags::guard::guard_of;
use bc_steps::Steps;
use std::alloc::{AllocError, Global};
use std::marker::Brand;
use std::sync::ledger::{Blank, Ledger};

fn not(alloc: Global, g: FlagExpr) -> Result<FlagExpr, AllocError> {
    Ok(FlagExpr::Not(Box::new(alloc, g)?))
}

fn and(alloc: Global, g: FlagExpr, h: FlagExpr) -> Result<FlagExpr, AllocError> {
    Ok(FlagExpr::And(Box::new(alloc, g)?, Box::new(alloc, h)?))
}

fn or(alloc: Global, g: FlagExpr, h: FlagExpr) -> Result<FlagExpr, AllocError> {
    Ok(FlagExpr::Or(Box::new(alloc, g)?, Box::new(alloc, h)?))
}

// Whether the guard has, at each mask, the truth beside it.
fn tells<L: Ledger>(
    alloc: Global,
    guard: &FlagExpr,
    rows: &[(u32, bool)],
    blank: Blank,
) -> Result<bool, AllocError>
    requires name { blank.name ≡ L.name }
    requires parts { blank.parts ≡ L.parts }
    requires some { 0 < L.parts }
{
    let mut steps = Steps::<L>::new(blank);
    let made = guard_of(alloc, guard)?;
    for &(mask, truth) in rows {
        if made.holds(mask, &mut steps) != truth {
            return Ok(false);
        }
    }
    Ok(true)
}

// f0 and !f1 and f31
fn run_of_flags(alloc: Global) -> Result<FlagExpr, AllocError> {
    let second = not(alloc, FlagExpr::Flag(1))?;
    let first = and(alloc, FlagExpr::Flag(0), second)?;
    and(alloc, first, FlagExpr::Flag(31))
}

#[test]
fn a_run_of_flags(rt: HostRuntime) -> Result<(), AllocError> {
    let alloc = rt.alloc();
    let guard = run_of_flags(alloc)?;
    let rows = [
        (0x8000_0001, true),
        (0x8000_0003, false),
        (0x8000_0000, false),
        (0x0000_0001, false),
        (0xFFFF_FFFD, true),
    ];
    assert!(rt; tells::<Brand>(alloc, &guard, &rows, Blank::new(1))?);
    Ok(())
}

// (f0 or f1) and !(f2 or false)
fn inner_guard(alloc: Global) -> Result<FlagExpr, AllocError> {
    let low = or(alloc, FlagExpr::Flag(0), FlagExpr::Flag(1))?;
    let third = or(alloc, FlagExpr::Flag(2), FlagExpr::Truth(false))?;
    and(alloc, low, not(alloc, third)?)
}

// !((f0 or f1) and !(f2 or false)) and (f3 or true)
fn nested_guard(alloc: Global) -> Result<FlagExpr, AllocError> {
    let outer = not(alloc, inner_guard(alloc)?)?;
    let last = or(alloc, FlagExpr::Flag(3), FlagExpr::Truth(true))?;
    and(alloc, outer, last)
}

#[test]
fn a_nested_guard(rt: HostRuntime) -> Result<(), AllocError> {
    let alloc = rt.alloc();
    let guard = nested_guard(alloc)?;
    let rows = [
        (0, true),
        (1, false),
        (2, false),
        (3, false),
        (4, true),
        (7, true),
        (8, true),
        (9, false),
    ];
    assert!(rt; tells::<Brand>(alloc, &guard, &rows, Blank::new(1))?);
    Ok(())
}
