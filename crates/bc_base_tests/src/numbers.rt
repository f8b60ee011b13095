// Decimal texts, written and read.

use bc_data::text::{decimal, natural, read_decimal};
use std::alloc::{AllocError, Global};

fn is_written(alloc: Global, number: i64, text: &[u8]) -> Result<bool, AllocError> {
    Ok(decimal(alloc, number)?.as_slice() == text)
}

fn is_natural(alloc: Global, number: u64, text: &[u8]) -> Result<bool, AllocError> {
    Ok(natural(alloc, number)?.as_slice() == text)
}

#[test]
fn writes_decimal_texts(rt: HostRuntime) -> Result<(), AllocError> {
    let alloc = rt.alloc();
    assert!(rt; is_written(alloc, -120, b"-120")?);
    assert!(rt; is_written(alloc, 0, b"0")?);
    assert!(rt; is_natural(alloc, u64::MAX, b"18446744073709551615")?);
    Ok(())
}

fn is_read(text: &[u8], number: u64) -> bool {
    read_decimal(text) == Some(number)
}

#[test]
fn reads_decimal_texts(rt: HostRuntime) {
    assert!(rt; is_read(b"0", 0));
    assert!(rt; is_read(b"1203", 1203));
    assert!(rt; is_read(b"18446744073709551615", u64::MAX));
    assert!(rt; read_decimal(b"18446744073709551616").is_none());
}

fn reads_one(texts: &[&[u8]]) -> bool {
    for text in texts {
        if read_decimal(text).is_some() {
            return true;
        }
    }
    false
}

#[test]
fn reads_nothing_but_decimals(rt: HostRuntime) {
    let texts = [
        b"".as_slice(),
        b"00",
        b"07",
        b"+7",
        b"-7",
        b"7 ",
        b"7a",
        b"\xff",
    ];
    assert!(rt; !reads_one(&texts));
}
