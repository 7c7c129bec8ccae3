// Data, padding and traps on record.
use crate::calls::Call::*;
use crate::calls::{UNBOUND, on_both};
use aarch64::AArch64;
use buffer::buffer::MachBuffer;
use std::test::Fail;

#[test]
fn data_keeps_its_order(rt: HostRuntime) -> Result<(), Fail> {
    let mut buffer = MachBuffer::new(rt.alloc(), AArch64)?;
    assert_eq!(rt; buffer.put_data(0, &[1, 2, 3])?, 0);
    assert_eq!(rt; buffer.put_data(7, &[4, 255])?, 3);
    buffer.align_to(8)?;
    assert_eq!(rt; buffer.put_data(0, &[6])?, 8);
    assert_eq!(rt; buffer.code(), [1, 2, 3, 4, 255, 0, 0, 0, 6].as_slice());
    Ok(())
}

// 65,536 bytes, in one call and in two. At the end an empty call and one that appends no padding are granted.
#[test]
fn data_fills_the_code(rt: HostRuntime) -> Result<(), Fail> {
    on_both(
        &rt,
        &[
            (Put(0, 65537), Err(8)),
            (Put(1, 65537), Err(8)),
            (Offset, Ok(0)),
            (Traps, Ok(0)),
            (Put(0, 65535), Ok(0)),
            (Put(0, 2), Err(8)),
            (Offset, Ok(65535)),
            (Put(0, 1), Ok(65535)),
            (Offset, Ok(65536)),
            (Put(0, 1), Err(8)),
            (Put(1, 1), Err(8)),
            (Put(0, 0), Ok(65536)),
            (Put(1, 0), Err(7)),
            (Put(256, 1), Err(7)),
            (Align(1), Ok(0)),
            (Align(64), Ok(0)),
            (Align(3), Err(19)),
            (Offset, Ok(65536)),
            (Byte(65535), Ok(9)),
            (Traps, Ok(0)),
        ],
    )
}

#[test]
fn data_fills_the_code_at_once(rt: HostRuntime) -> Result<(), Fail> {
    on_both(
        &rt,
        &[
            (Put(255, 65536), Ok(0)),
            (Put(0, 0), Ok(65536)),
            (Put(0, 1), Err(8)),
            (Align(64), Ok(0)),
            (Traps, Ok(1)),
            (TrapAt(0), Ok(0)),
            (TrapCode(0), Ok(255)),
            (Label, Ok(0)),
            (Bind(0), Ok(0)),
            (Resolve(0), Ok(65536)),
        ],
    )
}

// The end of the code is a multiple of every alignment, so that padding always fits.
#[test]
fn padding_fills_the_code(rt: HostRuntime) -> Result<(), Fail> {
    on_both(
        &rt,
        &[
            (Put(0, 65473), Ok(0)),
            (Align(32), Ok(0)),
            (Offset, Ok(65504)),
            (Put(0, 1), Ok(65504)),
            (Align(64), Ok(0)),
            (Offset, Ok(65536)),
            (Byte(65472), Ok(9)),
            (Byte(65473), Ok(0)),
            (Byte(65503), Ok(0)),
            (Byte(65504), Ok(9)),
            (Byte(65505), Ok(0)),
            (Byte(65535), Ok(0)),
            (Byte(65536), Err(0)),
            (Align(64), Ok(0)),
            (Offset, Ok(65536)),
        ],
    )
}

#[test]
fn padding_is_to_a_multiple(rt: HostRuntime) -> Result<(), Fail> {
    on_both(
        &rt,
        &[
            (Align(64), Ok(0)),
            (Offset, Ok(0)),
            (Put(0, 1), Ok(0)),
            (Align(1), Ok(0)),
            (Put(0, 0), Ok(1)),
            (Align(2), Ok(0)),
            (Put(0, 1), Ok(2)),
            (Align(4), Ok(0)),
            (Put(0, 1), Ok(4)),
            (Align(8), Ok(0)),
            (Put(0, 1), Ok(8)),
            (Align(16), Ok(0)),
            (Put(0, 1), Ok(16)),
            (Align(32), Ok(0)),
            (Put(0, 1), Ok(32)),
            (Align(64), Ok(0)),
            (Put(0, 1), Ok(64)),
            (Word(0), Ok(0x0009_0009)),
            (Word(4), Ok(9)),
            (Word(60), Ok(0)),
        ],
    )
}

#[test]
fn padding_is_to_a_power_of_two(rt: HostRuntime) -> Result<(), Fail> {
    on_both(
        &rt,
        &[
            (Put(0, 3), Ok(0)),
            (Align(0), Err(19)),
            (Align(3), Err(19)),
            (Align(5), Err(19)),
            (Align(6), Err(19)),
            (Align(12), Err(19)),
            (Align(63), Err(19)),
            (Align(65), Err(19)),
            (Align(96), Err(19)),
            (Align(128), Err(19)),
            (Align(65536), Err(19)),
            (Align(2147483648), Err(19)),
            (Align(UNBOUND), Err(19)),
            (Offset, Ok(3)),
        ],
    )
}

#[test]
fn traps_have_a_code_and_bytes(rt: HostRuntime) -> Result<(), Fail> {
    on_both(
        &rt,
        &[
            (Put(1, 0), Err(7)),
            (Put(255, 0), Err(7)),
            (Put(256, 0), Err(7)),
            (Put(256, 4), Err(7)),
            (Put(UNBOUND, 4), Err(7)),
            (Put(0, 0), Ok(0)),
            (Put(0, 3), Ok(0)),
            (Traps, Ok(0)),
            (Put(1, 2), Ok(3)),
            (Put(0, 4), Ok(5)),
            (Put(255, 1), Ok(9)),
            (Traps, Ok(2)),
            (TrapAt(0), Ok(3)),
            (TrapCode(0), Ok(1)),
            (TrapAt(1), Ok(9)),
            (TrapCode(1), Ok(255)),
            (Offset, Ok(10)),
        ],
    )
}

// 7 before 12 before 8, and a code of 0 is granted whatever the traps.
#[test]
fn traps_on_record_are_512(rt: HostRuntime) -> Result<(), Fail> {
    on_both(
        &rt,
        &[
            (Put(1, 1), Ok(0)),
            (Again(510, 1), Ok(510)),
            (Traps, Ok(511)),
            (Put(255, 1), Ok(511)),
            (Put(1, 1), Err(12)),
            (Put(256, 1), Err(7)),
            (Put(1, 0), Err(7)),
            (Defer(1), Err(12)),
            (Defer(0), Err(7)),
            (Defer(256), Err(7)),
            (Put(0, 1), Ok(512)),
            (Put(1, 65536), Err(12)),
            (Put(0, 65024), Err(8)),
            (Put(0, 65023), Ok(513)),
            (Put(1, 1), Err(12)),
            (Put(256, 1), Err(7)),
            (Put(0, 1), Err(8)),
            (Put(0, 0), Ok(65536)),
            (Traps, Ok(512)),
            (TrapAt(511), Ok(511)),
        ],
    )
}

#[test]
fn traps_of_both_sorts_are_512(rt: HostRuntime) -> Result<(), Fail> {
    on_both(
        &rt,
        &[
            (Defer(1), Ok(0)),
            (Again(255, 1), Ok(255)),
            (Put(1, 1), Ok(0)),
            (Again(254, 1), Ok(254)),
            (Traps, Ok(255)),
            (Put(1, 1), Ok(255)),
            (Put(1, 1), Err(12)),
            (Defer(1), Err(12)),
            (Put(0, 1), Ok(256)),
            (Traps, Ok(256)),
            (Labels, Ok(256)),
        ],
    )
}
