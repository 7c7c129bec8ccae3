// Regions that are filled after finishing.
use crate::calls::Call::*;
use crate::calls::{UNBOUND, on, run};
use crate::words::{BEQ, BNE, GOTO};
use aarch64::{AArch64, BRANCH19, BRANCH26};
use buffer::buffer::MachBuffer;
use buffer::regions::{OpenPatchRegion, PatchRegion};
use isa::InstructionSet;
use std::process::Abort;
use std::test::Fail;

// What closing a region answers: its number, start and length, or the number of the refusal, as the tests expect them.
type Closed = Result<(u32, u32, u32), u32>;

fn place(region: PatchRegion) -> (u32, u32, u32) {
    (region.number, region.place.start, region.place.len)
}

// Closes a region. A token that comes back is taken apart.
fn close<S: InstructionSet + Drop>(buffer: &mut MachBuffer<S>, token: OpenPatchRegion) -> Closed {
    match buffer.end_patchable(token) {
        Ok(region) => Ok(place(region)),
        Err((refusal, OpenPatchRegion { number: _ })) => Err(refusal.into()),
    }
}

#[test]
fn region_forbids_labels_and_uses(rt: HostRuntime) -> Result<(), Fail> {
    on(
        &rt,
        AArch64,
        &[
            (Label, Ok(0)),
            (Open, Ok(0)),
            (Bind(0), Err(2)),
            (BindSkip(0), Err(2)),
            (Bind(9), Err(2)),
            (Use(0, BRANCH26, GOTO), Err(2)),
            (Use(9, 9, 0), Err(2)),
            (Jump(0, BRANCH26, GOTO), Err(2)),
            (Branch(0, BRANCH19, BEQ, BNE), Err(2)),
            (Simplify, Err(2)),
            (SimplifySkip, Err(2)),
            (Open, Err(2)),
            (Close, Ok(0)),
            (Bind(0), Ok(0)),
            (Use(0, BRANCH26, GOTO), Ok(0)),
            (Simplify, Ok(0)),
            (Waiting, Ok(1)),
        ],
    )
}

#[test]
fn region_takes_data(rt: HostRuntime) -> Result<(), Fail> {
    on(
        &rt,
        AArch64,
        &[
            (Open, Ok(0)),
            (Put(0, 2), Ok(0)),
            (Put(3, 4), Ok(2)),
            (Put(256, 4), Err(7)),
            (Align(16), Ok(0)),
            (Align(3), Err(19)),
            (Label, Ok(0)),
            (Defer(1), Ok(1)),
            (Register(8, 8), Ok(0)),
            (Constant(0), Ok(2)),
            (Offset, Ok(16)),
            (Resolve(0), Ok(UNBOUND)),
            (Resolve(3), Err(3)),
            (Needed(0), Ok(0)),
            (Traps, Ok(1)),
            (Put(0, 65521), Err(8)),
            (Close, Ok(16)),
            (Bind(0), Ok(0)),
            (Resolve(0), Ok(16)),
        ],
    )
}

// A region is refused only while another is open, and may stand at any offset.
#[test]
fn regions_are_numbered_from_zero(rt: HostRuntime) -> Result<(), Fail> {
    on(
        &rt,
        AArch64,
        &[
            (Open, Ok(0)),
            (Close, Ok(0)),
            (Open, Ok(1)),
            (Put(0, 3), Ok(0)),
            (Close, Ok(3)),
            (Open, Ok(2)),
            (Open, Err(2)),
            (Put(0, 65533), Ok(3)),
            (Close, Ok(65533)),
            (Open, Ok(3)),
            (Close, Ok(0)),
            (Offset, Ok(65536)),
        ],
    )
}

#[test]
fn region_has_a_place(rt: HostRuntime) -> Result<(), Fail> {
    let mut buffer = MachBuffer::new(rt.alloc(), AArch64)?;
    run(
        &rt,
        &mut buffer,
        &[
            (Put(0, 8), Ok(0)),
            (Open, Ok(0)),
            (Close, Ok(0)),
            (Put(0, 4), Ok(8)),
        ],
    );
    let token = buffer.start_patchable()?;
    let put = buffer.put_data(0, &[1, 2, 3, 4, 5, 6]);
    let closed = close(&mut buffer, token);
    assert_eq!(rt; put?, 12);
    assert_eq!(rt; closed, Ok((1, 12, 6)));
    Ok(())
}

// Opens and closes a region so many times.
fn open_and_close<S: InstructionSet + Drop>(
    rt: &impl Abort,
    buffer: &mut MachBuffer<S>,
    times: u32,
) -> Result<(), Fail> {
    for number in 0..times {
        let token = buffer.start_patchable()?;
        assert_eq!(rt; close(buffer, token), Ok((number, 0, 0)));
    }
    Ok(())
}

#[test]
fn regions_are_64(rt: HostRuntime) -> Result<(), Fail> {
    let mut buffer = MachBuffer::new(rt.alloc(), AArch64)?;
    open_and_close(&rt, &mut buffer, 63)?;
    run(
        &rt,
        &mut buffer,
        &[
            (Open, Ok(63)),
            (Open, Err(2)),
            (Put(0, 4), Ok(0)),
            (Close, Ok(4)),
            (Open, Err(20)),
            (Label, Ok(0)),
            (Bind(0), Ok(0)),
            (Open, Err(20)),
        ],
    );
    Ok(())
}

// Where no region is open, a region of another buffer comes back.
#[test]
fn region_comes_back_where_none_is_open(rt: HostRuntime) -> Result<(), Fail> {
    let mut one = MachBuffer::new(rt.alloc(), AArch64)?;
    let mut other = MachBuffer::new(rt.alloc(), AArch64)?;
    let token = one.start_patchable()?;
    match other.end_patchable(token) {
        Ok(_closed) => Err(Fail::new("closed where no region is open")),
        Err((refusal, token)) => {
            assert_eq!(rt; close(&mut one, token), Ok((0, 0, 0)));
            assert_eq!(rt; u32::from(refusal), 2);
            Ok(())
        }
    }
}

// Two open regions of different numbers, and the first token given to the second buffer: what was answered there, and
// what to closing each in its own buffer.
fn cross<S: InstructionSet + Drop>(
    one: &mut MachBuffer<S>,
    first: OpenPatchRegion,
    other: &mut MachBuffer<S>,
    second: OpenPatchRegion,
) -> (Closed, Closed, Closed) {
    match other.end_patchable(first) {
        Ok(region) => {
            let wrong = Ok(place(region));
            (wrong, wrong, close(other, second))
        }
        Err((refusal, first)) => (Err(refusal.into()), close(one, first), close(other, second)),
    }
}

#[test]
fn region_comes_back_where_another_is_open(rt: HostRuntime) -> Result<(), Fail> {
    let mut one = MachBuffer::new(rt.alloc(), AArch64)?;
    let mut other = MachBuffer::new(rt.alloc(), AArch64)?;
    open_and_close(&rt, &mut other, 1)?;
    let first = one.start_patchable()?;
    match other.start_patchable() {
        Ok(second) => {
            assert_eq!(rt;
                cross(&mut one, first, &mut other, second),
                (Err(2), Ok((0, 0, 0)), Ok((1, 0, 0)))
            );
            Ok(())
        },
        Err(_) => {
            assert_eq!(rt; close(&mut one, first), Ok((0, 0, 0)));
            Err(Fail::new("no region was opened"))
        }
    }
}

// Branches before a region stand, and data in it parts them from the end of the code.
#[test]
fn region_parts_branches_from_the_end(rt: HostRuntime) -> Result<(), Fail> {
    on(
        &rt,
        AArch64,
        &[
            (Label, Ok(0)),
            (Jump(0, BRANCH26, GOTO), Ok(0)),
            (Open, Ok(0)),
            (Put(0, 4), Ok(4)),
            (Close, Ok(4)),
            (Bind(0), Ok(0)),
            (Offset, Ok(8)),
            (Waiting, Ok(1)),
            (Resolve(0), Ok(8)),
        ],
    )
}

// An empty region does not: the jump before it vanishes.
#[test]
fn region_that_is_empty_parts_nothing(rt: HostRuntime) -> Result<(), Fail> {
    on(
        &rt,
        AArch64,
        &[
            (Label, Ok(0)),
            (Jump(0, BRANCH26, GOTO), Ok(0)),
            (Open, Ok(0)),
            (Close, Ok(0)),
            (Bind(0), Ok(0)),
            (Offset, Ok(0)),
            (Waiting, Ok(0)),
            (Resolve(0), Ok(0)),
        ],
    )
}
