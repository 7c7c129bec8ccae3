// Traps and constants that an island will write.
use crate::calls::Call::*;
use crate::calls::{UNBOUND, on_both};
use std::test::Fail;

#[test]
fn deferred_trap_has_a_code(rt: HostRuntime) -> Result<(), Fail> {
    on_both(
        &rt,
        &[
            (Defer(0), Err(7)),
            (Defer(256), Err(7)),
            (Defer(UNBOUND), Err(7)),
            (Labels, Ok(0)),
            (Defer(1), Ok(0)),
            (Defer(255), Ok(1)),
            (Label, Ok(2)),
            (Defer(255), Ok(3)),
            (Labels, Ok(4)),
            (Resolve(0), Ok(UNBOUND)),
            (Traps, Ok(0)),
            (Offset, Ok(0)),
            (Waiting, Ok(0)),
        ],
    )
}

#[test]
fn deferred_traps_are_512(rt: HostRuntime) -> Result<(), Fail> {
    on_both(
        &rt,
        &[
            (Defer(1), Ok(0)),
            (Again(510, 1), Ok(510)),
            (Defer(255), Ok(511)),
            (Defer(1), Err(12)),
            (Defer(0), Err(7)),
            (Defer(256), Err(7)),
            (Put(1, 1), Err(12)),
            (Put(0, 1), Ok(0)),
            (Labels, Ok(512)),
            (Traps, Ok(0)),
        ],
    )
}

// 12 before 9.
#[test]
fn deferred_traps_before_labels(rt: HostRuntime) -> Result<(), Fail> {
    on_both(
        &rt,
        &[
            (Defer(1), Ok(0)),
            (Again(511, 1), Ok(511)),
            (Label, Ok(512)),
            (Again(3583, 1), Ok(4095)),
            (Label, Err(9)),
            (Defer(1), Err(12)),
            (Defer(0), Err(7)),
        ],
    )
}

// A size of 1 to 256, and an alignment from the set's own, 4, to 64.
#[test]
fn constant_has_a_size_and_an_alignment(rt: HostRuntime) -> Result<(), Fail> {
    on_both(
        &rt,
        &[
            (Register(0, 8), Err(14)),
            (Register(257, 8), Err(14)),
            (Register(UNBOUND, 8), Err(14)),
            (Register(8, 0), Err(14)),
            (Register(8, 1), Err(14)),
            (Register(8, 2), Err(14)),
            (Register(8, 3), Err(14)),
            (Register(8, 12), Err(14)),
            (Register(8, 63), Err(14)),
            (Register(8, 65), Err(14)),
            (Register(8, 128), Err(14)),
            (Register(8, UNBOUND), Err(14)),
            (Constant(0), Err(15)),
            (Register(1, 4), Ok(0)),
            (Register(256, 64), Ok(1)),
            (Register(3, 8), Ok(2)),
            (Register(8, 16), Ok(3)),
            (Register(8, 32), Ok(4)),
            (Labels, Ok(0)),
            (Offset, Ok(0)),
        ],
    )
}

// 14 before 13.
#[test]
fn constants_are_512(rt: HostRuntime) -> Result<(), Fail> {
    on_both(
        &rt,
        &[
            (Register(8, 8), Ok(0)),
            (Again(510, 1), Ok(510)),
            (Constant(511), Err(15)),
            (Register(16, 16), Ok(511)),
            (Register(8, 8), Err(13)),
            (Register(0, 8), Err(14)),
            (Register(8, 2), Err(14)),
            (Constant(511), Ok(0)),
            (Constant(512), Err(15)),
        ],
    )
}

// A pending constant has one label, however often it is requested.
#[test]
fn constant_keeps_its_label(rt: HostRuntime) -> Result<(), Fail> {
    on_both(
        &rt,
        &[
            (Constant(0), Err(15)),
            (Register(8, 8), Ok(0)),
            (Register(8, 8), Ok(1)),
            (Constant(2), Err(15)),
            (Constant(UNBOUND), Err(15)),
            (Label, Ok(0)),
            (Constant(1), Ok(1)),
            (Constant(1), Ok(1)),
            (Again(1000, 0), Ok(1)),
            (Constant(0), Ok(2)),
            (Constant(1), Ok(1)),
            (Labels, Ok(3)),
            (Resolve(1), Ok(UNBOUND)),
            (Placed, Ok(0)),
            (Offset, Ok(0)),
        ],
    )
}

// As many constants are requested as may be, and each label comes again when there is room for no other.
#[test]
fn requests_are_512(rt: HostRuntime) -> Result<(), Fail> {
    on_both(
        &rt,
        &[
            (Register(8, 8), Ok(0)),
            (Again(511, 1), Ok(511)),
            (ConstantEach(0, 512), Ok(511)),
            (Constant(0), Ok(0)),
            (Constant(511), Ok(511)),
            (Constant(512), Err(15)),
            (Labels, Ok(512)),
            (Label, Ok(512)),
            (Again(3583, 1), Ok(4095)),
            (Label, Err(9)),
            (Defer(1), Err(9)),
            (ConstantEach(0, 512), Ok(511)),
            (Constant(512), Err(15)),
            (Labels, Ok(4096)),
        ],
    )
}
