// Labels.
use crate::calls::Call::*;
use crate::calls::{UNBOUND, on, on_both};
use crate::words::GOTO;
use aarch64::{AArch64, BRANCH26};
use std::test::Fail;

#[test]
fn labels_are_numbered_from_zero(rt: HostRuntime) -> Result<(), Fail> {
    on_both(
        &rt,
        &[
            (Labels, Ok(0)),
            (Resolve(0), Err(3)),
            (Label, Ok(0)),
            (Label, Ok(1)),
            (Again(2, 1), Ok(3)),
            (Labels, Ok(4)),
            (Resolve(0), Ok(UNBOUND)),
            (Resolve(3), Ok(UNBOUND)),
            (Resolve(4), Err(3)),
            (Resolve(UNBOUND), Err(3)),
        ],
    )
}

#[test]
fn labels_are_4096(rt: HostRuntime) -> Result<(), Fail> {
    on_both(
        &rt,
        &[
            (Label, Ok(0)),
            (Again(4094, 1), Ok(4094)),
            (Labels, Ok(4095)),
            (Label, Ok(4095)),
            (Label, Err(9)),
            (Labels, Ok(4096)),
            (Resolve(4095), Ok(UNBOUND)),
            (Resolve(4096), Err(3)),
            (Bind(4096), Err(3)),
            (BindEach(0, 4096), Ok(0)),
            (Resolve(0), Ok(0)),
            (Resolve(4095), Ok(0)),
            (Bind(4095), Err(4)),
            (Label, Err(9)),
        ],
    )
}

// The labels of traps and constants count too. A pending constant's label comes again even when there is room for none.
#[test]
fn labels_of_all_sorts_are_4096(rt: HostRuntime) -> Result<(), Fail> {
    on_both(
        &rt,
        &[
            (Label, Ok(0)),
            (Again(4092, 1), Ok(4092)),
            (Defer(1), Ok(4093)),
            (Register(8, 8), Ok(0)),
            (Register(8, 8), Ok(1)),
            (Constant(0), Ok(4094)),
            (Labels, Ok(4095)),
            (Constant(1), Ok(4095)),
            (Register(8, 8), Ok(2)),
            (Label, Err(9)),
            (Defer(1), Err(9)),
            (Constant(2), Err(9)),
            (Constant(0), Ok(4094)),
            (Constant(1), Ok(4095)),
            (Defer(0), Err(7)),
            (Constant(3), Err(15)),
            (Labels, Ok(4096)),
            (Traps, Ok(0)),
        ],
    )
}

#[test]
fn label_is_bound_once(rt: HostRuntime) -> Result<(), Fail> {
    on_both(
        &rt,
        &[
            (Bind(0), Err(3)),
            (BindSkip(0), Err(3)),
            (Label, Ok(0)),
            (Label, Ok(1)),
            (Put(0, 4), Ok(0)),
            (Bind(0), Ok(0)),
            (Resolve(0), Ok(4)),
            (Bind(0), Err(4)),
            (BindSkip(0), Err(4)),
            (Put(0, 4), Ok(4)),
            (Bind(0), Err(4)),
            (BindSkip(1), Ok(0)),
            (Bind(1), Err(4)),
            (Resolve(0), Ok(4)),
            (Resolve(1), Ok(8)),
            (Bind(2), Err(3)),
            (Offset, Ok(8)),
        ],
    )
}

// Labels of traps and constants are reserved, and one that has become an alias is taken.
#[test]
fn label_is_not_free(rt: HostRuntime) -> Result<(), Fail> {
    on(
        &rt,
        AArch64,
        &[
            (Defer(1), Ok(0)),
            (Register(4, 4), Ok(0)),
            (Constant(0), Ok(1)),
            (Bind(0), Err(4)),
            (BindSkip(0), Err(4)),
            (Bind(1), Err(4)),
            (Resolve(0), Ok(UNBOUND)),
            (Resolve(1), Ok(UNBOUND)),
            (Label, Ok(2)),
            (Label, Ok(3)),
            (Bind(2), Ok(0)),
            (Jump(3, BRANCH26, GOTO), Ok(0)),
            (Simplify, Ok(0)),
            (Resolve(2), Ok(UNBOUND)),
            (Bind(2), Err(4)),
            (Resolve(2), Ok(UNBOUND)),
            (Put(0, 4), Ok(4)),
            (Bind(3), Ok(0)),
            (Resolve(2), Ok(8)),
        ],
    )
}

// 3 before 4 before 5.
#[test]
fn label_is_bound_aligned(rt: HostRuntime) -> Result<(), Fail> {
    on_both(
        &rt,
        &[
            (Label, Ok(0)),
            (Label, Ok(1)),
            (Defer(1), Ok(2)),
            (Bind(0), Ok(0)),
            (Put(0, 1), Ok(0)),
            (Bind(1), Err(5)),
            (BindSkip(1), Err(5)),
            (Bind(0), Err(4)),
            (Bind(2), Err(4)),
            (Bind(3), Err(3)),
            (Put(0, 1), Ok(1)),
            (Bind(1), Err(5)),
            (Put(0, 1), Ok(2)),
            (Bind(1), Err(5)),
            (Resolve(1), Ok(UNBOUND)),
            (Put(0, 1), Ok(3)),
            (Bind(1), Ok(0)),
            (Resolve(1), Ok(4)),
        ],
    )
}
