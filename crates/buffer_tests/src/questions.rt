// When an island is needed.
use crate::calls::Call::*;
use crate::calls::{UNBOUND, on, on_both};
use crate::words::{ADR, BEQ, GOTO, LDR, RV_BEQ, RV_JAL, TBNZ, TBZ};
use aarch64::{AArch64, ADR21, BRANCH14, BRANCH19, BRANCH26, LDR19, PC_REL32};
use riscv::{B12, J20, RiscV};
use std::test::Fail;

// Where nothing waits, no distance is too far.
#[test]
fn island_is_not_needed(rt: HostRuntime) -> Result<(), Fail> {
    on_both(
        &rt,
        &[
            (Needed(0), Ok(0)),
            (Needed(UNBOUND), Ok(0)),
            (Offset, Ok(0)),
            (Put(0, 65536), Ok(0)),
            (Defer(1), Ok(0)),
            (Register(256, 64), Ok(0)),
            (Constant(0), Ok(1)),
            (Needed(0), Ok(0)),
            (Needed(UNBOUND), Ok(0)),
            (Offset, Ok(65536)),
        ],
    )
}

// The deadline is 32,767 behind the use, less the alignment. The island may need 20 bytes for its veneer.
#[test]
fn island_after_tbz(rt: HostRuntime) -> Result<(), Fail> {
    on(
        &rt,
        AArch64,
        &[
            (Label, Ok(0)),
            (Use(0, BRANCH14, TBZ), Ok(0)),
            (Needed(0), Ok(0)),
            (Needed(32739), Ok(0)),
            (Needed(32740), Ok(1)),
            (Needed(UNBOUND), Ok(1)),
            (Put(0, 100), Ok(4)),
            (Needed(32639), Ok(0)),
            (Needed(32640), Ok(1)),
            (Put(0, 32639), Ok(104)),
            (Needed(0), Ok(0)),
            (Put(0, 1), Ok(32743)),
            (Needed(0), Ok(1)),
            (Offset, Ok(32744)),
            (Bind(0), Ok(0)),
            (Needed(0), Ok(1)),
        ],
    )
}

// Each kind that comes has a nearer deadline than the one before: the nearest counts.
#[test]
fn island_after_each_kind(rt: HostRuntime) -> Result<(), Fail> {
    on(
        &rt,
        AArch64,
        &[
            (Label, Ok(0)),
            (Use(0, PC_REL32, 0), Ok(0)),
            (Needed(2147483619), Ok(0)),
            (Needed(2147483620), Ok(1)),
            (Needed(UNBOUND), Ok(1)),
            (Use(0, BRANCH26, GOTO), Ok(4)),
            (Needed(134217679), Ok(0)),
            (Needed(134217680), Ok(1)),
            (Use(0, BRANCH19, BEQ), Ok(8)),
            (Needed(1048507), Ok(0)),
            (Needed(1048508), Ok(1)),
            (Use(0, BRANCH14, TBZ), Ok(12)),
            (Needed(32679), Ok(0)),
            (Needed(32680), Ok(1)),
            (Use(0, PC_REL32, 0), Ok(16)),
            (Needed(32655), Ok(0)),
            (Needed(32656), Ok(1)),
        ],
    )
}

#[test]
fn island_after_loads(rt: HostRuntime) -> Result<(), Fail> {
    on(
        &rt,
        AArch64,
        &[
            (Label, Ok(0)),
            (Put(0, 64), Ok(0)),
            (Use(0, ADR21, ADR), Ok(64)),
            (Needed(1048547), Ok(0)),
            (Needed(1048548), Ok(1)),
        ],
    )?;
    on(
        &rt,
        AArch64,
        &[
            (Label, Ok(0)),
            (Use(0, LDR19, LDR), Ok(0)),
            (Needed(1048547), Ok(0)),
            (Needed(1048548), Ok(1)),
        ],
    )
}

// A deferred trap takes 4 bytes, and a requested constant its size and its alignment.
#[test]
fn island_with_traps_and_constants(rt: HostRuntime) -> Result<(), Fail> {
    on(
        &rt,
        AArch64,
        &[
            (Label, Ok(0)),
            (Use(0, BRANCH14, TBZ), Ok(0)),
            (Defer(1), Ok(1)),
            (Needed(32735), Ok(0)),
            (Needed(32736), Ok(1)),
            (Register(16, 64), Ok(0)),
            (Register(3, 4), Ok(1)),
            (Needed(32735), Ok(0)),
            (Constant(0), Ok(2)),
            (Constant(0), Ok(2)),
            (Needed(32655), Ok(0)),
            (Needed(32656), Ok(1)),
            (Constant(1), Ok(3)),
            (Needed(32648), Ok(0)),
            (Needed(32649), Ok(1)),
        ],
    )
}

// The deadline stays when the use is cut; its veneer counts no longer.
#[test]
fn island_after_a_cut(rt: HostRuntime) -> Result<(), Fail> {
    on(
        &rt,
        AArch64,
        &[
            (Label, Ok(0)),
            (Branch(0, BRANCH14, TBZ, TBNZ), Ok(0)),
            (Needed(32739), Ok(0)),
            (Needed(32740), Ok(1)),
            (Bind(0), Ok(0)),
            (Waiting, Ok(0)),
            (Offset, Ok(0)),
            (Needed(32763), Ok(0)),
            (Needed(32764), Ok(1)),
        ],
    )
}

#[test]
fn island_on_riscv(rt: HostRuntime) -> Result<(), Fail> {
    on(
        &rt,
        RiscV,
        &[
            (Label, Ok(0)),
            (Use(0, J20, RV_JAL), Ok(0)),
            (Needed(1048563), Ok(0)),
            (Needed(1048564), Ok(1)),
            (Use(0, B12, RV_BEQ), Ok(4)),
            (Needed(4079), Ok(0)),
            (Needed(4080), Ok(1)),
            (Defer(1), Ok(1)),
            (Needed(4075), Ok(0)),
            (Needed(4076), Ok(1)),
        ],
    )
}
