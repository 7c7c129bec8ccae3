// Bytes that refer to a label, and branches.
use crate::calls::Call::*;
use crate::calls::{UNBOUND, on};
use crate::words::{
    ADR, BEQ, BL, BNE, CBNZ, CBZ, GOTO, LDR, NOP, RV_BEQ, RV_BNE, RV_JAL, TBNZ, TBZ,
};
use aarch64::{AArch64, ADR21, BRANCH14, BRANCH19, BRANCH26, LDR19, PC_REL32};
use riscv::{B12, J20, RiscV};
use std::test::Fail;

// Every kind, to a label that is unbound, bound or reserved.
#[test]
fn use_of_every_kind(rt: HostRuntime) -> Result<(), Fail> {
    on(
        &rt,
        AArch64,
        &[
            (Label, Ok(0)),
            (Label, Ok(1)),
            (Defer(1), Ok(2)),
            (Bind(1), Ok(0)),
            (Use(0, BRANCH14, TBZ), Ok(0)),
            (Use(1, BRANCH19, BEQ), Ok(4)),
            (Use(2, BRANCH26, BL), Ok(8)),
            (Use(0, LDR19, LDR), Ok(12)),
            (Use(0, ADR21, ADR), Ok(16)),
            (Use(0, PC_REL32, 0), Ok(20)),
            (Use(0, BRANCH14, NOP), Ok(24)),
            (Waiting, Ok(7)),
            (Offset, Ok(28)),
            (Word(8), Ok(BL)),
            (Word(20), Ok(0)),
            (Word(24), Ok(NOP)),
            (Simplify, Ok(0)),
            (Waiting, Ok(7)),
            (Resolve(0), Ok(UNBOUND)),
            (Resolve(1), Ok(0)),
        ],
    )
}

// As many bytes as the kind has, and 0 where the kind adds.
#[test]
fn use_has_its_bytes(rt: HostRuntime) -> Result<(), Fail> {
    on(
        &rt,
        AArch64,
        &[
            (Label, Ok(0)),
            (UseOf(0, 0, BRANCH26, GOTO), Err(7)),
            (UseOf(3, 0, BRANCH26, GOTO), Err(7)),
            (UseOf(5, 0, BRANCH26, GOTO), Err(7)),
            (UseOf(8, 0, BRANCH26, GOTO), Err(7)),
            (UseOf(3, 0, BRANCH14, TBZ), Err(7)),
            (UseOf(5, 0, BRANCH19, BEQ), Err(7)),
            (UseOf(3, 0, LDR19, LDR), Err(7)),
            (UseOf(5, 0, ADR21, ADR), Err(7)),
            (UseOf(3, 0, PC_REL32, 0), Err(7)),
            (UseOf(5, 0, PC_REL32, 0), Err(7)),
            (Use(0, PC_REL32, 1), Err(7)),
            (Use(0, PC_REL32, 0x0100_0000), Err(7)),
            (Use(0, PC_REL32, 0x8000_0000), Err(7)),
            (Use(0, PC_REL32, 0xffff_ffff), Err(7)),
            (Offset, Ok(0)),
            (Waiting, Ok(0)),
            (UseOf(4, 0, PC_REL32, 0), Ok(0)),
            (Use(0, BRANCH26, 0x17ff_ffff), Ok(4)),
            (Use(0, ADR21, 0x7000_0020), Ok(8)),
        ],
    )
}

// 2 before 3 before 6 before 7 before 5.
#[test]
fn use_is_refused_in_order(rt: HostRuntime) -> Result<(), Fail> {
    on(
        &rt,
        AArch64,
        &[
            (Put(0, 2), Ok(0)),
            (Open, Ok(0)),
            (UseOf(3, 0, 6, 0), Err(2)),
            (Close, Ok(0)),
            (UseOf(3, 0, 6, 0), Err(3)),
            (Use(0, BRANCH26, GOTO), Err(3)),
            (Label, Ok(0)),
            (Use(1, BRANCH26, GOTO), Err(3)),
            (Use(UNBOUND, BRANCH26, GOTO), Err(3)),
            (UseOf(3, 0, 6, 0), Err(6)),
            (Use(0, 6, 0), Err(6)),
            (Use(0, UNBOUND, 0), Err(6)),
            (UseOf(3, 0, BRANCH26, GOTO), Err(7)),
            (Use(0, PC_REL32, 1), Err(7)),
            (Use(0, BRANCH26, GOTO), Err(5)),
            (Offset, Ok(2)),
            (Waiting, Ok(0)),
            (Align(4), Ok(0)),
            (Use(0, BRANCH26, GOTO), Ok(4)),
        ],
    )
}

#[test]
fn branch_is_refused_in_order(rt: HostRuntime) -> Result<(), Fail> {
    on(
        &rt,
        AArch64,
        &[
            (Put(0, 2), Ok(0)),
            (Open, Ok(0)),
            (JumpOf(3, 0, 6, GOTO), Err(2)),
            (BranchOf(3, 3, 0, 6, BEQ, BEQ), Err(2)),
            (Close, Ok(0)),
            (JumpOf(3, 0, 6, GOTO), Err(3)),
            (BranchOf(3, 3, 0, 6, BEQ, BEQ), Err(3)),
            (Label, Ok(0)),
            (JumpOf(3, 0, 6, GOTO), Err(6)),
            (BranchOf(3, 3, 0, 6, BEQ, BEQ), Err(6)),
            (JumpOf(3, 0, BRANCH26, GOTO), Err(7)),
            (BranchOf(3, 3, 0, BRANCH19, BEQ, BEQ), Err(7)),
            (Jump(0, BRANCH26, GOTO), Err(5)),
            (Branch(0, BRANCH19, BEQ, BNE), Err(5)),
            (Offset, Ok(2)),
            (Put(0, 2), Ok(2)),
            (Jump(0, BRANCH26, GOTO), Ok(4)),
            (Branch(0, BRANCH19, BEQ, BNE), Ok(8)),
            (Waiting, Ok(2)),
        ],
    )
}

// The 4,096th use is granted, and 7 and 5 come before 10, and 10 before 8.
#[test]
fn waiting_uses_are_4096(rt: HostRuntime) -> Result<(), Fail> {
    on(
        &rt,
        AArch64,
        &[
            (Label, Ok(0)),
            (Use(0, LDR19, LDR), Ok(0)),
            (Again(4094, 4), Ok(16376)),
            (Waiting, Ok(4095)),
            (Jump(0, BRANCH26, GOTO), Ok(16380)),
            (Waiting, Ok(4096)),
            (Use(0, LDR19, LDR), Err(10)),
            (Jump(0, BRANCH26, GOTO), Err(10)),
            (Branch(0, BRANCH19, BEQ, BNE), Err(10)),
            (Use(0, PC_REL32, 1), Err(7)),
            (Put(0, 2), Ok(16384)),
            (Use(0, LDR19, LDR), Err(5)),
            (Jump(0, BRANCH26, GOTO), Err(5)),
            (Branch(0, BRANCH19, BEQ, BNE), Err(5)),
            (Put(0, 49150), Ok(16386)),
            (Use(0, LDR19, LDR), Err(10)),
            (Jump(0, BRANCH26, GOTO), Err(10)),
            (Branch(0, BRANCH19, BEQ, BNE), Err(10)),
            (Put(0, 1), Err(8)),
            (Offset, Ok(65536)),
        ],
    )
}

// A jump that is cut gives its place back.
#[test]
fn waiting_use_gives_way(rt: HostRuntime) -> Result<(), Fail> {
    on(
        &rt,
        AArch64,
        &[
            (Label, Ok(0)),
            (Label, Ok(1)),
            (Use(0, LDR19, LDR), Ok(0)),
            (Again(4094, 4), Ok(16376)),
            (Jump(1, BRANCH26, GOTO), Ok(16380)),
            (Use(0, LDR19, LDR), Err(10)),
            (Bind(1), Ok(0)),
            (Waiting, Ok(4095)),
            (Use(0, LDR19, LDR), Ok(16380)),
            (Use(0, LDR19, LDR), Err(10)),
        ],
    )
}

// The 512th branch is granted, and a plain use still is. Then 10 comes before 11.
#[test]
fn standing_branches_are_512(rt: HostRuntime) -> Result<(), Fail> {
    on(
        &rt,
        AArch64,
        &[
            (Label, Ok(0)),
            (Jump(0, BRANCH26, GOTO), Ok(0)),
            (Again(510, 4), Ok(2040)),
            (Branch(0, BRANCH19, BEQ, BNE), Ok(2044)),
            (Jump(0, BRANCH26, GOTO), Err(11)),
            (Branch(0, BRANCH19, BEQ, BNE), Err(11)),
            (Jump(0, BRANCH26, NOP), Err(7)),
            (Use(0, BRANCH26, GOTO), Ok(2048)),
            (Waiting, Ok(513)),
            (Put(0, 2), Ok(2052)),
            (Jump(0, BRANCH26, GOTO), Err(5)),
            (Branch(0, BRANCH19, BEQ, BNE), Err(5)),
            (Put(0, 2), Ok(2054)),
            (Use(0, BRANCH26, GOTO), Ok(2056)),
            (Again(3582, 4), Ok(16384)),
            (Waiting, Ok(4096)),
            (Jump(0, BRANCH26, GOTO), Err(10)),
            (Branch(0, BRANCH19, BEQ, BNE), Err(10)),
            (Use(0, BRANCH26, GOTO), Err(10)),
        ],
    )
}

// 11 before 8.
#[test]
fn standing_branches_before_code(rt: HostRuntime) -> Result<(), Fail> {
    on(
        &rt,
        AArch64,
        &[
            (Label, Ok(0)),
            (Jump(0, BRANCH26, GOTO), Ok(0)),
            (Again(511, 4), Ok(2044)),
            (Put(0, 63488), Ok(2048)),
            (Jump(0, BRANCH26, GOTO), Err(11)),
            (Branch(0, BRANCH19, BEQ, BNE), Err(11)),
            (Use(0, BRANCH26, GOTO), Err(8)),
            (Simplify, Ok(0)),
            (Jump(0, BRANCH26, GOTO), Err(8)),
            (Waiting, Ok(512)),
        ],
    )
}

// The last word of the code is granted, and 5 comes before 8.
#[test]
fn use_fills_the_code(rt: HostRuntime) -> Result<(), Fail> {
    on(
        &rt,
        AArch64,
        &[
            (Label, Ok(0)),
            (Put(0, 65524), Ok(0)),
            (Use(0, LDR19, LDR), Ok(65524)),
            (Jump(0, BRANCH26, GOTO), Ok(65528)),
            (Put(0, 2), Ok(65532)),
            (Use(0, LDR19, LDR), Err(5)),
            (Jump(0, BRANCH26, GOTO), Err(5)),
            (Branch(0, BRANCH19, BEQ, BNE), Err(5)),
            (Use(0, PC_REL32, 1), Err(7)),
            (Put(0, 2), Ok(65534)),
            (Use(0, LDR19, LDR), Err(8)),
            (Jump(0, BRANCH26, GOTO), Err(8)),
            (Branch(0, BRANCH19, BEQ, BNE), Err(8)),
            (Use(0, PC_REL32, 1), Err(7)),
            (Offset, Ok(65536)),
            (Waiting, Ok(2)),
        ],
    )
}

#[test]
fn branch_fills_the_code(rt: HostRuntime) -> Result<(), Fail> {
    on(
        &rt,
        AArch64,
        &[
            (Label, Ok(0)),
            (Put(0, 65532), Ok(0)),
            (Branch(0, BRANCH19, BEQ, BNE), Ok(65532)),
            (Branch(0, BRANCH19, BEQ, BNE), Err(8)),
            (Bind(0), Ok(0)),
            (Offset, Ok(65532)),
            (Jump(0, BRANCH26, GOTO), Ok(65532)),
            (Jump(0, BRANCH26, GOTO), Err(8)),
            (Resolve(0), Ok(65532)),
        ],
    )
}

#[test]
fn jump_is_unconditional(rt: HostRuntime) -> Result<(), Fail> {
    on(
        &rt,
        AArch64,
        &[
            (Label, Ok(0)),
            (Jump(0, BRANCH26, BL), Err(7)),
            (Jump(0, BRANCH26, NOP), Err(7)),
            (Jump(0, BRANCH26, 0), Err(7)),
            (Jump(0, BRANCH26, BEQ), Err(7)),
            (Jump(0, BRANCH26, 0x1800_0000), Err(7)),
            (Jump(0, BRANCH19, GOTO), Err(7)),
            (Jump(0, BRANCH19, BEQ), Err(7)),
            (Jump(0, BRANCH19, CBZ), Err(7)),
            (Jump(0, BRANCH14, TBZ), Err(7)),
            (Jump(0, BRANCH14, GOTO), Err(7)),
            (Jump(0, LDR19, GOTO), Err(7)),
            (Jump(0, ADR21, GOTO), Err(7)),
            (Jump(0, PC_REL32, 0), Err(7)),
            (JumpOf(3, 0, BRANCH26, GOTO), Err(7)),
            (JumpOf(5, 0, BRANCH26, GOTO), Err(7)),
            (Waiting, Ok(0)),
            (Offset, Ok(0)),
            (Jump(0, BRANCH26, 0x17ff_ffff), Ok(0)),
            (Word(0), Ok(0x17ff_ffff)),
        ],
    )
}

#[test]
fn branch_is_conditional(rt: HostRuntime) -> Result<(), Fail> {
    on(
        &rt,
        AArch64,
        &[
            (Label, Ok(0)),
            (Branch(0, BRANCH26, GOTO, GOTO), Err(7)),
            (Branch(0, BRANCH26, BEQ, BNE), Err(7)),
            (Branch(0, BRANCH26, CBZ, CBNZ), Err(7)),
            (Branch(0, BRANCH19, GOTO, GOTO), Err(7)),
            (Branch(0, BRANCH19, NOP, NOP), Err(7)),
            (Branch(0, BRANCH19, TBZ, TBNZ), Err(7)),
            (Branch(0, BRANCH19, LDR, 0x5900_0000), Err(7)),
            (Branch(0, BRANCH14, BEQ, BNE), Err(7)),
            (Branch(0, BRANCH14, CBZ, CBNZ), Err(7)),
            (Branch(0, LDR19, BEQ, BNE), Err(7)),
            (Branch(0, ADR21, BEQ, BNE), Err(7)),
            (Branch(0, PC_REL32, BEQ, BNE), Err(7)),
            (BranchOf(3, 4, 0, BRANCH19, BEQ, BNE), Err(7)),
            (BranchOf(5, 4, 0, BRANCH19, BEQ, BNE), Err(7)),
            (BranchOf(4, 3, 0, BRANCH19, BEQ, BNE), Err(7)),
            (BranchOf(4, 5, 0, BRANCH19, BEQ, BNE), Err(7)),
            (BranchOf(5, 5, 0, BRANCH19, BEQ, BNE), Err(7)),
            (Waiting, Ok(0)),
            (BranchOf(4, 4, 0, BRANCH19, BEQ, BNE), Ok(0)),
        ],
    )
}

// The same sense, another condition, and other bits outside the field. Another field is granted.
#[test]
fn inversion_of_aarch64(rt: HostRuntime) -> Result<(), Fail> {
    on(
        &rt,
        AArch64,
        &[
            (Label, Ok(0)),
            (Branch(0, BRANCH19, BEQ, BEQ), Err(7)),
            (Branch(0, BRANCH19, BEQ, 0x5400_0002), Err(7)),
            (Branch(0, BRANCH19, BEQ, 0x5400_0003), Err(7)),
            (Branch(0, BRANCH19, BEQ, CBNZ), Err(7)),
            (Branch(0, BRANCH19, CBZ, CBZ), Err(7)),
            (Branch(0, BRANCH19, CBZ, 0xb500_0001), Err(7)),
            (Branch(0, BRANCH19, CBZ, 0x3500_0000), Err(7)),
            (Branch(0, BRANCH14, TBZ, TBZ), Err(7)),
            (Branch(0, BRANCH14, TBZ, 0x3700_0001), Err(7)),
            (Branch(0, BRANCH14, TBZ, 0x3708_0000), Err(7)),
            (Branch(0, BRANCH14, TBZ, 0xb700_0000), Err(7)),
            (Waiting, Ok(0)),
            (Branch(0, BRANCH19, BEQ, 0x5400_0021), Ok(0)),
            (Branch(0, BRANCH19, 0x54ff_ffe0, BNE), Ok(4)),
            (Branch(0, BRANCH19, CBZ, 0xb5ff_ffe0), Ok(8)),
            (Branch(0, BRANCH14, TBZ, 0x3707_ffe0), Ok(12)),
            (Word(0), Ok(BEQ)),
            (Word(4), Ok(0x54ff_ffe0)),
            (Word(12), Ok(TBZ)),
        ],
    )
}

// Fourteen conditions come in pairs. 14 and 15 are always, and with bit 4 it is BC.cond.
#[test]
fn conditions_of_aarch64(rt: HostRuntime) -> Result<(), Fail> {
    on(
        &rt,
        AArch64,
        &[
            (Label, Ok(0)),
            (Branch(0, BRANCH19, 0x5400_0000, 0x5400_0001), Ok(0)),
            (Branch(0, BRANCH19, 0x5400_0003, 0x5400_0002), Ok(4)),
            (Branch(0, BRANCH19, 0x5400_0004, 0x5400_0005), Ok(8)),
            (Branch(0, BRANCH19, 0x5400_0007, 0x5400_0006), Ok(12)),
            (Branch(0, BRANCH19, 0x5400_0008, 0x5400_0009), Ok(16)),
            (Branch(0, BRANCH19, 0x5400_000b, 0x5400_000a), Ok(20)),
            (Branch(0, BRANCH19, 0x5400_000c, 0x5400_000d), Ok(24)),
            (Branch(0, BRANCH19, 0x5400_000d, 0x5400_000c), Ok(28)),
            (Branch(0, BRANCH19, 0x5400_000e, 0x5400_000f), Err(7)),
            (Branch(0, BRANCH19, 0x5400_000f, 0x5400_000e), Err(7)),
            (Branch(0, BRANCH19, 0x5400_0001, 0x5400_0002), Err(7)),
            (Branch(0, BRANCH19, 0x5400_000d, 0x5400_000e), Err(7)),
            (Branch(0, BRANCH19, 0x5400_0010, 0x5400_0011), Err(7)),
            (Branch(0, BRANCH19, 0x5400_0000, 0x5400_0011), Err(7)),
            (Branch(0, BRANCH19, 0x5400_0010, 0x5400_0001), Err(7)),
            (Branch(0, BRANCH19, 0x5500_0000, 0x5500_0001), Err(7)),
            (Waiting, Ok(8)),
            (Offset, Ok(32)),
        ],
    )
}

// Veneers change the registers 16 and 17.
#[test]
fn registers_of_aarch64(rt: HostRuntime) -> Result<(), Fail> {
    on(
        &rt,
        AArch64,
        &[
            (Label, Ok(0)),
            (Branch(0, BRANCH19, CBZ, CBNZ), Ok(0)),
            (Branch(0, BRANCH19, CBNZ, CBZ), Ok(4)),
            (Branch(0, BRANCH19, 0x3400_000f, 0x3500_000f), Ok(8)),
            (Branch(0, BRANCH19, 0xb400_0010, 0xb500_0010), Err(7)),
            (Branch(0, BRANCH19, 0xb500_0011, 0xb400_0011), Err(7)),
            (Branch(0, BRANCH19, 0x3400_0010, 0x3500_0010), Err(7)),
            (Branch(0, BRANCH19, 0x3500_0011, 0x3400_0011), Err(7)),
            (Branch(0, BRANCH19, 0xb400_0012, 0xb500_0012), Ok(12)),
            (Branch(0, BRANCH19, 0xb400_001f, 0xb500_001f), Ok(16)),
            (Branch(0, BRANCH14, TBZ, TBNZ), Ok(20)),
            (Branch(0, BRANCH14, TBNZ, TBZ), Ok(24)),
            (Branch(0, BRANCH14, 0x3600_000f, 0x3700_000f), Ok(28)),
            (Branch(0, BRANCH14, 0x3600_0010, 0x3700_0010), Err(7)),
            (Branch(0, BRANCH14, 0x3700_0011, 0x3600_0011), Err(7)),
            (Branch(0, BRANCH14, 0xb6f8_0011, 0xb7f8_0011), Err(7)),
            (Branch(0, BRANCH14, 0xb6f8_0012, 0xb7f8_0012), Ok(32)),
            (Use(0, BRANCH19, 0xb400_0010), Ok(36)),
            (Waiting, Ok(10)),
        ],
    )
}

// Three pairs of branches, and a jump that links nothing.
#[test]
fn branches_of_riscv(rt: HostRuntime) -> Result<(), Fail> {
    on(
        &rt,
        RiscV,
        &[
            (Label, Ok(0)),
            (Branch(0, B12, RV_BEQ, RV_BNE), Ok(0)),
            (Branch(0, B12, RV_BNE, RV_BEQ), Ok(4)),
            (Branch(0, B12, 0x4063, 0x5063), Ok(8)),
            (Branch(0, B12, 0x7063, 0x6063), Ok(12)),
            (Branch(0, B12, RV_BEQ, 0xfe00_1fe3), Ok(16)),
            (Branch(0, B12, 0x0020_8063, 0x0020_9063), Ok(20)),
            (Jump(0, J20, RV_JAL), Ok(24)),
            (Jump(0, J20, 0xffff_f06f), Ok(28)),
            (Use(0, J20, 0xef), Ok(32)),
            (Waiting, Ok(9)),
        ],
    )
}

#[test]
fn refusals_of_riscv(rt: HostRuntime) -> Result<(), Fail> {
    on(
        &rt,
        RiscV,
        &[
            (Label, Ok(0)),
            (Branch(0, B12, RV_BEQ, RV_BEQ), Err(7)),
            (Branch(0, B12, 0x2063, 0x3063), Err(7)),
            (Branch(0, B12, RV_BEQ, 0x5063), Err(7)),
            (Branch(0, B12, 0x4063, 0x7063), Err(7)),
            (Branch(0, B12, RV_BEQ, 0x0010_1063), Err(7)),
            (Branch(0, B12, RV_BEQ, 0x0000_9063), Err(7)),
            (Branch(0, B12, RV_JAL, RV_JAL), Err(7)),
            (Branch(0, J20, RV_BEQ, RV_BNE), Err(7)),
            (Branch(0, J20, RV_JAL, RV_JAL), Err(7)),
            (BranchOf(4, 3, 0, B12, RV_BEQ, RV_BNE), Err(7)),
            (Jump(0, J20, 0xef), Err(7)),
            (Jump(0, J20, RV_BEQ), Err(7)),
            (Jump(0, B12, RV_JAL), Err(7)),
            (Jump(0, B12, RV_BEQ), Err(7)),
            (Jump(0, 2, RV_JAL), Err(6)),
            (Branch(0, 2, RV_BEQ, RV_BNE), Err(6)),
            (Use(0, 2, 0), Err(6)),
            (Put(0, 2), Ok(0)),
            (Jump(0, J20, RV_JAL), Err(5)),
        ],
    )
}
