// Simplifying the branches at the end of the code.
use crate::calls::Call::*;
use crate::calls::{UNBOUND, on};
use crate::words::{BEQ, BNE, CBNZ, CBZ, GOTO, RV_BEQ, RV_BNE, RV_JAL, TBNZ, TBZ};
use aarch64::{AArch64, BRANCH14, BRANCH19, BRANCH26};
use riscv::{B12, J20, RiscV};
use std::test::Fail;

#[test]
fn jump_to_the_next_place_vanishes(rt: HostRuntime) -> Result<(), Fail> {
    on(
        &rt,
        AArch64,
        &[
            (Simplify, Ok(0)),
            (Label, Ok(0)),
            (Label, Ok(1)),
            (Put(0, 4), Ok(0)),
            (Jump(0, BRANCH26, GOTO), Ok(4)),
            (Waiting, Ok(1)),
            (Offset, Ok(8)),
            (Bind(0), Ok(0)),
            (Offset, Ok(4)),
            (Waiting, Ok(0)),
            (Resolve(0), Ok(4)),
            (Word(0), Ok(0x0909_0909)),
            (Branch(1, BRANCH19, BEQ, BNE), Ok(4)),
            (Bind(1), Ok(0)),
            (Offset, Ok(4)),
            (Waiting, Ok(0)),
            (Resolve(1), Ok(4)),
            (Simplify, Ok(0)),
            (Offset, Ok(4)),
        ],
    )
}

// Three branches to the next place vanish one after the other, and every label at the tail moves along.
#[test]
fn branches_to_the_next_place_vanish(rt: HostRuntime) -> Result<(), Fail> {
    on(
        &rt,
        AArch64,
        &[
            (Label, Ok(0)),
            (Label, Ok(1)),
            (Label, Ok(2)),
            (Bind(2), Ok(0)),
            (Put(0, 4), Ok(0)),
            (Branch(0, BRANCH19, CBZ, CBNZ), Ok(4)),
            (Branch(0, BRANCH14, TBZ, TBNZ), Ok(8)),
            (Jump(0, BRANCH26, GOTO), Ok(12)),
            (BindSkip(1), Ok(0)),
            (Resolve(1), Ok(16)),
            (Waiting, Ok(3)),
            (Bind(0), Ok(0)),
            (Offset, Ok(4)),
            (Waiting, Ok(0)),
            (Resolve(0), Ok(4)),
            (Resolve(1), Ok(4)),
            (Resolve(2), Ok(0)),
        ],
    )
}

#[test]
fn jump_is_kept_under_skip(rt: HostRuntime) -> Result<(), Fail> {
    on(
        &rt,
        AArch64,
        &[
            (Label, Ok(0)),
            (Label, Ok(1)),
            (Jump(0, BRANCH26, GOTO), Ok(0)),
            (BindSkip(0), Ok(0)),
            (Offset, Ok(4)),
            (Waiting, Ok(1)),
            (Resolve(0), Ok(4)),
            (SimplifySkip, Ok(0)),
            (Offset, Ok(4)),
            (BindSkip(1), Ok(0)),
            (Offset, Ok(4)),
            (Simplify, Ok(0)),
            (Offset, Ok(0)),
            (Waiting, Ok(0)),
            (Resolve(0), Ok(0)),
            (Resolve(1), Ok(0)),
        ],
    )
}

#[test]
fn jump_to_itself_stays(rt: HostRuntime) -> Result<(), Fail> {
    on(
        &rt,
        AArch64,
        &[
            (Label, Ok(0)),
            (Label, Ok(1)),
            (Label, Ok(2)),
            (Bind(0), Ok(0)),
            (Jump(0, BRANCH26, GOTO), Ok(0)),
            (Bind(1), Ok(0)),
            (Offset, Ok(4)),
            (Word(0), Ok(GOTO)),
            (Waiting, Ok(1)),
            (Resolve(0), Ok(0)),
            (Resolve(1), Ok(4)),
            (Jump(2, BRANCH26, GOTO), Ok(4)),
            (Simplify, Ok(0)),
            (Offset, Ok(4)),
            (Waiting, Ok(1)),
            (Resolve(0), Ok(0)),
            (Resolve(1), Ok(UNBOUND)),
            (Simplify, Ok(0)),
            (Offset, Ok(4)),
        ],
    )
}

// A jump to an alias of the label at its start is one to itself too.
#[test]
fn jump_to_itself_by_an_alias_stays(rt: HostRuntime) -> Result<(), Fail> {
    on(
        &rt,
        AArch64,
        &[
            (Label, Ok(0)),
            (Label, Ok(1)),
            (Bind(0), Ok(0)),
            (Jump(1, BRANCH26, GOTO), Ok(0)),
            (Simplify, Ok(0)),
            (Resolve(0), Ok(UNBOUND)),
            (Offset, Ok(4)),
            (Bind(1), Ok(0)),
            (Offset, Ok(0)),
            (Resolve(0), Ok(0)),
            (Resolve(1), Ok(0)),
            (Jump(0, BRANCH26, GOTO), Ok(0)),
            (Simplify, Ok(0)),
            (Offset, Ok(4)),
            (Waiting, Ok(1)),
            (Resolve(0), Ok(0)),
            (Resolve(1), Ok(0)),
        ],
    )
}

#[test]
fn branch_over_a_jump_is_turned(rt: HostRuntime) -> Result<(), Fail> {
    on(
        &rt,
        AArch64,
        &[
            (Label, Ok(0)),
            (Label, Ok(1)),
            (Branch(0, BRANCH19, BEQ, BNE), Ok(0)),
            (Jump(1, BRANCH26, GOTO), Ok(4)),
            (Waiting, Ok(2)),
            (Bind(0), Ok(0)),
            (Offset, Ok(4)),
            (Word(0), Ok(0x5400_0001)),
            (Waiting, Ok(1)),
            (Resolve(0), Ok(4)),
            (Resolve(1), Ok(UNBOUND)),
            (Simplify, Ok(0)),
            (Offset, Ok(4)),
            (Word(0), Ok(0x5400_0001)),
            (Bind(1), Ok(0)),
            (Offset, Ok(0)),
            (Waiting, Ok(0)),
            (Resolve(0), Ok(0)),
            (Resolve(1), Ok(0)),
        ],
    )
}

// The turned branch takes the bytes of its inversion, whatever their field, and the code before it stays.
#[test]
fn branch_is_turned_to_its_inversion(rt: HostRuntime) -> Result<(), Fail> {
    on(
        &rt,
        AArch64,
        &[
            (Label, Ok(0)),
            (Label, Ok(1)),
            (Label, Ok(2)),
            (Put(0, 4), Ok(0)),
            (Branch(0, BRANCH19, BEQ, 0x5400_0021), Ok(4)),
            (Jump(2, BRANCH26, GOTO), Ok(8)),
            (Bind(0), Ok(0)),
            (Word(0), Ok(0x0909_0909)),
            (Word(4), Ok(0x5400_0021)),
            (Put(0, 4), Ok(8)),
            (Branch(1, BRANCH14, TBNZ, TBZ), Ok(12)),
            (Jump(2, BRANCH26, GOTO), Ok(16)),
            (Bind(1), Ok(0)),
            (Word(12), Ok(TBZ)),
            (Offset, Ok(16)),
            (Waiting, Ok(2)),
            (Resolve(0), Ok(8)),
            (Resolve(1), Ok(16)),
        ],
    )
}

#[test]
fn branch_over_a_jump_on_riscv(rt: HostRuntime) -> Result<(), Fail> {
    on(
        &rt,
        RiscV,
        &[
            (Label, Ok(0)),
            (Label, Ok(1)),
            (Branch(0, B12, RV_BEQ, RV_BNE), Ok(0)),
            (Jump(1, J20, RV_JAL), Ok(4)),
            (Bind(0), Ok(0)),
            (Offset, Ok(4)),
            (Word(0), Ok(0x1063)),
            (Waiting, Ok(1)),
            (Resolve(0), Ok(4)),
            (Resolve(1), Ok(UNBOUND)),
        ],
    )
}

// Turned twice, it is as it was, and leads to the third label.
#[test]
fn branch_is_turned_twice(rt: HostRuntime) -> Result<(), Fail> {
    on(
        &rt,
        AArch64,
        &[
            (Label, Ok(0)),
            (Label, Ok(1)),
            (Label, Ok(2)),
            (Branch(0, BRANCH19, CBZ, CBNZ), Ok(0)),
            (Jump(1, BRANCH26, GOTO), Ok(4)),
            (Bind(0), Ok(0)),
            (Word(0), Ok(CBNZ)),
            (Jump(2, BRANCH26, GOTO), Ok(4)),
            (Bind(1), Ok(0)),
            (Offset, Ok(4)),
            (Word(0), Ok(CBZ)),
            (Waiting, Ok(1)),
            (Resolve(0), Ok(UNBOUND)),
            (Resolve(1), Ok(4)),
            (Bind(2), Ok(0)),
            (Offset, Ok(0)),
            (Resolve(0), Ok(0)),
            (Resolve(1), Ok(0)),
            (Resolve(2), Ok(0)),
        ],
    )
}

// Only where the branch leads to the end of the jump, and adjoins it.
#[test]
fn branch_is_not_turned(rt: HostRuntime) -> Result<(), Fail> {
    on(
        &rt,
        AArch64,
        &[
            (Label, Ok(0)),
            (Label, Ok(1)),
            (Label, Ok(2)),
            (Label, Ok(3)),
            (Branch(0, BRANCH19, BEQ, BNE), Ok(0)),
            (Jump(1, BRANCH26, GOTO), Ok(4)),
            (Bind(2), Ok(0)),
            (Offset, Ok(8)),
            (Waiting, Ok(2)),
            (Branch(3, BRANCH19, BEQ, BNE), Ok(8)),
            (Put(0, 4), Ok(12)),
            (Jump(1, BRANCH26, GOTO), Ok(16)),
            (Bind(3), Ok(0)),
            (Offset, Ok(20)),
            (Waiting, Ok(4)),
            (Word(0), Ok(BEQ)),
            (Word(8), Ok(BEQ)),
            (Resolve(2), Ok(8)),
            (Resolve(3), Ok(20)),
        ],
    )
}

// Labels at the jump first become aliases of its target.
#[test]
fn branch_over_a_labelled_jump(rt: HostRuntime) -> Result<(), Fail> {
    on(
        &rt,
        AArch64,
        &[
            (Label, Ok(0)),
            (Label, Ok(1)),
            (Label, Ok(2)),
            (Branch(0, BRANCH19, BEQ, BNE), Ok(0)),
            (Bind(2), Ok(0)),
            (Resolve(2), Ok(4)),
            (Jump(1, BRANCH26, GOTO), Ok(4)),
            (Bind(0), Ok(0)),
            (Offset, Ok(4)),
            (Word(0), Ok(BNE)),
            (Waiting, Ok(1)),
            (Resolve(0), Ok(4)),
            (Resolve(2), Ok(UNBOUND)),
            (Put(0, 4), Ok(4)),
            (Bind(1), Ok(0)),
            (Resolve(0), Ok(4)),
            (Resolve(1), Ok(8)),
            (Resolve(2), Ok(8)),
        ],
    )
}

#[test]
fn jump_behind_a_jump_is_cut(rt: HostRuntime) -> Result<(), Fail> {
    on(
        &rt,
        AArch64,
        &[
            (Label, Ok(0)),
            (Label, Ok(1)),
            (Label, Ok(2)),
            (Jump(0, BRANCH26, GOTO), Ok(0)),
            (Jump(1, BRANCH26, 0x1400_0005), Ok(4)),
            (Jump(2, BRANCH26, 0x1400_0006), Ok(8)),
            (SimplifySkip, Ok(0)),
            (Offset, Ok(12)),
            (Simplify, Ok(0)),
            (Offset, Ok(4)),
            (Word(0), Ok(GOTO)),
            (Waiting, Ok(1)),
            (Simplify, Ok(0)),
            (Offset, Ok(4)),
            (Bind(1), Ok(0)),
            (Offset, Ok(4)),
            (Resolve(1), Ok(4)),
            (Bind(0), Ok(0)),
            (Offset, Ok(0)),
            (Resolve(1), Ok(0)),
        ],
    )
}

// A label at the second jump becomes an alias, and the jump is cut all the same.
#[test]
fn labelled_jump_behind_a_jump_is_cut(rt: HostRuntime) -> Result<(), Fail> {
    on(
        &rt,
        AArch64,
        &[
            (Label, Ok(0)),
            (Label, Ok(1)),
            (Label, Ok(2)),
            (Jump(0, BRANCH26, GOTO), Ok(0)),
            (Bind(2), Ok(0)),
            (Offset, Ok(4)),
            (Jump(1, BRANCH26, GOTO), Ok(4)),
            (Simplify, Ok(0)),
            (Offset, Ok(4)),
            (Waiting, Ok(1)),
            (Resolve(2), Ok(UNBOUND)),
            (Bind(2), Err(4)),
            (Put(0, 4), Ok(4)),
            (Bind(1), Ok(0)),
            (Resolve(2), Ok(8)),
        ],
    )
}

// A jump behind a conditional stays, and so does a conditional behind a jump.
#[test]
fn branches_in_a_row_stay(rt: HostRuntime) -> Result<(), Fail> {
    on(
        &rt,
        AArch64,
        &[
            (Label, Ok(0)),
            (Label, Ok(1)),
            (Branch(0, BRANCH19, BEQ, BNE), Ok(0)),
            (Jump(1, BRANCH26, GOTO), Ok(4)),
            (Branch(0, BRANCH19, BEQ, BNE), Ok(8)),
            (Simplify, Ok(0)),
            (Offset, Ok(12)),
            (Waiting, Ok(3)),
            (Jump(1, BRANCH26, GOTO), Ok(12)),
            (Simplify, Ok(0)),
            (Offset, Ok(16)),
            (Waiting, Ok(4)),
            (Jump(0, BRANCH26, GOTO), Ok(16)),
            (Simplify, Ok(0)),
            (Offset, Ok(16)),
            (Waiting, Ok(4)),
        ],
    )
}

// Labels at a jump follow it to where its target is bound later.
#[test]
fn labels_at_a_jump_become_aliases(rt: HostRuntime) -> Result<(), Fail> {
    on(
        &rt,
        AArch64,
        &[
            (Label, Ok(0)),
            (Label, Ok(1)),
            (Label, Ok(2)),
            (Label, Ok(3)),
            (Put(0, 8), Ok(0)),
            (Bind(0), Ok(0)),
            (Bind(1), Ok(0)),
            (Resolve(0), Ok(8)),
            (Jump(2, BRANCH26, GOTO), Ok(8)),
            (Bind(3), Ok(0)),
            (Offset, Ok(12)),
            (Waiting, Ok(1)),
            (Resolve(0), Ok(UNBOUND)),
            (Resolve(1), Ok(UNBOUND)),
            (Resolve(3), Ok(12)),
            (Put(0, 4), Ok(12)),
            (Bind(2), Ok(0)),
            (Resolve(0), Ok(16)),
            (Resolve(1), Ok(16)),
            (Resolve(2), Ok(16)),
        ],
    )
}

// To where a target stands already, ahead of the jump or behind it.
#[test]
fn labels_at_a_jump_back_become_aliases(rt: HostRuntime) -> Result<(), Fail> {
    on(
        &rt,
        AArch64,
        &[
            (Label, Ok(0)),
            (Label, Ok(1)),
            (Label, Ok(2)),
            (Bind(0), Ok(0)),
            (Put(0, 4), Ok(0)),
            (Bind(1), Ok(0)),
            (Resolve(1), Ok(4)),
            (Jump(0, BRANCH26, GOTO), Ok(4)),
            (Resolve(1), Ok(4)),
            (Bind(2), Ok(0)),
            (Offset, Ok(8)),
            (Waiting, Ok(1)),
            (Resolve(0), Ok(0)),
            (Resolve(1), Ok(0)),
            (Resolve(2), Ok(8)),
        ],
    )
}

// The first leads by three more to the last, wherever that is bound.
#[test]
fn aliases_make_a_chain(rt: HostRuntime) -> Result<(), Fail> {
    on(
        &rt,
        AArch64,
        &[
            (Label, Ok(0)),
            (Again(4, 1), Ok(4)),
            (Bind(0), Ok(0)),
            (Jump(1, BRANCH26, GOTO), Ok(0)),
            (Simplify, Ok(0)),
            (Bind(1), Ok(0)),
            (Jump(2, BRANCH26, GOTO), Ok(0)),
            (Simplify, Ok(0)),
            (Bind(2), Ok(0)),
            (Resolve(0), Ok(0)),
            (Jump(3, BRANCH26, GOTO), Ok(0)),
            (Bind(4), Ok(0)),
            (Resolve(0), Ok(UNBOUND)),
            (Resolve(2), Ok(UNBOUND)),
            (Resolve(4), Ok(4)),
            (Put(0, 8), Ok(4)),
            (Bind(3), Ok(0)),
            (Resolve(0), Ok(12)),
            (Resolve(1), Ok(12)),
            (Resolve(2), Ok(12)),
        ],
    )
}

// A label that an island will bind can be the target too.
#[test]
fn labels_become_aliases_of_a_trap(rt: HostRuntime) -> Result<(), Fail> {
    on(
        &rt,
        AArch64,
        &[
            (Label, Ok(0)),
            (Defer(1), Ok(1)),
            (Bind(0), Ok(0)),
            (Jump(1, BRANCH26, GOTO), Ok(0)),
            (Simplify, Ok(0)),
            (Resolve(0), Ok(UNBOUND)),
            (Bind(0), Err(4)),
            (Bind(1), Err(4)),
            (Offset, Ok(4)),
            (Waiting, Ok(1)),
        ],
    )
}

// 100 labels at the start of a branch are taken: by a jump ahead, and by one to the next place.
#[test]
fn hundred_labels_are_taken(rt: HostRuntime) -> Result<(), Fail> {
    on(
        &rt,
        AArch64,
        &[
            (Label, Ok(0)),
            (Again(202, 1), Ok(202)),
            (BindEach(0, 100), Ok(0)),
            (Jump(200, BRANCH26, GOTO), Ok(0)),
            (Simplify, Ok(0)),
            (Resolve(0), Ok(UNBOUND)),
            (Resolve(99), Ok(UNBOUND)),
            (Put(0, 4), Ok(4)),
            (BindEach(100, 100), Ok(0)),
            (Jump(201, BRANCH26, GOTO), Ok(8)),
            (Bind(201), Ok(0)),
            (Offset, Ok(8)),
            (Resolve(100), Ok(8)),
            (Resolve(199), Ok(8)),
            (Resolve(201), Ok(8)),
            (Put(0, 4), Ok(8)),
            (Bind(200), Ok(0)),
            (Resolve(0), Ok(12)),
            (Resolve(99), Ok(12)),
        ],
    )
}

// 101 end the rounds, even at a jump to the next place.
#[test]
fn hundred_and_one_labels_stop(rt: HostRuntime) -> Result<(), Fail> {
    on(
        &rt,
        AArch64,
        &[
            (Label, Ok(0)),
            (Again(104, 1), Ok(104)),
            (BindEach(0, 101), Ok(0)),
            (Jump(102, BRANCH26, GOTO), Ok(0)),
            (Simplify, Ok(0)),
            (Resolve(0), Ok(0)),
            (Resolve(100), Ok(0)),
            (Offset, Ok(4)),
            (Bind(102), Ok(0)),
            (Offset, Ok(4)),
            (Waiting, Ok(1)),
            (Resolve(102), Ok(4)),
            (Jump(103, BRANCH26, GOTO), Ok(4)),
            (Simplify, Ok(0)),
            (Offset, Ok(4)),
            (Waiting, Ok(1)),
            (Resolve(102), Ok(UNBOUND)),
            (Resolve(0), Ok(0)),
        ],
    )
}

// What stands behind data is not cut.
#[test]
fn branches_behind_data_stay(rt: HostRuntime) -> Result<(), Fail> {
    on(
        &rt,
        AArch64,
        &[
            (Label, Ok(0)),
            (Label, Ok(1)),
            (Jump(0, BRANCH26, GOTO), Ok(0)),
            (Put(0, 4), Ok(4)),
            (Bind(0), Ok(0)),
            (Offset, Ok(8)),
            (Waiting, Ok(1)),
            (Resolve(0), Ok(8)),
            (Branch(1, BRANCH19, BEQ, BNE), Ok(8)),
            (Use(0, BRANCH26, GOTO), Ok(12)),
            (Simplify, Ok(0)),
            (Bind(1), Ok(0)),
            (Offset, Ok(16)),
            (Waiting, Ok(3)),
            (Word(8), Ok(BEQ)),
        ],
    )
}

// It is forgotten when branches are simplified, and not under skip.
#[test]
fn branches_behind_data_are_forgotten(rt: HostRuntime) -> Result<(), Fail> {
    on(
        &rt,
        AArch64,
        &[
            (Label, Ok(0)),
            (Again(2, 1), Ok(2)),
            (Jump(0, BRANCH26, GOTO), Ok(0)),
            (Again(511, 4), Ok(2044)),
            (Jump(0, BRANCH26, GOTO), Err(11)),
            (Put(0, 4), Ok(2048)),
            (BindSkip(1), Ok(0)),
            (SimplifySkip, Ok(0)),
            (Jump(0, BRANCH26, GOTO), Err(11)),
            (Bind(2), Ok(0)),
            (Offset, Ok(2052)),
            (Waiting, Ok(512)),
            (Jump(0, BRANCH26, GOTO), Ok(2052)),
            (Again(511, 4), Ok(4096)),
            (Jump(0, BRANCH26, GOTO), Err(11)),
            (Waiting, Ok(1024)),
            (Resolve(1), Ok(2052)),
            (Resolve(2), Ok(2052)),
        ],
    )
}

// 512 jumps in a row come to one, and 512 to the next place to none.
#[test]
fn many_jumps_come_to_one(rt: HostRuntime) -> Result<(), Fail> {
    on(
        &rt,
        AArch64,
        &[
            (Label, Ok(0)),
            (Label, Ok(1)),
            (Jump(0, BRANCH26, GOTO), Ok(0)),
            (Again(511, 4), Ok(2044)),
            (Simplify, Ok(0)),
            (Offset, Ok(4)),
            (Waiting, Ok(1)),
            (Jump(1, BRANCH26, GOTO), Ok(4)),
            (Again(510, 4), Ok(2044)),
            (Jump(1, BRANCH26, GOTO), Err(11)),
            (Bind(1), Ok(0)),
            (Offset, Ok(4)),
            (Resolve(1), Ok(4)),
            (Bind(0), Ok(0)),
            (Offset, Ok(0)),
            (Waiting, Ok(0)),
            (Resolve(1), Ok(0)),
        ],
    )
}
