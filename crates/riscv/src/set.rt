// The set.
ghost use Rattle.riscv.specs.Meaning.{riscv};
ghost use Rattle.riscv.specs.Lawful.{riscv_lawful};

use isa::{InstructionSet, Jump, Role, words};

// Kinds are numbers: the interface takes and answers them, and an enum would only be converted to in each method.

/// BEQ, BNE, BLT, BGE, BLTU and BGEU
pub const B12: u32 = 0;
/// JAL
pub const J20: u32 = 1;

/// The RISC-V instruction set, with words of 32 bits.
#[derive(Clone, Copy, Debug)]
pub struct RiscV;

// jal x0, 0
const VENEER: [u8; 4] = [0x6f, 0, 0, 0];

impl InstructionSet for RiscV {
    ghost meaning = { λ _. riscv };

    ghost lawful = { λ s. riscv_lawful };

    fn align(&self) -> u32 {
        4
    }

    fn kinds(&self) -> u32 {
        2
    }

    fn max_pos_range(&self, kind: u32) -> u32 {
        if kind == B12 {
            (1 << 12) - 1
        } else {
            (1 << 20) - 1
        }
    }

    // Displacements are in two's complement. Each set says so itself, since another may reach back less.
    fn max_neg_range(&self, kind: u32) -> u32 {
        self.max_pos_range(kind) + 1
    }

    fn patch_size(&self, _kind: u32) -> u32 {
        4
    }

    fn is_adding(&self, _kind: u32) -> bool {
        false
    }

    fn read(&self, kind: u32, bytes: &[u8]) -> i64 {
        words::read(self, kind, bytes)
    }

    fn patch(&self, kind: u32, bytes: &mut [u8], displacement: i64) {
        words::patch(self, kind, bytes, displacement);
    }

    fn role(&self, kind: u32, bytes: &[u8]) -> Option<Role> {
        words::role(self, kind, bytes)
    }

    fn same_rest(&self, kind: u32, bytes: &[u8], other: &[u8]) -> bool {
        words::same_rest(self, kind, bytes, other)
    }

    fn invert(&self, _kind: u32, bytes: &mut [u8]) {
        words::invert(self, bytes);
    }

    fn supports_veneer(&self, kind: u32) -> bool {
        kind == B12
    }

    fn veneer_size(&self, _kind: u32) -> u32 {
        4
    }

    fn worst_case_veneer_size(&self) -> u32 {
        4
    }

    fn generate_veneer(&self, _kind: u32, buffer: &mut [u8]) -> (u32, u32) {
        buffer.copy_from_slice(&VENEER);
        (0, J20)
    }

    fn trap_opcode(&self) -> &[u8] {
        &[0x73, 0, 0x10, 0]
    }

    fn find(&self, code: &[u8], offset: usize) -> Option<Jump> {
        words::find(self, &[B12, J20], code, offset)
    }
}
