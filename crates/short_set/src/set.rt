// The set.
ghost use Rattle.short_set.specs.Meaning.{short};
ghost use Rattle.short_set.specs.Lawful.{short_lawful};

use bits::write_word;
use isa::{InstructionSet, Jump, Role, words};

// Kinds are numbers: the interface takes and answers them, and an enum would only be converted to in each method.

/// a branch on a test of the flags
pub const BRANCH: u32 = 0;
/// a jump
pub const JUMP: u32 = 1;
/// a jump that reaches far
pub const FAR: u32 = 2;
/// a load from near by, which is no branch
pub const LOAD: u32 = 3;

/// The made-up instruction set of short ranges.
#[derive(Clone, Copy, Debug)]
pub struct Short;

impl InstructionSet for Short {
    ghost meaning = { λ _. short };

    ghost lawful = { λ s. short_lawful };

    fn align(&self) -> u32 {
        2
    }

    fn kinds(&self) -> u32 {
        4
    }

    fn max_pos_range(&self, kind: u32) -> u32 {
        match kind {
            BRANCH | LOAD => 15,
            JUMP => 63,
            _ => (1 << 20) - 1,
        }
    }

    // Displacements are in two's complement. Each set says so itself, since another may reach back less.
    fn max_neg_range(&self, kind: u32) -> u32 {
        self.max_pos_range(kind) + 1
    }

    fn patch_size(&self, _kind: u32) -> u32 {
        4
    }

    fn is_adding(&self, _kind: u32) -> bool {
        false
    }

    fn read(&self, kind: u32, bytes: &[u8]) -> i64 {
        words::read(self, kind, bytes)
    }

    fn patch(&self, kind: u32, bytes: &mut [u8], displacement: i64) {
        words::patch(self, kind, bytes, displacement);
    }

    fn role(&self, kind: u32, bytes: &[u8]) -> Option<Role> {
        words::role(self, kind, bytes)
    }

    fn same_rest(&self, kind: u32, bytes: &[u8], other: &[u8]) -> bool {
        words::same_rest(self, kind, bytes, other)
    }

    fn invert(&self, _kind: u32, bytes: &mut [u8]) {
        words::invert(self, bytes);
    }

    fn supports_veneer(&self, kind: u32) -> bool {
        kind < FAR
    }

    fn veneer_size(&self, _kind: u32) -> u32 {
        4
    }

    fn worst_case_veneer_size(&self) -> u32 {
        4
    }

    // The jump of the next kind.
    fn generate_veneer(&self, kind: u32, buffer: &mut [u8]) -> (u32, u32) {
        write_word(buffer, kind + 2);
        (0, kind + 1)
    }

    fn trap_opcode(&self) -> &[u8] {
        &[0xee, 0xee]
    }

    fn find(&self, code: &[u8], offset: usize) -> Option<Jump> {
        words::find(self, &[BRANCH, JUMP, FAR], code, offset)
    }
}
