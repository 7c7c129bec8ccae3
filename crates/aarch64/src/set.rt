// The set.
ghost use Rattle.std.specs.Prelude.{◌≡◌, ◌+◌, ◌≤◌, length, true};
ghost use Rattle.aarch64.specs.Meaning.{aarch64, is_long_veneer, long_jump, word_at};
ghost use Rattle.aarch64.specs.Lawful.{aarch64_lawful};

use bits::{read_word, sign_extend};
use isa::{InstructionSet, Jump, Role, words};

// Kinds are numbers: the interface takes and answers them, and an enum would only be converted to in each method.

/// TBZ and TBNZ
pub const BRANCH14: u32 = 0;
/// B.cond, CBZ and CBNZ
pub const BRANCH19: u32 = 1;
/// B and BL
pub const BRANCH26: u32 = 2;
/// a load from a literal
pub const LDR19: u32 = 3;
/// ADR
pub const ADR21: u32 = 4;
/// a word of data, to which the distance from itself is added
pub const PC_REL32: u32 = 5;

/// The AArch64 instruction set.
#[derive(Clone, Copy, Debug)]
pub struct AArch64;

// A longer jump on behalf of a use, whose own use stands at a place of it.
#[derive(Clone, Copy)]
struct Veneer {
    code: &'static [u8],
    place: u32,
    own: u32,
}

// b 0
const SHORT_VENEER: Veneer = Veneer {
    code: &[0, 0, 0, 0x14],
    place: 0,
    own: BRANCH26,
};

// ldrsw x16, 16; adr x17, 12; add x16, x16, x17; br x16; and a word of data, the distance from itself
const LONG_VENEER: Veneer = Veneer {
    code: &[
        0x90, 0, 0, 0x98, 0x71, 0, 0, 0x10, 0x10, 2, 0x11, 0x8b, 0, 2, 0x1f, 0xd6, 0, 0, 0, 0,
    ],
    place: 16,
    own: PC_REL32,
};

fn veneer_of(kind: u32) -> Veneer
    ensures code { result.code.now ≡ (aarch64.veneer kind).code }
    ensures place { result.place ≡ (aarch64.veneer kind).place }
    ensures own { result.own ≡ (aarch64.veneer kind).own }
{
    if kind == BRANCH26 {
        LONG_VENEER
    } else {
        SHORT_VENEER
    }
}

// The word at a place of the code.
fn word_of(code: &[u8], at: usize) -> u32
    requires { at + 4 ≤ length code.now }
    ensures { result ≡ word_at code.now at }
{
    read_word(&code[at..at + 4])
}

// Word by word, as the meaning compares them.
fn begins_long_veneer(code: &[u8]) -> bool
    ensures { result ≡ is_long_veneer code.now }
{
    code.len() >= 20
        && word_of(code, 0) == 0x9800_0090
        && word_of(code, 4) == 0x1000_0071
        && word_of(code, 8) == 0x8b11_0210
        && word_of(code, 12) == 0xd61f_0200
}

// A long veneer at the head of the code leads to the target of its word of data.
fn long_jump_of(code: &[u8]) -> Option<Jump>
    ensures { result ≡ long_jump code.now }
{
    if begins_long_veneer(code) {
        Some(Jump::Veneer {
            displacement: 16 + sign_extend(word_of(code, 16), 31),
        })
    } else {
        None
    }
}

impl InstructionSet for AArch64 {
    ghost meaning = { λ _. aarch64 };

    ghost lawful = { λ s. aarch64_lawful };

    fn align(&self) -> u32 {
        4
    }

    fn kinds(&self) -> u32 {
        6
    }

    fn max_pos_range(&self, kind: u32) -> u32 {
        match kind {
            BRANCH14 => (1 << 15) - 1,
            BRANCH19 | LDR19 | ADR21 => (1 << 20) - 1,
            BRANCH26 => (1 << 27) - 1,
            _ => 0x7fff_ffff,
        }
    }

    // Displacements are in two's complement. Each set says so itself, since another may reach back less.
    fn max_neg_range(&self, kind: u32) -> u32 {
        self.max_pos_range(kind) + 1
    }

    fn patch_size(&self, _kind: u32) -> u32 {
        4
    }

    fn is_adding(&self, kind: u32) -> bool {
        kind == PC_REL32
    }

    fn read(&self, kind: u32, bytes: &[u8]) -> i64 {
        words::read(self, kind, bytes)
    }

    fn patch(&self, kind: u32, bytes: &mut [u8], displacement: i64) {
        words::patch(self, kind, bytes, displacement);
    }

    fn role(&self, kind: u32, bytes: &[u8]) -> Option<Role> {
        words::role(self, kind, bytes)
    }

    fn same_rest(&self, kind: u32, bytes: &[u8], other: &[u8]) -> bool {
        words::same_rest(self, kind, bytes, other)
    }

    fn invert(&self, _kind: u32, bytes: &mut [u8]) {
        words::invert(self, bytes);
    }

    fn supports_veneer(&self, kind: u32) -> bool {
        kind <= BRANCH26
    }

    fn veneer_size(&self, kind: u32) -> u32 {
        veneer_of(kind).code.len() as u32
    }

    fn worst_case_veneer_size(&self) -> u32 {
        20
    }

    fn generate_veneer(&self, kind: u32, buffer: &mut [u8]) -> (u32, u32) {
        let veneer = veneer_of(kind);
        buffer.copy_from_slice(veneer.code);
        (veneer.place, veneer.own)
    }

    fn trap_opcode(&self) -> &[u8] {
        &[0x1f, 0xc1, 0, 0]
    }

    fn find(&self, code: &[u8], offset: usize) -> Option<Jump> {
        words::find(self, &[BRANCH14, BRANCH19, BRANCH26], code, offset).or_else(|| long_jump_of(
            words::code_from(code, offset),
        ))
    }
}
