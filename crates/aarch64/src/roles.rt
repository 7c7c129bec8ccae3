// Which words are branches.
ghost use Rattle.std.specs.Prelude.{◌≡◌};
ghost use Rattle.aarch64.specs.Roles.{is_kept, is_flags, register_role, test_role, compare_role, flags_role, branch19_role, jump_role, sense_bit};

use bits::get_field;
use isa::{Condition, Role};

// Veneers change the registers 16 and 17.
fn is_kept_register(code: u32) -> bool
    ensures { result ≡ is_kept code }
{
    get_field(code, 1, 4) != 8
}

// A test of a register, by the opcode and the condition.
fn register_role_of(code: u32, opcode: u32, condition: Condition) -> Option<Role>
    ensures { result ≡ register_role opcode condition code }
{
    if get_field(code, 25, 6) == opcode && is_kept_register(code) {
        Some(Role::Conditional {
            condition,
            sense: get_field(code, 24, 1) == 1,
        })
    } else {
        None
    }
}

// TBZ and TBNZ.
pub fn test_role_of(code: u32) -> Option<Role>
    ensures { result ≡ test_role code }
{
    let bit = Condition::Bit {
        test: get_field(code, 19, 5),
        register: get_field(code, 0, 5),
    };
    register_role_of(code, 0x1b, bit)
}

// CBZ and CBNZ.
fn compare_role_of(code: u32) -> Option<Role>
    ensures { result ≡ compare_role code }
{
    let zero = Condition::Zero {
        test: get_field(code, 31, 1),
        register: get_field(code, 0, 5),
    };
    register_role_of(code, 0x1a, zero)
}

// B.cond, and words beside it that are none.
fn flags_role_of(code: u32) -> Option<Role>
    ensures { result ≡ flags_role code }
{
    if get_field(code, 24, 1) == 0 && get_field(code, 4, 1) == 0 && get_field(code, 1, 3) != 7 {
        Some(Role::Conditional {
            condition: Condition::Flags {
                test: get_field(code, 1, 3),
            },
            sense: get_field(code, 0, 1) == 1,
        })
    } else {
        None
    }
}

fn has_flags(code: u32) -> bool
    ensures { result ≡ is_flags code }
{
    get_field(code, 25, 7) == 0x2a
}

// B.cond, CBZ and CBNZ.
pub fn branch19_role_of(code: u32) -> Option<Role>
    ensures { result ≡ branch19_role code }
{
    if has_flags(code) {
        flags_role_of(code)
    } else {
        compare_role_of(code)
    }
}

// B.
pub fn jump_role_of(code: u32) -> Option<Role>
    ensures { result ≡ jump_role code }
{
    (get_field(code, 26, 6) == 5).then_some(Role::Unconditional)
}

// The bit that holds the sense.
pub fn sense_bit_of(code: u32) -> u32
    ensures { result ≡ sense_bit code }
{
    if has_flags(code) { 0 } else { 24 }
}
