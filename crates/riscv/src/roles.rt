// Which words are branches.
ghost use Rattle.std.specs.Prelude.{◌≡◌};
ghost use Rattle.riscv.specs.Roles.{comparison, branch_role, jump_role};

use bits::get_field;
use isa::{Condition, Role};

fn comparison_of(code: u32) -> Condition
    ensures { result ≡ comparison code }
{
    Condition::Compare {
        test: get_field(code, 13, 2),
        first: get_field(code, 15, 5),
        second: get_field(code, 20, 5),
    }
}

// The six branches.
pub fn branch_role_of(code: u32) -> Option<Role>
    ensures { result ≡ branch_role code }
{
    if get_field(code, 0, 7) == 0x63 && get_field(code, 13, 2) != 1 {
        Some(Role::Conditional {
            condition: comparison_of(code),
            sense: get_field(code, 12, 1) == 1,
        })
    } else {
        None
    }
}

// JAL to register 0.
pub fn jump_role_of(code: u32) -> Option<Role>
    ensures { result ≡ jump_role code }
{
    (get_field(code, 0, 7) == 0x6f && get_field(code, 7, 5) == 0).then_some(Role::Unconditional)
}
