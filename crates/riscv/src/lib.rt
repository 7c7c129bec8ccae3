//! RISC-V's uses of labels: the six conditional branches, and the jump.
//!
//! Two kinds of use, each a word. Which bits hold the displacement is in `specs/Fields`, which words are branches
//! and on what condition in `specs/Roles`, both as the RISC-V Unprivileged ISA manual draws them, and the whole
//! meaning in `specs/Meaning`. A conditional branch has a jump (`jal x0`) as its veneer; a jump has none.
#![tactic(auto)]

mod encoding;
mod roles;
mod set;

pub use set::{B12, J20, RiscV};
