//! AArch64's uses of labels, translated from Cranelift's `LabelUse` for that architecture.
//!
//! Six kinds of use, each a word. Which bits hold the displacement is in `specs/Fields`, which words are branches
//! and on what condition in `specs/Roles`, both as the Arm Architecture Reference Manual draws them, and the whole
//! meaning in `specs/Meaning`. A short branch has a jump (`b`) as its veneer, and a jump a load of a 32-bit distance
//! that is added to the program counter; those veneers use the registers 16 and 17, so a branch that tests one of
//! these is none that the buffer may move.
#![tactic(auto)]

mod encoding;
mod roles;
mod set;

pub use set::{AArch64, ADR21, BRANCH14, BRANCH19, BRANCH26, LDR19, PC_REL32};
