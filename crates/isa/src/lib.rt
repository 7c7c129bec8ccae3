//! What an instruction set is to a code buffer.
//!
//! A code buffer does not know instructions. It knows *uses*: stretches of code bytes that refer to a label and are
//! patched with the displacement to it once the label's place is known. All that it must know of a use is its
//! *kind*, a number below the set's `kinds`: how far it reaches, how many bytes it has, how a displacement is
//! written and read, whether the bytes are a branch and on which condition, and which *veneer*, a longer jump, can
//! stand in between when the label is too far.
//!
//! `InstructionSet` has a method for each of these. What a set means is one record of `specs/Isa`, and what every
//! set must prove of its meaning is one record of `specs/Laws`; each method's contract says that it answers what
//! the meaning says. So code and proofs above this crate hold for every set that keeps the laws.
//!
//! A set is a value and its methods take `&self`, so that one set can be made from another.
#![tactic(auto)]

pub mod jumps;
mod patch;
mod refusals;
mod set;
pub mod words;

pub use jumps::{Condition, Jump, Role};
pub use patch::{check_patch, checked_patch, is_inversion};
pub use refusals::PatchRefusal;
pub use set::InstructionSet;
