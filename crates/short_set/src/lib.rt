//! A made-up instruction set of very short ranges, for tests. It is no processor's.
//!
//! Its branches reach so little that a few calls on a buffer meet what real sets meet only in long code: veneers of
//! veneers, jumps back past their range, uses out of reach. It keeps the laws of every set, so what is proved of any
//! set holds of it.
//!
//! Four kinds of use, each a word of four bytes, at multiples of 2. The lowest byte is the kind's number and 1, and the
//! displacement stands from bit 12 on. A branch, on a test of the flags, reaches from -16 to 15 and has a jump as its
//! veneer; a jump reaches from -64 to 63 and has a far jump as its veneer; a far jump reaches a million bytes and has
//! none. A load reaches as little as a branch, has no role and no veneer. A trap has two bytes.
#![tactic(auto)]

mod encoding;
mod set;

pub use set::{BRANCH, FAR, JUMP, LOAD, Short};
