//! The tables of a code buffer in memory, and the small changes of which all others are made. Nothing here knows an
//! instruction set.
//!
//! # What the tables keep
//!
//! Their room is reserved when they are made, so that no later call can fail for want of memory. `specs/View` says which
//! tables of `model` they stand for, and each change's contract is what becomes of those.
//!
//! A branch *stands* while it may still be changed. Of the standing branches the type keeps, whenever a function ends:
//!
//! - each has bytes, at most eight, within the code;
//! - each begins where the one before ends, or later;
//! - each has its fixup among the fresh ones, later than the fixup of the one before.
//!
//! # Why each change keeps it
//!
//! Appending only adds behind. Dropping the last branch ends the code at its start and drops the last fixup: the branches
//! before end there or earlier, and their fixups are earlier ones. Inverting a branch changes its bytes and its target,
//! but not where it stands. Making labels aliases touches labels alone.
//!
//! The fields are public: whoever changes one proves these facts again.
#![tactic(auto)]

pub mod capacities;
pub mod table;
pub mod tables;
