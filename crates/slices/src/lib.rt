//! What a code buffer does to one list: labels resolved, moved, made aliases and counted; bytes written over and
//! padded; the room that constants take; the least deadline of fixups. Each function is over plain slices and knows no
//! other table.
#![tactic(auto)]

pub mod bytes;
pub mod constants;
pub mod fixups;
pub mod labels;
