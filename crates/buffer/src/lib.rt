//! A code buffer: labels, uses of labels, and branches that simplify themselves.
//!
//! # The problem
//!
//! Code is emitted in one pass, front to back. A jump's target may not be placed yet, so the jump is written with an
//! empty field, and a *fixup* remembers where, of which kind and for which label. Jumps that turn out to be needless are
//! removed at the end of the code, while nothing stands behind them.
//!
//! # What the buffer does
//!
//! `buffer::MachBuffer` is an instruction set and tables. `specs/View` says which tables of `model` a buffer stands for,
//! and every public call's contract is that its answer and the tables after it are those of the call's definition there.
//! What asks no set is done below, by the crates `table_questions`, `table_calls` and `simplification`; here the set is asked.
#![tactic(auto)]

pub mod buffer;
pub mod capacities;
pub mod regions;

pub use simplification::rules;
pub use slices::labels;
pub use tables::table;
