//! The calls of a code buffer, defined.
//!
//! A code buffer is a handful of tables: the code so far, labels, fixups that wait to be patched, branches at the end
//! of the code, traps, constants and regions. Each call is defined here as a function: from the tables and the
//! arguments to the answer and the tables after it. `specs/State` has the tables, `specs/Calls`, `Islands` and
//! `Finish` the calls, `Questions` what may be asked at any time, and `After` what may be done with finished code. All
//! of it stands over any meaning of an instruction set.
//!
//! The rows and the refusals, with their methods, are the ones that the code uses and runs; nothing else here is run.
//! The contracts of the code cite the definitions, and `laws` says what holds of every list of calls.
#![tactic(auto)]

pub mod laws;
pub mod refusals;
pub mod rows;

pub use refusals::Refusal;
