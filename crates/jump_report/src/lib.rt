//! All there is to do to one use of a label, over any instruction set, and the texts that name it.
//!
//! `set_jump` writes a displacement into a use's bytes and tells what the set makes of the result: what the bytes
//! read, their role, the bytes with the other sense, what is found in them, and the kind's veneer. Its contract is
//! the record `JumpSet` of `specs/Report`, which holds each part to the meaning of the set.
//!
//! `Request` and `text` have what programs need to read what is asked and to print what is told.
#![tactic(auto)]

mod jump;
mod report;
mod request;
mod show;
pub mod text;

pub use jump::set_jump;
pub use report::{JumpReport, ReportError, VeneerReport};
pub use request::{Request, RequestError};
