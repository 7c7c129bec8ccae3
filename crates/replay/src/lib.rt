//! Lists of calls, made on a new buffer.
//!
//! `replay_calls` makes any list of calls, granted and refused in any mixture, and answers what each gave. Its contract
//! (`specs/Replays`) is where the claims about lists of calls stand: the answers, the tables and the counts are those of
//! the definitions in turn, and no use is ever lost.
//!
//! The token of an open region can't be let go, so a buffer and the token go together, in a `Session`. That the token is
//! the open region's is in the type, and no contract repeats it.
#![tactic(auto)]

pub mod calls;
mod replay;
mod session;

pub use calls::{Answer, Call, Reply};
pub use replay::{Counts, Replay, replay_calls};
pub use session::Session;
