// A use and its displacement, as four words.
ghost use Rattle.std.specs.Prelude.{◌≡◌};
ghost use Rattle.jump_report.specs.Request.{Read, from_hex};

use crate::text::{HexError, NoSuchSet, SetName, parse_hex};
use std::alloc::Global;
use thiserror::Error;

/// What is asked of a set: a displacement in the bytes of a use.
#[derive(Drop)]
pub struct Request {
    pub set: SetName,
    pub kind: u32,
    pub bytes: Vec<u8>,
    pub displacement: i64,
}

/// Which of the words can't be read.
#[derive(Clone, Copy, PartialEq, Eq, Debug, Error)]
pub enum RequestError {
    #[error("out of memory")]
    OutOfMemory,
    #[error("{}", NoSuchSet)]
    NoSet,
    #[error("the kind is no unsigned decimal number of 32 bits")]
    NoKind,
    #[error("the bytes are no pairs of hexadecimal digits")]
    NoBytes,
    #[error("the displacement is no signed decimal number of 64 bits")]
    NoDisplacement,
}

impl Request {
    /// Reads the name of a set, a kind, bytes as hexadecimal pairs, and a displacement, both numbers decimal.
    pub fn parse(
        heap: Global,
        set: &str,
        kind: &str,
        bytes: &str,
        displacement: &str,
    ) -> Result<Request, RequestError>
        ensures { Read set.now kind.now bytes.now displacement.now result }
    {
        Ok(Request {
            set: set.parse().map_err(|_| RequestError::NoSet)?,
            kind: kind.parse().map_err(|_| RequestError::NoKind)?,
            bytes: parse_hex(heap, bytes)?,
            displacement: displacement
                .parse()
                .map_err(|_| RequestError::NoDisplacement)?,
        })
    }
}

// By hand, since clauses name the error that `?` gives, and a derived `From` states none.
impl From<HexError> for RequestError {
    ghost from_gives = { λ e r. r ≡ from_hex e };

    fn from(e: HexError) -> RequestError {
        match e {
            HexError::OutOfMemory => RequestError::OutOfMemory,
            HexError::NotHex => RequestError::NoBytes,
        }
    }
}
