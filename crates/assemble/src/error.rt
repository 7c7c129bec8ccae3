// What is wrong with a line.
use jump_report::text::NoSuchSet;
use std::alloc::AllocError;
use thiserror::Error;

/// Why a line can't be read as a call.
#[derive(Clone, Copy, Debug, Error)]
pub enum LineError {
    #[error("out of memory")]
    OutOfMemory(#[from(alloc)] AllocError),
    #[error("the line is no text")]
    NotText,
    #[error(transparent)]
    NoSuchSet(#[from] NoSuchSet),
    #[error("the set is chosen before any call")]
    SetTooLate,
    #[error("no such call")]
    NoSuchCall,
    /// a call that the buffer does not have yet
    #[error("not built yet: {0}")]
    NotBuiltYet(&'static str),
    /// an argument that the call wants is not there
    #[error("{0} is missing")]
    Missing(&'static str),
    #[error("too many words")]
    TooManyWords,
    #[error("{0} is no decimal number below 4294967296")]
    NoNumber(&'static str),
    #[error("{0} is neither 0 nor 1")]
    NoFlag(&'static str),
    #[error("{0} is neither pairs of lowercase hexadecimal digits nor -")]
    NoBytes(&'static str),
}

/// A line that can't be read as a call, by its number from 1.
#[derive(Clone, Copy, Debug, Error)]
#[error("line {number}: {error}")]
pub struct LineFault {
    pub number: u64,
    pub error: LineError,
}
