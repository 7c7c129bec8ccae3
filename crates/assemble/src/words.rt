// The words of a line.
use crate::error::LineError;
use jump_report::text::{HexError, parse_hex};
use std::alloc::{AllocError, Global};
use std::str::Split;

/// The words of a line that are still to be read. Single spaces part them.
#[derive(Drop)]
pub struct Words<'a> {
    heap: Global,
    words: Split<'a, char>,
}

impl<'a> Words<'a> {
    pub fn new(heap: Global, line: &'a str) -> Words<'a> {
        Words {
            heap,
            words: line.split(' '),
        }
    }

    /// The next word. An error calls it by the name given.
    pub fn word(&mut self, name: &'static str) -> Result<&'a str, LineError> {
        self.words.next().ok_or(LineError::Missing(name))
    }

    /// A decimal number.
    pub fn number(&mut self, name: &'static str) -> Result<u32, LineError> {
        let word = self.word(name)?;
        if word.starts_with('+') {
            return Err(LineError::NoNumber(name));
        }
        word.parse().map_err(|_| LineError::NoNumber(name))
    }

    /// 0 or 1.
    pub fn flag(&mut self, name: &'static str) -> Result<bool, LineError> {
        match self.word(name)? {
            "0" => Ok(false),
            "1" => Ok(true),
            _ => Err(LineError::NoFlag(name)),
        }
    }

    /// Bytes as pairs of lowercase hexadecimal digits, or `-` for none.
    pub fn bytes(&mut self, name: &'static str) -> Result<Vec<u8>, LineError> {
        let word = self.word(name)?;
        if word == "-" {
            return Ok(Vec::new(self.heap));
        }
        if word.is_empty() || word.bytes().any(|byte| byte.is_ascii_uppercase()) {
            return Err(LineError::NoBytes(name));
        }
        parse_hex(self.heap, word).map_err(|error| match error {
            HexError::OutOfMemory => LineError::OutOfMemory(AllocError),
            HexError::NotHex => LineError::NoBytes(name),
        })
    }

    /// There are no more words.
    pub fn end(mut self) -> Result<(), LineError> {
        match self.words.next() {
            None => Ok(()),
            Some(_) => Err(LineError::TooManyWords),
        }
    }
}
