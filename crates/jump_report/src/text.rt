//! Bytes as text, the names of the sets, and lines to pass over.
ghost use Rattle.std.specs.Prelude.{◌≡◌, ℕ, ◌||◌, List, length, Some, None, MatchResult, ◌==◌, slice_index};
ghost use Rattle.std.specs.Char.{is_ascii_hexdigit};
ghost use Rattle.std.specs.List.{list_all};
ghost use Rattle.std.specs.Result.{result_ok};
ghost use Rattle.jump_report.specs.declared.text.HexError.TheVariants.{OutOfMemory, NotHex};
ghost use Rattle.jump_report.specs.Hex.{from_library, hex_bytes, hex_text, Small};
ghost use Rattle.jump_report.specs.Sets.{name_of, set_named};

use hex::FromHexError;
use std::alloc::{AllocError, AllocFailed, Global};
use std::fmt;
use std::str::FromStr;
use thiserror::Error;

/// The sets that a text can name.
#[derive(Clone, Copy, PartialEq, Eq, PartialOrd, Ord, Debug)]
pub enum SetName {
    AArch64,
    RiscV,
}

/// A word names no set.
#[derive(Clone, Copy, PartialEq, Eq, Debug, Error)]
#[error("no such set; there are aarch64 and riscv")]
pub struct NoSuchSet;

impl FromStr for SetName {
    type Err = NoSuchSet;

    ghost from_str_gives = { λ word r. result_ok r ≡ set_named word };

    fn from_str(word: &str) -> Result<SetName, NoSuchSet> {
        match word {
            "aarch64" => Ok(SetName::AArch64),
            "riscv" => Ok(SetName::RiscV),
            _ => Err(NoSuchSet),
        }
    }
}

impl fmt::Display for SetName {
    ghost output = { λ s. Some (name_of s) };

    fn fmt<W: fmt::Write>(&self, f: &mut fmt::Formatter<W>) -> fmt::Result {
        f.write_str(match self {
            SetName::AArch64 => "aarch64",
            SetName::RiscV => "riscv",
        })
    }
}

/// Why a text gives no bytes.
#[derive(Clone, Copy, PartialEq, Eq, Debug)]
pub enum HexError {
    OutOfMemory,
    /// it is not pairs of hexadecimal digits
    NotHex,
}

// By hand, since clauses name the error that `?` gives, and a derived `From` states none.
impl From<AllocError> for HexError {
    ghost from_gives = { λ _ r. r ≡ OutOfMemory };

    fn from(_e: AllocError) -> HexError {
        HexError::OutOfMemory
    }
}

impl<T: Drop> From<AllocFailed<T>> for HexError {
    ghost from_gives = { λ _ r. r ≡ OutOfMemory };

    fn from(_e: AllocFailed<T>) -> HexError {
        HexError::OutOfMemory
    }
}

impl From<FromHexError> for HexError {
    ghost from_gives = { λ e r. r ≡ from_library e };

    fn from(e: FromHexError) -> HexError {
        match e {
            FromHexError::OutOfMemory => HexError::OutOfMemory,
            _ => HexError::NotHex,
        }
    }
}

/// Whether a line asks nothing: it is empty, or begins with `#`, of code 35.
pub fn is_comment(line: &str) -> bool
    ensures { result ≡ (length line.now == 0 || slice_index line.now 0 == 35) }
{
    line.is_empty() || line.starts_with('#')
}

// Whether a few bytes are hexadecimal digits and nothing else. Each is looked at, which goes many at a time.
#[tactic(auto, using(std::proofs::lemmas::List::Folds::list_all_more))]
fn are_digits(text: &[u8]) -> bool
    ensures { result ≡ list_all is_ascii_hexdigit text.now }
{
    let mut all = true;
    for digit in text {
        all &= digit.is_ascii_hexdigit();
    }
    all
}

// Whether bytes are hexadecimal digits and nothing else. Part by part, so that it ends soon where they are not.
#[tactic(auto, using(crate::proofs::HexLaws::digits_parted))]
fn is_digits(text: &[u8]) -> bool
    ensures { result ≡ list_all is_ascii_hexdigit text.now }
{
    let mut rest = text;
    while rest.len() > 64 {
        let (part, more) = rest.split_at(64);
        if !are_digits(part) {
            return false;
        }
        rest = more;
    }
    are_digits(rest)
}

/// The bytes that a text of hexadecimal pairs writes.
#[tactic(auto, using(crate::proofs::HexLaws::decoded, crate::proofs::HexLaws::decoded_text, crate::proofs::HexLaws::even_text, crate::proofs::HexLaws::not_digits, crate::proofs::HexLaws::odd_none, crate::proofs::HexLaws::odd_digits, crate::proofs::HexLaws::text_digits))]
pub fn parse_hex(heap: Global, text: &str) -> Result<Vec<u8>, HexError>
    ensures value { MatchResult result (λ v. hex_bytes text.now ≡ Some v.items) (λ e. (e ≡ NotHex → hex_bytes text.now ≡ None)) }
    ensures back { (bs : List ℕ) → Small bs → text.now ≡ hex_text bs → MatchResult result (λ v. v.items ≡ bs) (λ e. e ≡ OutOfMemory) }
    ensures refused { hex_bytes text.now ≡ None → result ≡ Err NotHex }
{
    // The library takes memory before it looks at a digit; a text that is no hex is refused whatever memory there is.
    if text.len() % 2 != 0 || !is_digits(text.as_bytes()) {
        return Err(HexError::NotHex);
    }
    Ok(hex::decode(heap, text)?)
}

/// Bytes that print as hexadecimal pairs.
#[derive(Clone, Copy)]
pub struct Hex<'a>(pub &'a [u8]);

impl fmt::Display for Hex<'_> {
    ghost output = { λ h. Some (hex_text h.0.now) };

    #[tactic(auto, using(std::proofs::lemmas::Grind::put_two, crate::proofs::HexLaws::text_more))]
    fn fmt<W: fmt::Write>(&self, f: &mut fmt::Formatter<W>) -> fmt::Result {
        for &byte in self.0 {
            write!(f, "{byte:02x}")?;
        }
        Ok(())
    }
}
