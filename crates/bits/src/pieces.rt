// Numbers scattered over the pieces of a word.
ghost use Rattle.std.specs.Prelude.{◌≡◌, ◌+◌, ◌^◌, ◌<◌, ◌≤◌, pos, negsuc, ◌≤ℤ◌};
ghost use Rattle.std.specs.List.{All};
ghost use Rattle.bits.specs.Fields.{WithinWord, get, put, scatter, gather};
ghost use Rattle.bits.specs.Words.{signed};

use crate::fields::{get_field, put_field};

/// A part of a scattered number: the `wide` bits from bit `from` of the number stand at bit `at` of the word.
#[derive(Clone, Copy, PartialEq, Eq, Debug)]
pub struct Piece {
    pub at: u32,
    pub wide: u32,
    pub from: u32,
}

/// The word with a piece of a number in its place.
pub fn copy_piece(code: u32, piece: Piece, number: u32) -> u32
    requires place_in { piece.at + piece.wide ≤ 32 }
    requires source_in { piece.from + piece.wide ≤ 32 }
    ensures { result ≡ put piece.at piece.wide code (get piece.from piece.wide number) }
{
    put_field(
        code,
        piece.at,
        piece.wide,
        get_field(number, piece.from, piece.wide),
    )
}

// The word with the pieces of a number.
pub fn scattered(pieces: &[Piece], code: u32, number: u32) -> u32
    requires { All WithinWord pieces.now }
    ensures { result ≡ scatter pieces.now code number }
{
    // A loop: by a fold it was not shown that each piece may be copied.
    let mut code = code;
    for piece in pieces.iter().rev() {
        code = copy_piece(code, *piece, number);
    }
    code
}

// The number whose pieces stand in a word.
pub fn gathered(pieces: &[Piece], code: u32) -> u32
    requires within_word { All WithinWord pieces.now }
    requires number_fits { gather pieces.now code < 2 ^ 32 }
    ensures { result ≡ gather pieces.now code }
{
    // A loop: by a sum it was not shown that each piece may be read.
    let mut number = 0;
    for piece in pieces {
        number += ((get_field(code, piece.at, piece.wide) as u64) << piece.from) as u32;
    }
    number
}

/// A number of `high` + 1 bits, read as two's complement.
pub fn sign_extend(value: u32, high: u32) -> i64
    requires high_bound { high < 32 }
    requires value_fits { value < 2 ^ (high + 1) }
    ensures value { result ≡ signed high value }
    ensures up { result ≤ℤ pos 2147483647 }
    ensures down { negsuc 2147483647 ≤ℤ result }
{
    let half = 1u64 << high;
    let value = value as u64;
    if value < half {
        value as i64
    } else {
        -((2 * half - value) as i64)
    }
}
