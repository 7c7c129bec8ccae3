//! Words of code and the fields of their bits.
//!
//! A code word is up to four bytes, little-endian, and bit 0 is its lowest. A field is `width` bits from bit `lo`;
//! a scattered field is a list of such pieces, each with the bits of the number that it holds. The definitions in
//! `specs/` say this by quotients and remainders; the functions here do it by shifts and masks, and are proved
//! equal. A `Format` says where a displacement stands in a word, and the one law of formats is that what is read after
//! a patch is the displacement.
#![tactic(auto)]

mod fields;
mod formats;
mod pieces;
mod words;

pub use fields::{flip_bit, get_field, put_field};
pub use formats::Format;
pub use pieces::{Piece, copy_piece, sign_extend};
pub use words::{low_bits, read_word, write_word};
